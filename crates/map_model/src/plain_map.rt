//! The map as its definition has it: one sorted vector.
//!
//! All its room is taken at its making, so no call on it takes memory. A new key in the middle moves the pairs
//! behind it: that is its cost, and the reason why it is the definition and not the index.
ghost use Rattle.std.specs.Prelude.{◌≡◌, ◌≤◌, ◌↔◌, [], length, IfOk, IfErr, OnOk, OnErr, IsErr};
ghost use Rattle.map_model.specs.Map.{look, put, remove, first_from, IsRising, IsAt, IsGapFor};

use crate::{Answer, Answerer, Call, Near, Value};
use std::alloc::{AllocError, Global};
use std::error::Error;
use std::fmt;
use std::marker::Model;
use std::sync::Wait;

/// A put would have needed room for one more key.
#[derive(Clone, Copy, Debug, PartialEq, Eq)]
pub struct NoRoom;

impl fmt::Display for NoRoom {
    fn fmt<W: fmt::Write>(&self, f: &mut fmt::Formatter<W>) -> fmt::Result {
        write!(f, "the map has room for no more keys")
    }
}

impl Error for NoRoom {}

/// A map in a sorted vector. Contracts see its pairs, by rising keys, and how many it has room for.
#[derive(Debug, Drop)]
pub struct PlainMap {
    pairs: Vec<(u64, Value)>,
    room: usize,
}

impl Model for PlainMap {
    ghost use Rattle.std.specs.Prelude.{◌≤◌, vec_capacity};
    ghost use Rattle.map_model.specs.PlainMap.{BoundedMap, IsValid};

    ghost Value = { BoundedMap };

    ghost view = { λ m. record { pairs = m.pairs.items; room = m.room } };

    ghost invariant = { λ m. record {
      valid : IsValid (record { pairs = m.pairs.items; room = m.room });
      reserved : m.room ≤ vec_capacity m.pairs;
    } };
}

impl PlainMap {
    ghost use Rattle.map_model.specs.PlainMap.{IsValid, IsNext};

    /// An empty map with room for this many keys.
    pub fn with_room(alloc: Global, room: usize) -> Result<Self, AllocError>
        ensures { IfOk result (λ m. m ≡ record { pairs = []; room = room }) }
    {
        Ok(PlainMap {
            pairs: Vec::with_capacity(alloc, room)?,
            room,
        })
    }

    /// The value at the key.
    pub fn get(&self, key: u64) -> Option<Value>
        ensures value { result ≡ look self.now.pairs key }
        ensures valid { IsValid self.now }
    {
        value_at(&self.pairs, key)
    }

    /// Sets the value at the key, and tells the one that it replaced. A refusal leaves the map as it was.
    pub fn put(&mut self, key: u64, value: Value) -> Result<Option<Value>, NoRoom>
        ensures old { IfOk result (λ old. old ≡ look self.old.pairs key) }
        ensures pairs { OnOk result (self.new.pairs ≡ put self.old.pairs key value) }
        ensures valid { IsValid self.new }

        ensures refused { IsErr result
            ↔ ((look self.old.pairs key ≡ None) × (length self.old.pairs ≡ self.old.room)) }
        ensures err { OnErr result (self.new.pairs ≡ self.old.pairs) }
        ensures room { self.new.room ≡ self.old.room }
    {
        let place = place_of(&self.pairs, key);
        match place {
            Ok(at) => {
                let old = self.pairs[at].1;
                self.pairs[at] = (key, value);
                Ok(Some(old))
            }
            Err(_) if self.pairs.len() == self.room => Err(NoRoom),
            Err(at) => {
                // The room was reserved when the map was made.
                self.pairs.insert(at, (key, value)).unwrap();
                Ok(None)
            }
        }
    }

    /// Takes the key out, and tells its value where it had one.
    pub fn remove(&mut self, key: u64) -> Option<Value>
        ensures old { result ≡ look self.old.pairs key }
        ensures pairs { self.new.pairs ≡ remove self.old.pairs key }
        ensures valid { IsValid self.new }
        ensures room { self.new.room ≡ self.old.room }
    {
        match place_of(&self.pairs, key) {
            Ok(at) => Some(self.pairs.remove(at).1),
            Err(_) => None,
        }
    }

    /// The pair with the least key that is not below `from`.
    pub fn next_from(&self, from: u64) -> Near
        ensures next { IsNext self.now.pairs from result }
        ensures valid { IsValid self.now }
    {
        first_pair(&self.pairs, from).map_or(
            Near::Gap { hi: u64::MAX },
            |(key, value)| Near::Row { key, value },
        )
    }
}

impl Answerer for PlainMap {
    ghost use Rattle.map_model.specs.PlainMap.{Answers};
    ghost use Rattle.map_model.specs.Fitting.{answers-fit};

    ghost answers = { Answers };

    ghost fits = { answers-fit };

    fn ask<R: Wait + Copy>(&mut self, _rt: &R, call: Call) -> Answer {
        match call {
            Call::Get { key } => Answer::Value(self.get(key)),
            Call::Put { key, value } => match self.put(key, value) {
                Ok(old) => Answer::Old(old),
                Err(NoRoom) => Answer::Full,
            },
            Call::Remove { key } => Answer::Old(self.remove(key)),
            Call::Next { from } => Answer::Near(self.next_from(from)),
        }
    }
}

// Where the key stands, or where it would stand.
fn place_of(pairs: &[(u64, Value)], key: u64) -> Result<usize, usize>
    requires { IsRising pairs.now }
    ensures found { IfOk result (IsAt pairs.now key) }
    ensures absent { IfErr result (IsGapFor pairs.now key) }
{
    pairs.binary_search_by_key(&key, |&(k, _)| k)
}

fn value_at(pairs: &[(u64, Value)], key: u64) -> Option<Value>
    requires { IsRising pairs.now }
    ensures { result ≡ look pairs.now key }
{
    match place_of(pairs, key) {
        Ok(at) => Some(pairs[at].1),
        Err(_) => None,
    }
}

fn first_pair(pairs: &[(u64, Value)], from: u64) -> Option<(u64, Value)>
    requires { IsRising pairs.now }
    ensures { result ≡ first_from pairs.now from }
{
    let at = match place_of(pairs, from) {
        Ok(at) | Err(at) => at,
    };
    pairs.get(at).copied()
}
