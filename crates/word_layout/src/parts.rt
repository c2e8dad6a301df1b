//! How the space of keys is cut into parts, by bounds that stay.
//!
//! Part 0 begins at key 0 and each other part at a bound, so there is one part more than bounds.
ghost use Rattle.std.specs.Prelude.{◌≡◌, ◌↔◌, ◌+◌, ◌<◌, ◌≤◌, [], ◌∷◌, ◌++◌, length, IsOk, IfOk, IfErr};
ghost use Rattle.word_layout.specs.Parts.{AreBounds, IsFirstBadBound, most_bounds};
ghost use Rattle.word_layout.specs.Parts.{part_count, part_with, HasKeyAlone};
ghost use Rattle.word_layout.specs.Parts.{first_key_of, last_key_of, AreEven};

use std::error::Error;
use std::fmt;
use std::marker::Model;

// The most bounds, which make 16 parts.
const MOST_BOUNDS: usize = 15;

/// The parts of the space of keys. They count from 0, by rising keys.
#[derive(Clone, Copy, Debug, PartialEq, Eq)]
pub struct Parts {
    // Zeros stand behind the bounds, so that equal bounds make equal parts.
    bounds: [u64; MOST_BOUNDS],
    len: u32,
}

impl Model for Parts {
    ghost use Rattle.std.specs.Prelude.{ℕ, List};

    ghost Value = { List ℕ };

    ghost use Rattle.word_layout.specs.BoundArrays.{kept_bounds, array_of, KeepsBounds};
    ghost use Rattle.word_layout.specs.BoundArrays.{array_of-kept_bounds};

    ghost view = { kept_bounds };

    ghost invariant = { KeepsBounds };

    ghost inverse = { array_of };

    ghost inverse_ok = { array_of-kept_bounds };
}

/// The position, from 0, of the first bound that is 0, not above the one before it, or the
/// sixteenth.
#[derive(Clone, Copy, Debug, PartialEq, Eq)]
pub struct BadBound {
    pub at: usize,
}

impl fmt::Display for BadBound {
    fn fmt<W: fmt::Write>(&self, f: &mut fmt::Formatter<W>) -> fmt::Result {
        write!(
            f,
            "the bound at position {} is 0, not above the one before it, or one too many",
            self.at
        )
    }
}

impl Error for BadBound {}

impl Parts {
    /// One part, which has all keys.
    pub fn whole() -> Parts
        ensures { result ≡ [] }
    {
        Parts {
            bounds: [0; MOST_BOUNDS],
            len: 0,
        }
    }

    /// The parts that begin at key 0 and at each of these bounds, of which there are at most 15.
    pub fn of(bounds: &[u64]) -> Result<Parts, BadBound>
        ensures accepts { IsOk result ↔ AreBounds bounds.now }
        ensures bounds { IfOk result (λ parts. parts ≡ bounds.now) }
        ensures refuses { IfErr result (λ bad. IsFirstBadBound bounds.now bad.at) }
    {
        let mut parts = Parts::whole();
        for (at, &bound) in bounds.iter().enumerate() {
            if at == MOST_BOUNDS || bound <= parts.last_bound() {
                return Err(BadBound { at });
            }
            parts.push(bound);
        }
        Ok(parts)
    }

    /// So many parts, 1 to 16, of as many keys each. The last one also has the keys that are left
    /// over.
    pub fn even(parts: u32) -> Parts
        requires some { 1 ≤ parts }
        requires few { parts ≤ 16 }
        ensures bounds { AreBounds result }
        ensures even { AreEven parts result }
    {
        // The share of a lone part is all keys, of which there are more than a u64 can count.
        let share = (1 << 64) / u128::from(parts);
        let mut even = Parts::whole();
        for part in 1..parts {
            even.push((u128::from(part) * share) as u64);
        }
        even
    }

    /// How many parts there are: 1 to 16.
    #[inline]
    pub fn count(&self) -> u32
        ensures count { result ≡ part_count self.now }
        ensures bounds { AreBounds self.now }
    {
        self.len + 1
    }

    /// The part that has a key.
    #[inline]
    pub fn part_of(&self, key: u64) -> u32
        ensures part { result ≡ part_with self.now key }
        ensures alone { HasKeyAlone self.now result key }
    {
        let bounds = &self.bounds[..self.len as usize];
        bounds.iter().filter(|bound| **bound <= key).count() as u32
    }

    /// The least key of a part.
    #[inline]
    pub fn first_key(&self, part: u32) -> u64
        requires { part < part_count self.now }
        ensures { result ≡ first_key_of self.now part }
    {
        match part {
            0 => 0,
            _ => self.bounds[part as usize - 1],
        }
    }

    /// The greatest key of a part.
    #[inline]
    pub fn last_key(&self, part: u32) -> u64
        requires { part < part_count self.now }
        ensures key { result ≡ last_key_of self.now part }
        ensures some { first_key_of self.now part ≤ result }
        ensures joined { part + 1 < part_count self.now →
            first_key_of self.now (part + 1) ≡ result + 1 }
    {
        if part < self.len {
            self.bounds[part as usize] - 1
        } else {
            u64::MAX
        }
    }

    // What the next bound has to be above: the last one, or 0 where there is none.
    fn last_bound(&self) -> u64
        ensures last { result ≡ first_key_of self.now (length self.now) }
        ensures bounds { AreBounds self.now }
    {
        self.first_key(self.len)
    }

    fn push(&mut self, bound: u64)
        requires room { length self.old < most_bounds }
        requires above { first_key_of self.old (length self.old) < bound }
        ensures pushed { self.new ≡ self.old ++ bound ∷ [] }
        ensures bounds { AreBounds self.new }
    {
        self.bounds[self.len as usize] = bound;
        self.len += 1;
    }
}
