//! What is drawn for each operation.
//!
//! The words are drawn in the order of the operations over all callers. So they are drawn before any call is
//! written, and the calls are then written caller by caller.
ghost use Rattle.std.specs.Prelude.{◌≡◌, ◌<◌, ◌≤◌, ◌^◌, IfOk, length, ◌%◌};
ghost use Rattle.std.specs.List.{AllByRecursion};
ghost use Rattle.ycsb_mix.specs.Choice.{IsTable};
ghost use Rattle.ycsb_mix.specs.Draws.{kind_of, rank_draw, draw_of, next_draw, draws_of, generator_of};

use crate::choice::{choose, sums_of};
use crate::mixes::Mix;
use rand_core::utils::NextWord;
use rand_pcg::Lcg64Xsh32;
use std::alloc::{AllocError, Global};

/// What an operation does.
#[derive(Clone, Copy, Debug, PartialEq, Eq)]
pub(crate) enum Kind {
    /// Get a chosen key.
    Get,
    /// Put a chosen key.
    Put,
    /// Get a chosen key, and put it.
    GetThenPut,
    /// Get a key that the caller got late.
    GetLate,
    /// Put a new key.
    Insert,
    /// Scan from a chosen key on.
    Scan,
}

/// What is drawn for an operation.
#[derive(Clone, Copy, Debug, PartialEq, Eq)]
pub(crate) struct Draw {
    /// What it does.
    pub(crate) kind: Kind,
    /// The rank of its key; 0 where it draws none.
    pub(crate) rank: u32,
    /// How many pairs it scans; 0 where it scans none.
    pub(crate) count: u32,
}

/// The draws of all operations of a mix.
pub(crate) fn draw_all(
    alloc: Global,
    mix: Mix,
    load: u32,
    ops: u32,
    seed: u64,
) -> Result<Vec<Draw>, AllocError>
    requires some { 0 < load }
    requires few { load ≤ 2 ^ 20 }
    ensures draws { IfOk result
        (λ draws. draws.items ≡ draws_of mix load ops (generator_of seed)) }
    ensures within { IfOk result (λ draws. AllByRecursion (λ d. d.rank < load) draws.items) }
{
    let sums = sums_of(alloc, load)?;
    let mut words = Lcg64Xsh32::new(seed, 1);
    let mut draws = Vec::with_capacity(alloc, ops as usize)?;
    for _operation in 0..ops {
        let draw = draw_next(mix, &sums, &mut words);
        draws.push(draw)?;
    }
    Ok(draws)
}

/// The draw of the next operation.
fn draw_next(mix: Mix, sums: &[u64], words: &mut Lcg64Xsh32) -> Draw
    requires table { IsTable sums.now }
    requires some { 0 < length sums.now }
    requires few { length sums.now ≤ 2 ^ 20 }
    ensures draws { (result, words.new) ≡ next_draw mix (length sums.now) words.old }
    ensures within { result.rank < length sums.now }
{
    let kind = kind_of(mix, words.next_word() % 100);
    draw_more(kind, sums, words)
}

/// What an operation of this kind draws after its first word.
fn draw_more(kind: Kind, sums: &[u64], words: &mut Lcg64Xsh32) -> Draw
    requires table { IsTable sums.now }
    requires some { 0 < length sums.now }
    requires few { length sums.now ≤ 2 ^ 20 }
    ensures draws { (result, words.new) ≡ draw_of (length sums.now) kind words.old }
    ensures within { result.rank < length sums.now }
{
    match kind {
        Kind::Insert => Draw {
            kind,
            rank: 0,
            count: 0,
        },
        Kind::Scan => {
            let rank = draw_rank(sums, words);
            let count = 1 + words.next_word() % 100;
            Draw { kind, rank, count }
        }
        _ => {
            let rank = draw_rank(sums, words);
            Draw {
                kind,
                rank,
                count: 0,
            }
        }
    }
}

/// A rank that is chosen by the next two words.
fn draw_rank(sums: &[u64], words: &mut Lcg64Xsh32) -> u32
    requires table { IsTable sums.now }
    requires some { 0 < length sums.now }
    requires few { length sums.now ≤ 2 ^ 20 }
    ensures draws { (result, words.new) ≡ rank_draw (length sums.now) words.old }
    ensures within { result < length sums.now }
{
    let high = words.next_word();
    let low = words.next_word();
    choose(sums, high, low)
}

/// What an operation of a mix does, by its first word modulo 100.
fn kind_of(mix: Mix, x: u32) -> Kind
    ensures { result ≡ kind_of mix x }
{
    match mix {
        Mix::A => if x < 50 { Kind::Get } else { Kind::Put },
        Mix::B => if x < 95 { Kind::Get } else { Kind::Put },
        Mix::C => Kind::Get,
        Mix::D => if x < 95 { Kind::GetLate } else { Kind::Insert },
        Mix::E => if x < 95 { Kind::Scan } else { Kind::Insert },
        Mix::F => if x < 50 { Kind::Get } else { Kind::GetThenPut },
    }
}
