//! The sizes of an index, and the rules that they must keep before a table is laid out.
//!
//! A rule has a number, and a refusal names the first rule that is broken.
ghost use Rattle.std.specs.Prelude.{◌≡◌, ◌↔◌, [], IsOk, IfOk, IfErr, IfSome, IfNone, position, not};
ghost use Rattle.word_layout.specs.Limits.{KeepsRules, KeepsRulesIn, IsFirstBroken, IsFirstBrokenIn};
ghost use Rattle.word_layout.specs.Limits.{is_within, rules_in, word_count};
ghost use Rattle.word_layout.specs.Parts.{AreBounds, part_count};
ghost use Rattle.word_layout.specs.Shape.{shape};

use crate::layout::Layout;
use crate::parts::Parts;
use crate::state::LAST_VERSION;
use std::error::Error;
use std::fmt;

/// The sizes of a table, and the counts by which a keeper works.
#[derive(Clone, Copy, Debug, PartialEq, Eq)]
pub struct Limits {
    /// Rule 1: how many threads call at once, 1 to 64.
    pub callers: u32,
    /// Rule 2: the record rows of all buffers together, 2 to 16,777,216.
    pub records: u32,
    /// Rule 3: the group rows of each part, 2 to 65,536.
    pub groups: u32,
    /// Rule 4: the places of a group's array, 8 to 1,024.
    pub group_size: u32,
    /// Rule 5: the slots of each side of each part's root, 1 to 4,096.
    pub slots: u32,
    /// Rule 6: the rows of a buffer from which on its group is rebuilt, 1 to `group_size`.
    pub due: u32,
    /// Rule 7: the calls between two helping turns, 1 to 1,048,576.
    pub help: u32,
    /// Rule 8: the installs from which on a new root is built, 1 to 4,096.
    pub chain: u32,
    /// Rule 9: the version of a new record, 0 to 1,152,921,504,606,846,975.
    pub first_version: u64,
}

/// The first rule that limits break. Rule 10 is that the table has at most 268,435,456 words.
#[derive(Clone, Copy, Debug, PartialEq, Eq)]
pub struct BadLimit {
    pub number: u32,
}

impl fmt::Display for BadLimit {
    fn fmt<W: fmt::Write>(&self, f: &mut fmt::Formatter<W>) -> fmt::Result {
        write!(f, "the limits break rule {}", self.number)
    }
}

impl Error for BadLimit {}

impl Limits {
    ghost use Rattle.word_layout.specs.Layout.{limits_of, bounds_of};

    /// The limits that an index has where none are named. Their table has 531,462 words.
    pub fn standard() -> Limits
        ensures kept { KeepsRules result }
        ensures value { result ≡ record {
          callers = 4;
          records = 65536;
          groups = 256;
          group_size = 256;
          slots = 256;
          due = 64;
          help = 64;
          chain = 16;
          first_version = 0;
        } }
    {
        Limits {
            callers: 4,
            records: 65536,
            groups: 256,
            group_size: 256,
            slots: 256,
            due: 64,
            help: 64,
            chain: 16,
            first_version: 0,
        }
    }

    /// Where the words of a table with these limits and one part stand.
    pub fn layout(&self) -> Result<Layout, BadLimit>
        ensures accepts { IsOk result ↔ KeepsRules self.now }
        ensures limits { IfOk result (λ layout. limits_of layout ≡ self.now) }
        ensures parts { IfOk result (λ layout. bounds_of layout ≡ []) }
        ensures refuses { IfErr result (λ bad. IsFirstBroken self.now bad.number) }
    {
        self.layout_in(Parts::whole())
    }

    /// Where the words of a table with these limits and parts stand.
    pub fn layout_in(&self, parts: Parts) -> Result<Layout, BadLimit>
        ensures accepts { IsOk result ↔ KeepsRulesIn (shape self.now parts) }
        ensures limits { IfOk result (λ layout. limits_of layout ≡ self.now) }
        ensures parts { IfOk result (λ layout. bounds_of layout ≡ parts) }
        ensures refuses { IfErr result (λ bad. IsFirstBrokenIn (shape self.now parts) bad.number) }
    {
        match self.first_broken_rule(&parts) {
            Some(number) => Err(BadLimit { number }),
            None => Ok(Layout::new(*self, parts)),
        }
    }

    /// The number of the first rule that is broken.
    fn first_broken_rule(&self, parts: &Parts) -> Option<u32>
        ensures broken { IfSome result (IsFirstBrokenIn (shape self.now parts.now)) }
        ensures all_kept { IfNone result (KeepsRulesIn (shape self.now parts.now)) }
    {
        let at = first_false(&self.rules(parts))?;
        Some(at as u32 + 1)
    }

    // Whether each rule is kept, in the order of their numbers.
    fn rules(&self, parts: &Parts) -> [bool; 10]
        ensures { result ≡ rules_in (shape self.now parts.now) }
    {
        [
            is_within(1, self.callers, 64),
            is_within(2, self.records, 16777216),
            is_within(2, self.groups, 65536),
            is_within(8, self.group_size, 1024),
            is_within(1, self.slots, 4096),
            is_within(1, self.due, self.group_size),
            is_within(1, self.help, 1048576),
            is_within(1, self.chain, 4096),
            self.first_version <= LAST_VERSION,
            self.word_count(parts) <= 268435456,
        ]
    }

    // The products do not fit 64 bits at the greatest numbers, which no rule has excluded yet.
    fn word_count(&self, parts: &Parts) -> u128
        ensures { result ≡ word_count (shape self.now parts.now) }
    {
        let parts = u128::from(parts.count());
        let group_words = 24 + 4 * u128::from(self.group_size);
        let slot_words = parts * (4 * u128::from(self.slots));
        let groups = parts * u128::from(self.groups);
        1 + parts
            + u128::from(self.callers)
            + slot_words
            + groups * group_words
            + 4 * u128::from(self.records)
    }
}

fn is_within(least: u32, value: u32, most: u32) -> bool
    ensures { result ≡ is_within least value most }
{
    least <= value && value <= most
}

fn first_false(tests: &[bool]) -> Option<usize>
    ensures { result ≡ position (λ test. not test) tests.now }
{
    tests.iter().position(|test| !*test)
}
