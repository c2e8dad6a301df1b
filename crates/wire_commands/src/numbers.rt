//! Numbers in decimal digits.
//!
//! A number may be of any length, and zeros may lead. So whether a word is a number and how great
//! it is are two questions.
ghost use Rattle.std.specs.Prelude.{◌≡◌, ◌≤◌, ◌↔◌, IsTrue, IfSome, length, take};
ghost use Rattle.std.specs.List.{AllByRecursion};
ghost use Rattle.std.specs.Option.{SomeIff};
ghost use Rattle.wire_commands.specs.Numbers.{BeginsWithNumber, IsDigit, IsNumber, value_of};

use crate::words::{blanks_len, ends_word};

/// Whether the word is a number: one ASCII digit or more.
pub fn is_number(word: &[u8]) -> bool
    ensures { IsTrue result ↔ IsNumber word.now }
{
    !word.is_empty() && word.iter().all(|byte| byte.is_ascii_digit())
}

/// The value of a number that is at most the limit.
pub fn value_within(number: &[u8], limit: u64) -> Option<u64>
    requires { IsNumber number.now }
    ensures { SomeIff result (value_of number.now ≤ limit) (value_of number.now) }
{
    let mut value: u64 = 0;
    for &digit in number {
        value = value.checked_mul(10)?.checked_add(u64::from(digit - b'0'))?;
    }
    if value <= limit { Some(value) } else { None }
}

/// The number that a line begins with, and what follows it, as they are mostly written. `None` says nothing of the
/// line.
#[inline]
pub(crate) fn first_number(line: &[u8]) -> Option<(u64, &[u8])>
    ensures { IfSome result (λ cut. BeginsWithNumber line.now cut.0 cut.1.now) }
{
    let (_, line) = line.split_at(blanks_len(line));
    let (value, len) = first_digits(line)?;
    let (_, rest) = line.split_at(len);
    if len == 0 || !ends_word(rest) {
        return None;
    }
    Some((value, rest))
}

/// The most digits that are a number of 64 bits whatever they are.
const SURE: usize = 19;

/// The value of the digits at the front, and how many they are: all of them, or one more than are sure to fit. `None`
/// says that these are too great.
#[inline]
fn first_digits(line: &[u8]) -> Option<(u64, usize)>
    ensures within { IfSome result (λ found. found.1 ≤ length line.now) }
    ensures digits { IfSome result (λ found. AllByRecursion IsDigit (take found.1 line.now)) }
    ensures value { IfSome result (λ found. found.0 ≡ value_of (take found.1 line.now)) }
{
    let (front, _) = line.split_at(line.len().min(SURE));
    let (value, len) = sure_digits(front);
    let (_, rest) = line.split_at(len);
    match rest {
        [digit, ..] if digit.is_ascii_digit() => {
            let value = value
                .checked_mul(10)?
                .checked_add(u64::from(*digit - b'0'))?;
            Some((value, len + 1))
        }
        _ => Some((value, len)),
    }
}

/// The value of the digits at the front of so few bytes, and how many they are.
#[inline]
fn sure_digits(front: &[u8]) -> (u64, usize)
    requires { length front.now ≤ 19 }
    ensures within { result.1 ≤ length front.now }
    ensures digits { AllByRecursion IsDigit (take result.1 front.now) }
    ensures value { result.0 ≡ value_of (take result.1 front.now) }
{
    let mut value: u64 = 0;
    for (index, &byte) in front.iter().enumerate() {
        if !byte.is_ascii_digit() {
            return (value, index);
        }
        value = value * 10 + u64::from(byte - b'0');
    }
    (value, front.len())
}
