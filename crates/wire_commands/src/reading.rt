//! The request of one line.
//!
//! A bad line has the first reason that holds. So the words of a line are counted before any is
//! read, and all of them are numbers before any is too great. Where the numbers stand as they are
//! mostly written, they are read in one pass before that.
ghost use Rattle.std.specs.Prelude.{◌≡◌, ◌≤◌, [], ◌∷◌, length, MatchResult, IfOk};
ghost use Rattle.wire_commands.specs.Grammar.{Reads, DropsReturn, IsRequest, longest, limits_of};
ghost use Rattle.wire_commands.specs.Arguments.{HasNumbers, LacksNumbers, Completes};
ghost use Rattle.wire_commands.specs.declared.request.Request.{Request};

use crate::forms::{Form, form_of};
use crate::numbers::{first_number, is_number, value_within};
use crate::request::{Reason, Request, Value};
use crate::words::{first_word, has_no_word, only_word, two_words};

/// The most bytes that a line may have.
const LONGEST: usize = 80;

/// Reads one line, which is given without its newline. One carriage return at its end is dropped.
pub fn read_line(line: &[u8]) -> Request
    ensures reads { Reads line.now result }
    // Each line reads as one request only.
    ensures only { (request : Request) → Reads line.now request → request ≡ result }
{
    match read_counted(without_return(line)) {
        Ok(request) => request,
        Err(reason) => Request::Bad(reason),
    }
}

/// The line without one carriage return at its end.
pub fn without_return(line: &[u8]) -> &[u8]
    ensures { DropsReturn line.now result.now }
{
    line.strip_suffix(b"\r").unwrap_or(line)
}

/// Reads a line of which each byte counts.
fn read_counted(line: &[u8]) -> Result<Request, Reason>
    ensures { MatchResult result (IsRequest line.now)
        (λ reason. IsRequest line.now (Request.Bad reason)) }
{
    if line.len() > LONGEST {
        return Err(Reason::Long);
    }
    read_words(line)
}

/// Reads a line that is not too long.
fn read_words(line: &[u8]) -> Result<Request, Reason>
    requires { length line.now ≤ longest }
    ensures { MatchResult result (IsRequest line.now)
        (λ reason. IsRequest line.now (Request.Bad reason)) }
{
    let Some((keyword, rest)) = first_word(line) else {
        return Err(Reason::Empty);
    };
    let Some(form) = form_of(keyword) else {
        return Err(Reason::Word);
    };
    read_numbers(form, rest)
}

/// Reads what follows a form's keyword.
fn read_numbers(form: Form, rest: &[u8]) -> Result<Request, Reason>
    ensures { MatchResult result (Completes form rest.now)
        (LacksNumbers rest.now (limits_of form)) }
{
    match form {
        Form::Get => {
            let key = one_number(rest, u64::MAX)?;
            Ok(Request::Get { key })
        }
        Form::Put => {
            let (key, value) = two_numbers(rest, u64::MAX, Value::MAX)?;
            Ok(Request::Put { key, value })
        }
        Form::Remove => {
            let key = one_number(rest, u64::MAX)?;
            Ok(Request::Remove { key })
        }
        Form::Quit => {
            no_number(rest)?;
            Ok(Request::Quit)
        }
    }
}

/// Reads the rest of a line that has no number.
fn no_number(line: &[u8]) -> Result<(), Reason>
    ensures { MatchResult result (λ _. HasNumbers line.now [] []) (LacksNumbers line.now []) }
{
    if has_no_word(line) {
        Ok(())
    } else {
        Err(Reason::Count)
    }
}

/// Reads the rest of a line that has one number, at most the limit.
fn one_number(line: &[u8], limit: u64) -> Result<u64, Reason>
    ensures { MatchResult result (λ number. HasNumbers line.now (limit ∷ []) (number ∷ []))
        (LacksNumbers line.now (limit ∷ [])) }
{
    if let Some((number, rest)) = first_number(line)
        && number <= limit
        && has_no_word(rest)
    {
        return Ok(number);
    }
    by_one_word(line, limit)
}

/// Reads a rest with one number by its word, or tells why it has none.
fn by_one_word(line: &[u8], limit: u64) -> Result<u64, Reason>
    ensures { MatchResult result (λ number. HasNumbers line.now (limit ∷ []) (number ∷ []))
        (LacksNumbers line.now (limit ∷ [])) }
{
    let Some(word) = only_word(line) else {
        return Err(Reason::Count);
    };
    if !is_number(word) {
        return Err(Reason::Number);
    }
    value_within(word, limit).ok_or(Reason::Range)
}

/// Reads the rest of a line that has two numbers, each at most its limit.
fn two_numbers(line: &[u8], first_limit: u64, second_limit: u64) -> Result<(u64, u64), Reason>
    ensures within { IfOk result (λ both. (both.0 ≤ first_limit) × (both.1 ≤ second_limit)) }
    ensures numbers { MatchResult result
        (λ both. HasNumbers line.now (first_limit ∷ second_limit ∷ []) (both.0 ∷ both.1 ∷ []))
        (LacksNumbers line.now (first_limit ∷ second_limit ∷ [])) }
{
    if let Some((first, more)) = first_number(line)
        && let Some((second, rest)) = first_number(more)
        && first <= first_limit
        && second <= second_limit
        && has_no_word(rest)
    {
        return Ok((first, second));
    }
    by_two_words(line, first_limit, second_limit)
}

/// Reads a rest with two numbers by its words, or tells why it has none.
fn by_two_words(line: &[u8], first_limit: u64, second_limit: u64) -> Result<(u64, u64), Reason>
    ensures within { IfOk result (λ both. (both.0 ≤ first_limit) × (both.1 ≤ second_limit)) }
    ensures numbers { MatchResult result
        (λ both. HasNumbers line.now (first_limit ∷ second_limit ∷ []) (both.0 ∷ both.1 ∷ []))
        (LacksNumbers line.now (first_limit ∷ second_limit ∷ [])) }
{
    let Some((first, second)) = two_words(line) else {
        return Err(Reason::Count);
    };
    if !is_number(first) || !is_number(second) {
        return Err(Reason::Number);
    }
    value_within(first, first_limit)
        .zip(value_within(second, second_limit))
        .ok_or(Reason::Range)
}
