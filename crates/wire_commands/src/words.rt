//! Where a line ends, and its words.
//!
//! A word is a longest run of bytes other than space and tab. Words are cut off the front, and
//! nothing is copied.
ghost use Rattle.std.specs.Prelude.{◌≡◌, ◌≢◌, ℕ, [], ◌∷◌, ◌<◌, ◌≤◌, ◌↔◌, length, slice_index, IsTrue, MatchOption};
ghost use Rattle.wire_commands.specs.Words.{IsBlank, EndsWord, HasWords, HasOtherCount, BeginsWith};

use memchr::memchr;

/// How many bytes stand before the first newline.
#[inline]
pub fn line_len(text: &[u8]) -> usize
    ensures within { result ≤ length text.now }
    ensures none { (k : ℕ) → k < result → slice_index text.now k ≢ 10 }
    ensures newline { result < length text.now → slice_index text.now result ≡ 10 }
{
    memchr(b'\n', text).unwrap_or(text.len())
}

/// Whether the byte stands between words.
#[inline]
fn is_blank(byte: u8) -> bool
    ensures { IsTrue result ↔ IsBlank byte }
{
    byte == b' ' || byte == b'\t'
}

/// Whether what stands behind a word ends it.
#[inline]
pub(crate) fn ends_word(rest: &[u8]) -> bool
    ensures { IsTrue result ↔ EndsWord rest.now }
{
    match rest {
        [byte, ..] => is_blank(*byte),
        [] => true,
    }
}

/// How many blanks stand at the front.
#[inline]
pub(crate) fn blanks_len(line: &[u8]) -> usize
    ensures within { result ≤ length line.now }
    ensures blank { (k : ℕ) → k < result → IsBlank (slice_index line.now k) }
    ensures first { result < length line.now → ¬ (IsBlank (slice_index line.now result)) }
{
    line.iter()
        .position(|&byte| !is_blank(byte))
        .unwrap_or(line.len())
}

/// How many bytes stand before the first blank.
fn word_len(line: &[u8]) -> usize
    ensures within { result ≤ length line.now }
    ensures none { (k : ℕ) → k < result → ¬ (IsBlank (slice_index line.now k)) }
    ensures blank { result < length line.now → IsBlank (slice_index line.now result) }
{
    line.iter()
        .position(|&byte| is_blank(byte))
        .unwrap_or(line.len())
}

/// The first word and what follows it, or `None` where the line has no word.
pub fn first_word(line: &[u8]) -> Option<(&[u8], &[u8])>
    ensures { MatchOption result (HasWords line.now [])
        (λ cut. BeginsWith line.now cut.0.now cut.1.now) }
{
    let (_, line) = line.split_at(blanks_len(line));
    if line.is_empty() {
        return None;
    }
    Some(line.split_at(word_len(line)))
}

/// Whether the line has no word.
pub fn has_no_word(line: &[u8]) -> bool
    ensures { IsTrue result ↔ HasWords line.now [] }
{
    line.iter().all(|&byte| is_blank(byte))
}

/// The line's word, where it has one word only.
pub fn only_word(line: &[u8]) -> Option<&[u8]>
    ensures { MatchOption result (HasOtherCount line.now 1)
        (λ word. HasWords line.now (word.now ∷ [])) }
{
    let (word, rest) = first_word(line)?;
    if has_no_word(rest) { Some(word) } else { None }
}

/// The line's two words, where it has two words only.
pub fn two_words(line: &[u8]) -> Option<(&[u8], &[u8])>
    ensures { MatchOption result (HasOtherCount line.now 2)
        (λ both. HasWords line.now (both.0.now ∷ both.1.now ∷ [])) }
{
    let (first, rest) = first_word(line)?;
    let second = only_word(rest)?;
    Some((first, second))
}
