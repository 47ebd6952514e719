// Words of a line, separated by one space each, and the decimal numbers that they are.
ghost use Rattle.std.specs.Prelude.{◌≡◌, ◌==◌};
ghost use Rattle.std.specs.List.{position_or_len};
ghost use Rattle.replay_buffers.specs.Words.{end_of, word_at, next_of, place_of, spaces_in, number_of};

use crate::room::part;

// How many bytes stand before the first `b`, or in all.
fn before(bytes: &[u8], b: u8) -> usize
    ensures { result ≡ position_or_len (λ x. x == b) bytes.now }
{
    bytes.iter().take_while(|x| **x != b).count()
}

// Where the first `b` from place `at` on stands, or where the bytes end.
pub fn end(line: &[u8], at: usize, b: u8) -> usize
    ensures { result ≡ end_of b line.now at }
{
    at + before(part(line, at, line.len()), b)
}

// The word that starts at place `at`.
pub fn word_at(line: &[u8], at: usize) -> &[u8]
    ensures { result.now ≡ word_at line.now at }
{
    part(line, at, end(line, at, b' '))
}

// Where the word after the one at place `at` starts.
pub fn next(line: &[u8], at: usize) -> usize
    ensures { result ≡ next_of line.now at }
{
    end(line, at, b' ').wrapping_add(1)
}

// Where word k starts, counted from 0.
pub fn place(line: &[u8], k: usize) -> usize
    ensures { result ≡ place_of line.now k }
{
    let mut at = 0;
    for _ in 0..k {
        at = next(line, at);
    }
    at
}

// Word k, or no bytes where there is none.
pub fn word(line: &[u8], k: usize) -> &[u8]
    ensures { result.now ≡ word_at line.now (place_of line.now k) }
{
    word_at(line, place(line, k))
}

// How many spaces a line has: one less than its words.
pub fn spaces(line: &[u8]) -> usize
    ensures { result ≡ spaces_in line.now }
{
    line.iter().filter(|b| **b == b' ').count()
}

// A word as a number, decimal and at most 2^64 − 1: digits only, and at least one.
pub fn decimal(word: &[u8]) -> Option<u64>
    ensures { result ≡ number_of word.now }
{
    if word.is_empty() {
        return None;
    }
    let mut n: u64 = 0;
    for b in word {
        let d = char::from(*b).to_digit(10)?;
        n = n.checked_mul(10)?.checked_add(u64::from(d))?;
    }
    Some(n)
}
