// Bytes as a script writes them: pairs of hex digits, `-` for none, `'` and the bytes themselves, or `@` and a file's name.
ghost use Rattle.std.specs.Prelude.{◌≡◌, ◌++◌, min, length, take, drop};

use std::fmt::{Formatter, Write};
use std::rt::Files;
use std::{fmt, fs};

// Why a line is no call: it is none of those that there are, its file cannot be read, or one of the two has more bytes than it may have.
#[derive(Clone, Copy, Debug, PartialEq, Eq)]
pub enum Why {
    Bad,
    Missing,
    TooLarge(usize),
}

impl fmt::Display for Why {
    fn fmt<W: Write>(&self, f: &mut Formatter<W>) -> fmt::Result {
        match self {
            Why::Bad => write!(f, "bad line"),
            Why::Missing => write!(f, "no such file"),
            Why::TooLarge(most) => write!(f, "too large: at most {most} bytes"),
        }
    }
}

// The byte that two hex digits of either case give.
fn byte(high: u8, low: u8) -> Option<u8> {
    let high = char::from(high).to_digit(16)?;
    let low = char::from(low).to_digit(16)?;
    u8::try_from(high * 16 + low).ok()
}

// Puts the bytes that pairs of hex digits give.
fn pairs(dst: &mut [u8], word: &[u8]) -> Result<usize, Why> {
    let n = word.len() / 2;
    if word.len() % 2 != 0 || n == 0 {
        return Err(Why::Bad);
    }
    let room = dst.len();
    let lent = dst.get_mut(..n).ok_or(Why::TooLarge(room))?;
    for (b, pair) in lent.iter_mut().zip(word.chunks_exact(2)) {
        *b = byte(pair[0], pair[1]).ok_or(Why::Bad)?;
    }
    Ok(n)
}

// Puts bytes themselves, as many as there is room for, and answers how many these are.
pub fn put(dst: &mut [u8], bytes: &[u8]) -> usize
    ensures count { result ≡ min (length dst.old) (length bytes.now) }
    ensures put { dst.new ≡ take result bytes.now ++ drop result dst.old }
{
    let n = dst.len().min(bytes.len());
    dst[..n].copy_from_slice(&bytes[..n]);
    n
}

// Puts the bytes of the file at `path`. It must be shorter than `dst`.
fn file(rt: &impl Files, dst: &mut [u8], path: &[u8]) -> Result<usize, Why> {
    // The library opens no file whose name is not UTF-8.
    let name = std::str::from_utf8(path).map_err(|_| Why::Missing)?;
    let mut file = fs::open(rt, name).map_err(|_| Why::Missing)?;
    let n = files::read(&mut file, dst).map_err(|_| Why::Missing)?;
    if n < dst.len() {
        Ok(n)
    } else {
        Err(Why::TooLarge(dst.len().saturating_sub(1)))
    }
}

// Puts the bytes that a word gives at the start of `dst`, and answers how many these are.
pub fn take(rt: &impl Files, dst: &mut [u8], word: &[u8]) -> Result<usize, Why> {
    match word {
        [] => Err(Why::Bad),
        b"-" => Ok(0),
        [b'\'', bytes @ ..] => Ok(put(dst, bytes)),
        [b'@', path @ ..] => file(rt, dst, path),
        _ => pairs(dst, word),
    }
}
