// A file's bytes, read to its end. A read that fails is told from the end of the file, so that no program takes the bytes before it for
// all. No contract can say which bytes a read gives or whether it fails: tests/streams tries that.

#![tactic(auto)]

ghost use Rattle.std.specs.Prelude.{◌≡◌, ◌≤◌, ◌⊎◌, ℕ, length, take, MatchResult};
ghost use Rattle.std.specs.Process.{exit_status};

use std::io;
use std::io::{Eprint, Print, Read};
use std::process::ExitCode;

// Why a read failed, and how many bytes were read before.
#[derive(Clone, Copy)]
pub struct ReadError {
    pub count: usize,
    pub why: io::Error,
}

// Reads to the end of the file, or until `dst` is full, and answers how many bytes there were.
pub fn read<R: Read>(file: &mut R, dst: &mut [u8]) -> Result<usize, ReadError>
    ensures { MatchResult result (λ n. n ≤ length dst.new) (λ e. e.count ≤ length dst.new) }
{
    let mut n = 0;
    // By `while`: how far a turn goes on, one read tells.
    while n < dst.len() {
        let more = match file.read(&mut dst[n..]) {
            Ok(more) => more,
            Err(why) => return Err(ReadError { count: n, why }),
        };
        if more == 0 {
            break;
        }
        n += more;
    }
    Ok(n)
}

// What a program does that prints a text of the file on standard input: the file is read to `bytes`, `text` puts its text into `out` and
// answers the text's length, and that is written. If reading or writing fails, a line on standard error says so, and the text isn't
// printed.
pub fn print_text<F: FnOnce(&[u8], &mut [u8]) -> usize>(
    rt: &(impl Print + Eprint),
    name: &str,
    file: &mut impl Read,
    bytes: &mut [u8],
    out: &mut [u8],
    text: F,
) -> ExitCode
    requires callable { F.IsAlwaysCallable text }
    requires within { (x : _) (y : _) (n : _) (z : _) → F.post text x y n z → n ≤ length z.now }
    ensures status { exit_status result ≤ 1 }
    // It failed and `out` is as it was, or `out` is what `text` left there, of the first bytes that `bytes` holds.
    ensures left { ((exit_status result ≡ 1) × (out.new ≡ out.old)) ⊎ ((n : ℕ) × (k : ℕ) × (x : _) × (y : _) × (z : _) × (x.now ≡ take n bytes.new) × (y.now ≡ out.old) × (z.now ≡ out.new) × F.post text x y k z) }
{
    let n = match read(file, bytes) {
        Ok(n) => n,
        Err(ReadError { why, .. }) => {
            let _ = eprintln!(rt; "{name}: standard input: {why}");
            return ExitCode::FAILURE;
        }
    };
    let k = text(&bytes[..n], out);
    if let Err(why) = rt.write_all(&out[..k]) {
        let _ = eprintln!(rt; "{name}: standard output: {why}");
        return ExitCode::FAILURE;
    }
    ExitCode::SUCCESS
}
