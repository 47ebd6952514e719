// The bytes of arguments that go onto a stack, as r9's push_args makes them, put into a buffer: their strings, each with its NUL, and
// behind them the pointers to them with the null after them. Start, replace and push write each of the two to user memory at once.

ghost use Rattle.std.specs.Prelude.{◌≡◌, List, [], ◌∷◌, ◌++◌, ℕ, ◌+◌, ◌*◌, ◌^◌, ◌≤◌, ◌<◌, length, take};
ghost use Rattle.spec.specs.Tests.{sum};
ghost use Rattle.spec.specs.Numbers.{le_bytes};
ghost use Rattle.spec.specs.Frames.{put};
ghost use Rattle.spec.specs.Exec.{args_of, strings};
ghost use Rattle.exec_args.specs.Sizes.{pointers_by};
ghost use Rattle.exec_args.specs.Laid.{Standing, Laid};

// A buffer of this size holds the strings and the pointers of arguments that pass.
pub const BUFFER_SIZE: usize = spec::MAX_ARGS as usize;

// Puts the string `s` and its NUL into `buf` from place `at` on.
fn string_into(buf: &mut [u8], at: usize, s: &[u8])
    requires { at + length s.now < length buf.old }
    ensures { buf.new ≡ put buf.old at (s.now ++ 0 ∷ []) }
{
    let end = at + s.len();
    buf[at..end].copy_from_slice(s);
    buf[end] = 0;
}

// Puts the strings of arguments, each with its NUL, into `buf` from its start on, and tells their size.
fn strings_into(buf: &mut [u8], bytes: &[u8], lengths: &[u64]) -> usize
    requires { (sum lengths.now ≡ length bytes.now) × (length bytes.now + length lengths.now ≤ length buf.old) }
    ensures buf_after { buf.new ≡ put buf.old 0 (strings (args_of bytes.now lengths.now)) }
    ensures value { result ≡ length (strings (args_of bytes.now lengths.now)) }
{
    let mut at = 0;
    let mut rest = bytes;
    for n in lengths {
        let (s, behind) = rest.split_at(*n as usize);
        string_into(buf, at, s);
        at += s.len() + 1;
        rest = behind;
    }
    at
}

// Puts the pointer `p` into `buf` from place `at` on.
fn pointer_into(buf: &mut [u8], at: usize, p: u64)
    requires { at + 8 ≤ length buf.old }
    ensures { buf.new ≡ put buf.old at (le_bytes 8 p) }
{
    buf[at..at + 8].copy_from_slice(&p.to_le_bytes());
}

// Puts pointers to strings of these lengths, the first at address `first`, and the null after them into `buf` from its start on.
fn pointers_into(buf: &mut [u8], first: u64, lengths: &[u64])
    requires { (8 * (length lengths.now + 1) ≤ length buf.old) × (first + sum lengths.now + length lengths.now < 2 ^ 64) }
    ensures { buf.new ≡ put buf.old 0 (pointers_by first lengths.now) }
{
    let mut at = 0;
    let mut s = first;
    for n in lengths {
        pointer_into(buf, at, s);
        at += 8;
        s += *n + 1;
    }
    pointer_into(buf, at, 0);
}

// Puts arguments into `buf`: their strings, and behind them the pointers to them, for a push below `top`. Tells the strings' size.
pub fn args_into(buf: &mut [u8], top: u64, bytes: &[u8], lengths: &[u64]) -> usize
    requires { (sum lengths.now ≡ length bytes.now) × (length bytes.now + length lengths.now + 8 * (length lengths.now + 1) ≤ length buf.old) × (length bytes.now + length lengths.now ≤ top) }
    ensures { Laid top (args_of bytes.now lengths.now) result buf.new }
{
    let size = strings_into(buf, bytes, lengths);
    pointers_into(&mut buf[size..], top - (size as u64), lengths);
    size
}

// Puts the pointers to the `count` strings that stand in the first `size` bytes of `buf`, each with its NUL, behind them, for a push
// below `top`. A string's address is found by going past the NUL of the one before.
pub fn pointers_behind(buf: &mut [u8], top: u64, size: usize, count: usize)
    requires by_index { (args : List (List ℕ)) × Standing args (take size buf.old) count }
    requires count_in_bounds { (size + 8 * (count + 1) ≤ length buf.old) × (size ≤ top) }
    ensures { (args : List (List ℕ)) → Standing args (take size buf.old) count → Laid top args size buf.new }
{
    let first = top - (size as u64);
    let mut from = 0;
    for i in 0..count {
        pointer_into(buf, size + 8 * i, first + (from as u64));
        from += kstr::to_nul(&buf[from..size]) + 1;
    }
    pointer_into(buf, size + 8 * count, 0);
}
