// Arguments onto the stack of a living process, as `push_args` of r9's exec.rs: whether the process may write them, and the writing.
//
// The Rust copies string by string and pointer by pointer, and a bad address ends the process with some of them written. Here both
// ranges are checked before a byte is written, and each is written at once, from a buffer (crate exec_args); only where one of them does
// not pass, the copies are checked one by one for the address.

ghost use Rattle.std.specs.Prelude.{◌≡◌, List, [], ◌∷◌, ℕ, ◌+◌, ◌*◌, ◌%◌, ◌^◌, ◌<◌, length, Ok};
ghost use Rattle.spec.specs.Tests.{sum};
ghost use Rattle.spec.specs.Book.{frame_count};
ghost use Rattle.spec.specs.Frames.{mem_of, store};
ghost use Rattle.spec.specs.Exec.{args_of, args_error, registers, first_bad, push_access};
ghost use Rattle.spec.specs.World.{push_in};
ghost use Rattle.exec_args.specs.Sizes.{copies_by};
ghost use Rattle.exec_args.specs.Laid.{Laid};

use spec::UserRegs;
use uaccess::UserPages;

// Whether the process may write an argument of `n` bytes at `s`, its NUL, and its pointer at `p`, in this order.
fn arg_ok(pages: &UserPages, s: u64, n: u64, p: u64) -> Result<(), u64>
    requires { s + n < 2 ^ 64 }
    ensures { (frames : List ℕ) → result ≡ first_bad pages.now.setup (mem_of (store frames pages.now.book.now) pages.now.number) ((s, n) ∷ (s + n, 1) ∷ (p, 8) ∷ []) }
{
    pages.user_range_ok(s, n, true)?;
    pages.user_range_ok(s + n, 1, true)?;
    pages.user_range_ok(p, 8, true)
}

// Whether the process may write arguments of such lengths from `s` on, and their pointers from `p` on, copy by copy in the Rust's order:
// the first that it may not names the address.
fn copies_ok(pages: &UserPages, s: u64, p: u64, lengths: &[u64]) -> Result<(), u64>
    requires { (s + sum lengths.now + length lengths.now < 2 ^ 64) × (p + 8 * length lengths.now < 2 ^ 64) }
    ensures { (frames : List ℕ) → result ≡ first_bad pages.now.setup (mem_of (store frames pages.now.book.now) pages.now.number) (copies_by s p lengths.now) }
{
    let mut at = s;
    let mut pointer = p;
    for n in lengths {
        arg_ok(pages, at, *n, pointer)?;
        at += *n + 1;
        pointer += 8;
    }
    pages.user_range_ok(pointer, 8, true)
}

// Whether the process may write the strings and the pointers of arguments of such lengths below `top`, given their strings' size. Where
// each range passes as a whole, so does every copy.
pub fn push_ok(pages: &UserPages, top: u64, size: u64, lengths: &[u64]) -> Result<(), u64>
    requires { size ≡ sum lengths.now + length lengths.now }
    ensures { (frames bytes : List ℕ) → sum lengths.now ≡ length bytes → result ≡ push_access pages.now.setup (mem_of (store frames pages.now.book.now) pages.now.number) top (args_of bytes lengths.now) }
{
    let nargs = lengths.len() as u64;
    if exec_args::below_zero(top, size, nargs) {
        return Err(0);
    }
    // Of the registers only argv matters here.
    let regs = exec_args::registers(0, top, size, nargs);
    let argv = regs.argv;
    let s = top - size;
    if pages.user_range_ok(s, size, true).is_ok()
        && pages.user_range_ok(argv, 8 * (nargs + 1), true).is_ok()
    {
        return Ok(());
    }
    copies_ok(pages, s, argv, lengths)
}

// Writes arguments below `top`: the strings, which are the first `size` bytes of `buf`, and below them the pointers, which stand behind
// them in `buf`. The answer is the registers to start at `pc` with.
fn write_args(
    pages: &UserPages,
    frames: &mut [u8],
    pc: u64,
    top: u64,
    buf: &[u8],
    size: usize,
    nargs: usize,
) -> UserRegs
    requires frames_len { length frames.old ≡ 4096 * frame_count pages.now.book.now }
    requires by_index { (args : List (List ℕ)) × Laid top args size buf.now × (length args ≡ nargs) × (top % 16 ≡ 0) × ((f : List ℕ) → push_access pages.now.setup (mem_of (store f pages.now.book.now) pages.now.number) top args ≡ Ok tt) }
    ensures { (args : List (List ℕ)) → Laid top args size buf.now → length args ≡ nargs → (store frames.new pages.now.book.now ≡ push_in (store frames.old pages.now.book.now) pages.now.number top args) × (result ≡ registers pc top args) }
{
    let regs = exec_args::registers(pc, top, size as u64, nargs as u64);
    let end = size + 8 * (nargs + 1);
    pages.write_user(frames, top - size as u64, &buf[..size]);
    pages.write_user(frames, regs.argv, &buf[size..end]);
    regs
}

// Pushes arguments that have been checked below `top`: their strings, each with its NUL, then below them the pointers to them and a
// null, as `push_args`. The answer is the registers to start at `pc` with.
pub fn push_args(
    pages: &UserPages,
    frames: &mut [u8],
    pc: u64,
    top: u64,
    bytes: &[u8],
    lengths: &[u64],
) -> UserRegs
    requires frames_len { length frames.old ≡ 4096 * frame_count pages.now.book.now }
    requires checked { (sum lengths.now ≡ length bytes.now) × (args_error pages.now.setup (args_of bytes.now lengths.now) ≡ 0) × (top % 16 ≡ 0) × ((f : List ℕ) → push_access pages.now.setup (mem_of (store f pages.now.book.now) pages.now.number) top (args_of bytes.now lengths.now) ≡ Ok tt) }
    ensures book_after { store frames.new pages.now.book.now ≡ push_in (store frames.old pages.now.book.now) pages.now.number top (args_of bytes.now lengths.now) }
    ensures value { result ≡ registers pc top (args_of bytes.now lengths.now) }
{
    let mut buf = [0u8; exec_args::BUFFER_SIZE];
    let size = exec_args::args_into(&mut buf, top, bytes, lengths);
    write_args(pages, frames, pc, top, &buf, size, lengths.len())
}
