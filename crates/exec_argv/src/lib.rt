// The arguments of replace, as r9's copy_argv in exec.rs reads them from user memory: from the null-terminated array of pointers at
// a user address (module pointers), in reading order: pointer, string, limit, next (module copy_arg). They are strings with their NULs, one
// behind the other, where the Rust has `Vec<Vec<u8>>`.

#![tactic(auto)]

mod copy_arg;
mod pointers;

ghost use Rattle.std.specs.Prelude.{◌≡◌, ◌*◌, ◌≤◌, length};
ghost use Rattle.spec.specs.Numbers.{arg_limit};
ghost use Rattle.spec.specs.Book.{frame_count};
ghost use Rattle.spec.specs.Frames.{mem_of, store};
ghost use Rattle.spec.specs.Exec.{copy_argv};
ghost use Rattle.exec_argv.specs.Reading.{Reads};

use crate::copy_arg::copy_arg;
use crate::pointers::{pointer_addr, read_pointer};
use uaccess::UserPages;

// Strings with their NULs, one behind the other: `count` of them in the first `used` bytes of a lent buffer.
#[derive(Clone, Copy, Debug, PartialEq, Eq)]
pub struct Strings {
    pub used: usize,
    pub count: usize,
}

// Why arguments are refused: a bad address, 35, or more than the limit, 33.
#[derive(Clone, Copy, Debug, PartialEq, Eq)]
pub enum ArgvError {
    Bad(u64),
    Over,
}

// The strings that the null-terminated array of pointers at user address `argv` points to, copied in, stopping with 33 as soon as
// they won't fit on the new stack. A bad address, 35, ends the process, once the caller says so. Where it is refused, the buffer is zeros.
pub fn copy_argv(
    pages: &UserPages,
    frames: &[u8],
    argv: u64,
    buf: &mut [u8],
) -> Result<Strings, ArgvError>
    requires frames_len { length frames.now ≡ 4096 * frame_count pages.now.book.now }
    requires in_bounds { arg_limit pages.now.setup ≤ length buf.old }
    ensures { Reads (copy_argv pages.now.setup (mem_of (store frames.now pages.now.book.now) pages.now.number) argv) buf.old result buf.new }
{
    let mut used = 0;
    let mut count = 0;
    // A `loop`: how many pointers there are, only the null behind them tells.
    loop {
        let s = match read_pointer(pages, frames, pointer_addr(argv, count)) {
            Ok(Some(s)) => s,
            Ok(None) => return Ok(Strings { used, count }),
            Err(address) => {
                buf.fill(0);
                return Err(ArgvError::Bad(address));
            }
        };
        let size = copy_arg(pages, frames, s, buf, used, count)?;
        used += size + 1;
        count += 1;
    }
}
