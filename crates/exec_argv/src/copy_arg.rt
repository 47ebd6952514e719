// One more argument of replace, as r9's copy_argv in exec.rs reads it: a string of user memory, put behind the strings so far with its
// NUL if it is within the limit with them.

ghost use Rattle.std.specs.Prelude.{◌≡◌, ◌*◌, ◌≤◌, ◌<◌, length};
ghost use Rattle.spec.specs.Numbers.{arg_limit};
ghost use Rattle.spec.specs.Book.{frame_count};
ghost use Rattle.spec.specs.Frames.{mem_of, store};
ghost use Rattle.spec.specs.Access.{copy_str};
ghost use Rattle.spec.specs.Exec.{arg_buffer, stack_size};
ghost use Rattle.exec_argv.specs.Strings.{Told, Added};

use crate::ArgvError;
use uaccess::{Unread, UserPages};

// Reads the string at user address `s` behind `used` bytes of `buf`, and tells what a copy into a buffer of the limit comes to. What
// is longer than the room there is read on over the bytes before it, since it is refused by then.
fn read_string(
    pages: &UserPages,
    frames: &[u8],
    s: u64,
    buf: &mut [u8],
    used: usize,
) -> Result<usize, Unread>
    requires frames_len { length frames.now ≡ 4096 * frame_count pages.now.book.now }
    requires in_bounds { (arg_limit pages.now.setup ≤ length buf.old) × (used < arg_limit pages.now.setup) }
    ensures { Told (arg_limit pages.now.setup) (copy_str pages.now.setup (mem_of (store frames.now pages.now.book.now) pages.now.number) (arg_buffer pages.now.setup) s) used buf.old result buf.new }
{
    let limit = (pages.setup.ustksize / 4) as usize;
    let room = limit - used;
    let n = pages.try_copy_str_from_user(frames, &mut buf[used..limit], s)?;
    if n < room {
        return Ok(n);
    }
    // The byte before could be read, so this can't overflow.
    let next = s + room as u64;
    match pages.try_copy_str_from_user(frames, &mut buf[..used], next) {
        Ok(rest) => Ok(room + rest),
        Err(e) => Err(Unread {
            address: e.address,
            size: room + e.size,
        }),
    }
}

// Reads the string at user address `s`, and puts it and its NUL behind `used` bytes of `count` strings if it is within the limit with
// them; its length. If it is refused, the buffer is zeros.
pub fn copy_arg(
    pages: &UserPages,
    frames: &[u8],
    s: u64,
    buf: &mut [u8],
    used: usize,
    count: usize,
) -> Result<usize, ArgvError>
    requires frames_len { length frames.now ≡ 4096 * frame_count pages.now.book.now }
    requires in_bounds { (arg_limit pages.now.setup ≤ length buf.old) × (stack_size used count ≤ arg_limit pages.now.setup) }
    ensures { Added pages.now.setup (copy_str pages.now.setup (mem_of (store frames.now pages.now.book.now) pages.now.number) (arg_buffer pages.now.setup) s) used count buf.old result buf.new }
{
    let limit = pages.setup.ustksize / 4;
    let n = match read_string(pages, frames, s, buf, used) {
        Ok(n) => n,
        Err(e) => {
            buf.fill(0);
            return Err(ArgvError::Bad(e.address));
        }
    };
    let strings = (used + n + 1) as u64;
    let nargs = (count + 1) as u64;
    if n as u64 == limit || exec_args::stack_size(strings, nargs) > limit {
        buf.fill(0);
        return Err(ArgvError::Over);
    }
    buf[used + n] = 0;
    Ok(n)
}
