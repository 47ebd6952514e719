// The null-terminated array of pointers at a user address, as r9's copy_argv in exec.rs reads it: where pointer i stands, and what
// stands there. An address past 64 bits stands nowhere, and is refused.

ghost use Rattle.std.specs.Prelude.{◌≡◌, ◌+◌, ◌*◌, ◌≤◌, length};
ghost use Rattle.spec.specs.Book.{frame_count};
ghost use Rattle.spec.specs.Frames.{mem_of, store};
ghost use Rattle.exec_args.specs.Sizes.{saturated};
ghost use Rattle.exec_argv.specs.Places.{pointer_at};

use uaccess::UserPages;

// The address of pointer `i` of the array at `argv`.
pub fn pointer_addr(argv: u64, i: usize) -> u64
    requires { i ≤ 2048 }
    ensures { result ≡ saturated (argv + 8 * i) }
{
    argv.saturating_add(8 * i as u64)
}

// The pointer at user address `at`, or none for the null behind the last; or the bad address, where it can't be read.
pub fn read_pointer(pages: &UserPages, frames: &[u8], at: u64) -> Result<Option<u64>, u64>
    requires { length frames.now ≡ 4096 * frame_count pages.now.book.now }
    ensures { result ≡ pointer_at pages.now.setup (mem_of (store frames.now pages.now.book.now) pages.now.number) at }
{
    pages.user_range_ok(at, 8, false)?;
    let mut p = [0u8; 8];
    pages.read_user(frames, at, &mut p);
    let s = u64::from_le_bytes(p);
    if s == 0 {
        return Ok(None);
    }
    Ok(Some(s))
}
