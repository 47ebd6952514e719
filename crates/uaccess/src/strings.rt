// A string of user memory: `try_copy_str_from_user` of r9's uaccess.rs. In each page the bytes before a NUL are
// counted (crate kstr), and copied at once.

ghost use Rattle.std.specs.Prelude.{◌≡◌, ◌*◌, ◌++◌, length, take, drop};
ghost use Rattle.spec.specs.Book.{frame_count};
ghost use Rattle.spec.specs.Frames.{mem_of, store};
ghost use Rattle.spec.specs.Access.{copy_str};
ghost use Rattle.kstr.specs.Nul.{to_nul};
ghost use Rattle.uaccess.specs.Copied.{copied};

use crate::pages::UserPages;

// A byte that a string copy needs can't be read: its address, and how many bytes were copied before it.
#[derive(Clone, Copy, Debug, PartialEq, Eq)]
pub struct Unread {
    pub address: u64,
    pub size: usize,
}

// Copies `s` into `d` up to a NUL, which isn't stored, and counts what it copied.
fn copy_to_nul(d: &mut [u8], s: &[u8]) -> usize
    requires { length d.old ≡ length s.now }
    ensures { (result ≡ to_nul s.now) × (d.new ≡ take result s.now ++ drop result d.old) }
{
    let n = kstr::to_nul(s);
    d[..n].copy_from_slice(&s[..n]);
    n
}

impl UserPages<'_> {
    // Copies the NUL-terminated string at user address `src` into `dst`, without its NUL, as Linux's strncpy_from_user, and answers its
    // length, or `dst.len()` if there's no NUL within that many bytes. Each page is checked before it's read, so a string may end just
    // before an unmapped page. Where a byte that it needs can't be read, what it has copied stays.
    pub fn try_copy_str_from_user(
        &self,
        frames: &[u8],
        dst: &mut [u8],
        src: u64,
    ) -> Result<usize, Unread>
        requires frames_len { length frames.now ≡ 4096 * frame_count self.now.book.now }
        ensures { copied result dst.new ≡ copy_str self.now.setup (mem_of (store frames.now self.now.book.now) self.now.number) dst.old src }
    {
        // A part ends where its page does: see `read_user`.
        let mut n = 0;
        while n < dst.len() {
            // The first check puts src below UADDRTOP, so this can't overflow.
            let va = src + n as u64;
            self.user_range_ok(va, 1, false)
                .map_err(|address| Unread { address, size: n })?;
            let chunk = crate::copies::in_page(va, dst.len() - n);
            let s = self.user_bytes(frames, va, chunk);
            let k = copy_to_nul(&mut dst[n..n + chunk], s);
            n += k;
            if k < chunk {
                return Ok(n);
            }
        }
        Ok(n)
    }
}
