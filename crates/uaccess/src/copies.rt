// Bytes read from user memory and written to it, page by page: `copy_from_user` and `copy_to_user` of r9's uaccess.rs for a range that has
// been checked. Where r9 uses a user address directly, here its page's frame is read or written.

ghost use Rattle.std.specs.Prelude.{◌≡◌, true, false, ◌+◌, ◌-◌, ◌*◌, ◌%◌, ◌^◌, ◌≤◌, ◌<◌, min, length};
ghost use Rattle.spec.specs.Book.{frame_count};
ghost use Rattle.spec.specs.Frames.{mem_of, pokes, store};
ghost use Rattle.spec.specs.Access.{cell_ok, user_range_ok, bytes_at};

use crate::pages::UserPages;

// How many of `left` bytes from an address on lie in its page.
pub fn in_page(va: u64, left: usize) -> usize
    ensures { result ≡ min (4096 - va % 4096) left }
{
    let room = spec::PAGE_SIZE_4K - va % spec::PAGE_SIZE_4K;
    left.min(room as usize)
}

// The place in the frame bytes of an address whose page has frame `k`.
fn phys(k: usize, va: u64) -> mem::PhysAddr
    requires { 4096 * k + 4096 < 2 ^ 64 }
    ensures { result.0 ≡ 4096 * k + va % 4096 }
{
    pagealloc::frames::frame_addr(k).add(va % spec::PAGE_SIZE_4K)
}

impl UserPages<'_> {
    // The `n` bytes of the process from an address on, all in one page, which has been checked.
    #[tactic(auto, using(crate::proofs::Found::frame_there))]
    pub(crate) fn user_bytes<'a>(&self, frames: &'a [u8], va: u64, n: usize) -> &'a [u8]
        requires frames_len { length frames.now ≡ 4096 * frame_count self.now.book.now }
        requires n_bound { (va % 4096 + n ≤ 4096) × (cell_ok false (mem_of (store frames.now self.now.book.now) self.now.number va) ≡ true) }
        ensures { result.now ≡ bytes_at (mem_of (store frames.now self.now.book.now) self.now.number) va n }
    {
        let Some(k) = self.frame_at(va) else {
            return &[];
        };
        let at = phys(k, va).0 as usize;
        &frames[at..at + n]
    }

    // Copies the process's bytes from `addr` on into `buf`: `copy_from_user` of a range that has been checked.
    pub fn read_user(&self, frames: &[u8], addr: u64, buf: &mut [u8])
        requires frames_len { length frames.now ≡ 4096 * frame_count self.now.book.now }
        requires in_range { user_range_ok self.now.setup (mem_of (store frames.now self.now.book.now) self.now.number) false addr (length buf.old) ≡ true }
        ensures { buf.new ≡ bytes_at (mem_of (store frames.now self.now.book.now) self.now.number) addr (length buf.old) }
    {
        // A part ends where its page does, so no method of slices cuts the buffer so: `i` and its part's length say it plainly.
        let mut i = 0;
        while i < buf.len() {
            let va = addr + i as u64;
            let n = in_page(va, buf.len() - i);
            buf[i..i + n].copy_from_slice(self.user_bytes(frames, va, n));
            i += n;
        }
    }

    // Puts `bytes` at an address, all in one page, which has been checked for writing.
    #[tactic(auto, using(crate::proofs::Found::frame_there))]
    fn write_part(&self, frames: &mut [u8], va: u64, bytes: &[u8])
        requires frames_len { length frames.old ≡ 4096 * frame_count self.now.book.now }
        requires bytes_bound { (va % 4096 + length bytes.now ≤ 4096) × (cell_ok true (mem_of (store frames.old self.now.book.now) self.now.number va) ≡ true) }
        ensures { store frames.new self.now.book.now ≡ pokes (store frames.old self.now.book.now) self.now.number va bytes.now }
    {
        let Some(k) = self.frame_at(va) else {
            return;
        };
        pagealloc::frames::write_phys(frames, phys(k, va), bytes);
    }

    // Copies `bytes` to the process's memory from `addr` on: `copy_to_user` of a range that has been checked for writing.
    pub fn write_user(&self, frames: &mut [u8], addr: u64, bytes: &[u8])
        requires frames_len { length frames.old ≡ 4096 * frame_count self.now.book.now }
        requires in_range { user_range_ok self.now.setup (mem_of (store frames.old self.now.book.now) self.now.number) true addr (length bytes.now) ≡ true }
        ensures { store frames.new self.now.book.now ≡ pokes (store frames.old self.now.book.now) self.now.number addr bytes.now }
    {
        // Part by part, as above.
        let mut i = 0;
        while i < bytes.len() {
            let va = addr + i as u64;
            let n = in_page(va, bytes.len() - i);
            self.write_part(frames, va, &bytes[i..i + n]);
            i += n;
        }
    }
}
