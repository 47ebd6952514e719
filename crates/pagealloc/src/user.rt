// A process's bytes written over, page by page. Callers have checked that the process has the pages: where uaccess.rs
// uses a user address directly, the book names the frame here.

ghost use Rattle.std.specs.Prelude.{◌≡◌, ◌+◌, ◌*◌, ◌^◌, ◌≤◌, ◌<◌, length};
ghost use Rattle.spec.specs.Numbers.{page_down};
ghost use Rattle.spec.specs.Book.{frame_count};
ghost use Rattle.spec.specs.Frames.{pokes, store};
ghost use Rattle.pagealloc.specs.Lent.{Mapped};

// The address of byte `offset` of frame `k`.
fn phys(k: usize, offset: u64) -> mem::PhysAddr
    requires { 4096 * k + offset < 2 ^ 64 }
    ensures { result.0 ≡ 4096 * k + offset }
{
    crate::frames::frame_addr(k).add(offset)
}

// The process's bytes from `addr` on become `bytes`, as `copy_to_user` copies.
pub fn write_user(frames: &mut [u8], book: &[u64], owner: u64, addr: u64, bytes: &[u8])
    requires frames_len { (length frames.old ≡ 4096 * frame_count book.now) × (1 ≤ owner) × (owner ≤ 16) × (addr + length bytes.now < 2 ^ 64) }
    requires mapped { Mapped book.now owner (page_down addr) (addr + length bytes.now) }
    ensures { store frames.new book.now ≡ pokes (store frames.old book.now) owner addr bytes.now }
{
    // A part ends where its page does, so no method of slices cuts the bytes so: `i` and its part's length say it plainly.
    let mut i = 0;
    while i < bytes.len() {
        let a = addr + (i as u64);
        let offset = a % spec::PAGE_SIZE_4K;
        let Some(k) = book::frame_of(book, owner, mem::page_down(a)) else {
            return;
        };
        let e = i + ((spec::PAGE_SIZE_4K - offset) as usize).min(bytes.len() - i);
        crate::frames::write_phys(frames, phys(k, offset), &bytes[i..e]);
        i = e;
    }
}
