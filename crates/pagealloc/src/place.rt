// Pages placed: each takes the highest free frame, in ascending order of pages. `top` is a frame from which on none is free; each
// function answers the next such frame, so that a run of pages goes on where the one before it stopped and a whole image is
// placed in one pass over the book. Where no frame is free, nothing is placed: callers have counted the free frames.

ghost use Rattle.std.specs.Prelude.{◌≡◌, [], ◌∷◌, ◌+◌, ◌*◌, ◌%◌, ◌^◌, ◌≤◌, ◌<◌, length, Some};
ghost use Rattle.spec.specs.Numbers.{page_bytes, zero_page};
ghost use Rattle.spec.specs.Book.{frame_count, holders, is_free, highest, segment};
ghost use Rattle.spec.specs.Frames.{enter, pages_of, hold, place, frame_bytes, store};
ghost use Rattle.pagealloc.specs.Lent.{Passed};
ghost use Rattle.pagealloc.specs.Contents.{file_at};

// The highest free frame below frame `c`, as `allocate_physpage`, which leaves the book as it is.
pub fn free_below(book: &[u64], c: usize) -> Option<usize>
    requires { c ≤ frame_count book.now }
    ensures { result ≡ highest (is_free book.now) c }
{
    book::frames(book)[..c].iter().rposition(|f| f[16] == 0)
}

// Frame `k` gets mapping `w` in the owner's place, its only one.
fn take_frame(book: &mut [u64], k: usize, owner: u64, w: u64)
    requires { (17 * k + 16 < length book.old) × (1 ≤ owner) × (owner ≤ 16) }
    ensures { book.new ≡ enter book.old k owner w 1 }
{
    let place = (owner - 1) as usize;
    book[17 * k + place] = w;
    book[17 * k + 16] = 1;
}

// Frame `k` becomes the page at address `page` of a segment whose file bytes stand at `vaddr`.
fn hold_loaded(
    frames: &mut [u8],
    book: &mut [u64],
    k: usize,
    owner: u64,
    perm: u64,
    page: u64,
    vaddr: u64,
    file: &[u8],
)
    requires frames_len { (length frames.old ≡ 4096 * frame_count book.old) × (k < frame_count book.old) × (1 ≤ owner) × (owner ≤ 16) × (perm < 16) × (page < 2 ^ 63) }
    requires file_bound { vaddr + length file.now < 2 ^ 64 }
    ensures { store frames.new book.new ≡ hold (store frames.old book.old) owner (record { page = page; perm = perm; bytes = page_bytes (file_at vaddr file.now) page }) (Some k) }
{
    crate::pages::load_frame(frames, crate::frames::frame_addr(k), page, vaddr, file);
    take_frame(book, k, owner, book::pack(page, owner, perm));
}

// Places the pages of a recorded segment, holding the file bytes that stand from `vaddr` on and zero elsewhere, as `load_segment`.
pub fn load_segment(
    frames: &mut [u8],
    book: &mut [u64],
    top: usize,
    owner: u64,
    recorded: spec::UserSegment,
    vaddr: u64,
    file: &[u8],
) -> usize
    requires frames_len { (length frames.old ≡ 4096 * frame_count book.old) × (1 ≤ owner) × (owner ≤ 16) × (recorded.perm < 16) }
    requires start_value { (recorded.range.start % 4096 ≡ 0) × (recorded.range.end % 4096 ≡ 0) × (recorded.range.end < 2 ^ 63) × (vaddr + length file.now < 2 ^ 64) }
    requires passed { Passed top book.old }
    ensures book_after { store frames.new book.new ≡ place (store frames.old book.old) owner (pages_of (page_bytes (file_at vaddr file.now)) (recorded ∷ [])) }
    ensures passed_2 { Passed result book.new }
{
    let range = recorded.range;
    let mut c = top;
    for i in 0..mem::pages(range) {
        let Some(k) = free_below(book, c) else {
            return 0;
        };
        let page = range.start + spec::PAGE_SIZE_4K * i;
        hold_loaded(frames, book, k, owner, recorded.perm, page, vaddr, file);
        c = k;
    }
    c
}

// Places a data page of zeros for each page in `range`, as `map_zeroed`: a data segment with no file bytes.
pub fn map_zeroed(
    frames: &mut [u8],
    book: &mut [u64],
    top: usize,
    owner: u64,
    range: spec::VirtRange,
) -> usize
    requires frames_len { (length frames.old ≡ 4096 * frame_count book.old) × (1 ≤ owner) × (owner ≤ 16) }
    requires start_value { (range.start % 4096 ≡ 0) × (range.end % 4096 ≡ 0) × (range.end < 2 ^ 63) }
    requires passed { Passed top book.old }
    ensures book_after { store frames.new book.new ≡ place (store frames.old book.old) owner (pages_of zero_page (segment range.start range.end 3 ∷ [])) }
    ensures passed_2 { Passed result book.new }
{
    let perm = spec::DATA;
    load_segment(
        frames,
        book,
        top,
        owner,
        spec::UserSegment { range, perm },
        0,
        &[],
    )
}

// Frame `k`, which is free, becomes the child's page with the bytes of frame `from`, which is used.
pub fn hold_copied(
    frames: &mut [u8],
    book: &mut [u64],
    from: usize,
    k: usize,
    child: u64,
    perm: u64,
    page: u64,
)
    requires frames_len { (length frames.old ≡ 4096 * frame_count book.old) × (k < frame_count book.old) × (holders book.old k ≡ 0) }
    requires from_bound { (from < frame_count book.old) × (holders book.old from ≡ 0 → ⊥) × (1 ≤ child) × (child ≤ 16) × (perm < 16) × (page < 2 ^ 63) }
    ensures { store frames.new book.new ≡ hold (store frames.old book.old) child (record { page = page; perm = perm; bytes = frame_bytes frames.old (Some from) }) (Some k) }
{
    crate::pages::copy_frame(
        frames,
        crate::frames::frame_addr(from),
        crate::frames::frame_addr(k),
    );
    take_frame(book, k, child, book::pack(page, child, perm));
}
