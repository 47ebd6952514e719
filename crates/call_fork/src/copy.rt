// Fork's page copy, a segment at a time. The parent's frames come from the lookup that the check of the book leaves.

ghost use Rattle.std.specs.Prelude.{◌≡◌, [], ◌∷◌, ℕ, ◌*◌, ◌%◌, ◌^◌, ◌≤◌, ◌<◌, length, get_or};
ghost use Rattle.spec.specs.Numbers.{page_up};
ghost use Rattle.spec.specs.Book.{frame_count, frame_of, data_only, pieces, zero_segment, bss_segment};
ghost use Rattle.spec.specs.Frames.{pages_of, place, frame_bytes, store};
ghost use Rattle.pagealloc.specs.Lent.{Passed, Mapped};
ghost use Rattle.call_fork.specs.Lent.{Copyable, Tells, Kept};

use pagealloc::place::{free_below, hold_copied};
use sound::Lookup;
use spec::{DATA, PAGE_SIZE_4K, UserSegment, VirtRange};

// Places copies of the pages of a segment of the parent's for the child, as `copy_segments`. `top` and the answer are as in
// `pagealloc::place`. The parent's pages stay in their frames, and these keep their bytes.
pub fn copy_segment(
    frames: &mut [u8],
    book: &mut [u64],
    lookup: &Lookup,
    top: usize,
    parent: u64,
    child: u64,
    recorded: UserSegment,
) -> usize
    requires frames_len { (length frames.old ≡ 4096 * frame_count book.old) × (1 ≤ parent) × (parent ≤ 16) × (1 ≤ child) × (child ≤ 16) × (parent ≡ child → ⊥) }
    requires start_value { (recorded.range.start % 4096 ≡ 0) × (recorded.range.end % 4096 ≡ 0) × (recorded.range.end < 2 ^ 63) × (recorded.perm < 16) }
    requires mapped { Mapped book.old parent recorded.range.start recorded.range.end × Tells book.old lookup.now parent }
    requires passed { Passed top book.old }
    ensures book_after { store frames.new book.new ≡ place (store frames.old book.old) child (pages_of (λ a. frame_bytes frames.old (frame_of book.old parent a)) (recorded ∷ [])) }
    ensures passed_2 { Passed result book.new × Tells book.new lookup.now parent }
    ensures kept { Kept (store frames.old book.old) (store frames.new book.new) parent }
{
    let mut c = top;
    for page in (recorded.range.start..recorded.range.end).step_by(PAGE_SIZE_4K as usize) {
        let Some(from) = sound::frame_at(lookup, parent as usize, page) else {
            return 0;
        };
        let Some(k) = free_below(book, c) else {
            return 0;
        };
        hold_copied(frames, book, from, k, child, recorded.perm, page);
        c = k;
    }
    c
}

// Copies the parent's data pages for `child`, as `copy_segments`: every page now, segments in their order, then the bss. Callers have
// counted the free frames, and shared text and rodata. An unused place of a record has no pages.
pub(crate) fn copy_segments(
    frames: &mut [u8],
    book: &mut [u64],
    lookup: &Lookup,
    parent: u64,
    child: u64,
    segments: &[UserSegment],
    bss: VirtRange,
)
    requires frames_len { (length frames.old ≡ 4096 * frame_count book.old) × (1 ≤ parent) × (parent ≤ 16) × (1 ≤ child) × (child ≤ 16) × (parent ≡ child → ⊥) }
    requires by_index { (i : ℕ) → i < length segments.now → Copyable book.old parent (get_or segments.now i zero_segment) }
    requires bss { (page_up bss.start < 2 ^ 64) × Copyable book.old parent (bss_segment bss) }
    requires told { Tells book.old lookup.now parent }
    ensures { store frames.new book.new ≡ place (store frames.old book.old) child (pages_of (λ a. frame_bytes frames.old (frame_of book.old parent a)) (data_only (pieces segments.now bss))) }
{
    let mut top = book.len() / 17;
    for s in segments {
        if s.perm == DATA {
            top = copy_segment(frames, book, lookup, top, parent, child, *s);
        }
    }
    let last = call_front::record::bss_segment(bss);
    copy_segment(frames, book, lookup, top, parent, child, last);
}
