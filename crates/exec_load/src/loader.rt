// Loading an image into a process's frames, as r9's exec.rs does in `load`: each page holds its file bytes and zero elsewhere, and
// takes the highest free frame, pages ascending: the image's, the bss's, the stack's. Callers have counted the free frames.

ghost use Rattle.std.specs.Prelude.{◌≡◌, true, ◌*◌, ◌-◌, ◌≤◌, ◌<◌, length};
ghost use Rattle.spec.specs.Numbers.{max_top};
ghost use Rattle.spec.specs.Book.{frame_count};
ghost use Rattle.spec.specs.Frames.{place, store};
ghost use Rattle.spec.specs.Exec.{layout_ok};
ghost use Rattle.image.specs.Images.{program};
ghost use Rattle.pagealloc.specs.Lent.{Passed};
ghost use Rattle.exec_load.specs.Pages.{segment_pages};
ghost use Rattle.exec_load.specs.Installing.{plan_pages};

use exec::Plan;
use image::Image;
use spec::VirtRange;

// Places the pages of an image's segments, in order. The answer is a frame from which on none is free.
fn load_segments(
    frames: &mut [u8],
    book: &mut [u64],
    owner: u64,
    image: &Image,
    bss: VirtRange,
) -> usize
    requires frames_len { (length frames.old ≡ 4096 * frame_count book.old) × (1 ≤ owner) × (owner ≤ 16) × (bss.start ≤ max_top) }
    requires laid_out { layout_ok image.now.setup (program image.now).segments ≡ true }
    ensures book_after { store frames.new book.new ≡ place (store frames.old book.old) owner (segment_pages bss (program image.now).segments) }
    ensures passed { Passed result book.new }
{
    let mut top = book.len() / 17;
    for i in 0..image.places() {
        if let Some(g) = image.segment(i) {
            let recorded = exec::user_segment(bss, g);
            let file = image.file(g);
            top = pagealloc::place::load_segment(frames, book, top, owner, recorded, g.vaddr, file);
        }
    }
    top
}

// Places all pages of a plan, with those of its bss and its stack.
pub fn load(frames: &mut [u8], book: &mut [u64], owner: u64, plan: &Plan)
    requires { (length frames.old ≡ 4096 * frame_count book.old) × (1 ≤ owner) × (owner ≤ 16) }
    ensures { store frames.new book.new ≡ place (store frames.old book.old) owner (plan_pages plan.now) }
{
    let bss = plan.bss;
    let top = load_segments(frames, book, owner, &plan.image, bss);
    let behind = VirtRange {
        start: mem::page_up(bss.start),
        end: bss.end,
    };
    let next = pagealloc::place::map_zeroed(frames, book, top, owner, behind);
    let setup = plan.image.setup();
    let stack = VirtRange {
        start: setup.ustktop - setup.ustksize,
        end: setup.ustktop,
    };
    pagealloc::place::map_zeroed(frames, book, next, owner, stack);
}
