// Break: the end of a process's bss moves, as `ibrk` moves it. Crate segment has the rule; here its answer is carried out: pages
// past the new end are released, new ones are placed and zeroed.

#![tactic(auto)]

ghost use Rattle.std.specs.Prelude.{◌≡◌, true, [], ◌∷◌, ◌*◌, ◌%◌, ◌^◌, ◌≤◌, ◌<◌, length};
ghost use Rattle.spec.specs.Tests.{within};
ghost use Rattle.spec.specs.Numbers.{zero_page};
ghost use Rattle.spec.specs.Book.{valid, frame_count, segment, proc_at};
ghost use Rattle.spec.specs.Frames.{pages_of, place, release, store};
ghost use Rattle.spec.specs.Machine.{break, plainly, call};
ghost use Rattle.spec.specs.World.{brk, Does, state_of};
ghost use Rattle.spec.specs.declared.Setup.{Setup};

use call_front::ending::refused;
use call_front::numbers::plain_ready;
use sound::Lookup;
use spec::{Answer, Left, Procs, Setup};

// The pages of a bss whose end moves from `old` to `new`: those past the new end are freed, and new ones are zeroed.
fn move_pages(frames: &mut [u8], book: &mut [u64], number: u64, old: u64, new: u64)
    requires frames_len { (length frames.old ≡ 4096 * frame_count book.old) × (1 ≤ number) × (number ≤ 16) }
    requires value { (old % 4096 ≡ 0) × (new % 4096 ≡ 0) × (new < 2 ^ 63) }
    ensures { store frames.new book.new ≡ place (release (store frames.old book.old) number (within new old)) number (pages_of zero_page (segment old new 3 ∷ [])) }
{
    if new < old {
        book::unmap_and_free(book, number as usize, new, old);
        return;
    }
    let top = book.len() / 17;
    pagealloc::place::map_zeroed(frames, book, top, number, mem::range(old, new));
}

// The bss of process `number` ends at `top`: its pages and its record.
fn move_break(frames: &mut [u8], book: &mut [u64], procs: &Procs, number: u64, top: u64) -> Procs
    requires frames_len { (length frames.old ≡ 4096 * frame_count book.old) × (valid number ≡ true) }
    requires number_value { ((proc_at procs.now number).bss.end % 4096 ≡ 0) × (top % 4096 ≡ 0) × (top < 2 ^ 63) }
    ensures { (setup : Setup) → state_of setup frames.new book.new result ≡ brk (state_of setup frames.old book.old procs.now) number (proc_at procs.now number) top }
{
    let mut p = call_front::record::proc_at(procs, number);
    move_pages(frames, book, number, p.bss.end, top);
    p.bss.end = top;
    call_front::record::with_proc(procs, number, p)
}

// Moves the end of the bss of process `number` to `addr`, rounded up to a page. Growing places zeroed pages, and shrinking frees
// them. An `addr` of 0 answers the bss's start. Refused with 1, 38, 39, 2 to 4 or by `ibrk`'s rule, it changes nothing.
pub fn brk(
    setup: Setup,
    frames: &mut [u8],
    book: &mut [u64],
    procs: Procs,
    number: u64,
    addr: u64,
) -> Left
    ensures { Does (state_of setup frames.old book.old procs) (call number (break addr)) (state_of setup frames.new book.new result.procs) (plainly result.answer) }
{
    let mut lookup = Lookup::new();
    if let Err(e) = plain_ready(setup, frames, book, &procs, number, true, &mut lookup) {
        return refused(&procs, e);
    }
    let bss = call_front::record::proc_at(&procs, number).bss;
    let free = book::free_count(book) as u64;
    let moved = match segment::ibrk(setup, Some(bss), addr, free) {
        Ok(moved) => moved,
        Err(e) => return refused(&procs, e),
    };
    let answer = Answer::Value(moved.value);
    if addr == 0 {
        return Left { procs, answer };
    }
    let procs = move_break(frames, book, &procs, number, moved.bss.end);
    Left { procs, answer }
}
