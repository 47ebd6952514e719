// `copy_from_user` as a call of its own.

ghost use Rattle.spec.specs.Machine.{copy-from-user, call};
ghost use Rattle.spec.specs.World.{Does, state_of};

use call_front::numbers::plain_ready;
use call_front::{bad_address, refused};
use sound::Lookup;
use spec::{Answer, Left, Procs, Setup};
use uaccess::UserPages;

// Copies bytes of process `number` from `src` on into the whole of `dst`. A bad range ends the process with 35 and the bad
// address, and no byte is copied. Refused with 1, 38, 39 or 2 to 4, it changes nothing.
pub fn copy_from_user(
    setup: Setup,
    frames: &mut [u8],
    book: &mut [u64],
    procs: Procs,
    number: u64,
    dst: &mut [u8],
    src: u64,
) -> Left
    ensures { Does (state_of setup frames.old book.old procs) (call number (copy-from-user dst.old src)) (state_of setup frames.new book.new result.procs) (record { says = result.answer; buffer = dst.new }) }
{
    let mut lookup = Lookup::new();
    if let Err(e) = plain_ready(setup, frames, book, &procs, number, true, &mut lookup) {
        return refused(&procs, e);
    }
    let pages = UserPages {
        setup,
        book,
        lookup: &lookup,
        number,
    };
    if let Err(address) = pages.user_range_ok(src, dst.len() as u64, false) {
        return bad_address(book, &procs, number, address);
    }
    pages.read_user(frames, src, dst);
    Left {
        procs,
        answer: Answer::Done,
    }
}
