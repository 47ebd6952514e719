// `copy_to_user` as a call of its own.

ghost use Rattle.spec.specs.Machine.{copy-to-user, plainly, call};
ghost use Rattle.spec.specs.World.{Does, state_of};

use call_front::numbers::plain_ready;
use call_front::{bad_address, refused};
use sound::Lookup;
use spec::{Answer, Left, Procs, Setup};
use uaccess::UserPages;

// Copies `bytes` to the memory of process `number` from `dst` on. A bad range ends the process with 35 and the bad
// address, and no byte is copied.
// Refused with 1, 38, 39 or 2 to 4, it changes nothing.
pub fn copy_to_user(
    setup: Setup,
    frames: &mut [u8],
    book: &mut [u64],
    procs: Procs,
    number: u64,
    dst: u64,
    bytes: &[u8],
) -> Left
    ensures { Does (state_of setup frames.old book.old procs) (call number (copy-to-user dst bytes.now)) (state_of setup frames.new book.new result.procs) (plainly result.answer) }
{
    let mut lookup = Lookup::new();
    if let Err(e) = plain_ready(setup, frames, book, &procs, number, true, &mut lookup) {
        return refused(&procs, e);
    }
    let pages = UserPages {
        setup,
        book,
        lookup: &lookup,
        number,
    };
    if let Err(address) = pages.user_range_ok(dst, bytes.len() as u64, true) {
        return bad_address(book, &procs, number, address);
    }
    pages.write_user(frames, dst, bytes);
    Left {
        procs,
        answer: Answer::Done,
    }
}
