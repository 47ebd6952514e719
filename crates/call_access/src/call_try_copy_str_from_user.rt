// `try_copy_str_from_user` as a call of its own.

ghost use Rattle.spec.specs.Machine.{try-copy-str-from-user, call};
ghost use Rattle.spec.specs.World.{Does, state_of};

use call_front::numbers::plain_ready;
use sound::Lookup;
use spec::{Answer, Procs, Setup};
use uaccess::UserPages;

// Copies the NUL-terminated string of process `number` at `src` into `dst`, without its NUL, and answers its length, or the length
// of `dst` if there's no NUL within that many bytes. Refused with 35 at a bad page, it leaves the bytes before the page copied, and
// the process lives. Refused with 1, 38, 39 or 2 to 4, it changes nothing.
pub fn try_copy_str_from_user(
    setup: Setup,
    frames: &[u8],
    book: &[u64],
    procs: Procs,
    number: u64,
    dst: &mut [u8],
    src: u64,
) -> Answer
    ensures { Does (state_of setup frames.now book.now procs) (call number (try-copy-str-from-user dst.old src)) (state_of setup frames.now book.now procs) (record { says = result; buffer = dst.new }) }
{
    let mut lookup = Lookup::new();
    if let Err(e) = plain_ready(setup, frames, book, &procs, number, true, &mut lookup) {
        return Answer::from(e);
    }
    let pages = UserPages {
        setup,
        book,
        lookup: &lookup,
        number,
    };
    match pages.try_copy_str_from_user(frames, dst, src) {
        Ok(size) => Answer::Value(size as u64),
        Err(e) => Answer::RefusedAt(e.address),
    }
}
