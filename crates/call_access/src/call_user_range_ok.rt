// `user_range_ok` as a call of its own.

ghost use Rattle.spec.specs.Machine.{user-range-ok, plainly, call};
ghost use Rattle.spec.specs.World.{Does, state_of};

use call_front::numbers::plain_ready;
use sound::Lookup;
use spec::{Answer, Procs, Setup};
use uaccess::UserPages;

// Whether process `number` could read, or write, `len` bytes from `addr` on: 1 for yes, or no with the bad address. It ends nothing and
// changes nothing. Refused with 1, 38, 39 or 2 to 4.
pub fn user_range_ok(
    setup: Setup,
    frames: &[u8],
    book: &[u64],
    procs: Procs,
    number: u64,
    addr: u64,
    len: u64,
    write: bool,
) -> Answer
    ensures { Does (state_of setup frames.now book.now procs) (call number (user-range-ok addr len write)) (state_of setup frames.now book.now procs) (plainly result) }
{
    let mut lookup = Lookup::new();
    if let Err(e) = plain_ready(setup, frames, book, &procs, number, true, &mut lookup) {
        return Answer::from(e);
    }
    let pages = UserPages {
        setup,
        book,
        lookup: &lookup,
        number,
    };
    match pages.user_range_ok(addr, len, write) {
        Ok(()) => Answer::Value(1),
        Err(address) => Answer::No(address),
    }
}
