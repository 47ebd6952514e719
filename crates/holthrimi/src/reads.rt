// The calls that change nothing but a lent buffer. Each copies the records from behind their reference, makes the call of its name in
// crate call_access with the other arguments as they are, and tells its answer.

ghost use Rattle.std.specs.Prelude.{◌≡◌, []};
ghost use Rattle.spec.specs.Machine.{user-range-ok, try-copy-str-from-user, call};
ghost use Rattle.spec.specs.World.{state_of};
ghost use Rattle.holthrimi.specs.Tells.{Tells};

use crate::told::Told;
use spec::{Procs, Setup};

#[unsafe(no_mangle)]
pub extern "C" fn holthrimi_user_range_ok(
    setup: Setup,
    frames: &[u8],
    book: &[u64],
    procs: &Procs,
    number: u64,
    addr: u64,
    len: u64,
    write: bool,
) -> Told
    ensures { Tells (state_of setup frames.now book.now procs.now) (call number (user-range-ok addr len write)) (state_of setup frames.now book.now procs.now) result [] }
{
    let records = *procs;
    let answer = call_access::user_range_ok(setup, frames, book, records, number, addr, len, write);
    Told::from(answer)
}

#[unsafe(no_mangle)]
pub extern "C" fn holthrimi_try_copy_str_from_user(
    setup: Setup,
    frames: &[u8],
    book: &[u64],
    procs: &Procs,
    number: u64,
    dst: &mut [u8],
    src: u64,
) -> Told
    ensures { Tells (state_of setup frames.now book.now procs.now) (call number (try-copy-str-from-user dst.old src)) (state_of setup frames.now book.now procs.now) result dst.new }
{
    let records = *procs;
    let answer = call_access::try_copy_str_from_user(
        setup, frames, book, records, number, dst, src,
    );
    Told::from(answer)
}
