// The calls that change frames, book or records. Each copies the records from behind their reference, makes the call of its name in
// that call's own crate (`call_start::start`; the copies in access) with the other arguments as they are, but for an image's form, puts
// back the records that it leaves, and tells its answer.

ghost use Rattle.std.specs.Prelude.{[]};
ghost use Rattle.spec.specs.Book.{used, proc_at};
ghost use Rattle.spec.specs.Machine.{start, replace, push, break, fork, end, copy-from-user, copy-to-user, call};
ghost use Rattle.spec.specs.World.{state_of};
ghost use Rattle.holthrimi.specs.Rules.{form_of};
ghost use Rattle.holthrimi.specs.Tells.{Tells};

use crate::told::Told;
use spec::{Procs, Setup, UserSegment};

#[unsafe(no_mangle)]
pub extern "C" fn holthrimi_start(
    setup: Setup,
    frames: &mut [u8],
    book: &mut [u64],
    procs: &mut Procs,
    number: u64,
    aout: bool,
    magic: u32,
    image: &[u8],
    name: &[u8],
    bytes: &[u8],
    lengths: &[u64],
) -> Told
    ensures { Tells (state_of setup frames.old book.old procs.old) (call number (start (form_of aout magic) image.now name.now bytes.now lengths.now)) (state_of setup frames.new book.new procs.new) result [] }
{
    let before = *procs;
    let form = crate::form::form_of(aout, magic);
    let left = call_start::start(
        setup, frames, book, before, number, form, image, name, bytes, lengths,
    );
    *procs = left.procs;
    Told::from(left.answer)
}

#[unsafe(no_mangle)]
pub extern "C" fn holthrimi_replace(
    setup: Setup,
    frames: &mut [u8],
    book: &mut [u64],
    procs: &mut Procs,
    number: u64,
    aout: bool,
    magic: u32,
    image: &[u8],
    name: &[u8],
    argv: u64,
) -> Told
    ensures { Tells (state_of setup frames.old book.old procs.old) (call number (replace (form_of aout magic) image.now name.now argv)) (state_of setup frames.new book.new procs.new) result [] }
{
    let before = *procs;
    let form = crate::form::form_of(aout, magic);
    let left = call_replace::replace(setup, frames, book, before, number, form, image, name, argv);
    *procs = left.procs;
    Told::from(left.answer)
}

#[unsafe(no_mangle)]
pub extern "C" fn holthrimi_push(
    setup: Setup,
    frames: &mut [u8],
    book: &mut [u64],
    procs: &mut Procs,
    number: u64,
    pc: u64,
    top: u64,
    bytes: &[u8],
    lengths: &[u64],
) -> Told
    ensures { Tells (state_of setup frames.old book.old procs.old) (call number (push pc top bytes.now lengths.now)) (state_of setup frames.new book.new procs.new) result [] }
{
    let before = *procs;
    let left = call_push::push(setup, frames, book, before, number, pc, top, bytes, lengths);
    *procs = left.procs;
    Told::from(left.answer)
}

#[unsafe(no_mangle)]
pub extern "C" fn holthrimi_break(
    setup: Setup,
    frames: &mut [u8],
    book: &mut [u64],
    procs: &mut Procs,
    number: u64,
    addr: u64,
) -> Told
    ensures { Tells (state_of setup frames.old book.old procs.old) (call number (break addr)) (state_of setup frames.new book.new procs.new) result [] }
{
    let before = *procs;
    let left = call_break::brk(setup, frames, book, before, number, addr);
    *procs = left.procs;
    Told::from(left.answer)
}

// The child's segments are its parent's record's.
#[unsafe(no_mangle)]
pub extern "C" fn holthrimi_fork(
    setup: Setup,
    frames: &mut [u8],
    book: &mut [u64],
    procs: &mut Procs,
    number: u64,
    child: u64,
) -> Told
    ensures { Tells (state_of setup frames.old book.old procs.old) (call number (fork child (used (proc_at procs.old number).segments))) (state_of setup frames.new book.new procs.new) result [] }
{
    let before = *procs;
    let left = call_fork::fork(setup, frames, book, before, number, child);
    *procs = left.procs;
    Told::from(left.answer)
}

// The same with the parent's recorded segments lent as a list, which the call compares with the record.
#[unsafe(no_mangle)]
pub extern "C" fn holthrimi_fork_list(
    setup: Setup,
    frames: &mut [u8],
    book: &mut [u64],
    procs: &mut Procs,
    number: u64,
    child: u64,
    segments: &[UserSegment],
) -> Told
    ensures { Tells (state_of setup frames.old book.old procs.old) (call number (fork child segments.now)) (state_of setup frames.new book.new procs.new) result [] }
{
    let before = *procs;
    let left = call_fork::fork_list(setup, frames, book, before, number, child, segments);
    *procs = left.procs;
    Told::from(left.answer)
}

#[unsafe(no_mangle)]
pub extern "C" fn holthrimi_end(
    setup: Setup,
    frames: &mut [u8],
    book: &mut [u64],
    procs: &mut Procs,
    number: u64,
) -> Told
    ensures { Tells (state_of setup frames.old book.old procs.old) (call number end) (state_of setup frames.new book.new procs.new) result [] }
{
    let before = *procs;
    let left = call_end::end(setup, frames, book, before, number);
    *procs = left.procs;
    Told::from(left.answer)
}

#[unsafe(no_mangle)]
pub extern "C" fn holthrimi_copy_from_user(
    setup: Setup,
    frames: &mut [u8],
    book: &mut [u64],
    procs: &mut Procs,
    number: u64,
    dst: &mut [u8],
    src: u64,
) -> Told
    ensures { Tells (state_of setup frames.old book.old procs.old) (call number (copy-from-user dst.old src)) (state_of setup frames.new book.new procs.new) result dst.new }
{
    let before = *procs;
    let left = call_access::copy_from_user(setup, frames, book, before, number, dst, src);
    *procs = left.procs;
    Told::from(left.answer)
}

#[unsafe(no_mangle)]
pub extern "C" fn holthrimi_copy_to_user(
    setup: Setup,
    frames: &mut [u8],
    book: &mut [u64],
    procs: &mut Procs,
    number: u64,
    dst: u64,
    bytes: &[u8],
) -> Told
    ensures { Tells (state_of setup frames.old book.old procs.old) (call number (copy-to-user dst bytes.now)) (state_of setup frames.new book.new procs.new) result [] }
{
    let before = *procs;
    let left = call_access::copy_to_user(setup, frames, book, before, number, dst, bytes);
    *procs = left.procs;
    Told::from(left.answer)
}
