// The call `push`: arguments onto the stack of a living process, as `push_args` of r9's exec.rs (module push_args). All of its
// numbers are weighed before the first byte is written.

#![tactic(auto)]

mod push_args;

ghost use Rattle.spec.specs.Machine.{push, plainly, call};
ghost use Rattle.spec.specs.World.{Does, state_of};

use crate::push_args::{push_args, push_ok};
use call_front::numbers::plain_ready;
use call_front::{bad_address, refused};
use sound::Lookup;
use spec::{Answer, Left, Procs, Refusal, Setup};
use uaccess::UserPages;

// Pushes arguments below `top` in the memory of process `number`, and answers the registers to start at `pc` with. Refused with 1, 38, 39,
// 2 to 4, with 36 for a top that isn't 16-byte aligned, and with 32 or 33 for the arguments, it changes nothing. A push below address 0,
// or to memory that the process may not write, ends the process with 35 and the bad address, and no byte is written.
pub fn push(
    setup: Setup,
    frames: &mut [u8],
    book: &mut [u64],
    procs: Procs,
    number: u64,
    pc: u64,
    top: u64,
    bytes: &[u8],
    lengths: &[u64],
) -> Left
    ensures { Does (state_of setup frames.old book.old procs) (call number (push pc top bytes.now lengths.now)) (state_of setup frames.new book.new result.procs) (plainly result.answer) }
{
    let fits = exec_args::lengths_fit(bytes, lengths);
    let mut lookup = Lookup::new();
    if let Err(e) = plain_ready(setup, frames, book, &procs, number, fits, &mut lookup) {
        return refused(&procs, e);
    }
    if top % 16 != 0 {
        return refused(&procs, Refusal::Top);
    }
    let size = match exec_args::args_size(setup, bytes, lengths) {
        Ok(size) => size,
        Err(e) => return refused(&procs, e),
    };
    let pages = UserPages {
        setup,
        book,
        lookup: &lookup,
        number,
    };
    if let Err(address) = push_ok(&pages, top, size, lengths) {
        return bad_address(book, &procs, number, address);
    }
    let regs = push_args(&pages, frames, pc, top, bytes, lengths);
    Left {
        procs,
        answer: Answer::Regs(regs),
    }
}
