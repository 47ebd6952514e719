// End (added): a process gives up its memory and its record. r9 has no such call of its own, but an address that can't be used ends
// a process in the same way.

#![tactic(auto)]

ghost use Rattle.std.specs.Prelude.{◌≡◌};
ghost use Rattle.spec.specs.Machine.{end, plainly, call};
ghost use Rattle.spec.specs.World.{Does, state_of};

use call_front::ending::{forget, refused};
use call_front::numbers::plain_ready;
use sound::Lookup;
use spec::{Answer, Left, Procs, Setup};

// Ends process `number`: its frames are free and keep their bytes, and its record is zero. Refused with 1, 38, 39 or 2 to 4, it changes nothing.
pub fn end(setup: Setup, frames: &mut [u8], book: &mut [u64], procs: Procs, number: u64) -> Left
    ensures { Does (state_of setup frames.old book.old procs) (call number end) (state_of setup frames.new book.new result.procs) (plainly result.answer) }
{
    let mut lookup = Lookup::new();
    if let Err(e) = plain_ready(setup, frames, book, &procs, number, true, &mut lookup) {
        return refused(&procs, e);
    }
    let after = forget(book, &procs, number);
    Left {
        procs: after,
        answer: Answer::Done,
    }
}
