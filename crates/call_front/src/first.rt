// Numbers 1, 38, 39, 2 and 3, which come first in every call, in that order: sizes, the setup, the book, the process's number. The check of the book is
// made here, once a call.

ghost use Rattle.std.specs.Prelude.{◌≡◌, not};
ghost use Rattle.spec.specs.Tests.{◌⇒◌else◌};
ghost use Rattle.spec.specs.Book.{valid};
ghost use Rattle.spec.specs.Frames.{sized, store};
ghost use Rattle.spec.specs.Refusals.{number_of};
ghost use Rattle.spec.specs.World.{state_of};
ghost use Rattle.sound.specs.Table.{Zeros, Leaves};
ghost use Rattle.call_front.specs.Numbers.{number_error};

use crate::record::is_number;
use sound::Lookup;
use spec::{Procs, Refusal, Setup};

// Frame bytes are 4,096 a frame, book words seventeen, frames 1 to 1,024.
pub fn sizes_ok(frames: &[u8], book: &[u64]) -> bool
    ensures { result ≡ sized (store frames.now book.now) }
{
    let count = book.len() / 17;
    (1..1025).contains(&count) && frames.len() == 4096 * count && book.len() == 17 * count
}

// 3 of a number that no process has.
pub fn number_ok(number: u64) -> Result<(), Refusal>
    ensures { number_of result ≡ (not (valid number) ⇒ 3 else 0) }
{
    if !is_number(number) {
        return Err(Refusal::Number);
    }
    Ok(())
}

// 1, 38, 39, 2 and 3 of a call: the first that is given. `fits`: its argument lengths sum to their bytes. The lookup comes in as zeros;
// where the book was found sound, it is ready for the call, and else zeros again.
#[tactic(auto, unfolding(crate::specs::Numbers::number_error))]
pub fn number_ready(
    setup: Setup,
    frames: &[u8],
    book: &[u64],
    procs: &Procs,
    number: u64,
    fits: bool,
    lookup: &mut Lookup,
) -> Result<(), Refusal>
    requires { Zeros lookup.old }
    ensures value { number_of result ≡ number_error (state_of setup frames.now book.now procs.now) number fits }
    ensures leaves { Leaves (number_of result) book.now procs.now number lookup.new }
{
    if !sizes_ok(frames, book) || !fits {
        return Err(Refusal::Sizes);
    }
    sound::prepare(setup, book, procs, number, lookup)?;
    number_ok(number)
}
