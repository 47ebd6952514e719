// Numbers 1, 38, 39 and 2 to 5, which come first in every call, in that order; those up to 3 stand in module first.

ghost use Rattle.std.specs.Prelude.{◌≡◌, not, ◌&&◌};
ghost use Rattle.spec.specs.Tests.{◌⇒◌else◌};
ghost use Rattle.spec.specs.Book.{valid, lives as livesOf, proc_at};
ghost use Rattle.spec.specs.Refusals.{number_of};
ghost use Rattle.spec.specs.World.{state_of};
ghost use Rattle.sound.specs.Table.{Zeros, Leaves};
ghost use Rattle.call_front.specs.Numbers.{plain_error, begin_error, fork_error};

use crate::first::{number_ok, number_ready};
use crate::record::lives;
use sound::Lookup;
use spec::{Procs, Refusal, Setup};

// 4 of a process that doesn't live.
fn alive(procs: &Procs, number: u64) -> Result<(), Refusal>
    ensures { number_of result ≡ (not (valid number && livesOf (proc_at procs.now number)) ⇒ 4 else 0) }
{
    if !lives(procs, number) {
        return Err(Refusal::Dead);
    }
    Ok(())
}

// 5 of a process that lives.
fn vacant(procs: &Procs, number: u64) -> Result<(), Refusal>
    ensures { number_of result ≡ (not (not (valid number && livesOf (proc_at procs.now number))) ⇒ 5 else 0) }
{
    if lives(procs, number) {
        return Err(Refusal::Taken);
    }
    Ok(())
}

// 1 to 4 of a call that a living process makes for itself, and the call's lookup.
#[tactic(auto, unfolding(crate::specs::Numbers::plain_error))]
pub fn plain_ready(
    setup: Setup,
    frames: &[u8],
    book: &[u64],
    procs: &Procs,
    number: u64,
    fits: bool,
    lookup: &mut Lookup,
) -> Result<(), Refusal>
    requires { Zeros lookup.old }
    ensures value { number_of result ≡ plain_error (state_of setup frames.now book.now procs.now) number fits }
    ensures leaves { Leaves (number_of result) book.now procs.now number lookup.new }
{
    number_ready(setup, frames, book, procs, number, fits, lookup)?;
    alive(procs, number)
}

// 1, 2, 3 and 5 of a start, and a lookup in which its process has no page.
#[tactic(auto, unfolding(crate::specs::Numbers::begin_error))]
pub fn begin_ready(
    setup: Setup,
    frames: &[u8],
    book: &[u64],
    procs: &Procs,
    number: u64,
    args_fit: bool,
    lookup: &mut Lookup,
) -> Result<(), Refusal>
    requires { Zeros lookup.old }
    ensures value { number_of result ≡ begin_error (state_of setup frames.now book.now procs.now) number args_fit }
    ensures leaves { Leaves (number_of result) book.now procs.now number lookup.new }
{
    number_ready(setup, frames, book, procs, number, args_fit, lookup)?;
    vacant(procs, number)
}

// 3 of the child's number, 4 of the parent and 5 of the child, which come next in a fork.
fn child_ready(procs: &Procs, parent: u64, child: u64) -> Result<(), Refusal>
    ensures { number_of result ≡ (not (valid child) ⇒ 3 else not (valid parent && livesOf (proc_at procs.now parent)) ⇒ 4 else not (not (valid child && livesOf (proc_at procs.now child))) ⇒ 5 else 0) }
{
    number_ok(child)?;
    alive(procs, parent)?;
    vacant(procs, child)
}

// 1 to 5 of a fork whose list is the record's own, and the call's lookup.
#[tactic(auto, unfolding(crate::specs::Numbers::fork_error))]
pub fn fork_ready(
    setup: Setup,
    frames: &[u8],
    book: &[u64],
    procs: &Procs,
    parent: u64,
    child: u64,
    lookup: &mut Lookup,
) -> Result<(), Refusal>
    requires { Zeros lookup.old }
    ensures value { number_of result ≡ fork_error (state_of setup frames.now book.now procs.now) parent child }
    ensures leaves { Leaves (number_of result) book.now procs.now parent lookup.new }
{
    number_ready(setup, frames, book, procs, parent, true, lookup)?;
    child_ready(procs, parent, child)
}
