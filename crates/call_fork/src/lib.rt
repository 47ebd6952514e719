// Fork: a child shares its parent's text and rodata, takes a copy of every other page, and its record and name. The parent's frames
// come from the lookup that the check of the book leaves, the child's own are the highest free ones.

#![tactic(auto)]

pub mod by_list;
pub mod copy;
pub mod count;
mod list;

ghost use Rattle.std.specs.Prelude.{◌≡◌};
ghost use Rattle.spec.specs.Book.{used, proc_at};
ghost use Rattle.spec.specs.Machine.{fork, plainly, call};
ghost use Rattle.spec.specs.World.{Does, state_of};

pub use by_list::fork_list;
use spec::{Left, Procs, Setup};

// Forks process `number` as `child`, whose record is its parent's from now on its own, and which sees what its parent sees: text and
// rodata in its parent's frames, data in frames of its own. Refused with 1 to 5, 38, 39 or, if the free frames don't hold a copy of the
// data, with 33, it changes nothing. The call's list of segments is the parent's record's.
pub fn fork(
    setup: Setup,
    frames: &mut [u8],
    book: &mut [u64],
    procs: Procs,
    number: u64,
    child: u64,
) -> Left
    ensures { Does (state_of setup frames.old book.old procs) (call number (fork child (used (proc_at procs number).segments))) (state_of setup frames.new book.new result.procs) (plainly result.answer) }
{
    let p = by_list::recorded(&procs, number);
    let mut after = procs;
    let answer = by_list::fork_by(
        setup,
        frames,
        book,
        &mut after,
        number,
        child,
        list::used(&p.segments),
    );
    Left {
        procs: after,
        answer,
    }
}
