// Fork with its list: the parent's recorded segments are lent as a slice of records, as r9's `copy_segments` takes them, and a list
// unlike the record is refused with 2.

ghost use Rattle.std.specs.Prelude.{◌≡◌, not, ◌&&◌, ◌||◌, IfOk, OnOk};
ghost use Rattle.spec.specs.Tests.{◌is◌, ◌⇒◌else◌, same};
ghost use Rattle.spec.specs.Book.{valid, same_segment, used, proc_at};
ghost use Rattle.spec.specs.Machine.{fork, plainly, call};
ghost use Rattle.spec.specs.Refusals.{refusal_number, number_of};
ghost use Rattle.spec.specs.World.{Does, state_of};
ghost use Rattle.sound.specs.Table.{Zeros, Ready};
ghost use Rattle.call_fork.specs.ByList.{fork_number};

use call_front::record::{is_number, set_proc, zero_proc};
use sound::Lookup;
use spec::{Answer, Left, Proc, Procs, Refusal, Setup, UserSegment};

// The record of a process, as the specification reads it where no process has the number too: of 0 the first, above 16 the zero record.
pub(crate) fn recorded(procs: &Procs, number: u64) -> Proc
    ensures { result ≡ proc_at procs.now number }
{
    match procs.all.get(number.saturating_sub(1) as usize) {
        Some(p) => *p,
        None => zero_proc(),
    }
}

// Whether a refusal comes before that of a list unlike the record, as 1, 38 and 39 do.
fn before_list(e: Refusal) -> bool
    ensures { result ≡ (refusal_number e is 1 || (refusal_number e is 38 || refusal_number e is 39)) }
{
    matches!(
        e,
        Refusal::Sizes | Refusal::SetupNumbers | Refusal::FlagTable
    )
}

// Whether a lent list is torn, that is, unlike the record of process `number`; a number outside 1 to 16 has no record.
fn is_torn(number: u64, segments: &[UserSegment], p: &Proc) -> bool
    ensures { result ≡ (valid number && not (same same_segment segments.now (used p.now.segments))) }
{
    is_number(number) && segments != crate::list::used(&p.segments)
}

// What is found first of a fork, and 2 at its place in the order if its list is torn.
fn list_checked(first: Result<(), Refusal>, torn: bool) -> Result<(), Refusal>
    ensures { number_of result ≡ (torn && not (number_of first is 1 || (number_of first is 38 || number_of first is 39)) ⇒ 2 else number_of first) }
{
    match first {
        Err(e) if before_list(e) => first,
        _ if torn => Err(Refusal::Torn),
        _ => first,
    }
}

// The parent's record and the call's lookup, or what the fork is refused with: 1, 38, 39, 2 to 5, with 2 for a list unlike the record, and
// then 33.
fn list_ready(
    setup: Setup,
    frames: &[u8],
    book: &[u64],
    procs: &Procs,
    number: u64,
    child: u64,
    segments: &[UserSegment],
    lookup: &mut Lookup,
) -> Result<Proc, Refusal>
    requires { Zeros lookup.old }
    ensures value { number_of result ≡ fork_number (state_of setup frames.now book.now procs.now) number child (same same_segment segments.now (used (proc_at procs.now number).segments)) }
    ensures record_is { IfOk result (λ p. p ≡ proc_at procs.now number) }
    ensures ready { OnOk result (Ready book.now number lookup.new) }
{
    sound_records::lengths(*procs);
    let p = recorded(procs, number);
    let first = call_front::numbers::fork_ready(setup, frames, book, procs, number, child, lookup);
    list_checked(first, is_torn(number, segments, &p))?;
    if crate::count::data_pages(p) > book::free_count(book) as u64 {
        return Err(Refusal::NoMemory);
    }
    Ok(p)
}

// A fork as `fork` and `fork_list` make it, with the records changed in place.
pub(crate) fn fork_by(
    setup: Setup,
    frames: &mut [u8],
    book: &mut [u64],
    procs: &mut Procs,
    number: u64,
    child: u64,
    segments: &[UserSegment],
) -> Answer
    ensures { Does (state_of setup frames.old book.old procs.old) (call number (fork child segments.now)) (state_of setup frames.new book.new procs.new) (plainly result) }
{
    sound_records::lengths(*procs);
    let mut lookup = Lookup::new();
    match list_ready(
        setup,
        frames,
        book,
        procs,
        number,
        child,
        segments,
        &mut lookup,
    ) {
        Ok(p) => {
            book::share_pages(book, number as usize, child as usize);
            crate::copy::copy_segments(frames, book, &lookup, number, child, segments, p.bss);
            set_proc(procs, child, p);
            Answer::Done
        }
        Err(e) => Answer::from(e),
    }
}

// Forks process `number` as `child`, whose record is its parent's from now on its own, and which sees what its parent sees: text and
// rodata in its parent's frames, data in frames of its own. `segments` lists the parent's recorded segments. Refused with 1, 38, 39 or 2
// to 5, a list unlike the record with 2, or, if the free frames don't hold a copy of the data, with 33, it changes nothing.
pub fn fork_list(
    setup: Setup,
    frames: &mut [u8],
    book: &mut [u64],
    procs: Procs,
    number: u64,
    child: u64,
    segments: &[UserSegment],
) -> Left
    ensures { Does (state_of setup frames.old book.old procs) (call number (fork child segments.now)) (state_of setup frames.new book.new result.procs) (plainly result.answer) }
{
    let mut after = procs;
    let answer = fork_by(setup, frames, book, &mut after, number, child, segments);
    Left {
        procs: after,
        answer,
    }
}
