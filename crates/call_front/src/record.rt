// The records of processes: whether one lives, one read and set, and the pages of its bss. Every call takes all records by value and
// hands them back, so that what a call does to them is one equation; most of its steps take them by reference.

ghost use Rattle.std.specs.Prelude.{◌≡◌, ◌&&◌, true, ◌^◌, ◌<◌};
ghost use Rattle.spec.specs.Numbers.{page_up};
ghost use Rattle.spec.specs.Book.{valid, lives as livesOf, zero_proc, proc_at, bss_segment};
ghost use Rattle.spec.specs.World.{set_proc};

use spec::{Proc, Procs, UserSegment, VirtRange};

// Processes are numbered 1 to 16.
pub fn is_number(number: u64) -> bool
    ensures { result ≡ valid number }
{
    (1..17).contains(&number)
}

// The record of process `number`.
pub fn proc_at(procs: &Procs, number: u64) -> Proc
    requires { valid number ≡ true }
    ensures { result ≡ proc_at procs.now number }
{
    procs.all[(number - 1) as usize]
}

// Sets the record of process `number`, in place.
pub fn set_proc(procs: &mut Procs, number: u64, p: Proc)
    requires { valid number ≡ true }
    ensures { procs.new ≡ set_proc procs.old number p }
{
    let at = (number - 1) as usize;
    procs.all[at] = p;
}

// The records with that of process `number` set.
pub fn with_proc(procs: &Procs, number: u64, p: Proc) -> Procs
    requires { valid number ≡ true }
    ensures { result ≡ set_proc procs.now number p }
{
    let mut after = *procs;
    set_proc(&mut after, number, p);
    after
}

// The record of no process: all zero.
pub fn zero_proc() -> Proc
    ensures { result ≡ zero_proc }
{
    Proc::default()
}

// Whether process `number` lives; a number outside 1 to 16 is none's.
pub fn lives(procs: &Procs, number: u64) -> bool
    ensures { result ≡ (valid number && livesOf (proc_at procs.now number)) }
{
    is_number(number) && sound_records::lives(proc_at(procs, number))
}

// The pages of a bss as a segment: from its start rounded up, as data.
pub fn bss_segment(bss: VirtRange) -> UserSegment
    requires { page_up bss.start < 2 ^ 64 }
    ensures { result ≡ bss_segment bss }
{
    UserSegment {
        range: mem::range(mem::page_up(bss.start), bss.end),
        perm: spec::DATA,
    }
}
