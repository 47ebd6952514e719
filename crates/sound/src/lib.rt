// Refusal 2: is the book sound? Added: r9 keeps its pages in page tables of its own making, and here the book and the records are
// lent. The answer is found in one pass over the book (crate sound_table), against a plan of all pages that the records call for (crate
// sound_plan), and the pass leaves a table by which the rest of a call finds the frame of a page of the process that makes it, without
// the book (module frame).

#![tactic(auto)]

mod frame;

ghost use Rattle.std.specs.Prelude.{◌≡◌, true, ◌≤◌, length};
ghost use Rattle.spec.specs.Numbers.{SetupOk};
ghost use Rattle.spec.specs.Sound.{sound_book};
ghost use Rattle.spec.specs.Refusals.{number_of};
ghost use Rattle.sound.specs.Numbers.{sound_error};
ghost use Rattle.sound.specs.Table.{Zeros, Filled, Leaves};

pub use frame::frame_at;
use sound_plan::Plan;
use spec::{Procs, Refusal, Setup};

// What the check leaves for a call's lookups: the plan of all pages, and for each page of the process that makes the call its frame, as 1
// more than its number, in the order of the plan. It is zeros before the check.
#[derive(Drop)]
pub struct Lookup {
    pub plan: Plan,
    pub table: [u16; 1024],
}

impl Lookup {
    // Zeros, as the check takes it.
    pub fn new() -> Lookup
        ensures { Zeros result }
    {
        Lookup {
            plan: Plan {
                tags: [0; 272],
                bases: [0; 273],
            },
            table: [0; 1024],
        }
    }
}

// Is the book sound? If so, `lookup` holds the plan and the frame of each page of process `number`, for the rest of the call; if not,
// what it holds means nothing, and `prepare` clears it. It comes in as zeros.
fn is_sound(setup: Setup, book: &[u64], procs: &Procs, number: u64, lookup: &mut Lookup) -> bool
    requires book_len_bound { (length book.now ≤ 17408) × Zeros lookup.old }
    requires setup_ok { SetupOk setup }
    ensures value { result ≡ sound_book setup book.now procs.now }
    ensures filled { result ≡ true → Filled book.now procs.now number lookup.new }
{
    sound_records::lengths(*procs);
    if !sound_records::records_ok(setup, procs) {
        return false;
    }
    let total = lookup.plan.lay_all(procs);
    let places = 16 * (book.len() / 17) as u64;
    if places < total {
        return false;
    }
    sound_table::mark(book, &lookup.plan, &mut lookup.table, number)
}

// 38 or 39 for the setup, 2 for a book that is not sound, or else `lookup` is ready for the rest of the call, as above. A refusal leaves
// zeros in it.
pub fn prepare(
    setup: Setup,
    book: &[u64],
    procs: &Procs,
    number: u64,
    lookup: &mut Lookup,
) -> Result<(), Refusal>
    requires { (length book.now ≤ 17408) × Zeros lookup.old }
    ensures value { number_of result ≡ sound_error setup book.now procs.now }
    ensures leaves { Leaves (number_of result) book.now procs.now number lookup.new }
{
    setup::check(setup)?;
    if !is_sound(setup, book, procs, number, lookup) {
        *lookup = Lookup::new();
        return Err(Refusal::Torn);
    }
    Ok(())
}

// The same for a call that looks up no page.
pub fn check(setup: Setup, book: &[u64], procs: &Procs) -> Result<(), Refusal>
    requires { length book.now ≤ 17408 }
    ensures { number_of result ≡ sound_error setup book.now procs.now }
{
    let mut lookup = Lookup::new();
    prepare(setup, book, procs, 0, &mut lookup)
}
