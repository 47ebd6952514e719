// The machine's numbers and the flag table: the deposit's, what follows from a setup's, and refusals 38 and 39. A setup that meets no
// condition may be handed over, so that none of this asks for one that does.

#![tactic(auto)]

mod setup_put;
mod setup_read;

ghost use Rattle.std.specs.Prelude.{◌≡◌, ◌-◌};
ghost use Rattle.spec.specs.Flags.{row_ok, flags_ok};
ghost use Rattle.spec.specs.Numbers.{deposit as depositOf, limit as limitOf, arg_limit, setup_ok, setup_error};
ghost use Rattle.spec.specs.Book.{stack as stack_of};
ghost use Rattle.spec.specs.Refusals.{number_of};

pub use setup_put::{numbers_into, setup_into};
pub use setup_read::read_setup;
use spec::{MAX_TOP, Refusal, Setup};

// The largest stack.
const LARGEST: u64 = 65536;

// The built-in flag table: flags 5 are text, 4 rodata, 6 data, and all others refused.
pub const BUILT_IN: [u8; 8] = [0, 0, 0, 0, 2, 1, 3, 0];

// The deposit machine's numbers, with the built-in flag table.
pub fn deposit() -> Setup
    ensures { result ≡ depositOf }
{
    Setup {
        utzero: 65536,
        ustktop: MAX_TOP,
        ustksize: 16384,
        uaddrtop: MAX_TOP,
        flags: BUILT_IN,
    }
}

// Where the stack begins.
pub fn stack_start(setup: Setup) -> u64
    ensures { result ≡ setup.ustktop - setup.ustksize }
{
    setup.ustktop.saturating_sub(setup.ustksize)
}

// The highest address that an image or a bss may end at: one guard page lies between it and the stack.
pub fn limit(setup: Setup) -> u64
    ensures { result ≡ limitOf setup }
{
    stack_start(setup).saturating_sub(spec::PAGE_SIZE_4K)
}

// What arguments may take of the stack.
pub fn arg_limit(setup: Setup) -> u64
    ensures { result ≡ arg_limit setup }
{
    setup.ustksize / 4
}

// The whole stack as data.
pub fn stack(setup: Setup) -> spec::UserSegment
    ensures { result ≡ stack_of setup }
{
    let start = stack_start(setup);
    spec::UserSegment {
        range: spec::VirtRange {
            start,
            end: setup.ustktop,
        },
        perm: spec::DATA,
    }
}

// Whether a setup is accepted. UTZERO is weighed against what is left of the stack's start, since a sum may pass 64 bits.
pub fn setup_ok(setup: Setup) -> bool
    ensures { result ≡ setup_ok setup }
{
    let utzero = setup.utzero;
    let ustktop = setup.ustktop;
    let ustksize = setup.ustksize;
    let uaddrtop = setup.uaddrtop;
    if ustktop < ustksize {
        return false;
    }
    if ustktop - ustksize < 8192 {
        return false;
    }
    (utzero % 4096 == 0)
        & (ustktop % 4096 == 0)
        & (ustksize % 4096 == 0)
        & (uaddrtop % 4096 == 0)
        & (4096 <= utzero)
        & (4096 <= ustksize)
        & (ustksize <= LARGEST)
        & (ustksize < ustktop)
        & (utzero <= ustktop - ustksize - 8192)
        & (ustktop <= uaddrtop)
        & (uaddrtop <= MAX_TOP)
}

// Whether a row of a flag table may hold a code: 0 every row; the others rows 4 to 6 alone, text with the execute bit, data with the
// write bit.
fn row_ok(row: u8, code: u8) -> bool
    ensures { result ≡ row_ok row code }
{
    match code {
        0 => true,
        1 => (4..7).contains(&row) && row % 2 == 1,
        2 => (4..7).contains(&row),
        3 => (4..7).contains(&row) && row / 2 % 2 == 1,
        _ => false,
    }
}

// Whether a flag table is accepted.
pub fn flags_ok(flags: [u8; 8]) -> bool
    ensures { result ≡ flags_ok flags }
{
    (0..8).all(|row| row_ok(row, flags[row as usize]))
}

// Whether a setup is accepted: its numbers, then its flag table.
#[tactic(auto, unfolding(spec::specs::Numbers::setup_error))]
pub fn check(setup: Setup) -> Result<(), Refusal>
    ensures { number_of result ≡ setup_error setup }
{
    if !setup_ok(setup) {
        return Err(Refusal::SetupNumbers);
    }
    if !flags_ok(setup.flags) {
        return Err(Refusal::FlagTable);
    }
    Ok(())
}
