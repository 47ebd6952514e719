// Answers as C sees them: one struct of numbers, where the calls have an enum. The exported calls answer with it, so that a kernel
// in C or Rust reads them without knowing how Rattle lays out an enum.

ghost use Rattle.std.specs.Prelude.{◌≡◌};
ghost use Rattle.spec.specs.Machine.{zero_regs};

use spec::{Answer, UserRegs};

// What a call tells: its kind, 0 for accepted, 1 for refused, 2 for ended and 3 for a range that can't be accessed; if refused or ended,
// the table's number; and its value and registers, zeros where the call has none. A bad address is told as the value.
#[repr(C)]
#[derive(Clone, Copy)]
pub struct Told {
    pub kind: u64,
    pub number: u64,
    pub value: u64,
    pub regs: UserRegs,
}

// An answer without registers.
fn plain(kind: u64, number: u64, value: u64) -> Told
    ensures { result ≡ record { kind = kind; number = number; value = value; regs = zero_regs } }
{
    Told {
        kind,
        number,
        value,
        regs: UserRegs::default(),
    }
}

// A program is entered.
fn entered(regs: UserRegs) -> Told
    ensures { result ≡ record { kind = 0; number = 0; value = 0; regs = regs } }
{
    Told {
        kind: 0,
        number: 0,
        value: 0,
        regs,
    }
}

impl From<Answer> for Told {
    ghost use Rattle.std.specs.Prelude.{◌≡◌};
    ghost use Rattle.holthrimi.specs.Tells.{told_of};

    ghost from_gives = { λ a told. told ≡ told_of a };

    fn from(a: Answer) -> Told {
        match a {
            Answer::Regs(regs) => entered(regs),
            Answer::Value(value) => plain(0, 0, value),
            Answer::Done => plain(0, 0, 0),
            Answer::No(address) => plain(3, 0, address),
            Answer::Refused(number) => plain(1, number, 0),
            Answer::Ended(number) => plain(2, number, 0),
            Answer::RefusedAt(address) => plain(1, spec::BAD_ADDRESS, address),
            Answer::EndedAt(address) => plain(2, spec::BAD_ADDRESS, address),
        }
    }
}
