// A process's pages, as a call finds their frames: the setup and the book that the call was handed, found as they should be, with the
// lookup that the check of the book has left for the process (`sound::prepare`). The functions of this crate are its methods.

ghost use Rattle.std.specs.Prelude.{◌≤◌};
ghost use Rattle.spec.specs.Numbers.{SetupOk};
ghost use Rattle.sound.specs.Table.{Ready};

use sound::Lookup;
use spec::Setup;

// The pages of process `number`, in a book that is sound.
#[derive(Clone, Copy)]
pub struct UserPages<'a> {
    pub setup: Setup,
    pub book: &'a [u64],
    pub lookup: &'a Lookup,
    pub number: u64,
    ghost accepted: { SetupOk setup },
    ghost ready: { ∥ Ready book.now number lookup.now ∥₁ },
    ghost numbered: { (1 ≤ number) × (number ≤ 16) },
}
