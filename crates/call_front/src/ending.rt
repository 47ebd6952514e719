// A process that ends, a call that is refused, and one that meets a bad address.

ghost use Rattle.std.specs.Prelude.{◌≡◌, true, List, ℕ};
ghost use Rattle.spec.specs.Book.{valid};
ghost use Rattle.spec.specs.Refusals.{refusal_number};
ghost use Rattle.spec.specs.World.{forget, state_of};
ghost use Rattle.spec.specs.declared.Setup.{Setup};
ghost use Rattle.spec.specs.declared.Answer.TheVariants.{Refused, EndedAt};

use spec::{Answer, Left, Procs, Refusal};

// A process ends, as `bad_address` ends it: its frames lose a holder and keep their bytes, and its record is zero, in place.
pub fn end_process(book: &mut [u64], procs: &mut Procs, number: u64)
    requires { valid number ≡ true }
    ensures { (setup : Setup) (frames : List ℕ) → state_of setup frames book.new procs.new ≡ forget (state_of setup frames book.old procs.old) number }
{
    book::release_owner(book, number as usize);
    crate::record::set_proc(procs, number, crate::record::zero_proc());
}

// The same, but it hands back the records, and leaves those that it took.
pub fn forget(book: &mut [u64], procs: &Procs, number: u64) -> Procs
    requires { valid number ≡ true }
    ensures { (setup : Setup) (frames : List ℕ) → state_of setup frames book.new result ≡ forget (state_of setup frames book.old procs.now) number }
{
    let mut after = *procs;
    end_process(book, &mut after, number);
    after
}

// What a call leaves that is refused: the records as they were.
pub fn refused(procs: &Procs, e: Refusal) -> Left
    ensures { result ≡ record { procs = procs.now; answer = Refused (refusal_number e) } }
{
    Left {
        procs: *procs,
        answer: Answer::from(e),
    }
}

// What a call leaves that meets a bad address, 35: the process has ended.
pub fn bad_address(book: &mut [u64], procs: &Procs, number: u64, address: u64) -> Left
    requires { valid number ≡ true }
    ensures ends { (setup : Setup) (frames : List ℕ) → state_of setup frames book.new result.procs ≡ forget (state_of setup frames book.old procs.now) number }
    ensures says { result.answer ≡ EndedAt address }
{
    Left {
        procs: forget(book, procs, number),
        answer: Answer::EndedAt(address),
    }
}
