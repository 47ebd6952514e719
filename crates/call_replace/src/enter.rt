// The last steps of replace, as r9's exec.rs does in `sysexec` past the point of no return: the process's pages are freed, and it
// enters the image, or ends. Its caller has checked everything but the frames.

ghost use Rattle.std.specs.Prelude.{◌≡◌, List, ℕ};
ghost use Rattle.spec.specs.Frames.{store};
ghost use Rattle.spec.specs.World.{state_of};
ghost use Rattle.image.specs.Images.{program};
ghost use Rattle.exec_load.specs.Installing.{Fitting};
ghost use Rattle.call_replace.specs.Entering.{Enterable, entered, entering};

use call_front::ending::end_process;
use call_front::record::set_proc;
use exec::Plan;
use spec::{Answer, Procs, Refusal};

// Past the point of no return: the old pages are freed, as `replace_pmmu` does, and the image is installed, as `exec` does. If the
// frames that the process holds alone and the free ones don't hold its pages, it ends with 33.
pub fn enter(
    frames: &mut [u8],
    book: &mut [u64],
    procs: &mut Procs,
    number: u64,
    plan: &Plan,
    name: &[u8],
    buf: &[u8],
    size: usize,
    nargs: usize,
) -> Answer
    requires enterable { Enterable (store frames.old book.old) number plan.now }
    requires by_index { (args : List (List ℕ)) × Fitting plan.now.image.setup args buf.now size nargs }
    ensures { (args : List (List ℕ)) → Fitting plan.now.image.setup args buf.now size nargs → (state_of plan.now.image.setup frames.new book.new procs.new ≡ entered (state_of plan.now.image.setup frames.old book.old procs.old) number (program plan.now.image) name.now args) × (result ≡ entering (state_of plan.now.image.setup frames.old book.old procs.old) number (program plan.now.image) args) }
{
    let own = book::alone_count(book, number) as u64;
    let free = book::free_count(book) as u64;
    let room = own + free;
    end_process(book, procs, number);
    if plan.pages > room {
        return Answer::Ended(u64::from(Refusal::NoMemory));
    }
    let regs = exec_load::install(frames, book, number, plan, buf, size, nargs);
    set_proc(procs, number, exec_load::record_of(plan, name));
    Answer::Regs(regs)
}
