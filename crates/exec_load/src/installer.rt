// The last steps of a start, which replace shares, as r9's exec.rs does in `exec` once nothing can fail any more: an accepted
// image's pages, its arguments on the stack, its record, and the registers to enter it with. It asks that the process has no page
// yet and that the book's mappings are in order, not that the records go with them.

ghost use Rattle.std.specs.Prelude.{◌≡◌, List, ℕ, ◌*◌, ◌-◌, ◌≤◌, ◌<◌, length};
ghost use Rattle.spec.specs.Numbers.{SetupOk};
ghost use Rattle.spec.specs.Book.{frame_count};
ghost use Rattle.spec.specs.Frames.{store};
ghost use Rattle.spec.specs.Exec.{registers};
ghost use Rattle.spec.specs.World.{push_in};
ghost use Rattle.pagealloc.specs.Lent.{Mapped};
ghost use Rattle.image.specs.Images.{program};
ghost use Rattle.exec_load.specs.Installing.{Installable, Fitting, installed, record_of};

use exec::Plan;
use spec::{Proc, Setup, UserRegs};

// Pushes arguments onto the stack of process `number`, whose pages are placed, as `push_args`: the strings, which are the first `size`
// bytes of `buf`, up to the stack's top, and the pointers behind them in `buf` below them. The answer is the registers to start at
// `pc` with. Callers have checked the arguments.
fn push_args(
    setup: Setup,
    frames: &mut [u8],
    book: &[u64],
    number: u64,
    pc: u64,
    buf: &[u8],
    size: usize,
    nargs: usize,
) -> UserRegs
    requires frames_len { (length frames.old ≡ 4096 * frame_count book.now) × (1 ≤ number) × (number ≤ 16) × SetupOk setup }
    requires mapped { Mapped book.now number (setup.ustktop - setup.ustksize) setup.ustktop }
    requires by_index { (args : List (List ℕ)) × Fitting setup args buf.now size nargs }
    ensures { (args : List (List ℕ)) → Fitting setup args buf.now size nargs → (store frames.new book.now ≡ push_in (store frames.old book.now) number setup.ustktop args) × (result ≡ registers pc setup.ustktop args) }
{
    let top = setup.ustktop;
    let regs = exec_args::registers(pc, top, size as u64, nargs as u64);
    let s = top - (size as u64);
    let argv = regs.argv;
    let end = size + 8 * (nargs + 1);
    pagealloc::user::write_user(frames, book, number, s, &buf[..size]);
    pagealloc::user::write_user(frames, book, number, argv, &buf[size..end]);
    regs
}

// The record of a program by its plan, with the last element of `name`, as `set_text`.
pub fn record_of(plan: &Plan, name: &[u8]) -> Proc
    ensures { result ≡ record_of plan.now name.now }
{
    let mut text = [0u8; 28];
    kstr::kstrcpy(&mut text, kstr::elem(name));
    Proc {
        segments: plan.segments,
        text,
        bss: plan.bss,
    }
}

// Installs a plan for process `number`, which has no pages: the image's pages, then its arguments on the stack. The answer is the
// registers to enter it with; its record is `record_of`'s. Callers have checked the arguments and counted the free frames.
pub fn install(
    frames: &mut [u8],
    book: &mut [u64],
    number: u64,
    plan: &Plan,
    buf: &[u8],
    size: usize,
    nargs: usize,
) -> UserRegs
    requires installable { Installable (store frames.old book.old) number plan.now }
    requires by_index { (args : List (List ℕ)) × Fitting plan.now.image.setup args buf.now size nargs }
    ensures { (args : List (List ℕ)) → Fitting plan.now.image.setup args buf.now size nargs → (store frames.new book.new ≡ installed plan.now.image.setup (store frames.old book.old) number (program plan.now.image) args) × (result ≡ registers (program plan.now.image).entry plan.now.image.setup.ustktop args) }
{
    crate::loader::load(frames, book, number, plan);
    push_args(
        plan.image.setup(),
        frames,
        book,
        number,
        plan.entry,
        buf,
        size,
        nargs,
    )
}
