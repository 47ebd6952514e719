// Start: a new process from an image and its arguments, as r9's exec.rs does in `exec`; its last steps stand in crate exec_load. All
// numbers are weighed before the first page is placed.

#![tactic(auto)]

ghost use Rattle.std.specs.Prelude.{◌≡◌, length, IfOk};
ghost use Rattle.spec.specs.Tests.{sum};
ghost use Rattle.spec.specs.Frames.{store};
ghost use Rattle.spec.specs.Exec.{args_of, args_error, registers};
ghost use Rattle.spec.specs.Machine.{start, plainly, call};
ghost use Rattle.spec.specs.Refusals.{number_of};
ghost use Rattle.spec.specs.World.{Does, state_of};
ghost use Rattle.image.specs.Images.{program};
ghost use Rattle.exec.specs.Plan.{SameImage};
ghost use Rattle.exec_load.specs.Installing.{Installable, installed};
ghost use Rattle.call_start.specs.Numbers.{start_number};

use call_front::record::with_proc;
use exec::Plan;
use sound::Lookup;
use spec::{Answer, Form, Left, Procs, Refusal, Setup, UserRegs};

// Installs a plan with arguments that pass, as `install`, by way of a buffer of its own.
fn install_with(
    frames: &mut [u8],
    book: &mut [u64],
    number: u64,
    plan: &Plan,
    bytes: &[u8],
    lengths: &[u64],
) -> UserRegs
    requires installable { Installable (store frames.old book.old) number plan.now }
    requires lengths_value { (sum lengths.now ≡ length bytes.now) × (args_error plan.now.image.setup (args_of bytes.now lengths.now) ≡ 0) }
    ensures book_after { store frames.new book.new ≡ installed plan.now.image.setup (store frames.old book.old) number (program plan.now.image) (args_of bytes.now lengths.now) }
    ensures value { result ≡ registers (program plan.now.image).entry plan.now.image.setup.ustktop (args_of bytes.now lengths.now) }
{
    let mut buf = [0u8; exec_args::BUFFER_SIZE];
    let size = exec_args::args_into(&mut buf, plan.image.setup().ustktop, bytes, lengths);
    exec_load::install(frames, book, number, plan, &buf, size, lengths.len())
}

// The plan of a start, or what it is refused with: 1, 38, 39, 2, 3 or 5, then 32 or 33 for its arguments, 30 or 31 for its image, or 33 if
// the free frames don't hold its pages.
fn start_plan<'a>(
    setup: Setup,
    frames: &[u8],
    book: &[u64],
    procs: &Procs,
    number: u64,
    form: Form,
    image: &'a [u8],
    bytes: &[u8],
    lengths: &[u64],
) -> Result<Plan<'a>, Refusal>
    ensures value { number_of result ≡ start_number (state_of setup frames.now book.now procs.now) number form image.now bytes.now lengths.now }
    ensures planned { IfOk result (λ plan. SameImage plan.image setup form image.now) }
{
    let fits = exec_args::lengths_fit(bytes, lengths);
    let mut lookup = Lookup::new();
    call_front::numbers::begin_ready(setup, frames, book, procs, number, fits, &mut lookup)?;
    exec_args::args_size(setup, bytes, lengths)?;
    let plan = exec::plan_of(setup, form, image)?;
    if plan.pages > book::free_count(book) as u64 {
        return Err(Refusal::NoMemory);
    }
    Ok(plan)
}

// Starts process `number` from an image of the form that the caller names, with the last element of `name` as its name and with
// arguments, which are bytes and lengths. Refused with 1, 38, 39, 2, 3 or 5, then with 32 or 33 for its arguments, 30 or 31 for its
// image, or 33 if the free frames don't hold its pages, it changes nothing.
pub fn start(
    setup: Setup,
    frames: &mut [u8],
    book: &mut [u64],
    procs: Procs,
    number: u64,
    form: Form,
    image: &[u8],
    name: &[u8],
    bytes: &[u8],
    lengths: &[u64],
) -> Left
    ensures { Does (state_of setup frames.old book.old procs) (call number (start form image.now name.now bytes.now lengths.now)) (state_of setup frames.new book.new result.procs) (plainly result.answer) }
{
    match start_plan(
        setup, frames, book, &procs, number, form, image, bytes, lengths,
    ) {
        Ok(plan) => {
            let regs = install_with(frames, book, number, &plan, bytes, lengths);
            Left {
                procs: with_proc(&procs, number, exec_load::record_of(&plan, name)),
                answer: Answer::Regs(regs),
            }
        }
        Err(e) => call_front::refused(&procs, e),
    }
}
