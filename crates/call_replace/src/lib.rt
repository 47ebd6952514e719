// Replace: a process becomes another program, as r9's exec.rs does in `sysexec` once it has read the image; its last steps stand in
// module enter. Arguments are read and all but the frames is checked before the old pages go.

#![tactic(auto)]

mod enter;

ghost use Rattle.std.specs.Prelude.{◌≡◌, IfOk, OnOk};
ghost use Rattle.spec.specs.Frames.{mem_of, store};
ghost use Rattle.spec.specs.Exec.{copy_argv};
ghost use Rattle.spec.specs.Machine.{replace, plainly, call};
ghost use Rattle.spec.specs.Refusals.{number_of};
ghost use Rattle.spec.specs.World.{Does, state_of};
ghost use Rattle.sound.specs.Table.{Zeros, Ready};
ghost use Rattle.image.specs.Images.{program};
ghost use Rattle.exec.specs.Plan.{SameImage};
ghost use Rattle.call_replace.specs.Entering.{Enterable};
ghost use Rattle.call_replace.specs.Becoming.{replace_number, Became};

use call_front::ending::end_process;
use exec::Plan;
use exec_argv::ArgvError;
use sound::Lookup;
use spec::{Answer, Form, Left, Procs, Refusal, Setup};
use uaccess::UserPages;

// The plan of a replace, with the call's lookup, or what it is refused with before its arguments are read: 1, 38, 39 or 2 to 4, then 30 or
// 31 for its image.
fn replace_plan<'a>(
    setup: Setup,
    frames: &[u8],
    book: &[u64],
    procs: &Procs,
    number: u64,
    form: Form,
    image: &'a [u8],
    lookup: &mut Lookup,
) -> Result<Plan<'a>, Refusal>
    requires { Zeros lookup.old }
    ensures value { number_of result ≡ replace_number (state_of setup frames.now book.now procs.now) number form image.now }
    ensures planned { IfOk result (λ plan. SameImage plan.image setup form image.now) }
    ensures ready { OnOk result (Ready book.now number lookup.new) }
{
    call_front::numbers::plain_ready(setup, frames, book, procs, number, true, lookup)?;
    let plan = exec::plan_of(setup, form, image)?;
    Ok(plan)
}

// Reads the arguments that the array of pointers at user address `argv` points to, and enters the image with them. A bad address among
// them, 35, ends the process, and is told; arguments over the limit, 33, leave it as it was.
fn enter_argv(
    frames: &mut [u8],
    book: &mut [u64],
    lookup: &Lookup,
    procs: &mut Procs,
    number: u64,
    plan: &Plan,
    name: &[u8],
    argv: u64,
) -> Answer
    requires ready { Ready book.old number lookup.now }
    requires enterable { Enterable (store frames.old book.old) number plan.now }
    ensures { Became (state_of plan.now.image.setup frames.old book.old procs.old) number (program plan.now.image) name.now (copy_argv plan.now.image.setup (mem_of (store frames.old book.old) number) argv) (state_of plan.now.image.setup frames.new book.new procs.new) result }
{
    let setup = plan.image.setup();
    let pages = UserPages {
        setup,
        book,
        lookup,
        number,
    };
    let mut buf = [0u8; exec_args::BUFFER_SIZE];
    match exec_argv::copy_argv(&pages, frames, argv, &mut buf) {
        Ok(strings) => {
            let used = strings.used;
            let count = strings.count;
            exec_args::pointers_behind(&mut buf, setup.ustktop, used, count);
            crate::enter::enter(frames, book, procs, number, plan, name, &buf, used, count)
        }
        Err(ArgvError::Bad(address)) => {
            end_process(book, procs, number);
            Answer::EndedAt(address)
        }
        Err(ArgvError::Over) => Answer::from(Refusal::NoMemory),
    }
}

// Replaces the program of process `number` by an image of the form that the caller names, with the last element of `name` as its name
// and with the arguments that the array of pointers at user address `argv` points to. Refused with 1, 38, 39 or 2 to 4, with 30 or 31
// for its image, or with 33 for its arguments, it changes nothing. A bad address among the arguments, 35, ends the process, and is told;
// 33 ends it if the frames that it holds alone and the free ones don't hold the image's pages.
pub fn replace(
    setup: Setup,
    frames: &mut [u8],
    book: &mut [u64],
    procs: Procs,
    number: u64,
    form: Form,
    image: &[u8],
    name: &[u8],
    argv: u64,
) -> Left
    ensures { Does (state_of setup frames.old book.old procs) (call number (replace form image.now name.now argv)) (state_of setup frames.new book.new result.procs) (plainly result.answer) }
{
    let mut lookup = Lookup::new();
    let mut after = procs;
    let answer = match replace_plan(
        setup,
        frames,
        book,
        &after,
        number,
        form,
        image,
        &mut lookup,
    ) {
        Ok(plan) => enter_argv(frames, book, &lookup, &mut after, number, &plan, name, argv),
        Err(e) => Answer::from(e),
    };
    Left {
        procs: after,
        answer,
    }
}
