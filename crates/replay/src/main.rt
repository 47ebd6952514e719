// Replays a script of calls from standard input, one call a line, and answers each line: docs/REPLAY.md has the form. A line is read
// into what it asks (crate replay_script), that is run (crate replay_session), and its answer is written (crate replay_replies).

#![tactic(auto)]

mod input;

use input::{INPUT_SIZE, Input};
use replay_buffers::room::part;
use replay_replies::Reply;
use replay_script::asked::{Asked, FRAMES_MAX};
use replay_script::taken::{ARG_BYTES, ARGS, BYTES, Buffers, NAME_SIZE};
use replay_session::{BOOK_SIZE, BOOK_WORDS, FRAME_BYTES, FRAMES_SIZE, Session, run};
use spec::{Proc, Procs};
use std::fmt::Formatter;
use std::io::{Read, Write};
use std::process::ExitCode;
use std::rt::Files;
use std::{fmt, io};

// Why no further line is run.
#[derive(Drop)]
enum Failed {
    Input(io::Error),
    Output(io::Error),
}

impl fmt::Display for Failed {
    fn fmt<W: fmt::Write>(&self, f: &mut Formatter<W>) -> fmt::Result {
        match self {
            Failed::Input(why) => write!(f, "standard input: {why}"),
            Failed::Output(why) => write!(f, "standard output: {why}"),
        }
    }
}

// The program's memory.
#[derive(Drop)]
struct Memory {
    frames: [u8; FRAMES_SIZE],
    book: [u64; BOOK_SIZE],
    buffers: Buffers,
}

// So many frames and no process, under the deposit machine's numbers and the built-in flag table.
fn fresh(count: usize) -> Session {
    let n = count.min(FRAMES_MAX);
    Session {
        procs: Procs {
            all: [Proc::default(); 16],
        },
        setup: setup::deposit(),
        bytes: FRAME_BYTES * n,
        words: BOOK_WORDS * n,
        lent_bytes: FRAME_BYTES * n,
        lent_words: BOOK_WORDS * n,
    }
}

// What is held for a line and behind it.
fn after(s: Session, a: Asked) -> Session {
    let mut next = s;
    match a {
        Asked::Frames { count, .. } => next = fresh(count),
        Asked::Lend { bytes, words } => {
            next.lent_bytes = bytes;
            next.lent_words = words;
        }
        Asked::Numbers {
            utzero,
            ustktop,
            ustksize,
            uaddrtop,
        } => {
            next.setup.utzero = utzero;
            next.setup.ustktop = ustktop;
            next.setup.ustksize = ustksize;
            next.setup.uaddrtop = uaddrtop;
        }
        Asked::Flags(flags) => next.setup.flags = flags,
        _ => {}
    }
    next
}

// Runs and answers a line, and gives what is held behind it.
fn turn<W: Write>(
    rt: &impl Files,
    out: &mut W,
    memory: &mut Memory,
    s: Session,
    line: &[u8],
) -> io::Result<Session> {
    let asked = replay_script::read(rt, &mut memory.buffers, line, s.bytes, s.words);
    let a = asked.unwrap_or(Asked::Nothing);
    let mut next = after(s, a);
    run::set(&mut memory.book, a);
    let left = run::run(
        &mut memory.frames,
        &mut memory.book,
        &mut memory.buffers,
        &next,
        a,
    );
    next.procs = left.procs;
    let reply = Reply {
        setup: next.setup,
        procs: &next.procs,
        frames: part(&memory.frames, 0, next.bytes),
        book: part(&memory.book, 0, next.words),
        bytes: &memory.buffers.bytes,
        asked,
        answer: left.answer,
    };
    write!(out, "{reply}")?;
    Ok(next)
}

// Runs and answers each line.
fn replay<R: Read, W: Write>(
    rt: &impl Files,
    from: &mut R,
    out: &mut W,
    memory: &mut Memory,
) -> Result<(), Failed> {
    let mut input = Input {
        bytes: [0; INPUT_SIZE],
        at: 0,
        end: 0,
        ended: false,
    };
    let mut s = fresh(0);
    // A proved loop has to end: an input has fewer lines than this.
    for _ in 0..u64::MAX {
        let Some(line) = input.line(from).map_err(Failed::Input)? else {
            return Ok(());
        };
        s = turn(rt, out, memory, s, line).map_err(Failed::Output)?;
    }
    Ok(())
}

fn main(rt: HostRuntime) -> ExitCode {
    let mut memory = Memory {
        frames: [0; FRAMES_SIZE],
        book: [0; BOOK_SIZE],
        buffers: Buffers {
            name: [0; NAME_SIZE],
            args: [0; ARG_BYTES],
            list: [0; ARGS],
            bytes: [0; BYTES],
        },
    };
    let (mut from, mut out) = (rt.stdin(), rt.stdout());
    match replay(&rt, &mut from, &mut out, &mut memory) {
        Ok(()) => ExitCode::SUCCESS,
        Err(failed) => {
            let _ = eprintln!(rt; "replay: {failed}");
            ExitCode::FAILURE
        }
    }
}
