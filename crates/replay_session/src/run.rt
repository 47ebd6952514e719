// The calls that lines ask for. A new line of a call has an arm here.
ghost use Rattle.replay_session.specs.Setting.{BookSet};

use crate::{BOOK_SIZE, Session};
use replay_buffers::room::{lent, part};
use replay_script::asked::Asked;
use replay_script::taken::Buffers;
use spec::{Answer, Left, Procs};

// What every byte of a buffer that a copy is lent first is.
const BLANK: u8 = 238;

// An answer that leaves the records as they are.
fn same(procs: Procs, answer: Answer) -> Left {
    Left { procs, answer }
}

// Makes the book what a line says.
pub fn set(book: &mut [u64; BOOK_SIZE], a: Asked)
    ensures { BookSet a book.old book.new }
{
    match a {
        Asked::Frames { .. } => *book = [0; BOOK_SIZE],
        Asked::Word { place, word } => {
            if place < BOOK_SIZE {
                book[place] = word;
            }
        }
        _ => {}
    }
}

// Runs what a line asks, over as much of frames and book as is lent.
pub fn run(frames: &mut [u8], book: &mut [u64], b: &mut Buffers, s: &Session, a: Asked) -> Left {
    let setup = s.setup;
    let procs = s.procs;
    let frames = lent(frames, 0, s.lent_bytes);
    let book = lent(book, 0, s.lent_words);
    match a {
        Asked::Start {
            number,
            image,
            args,
        } => {
            let bytes = part(&b.bytes, 0, image.size);
            let name = part(&b.name, 0, image.name);
            let strings = part(&b.args, 0, args.size);
            let lengths = part(&b.list, 0, args.count);
            call::start(
                setup, frames, book, procs, number, image.form, bytes, name, strings, lengths,
            )
        }
        Asked::Replace {
            number,
            image,
            argv,
        } => {
            let bytes = part(&b.bytes, 0, image.size);
            let name = part(&b.name, 0, image.name);
            call::replace(
                setup, frames, book, procs, number, image.form, bytes, name, argv,
            )
        }
        Asked::Push {
            number,
            pc,
            top,
            args,
        } => {
            let strings = part(&b.args, 0, args.size);
            let lengths = part(&b.list, 0, args.count);
            call::push(
                setup, frames, book, procs, number, pc, top, strings, lengths,
            )
        }
        Asked::Break { number, addr } => call::brk(setup, frames, book, procs, number, addr),
        Asked::Fork { number, child } => call::fork(setup, frames, book, procs, number, child),
        Asked::ForkList {
            number,
            child,
            count,
        } => {
            let triples = part(&b.list, 0, count);
            crate::listed::fork_triples(setup, frames, book, procs, number, child, triples)
        }
        Asked::End { number } => call::end(setup, frames, book, procs, number),
        Asked::From { number, src, size } => {
            let dst = lent(&mut b.bytes, 0, size);
            dst.fill(BLANK);
            call::copy_from_user(setup, frames, book, procs, number, dst, src)
        }
        Asked::To { number, dst, size } => {
            let bytes = part(&b.bytes, 0, size);
            call::copy_to_user(setup, frames, book, procs, number, dst, bytes)
        }
        Asked::Range {
            number,
            addr,
            len,
            write,
        } => {
            let answer = call::user_range_ok(setup, frames, book, procs, number, addr, len, write);
            same(procs, answer)
        }
        Asked::Text { number, src, size } => {
            let dst = lent(&mut b.bytes, 0, size);
            dst.fill(BLANK);
            let answer = call::try_copy_str_from_user(setup, frames, book, procs, number, dst, src);
            same(procs, answer)
        }
        Asked::Frames { fill, .. } => {
            frames.fill(fill);
            same(procs, Answer::Done)
        }
        Asked::Refused(e) => same(procs, Answer::from(e)),
        _ => same(procs, Answer::Done),
    }
}
