// The answer of a line. A new line whose answer has a form of its own has an arm here.
use crate::answers::{Hex, Rule, Told};
use crate::map::Map;
use crate::sums::Sums;
use replay_buffers::bytes::Why;
use replay_buffers::room::part;
use replay_script::asked::Asked;
use spec::{Answer, Procs, Setup};
use std::fmt;
use std::fmt::{Display, Formatter, Write};

// What a line asked for, and what was answered; and what the program holds behind it.
#[derive(Clone, Copy)]
pub struct Reply<'a> {
    pub setup: Setup,
    pub procs: &'a Procs,
    pub frames: &'a [u8],
    pub book: &'a [u64],
    pub bytes: &'a [u8],
    pub asked: Result<Asked, Why>,
    pub answer: Answer,
}

// A name as a record keeps it.
fn kept(name: &[u8]) -> [u8; 28] {
    let mut text = [0u8; 28];
    kstr::kstrcpy(&mut text, name);
    text
}

impl<'a> Reply<'a> {
    // The answer of a range: its value says yes.
    fn range<W: Write>(&self, f: &mut Formatter<W>) -> fmt::Result {
        match self.answer {
            Answer::Value(_) => write!(f, "ok yes"),
            answer => Told(answer).fmt(f),
        }
    }

    // The answer of a copy from user memory: its bytes, if they were copied; of the string copy with 35 too, the whole buffer as it is
    // left.
    fn copied<W: Write>(&self, f: &mut Formatter<W>, size: usize) -> fmt::Result {
        Told(self.answer).fmt(f)?;
        match self.answer {
            Answer::Done | Answer::Value(_) | Answer::RefusedAt(_) => {
                let bytes = Hex(part(self.bytes, 0, size));
                write!(f, " {bytes}")
            }
            _ => Ok(()),
        }
    }
}

impl<'a> Display for Reply<'a> {
    fn fmt<W: Write>(&self, f: &mut Formatter<W>) -> fmt::Result {
        match self.asked {
            Err(why) => why.fmt(f)?,
            Ok(Asked::Nothing) => return Ok(()),
            Ok(Asked::Sum) => Sums {
                procs: self.procs,
                book: self.book,
                frames: self.frames,
            }
            .fmt(f)?,
            Ok(Asked::Map { number }) => Map {
                book: self.book,
                procs: self.procs,
                number,
            }
            .fmt(f)?,
            Ok(Asked::Rule { bss, free, addr }) => Rule {
                setup: self.setup,
                bss,
                free,
                addr,
            }
            .fmt(f)?,
            Ok(Asked::Range { .. }) => self.range(f)?,
            Ok(Asked::From { size, .. } | Asked::Text { size, .. }) => self.copied(f, size)?,
            Ok(Asked::Name { size }) => {
                let name = kept(part(self.bytes, 0, size));
                let name = Hex(&name);
                write!(f, "ok {name}")?;
            }
            Ok(_) => Told(self.answer).fmt(f)?,
        }
        write!(f, "\n")
    }
}
