// The answers of calls, and bytes.
use spec::{Answer, Refusal, Setup, VirtRange};
use std::fmt;
use std::fmt::{Display, Formatter, Write};

// A call's answer.
#[derive(Clone, Copy)]
pub(crate) struct Told(pub(crate) Answer);

impl Display for Told {
    fn fmt<W: Write>(&self, f: &mut Formatter<W>) -> fmt::Result {
        match self.0 {
            Answer::Regs(r) => {
                let spec::UserRegs { pc, sp, argc, argv } = r;
                write!(f, "ok pc={pc} sp={sp} argc={argc} argv={argv}")
            }
            Answer::Value(value) => write!(f, "ok {value}"),
            Answer::Done => write!(f, "ok"),
            Answer::No(addr) => write!(f, "ok no {addr}"),
            Answer::Refused(number) => write!(f, "refused {number}"),
            Answer::Ended(number) => write!(f, "ended {number}"),
            Answer::RefusedAt(addr) => write!(f, "refused 35 {addr}"),
            Answer::EndedAt(addr) => write!(f, "ended 35 {addr}"),
        }
    }
}

// The hex digit of a number below 16, in lower case; of another, that of its last four bits.
fn digit(n: u8) -> u8 {
    let digits = b"0123456789abcdef";
    digits[usize::from(n % 16)]
}

// Bytes: two hex digits each, or `-` for none.
#[derive(Clone, Copy)]
pub(crate) struct Hex<'a>(pub(crate) &'a [u8]);

impl<'a> Display for Hex<'a> {
    fn fmt<W: Write>(&self, f: &mut Formatter<W>) -> fmt::Result {
        if self.0.is_empty() {
            return write!(f, "-");
        }
        // By parts, since what is written at once is one write to standard output.
        for part in self.0.chunks(2048) {
            let mut text = [b'0'; 4096];
            for (pair, b) in text.chunks_exact_mut(2).zip(part) {
                pair[0] = digit(b / 16);
                pair[1] = digit(*b);
            }
            let Ok(text) = str::from_utf8(&text[..text.len().min(2 * part.len())]) else {
                return Err(fmt::Error);
            };
            write!(f, "{text}")?;
        }
        Ok(())
    }
}

// The answer of the break's rule: its value, and the bss's start and end.
#[derive(Clone, Copy)]
pub(crate) struct Rule {
    pub(crate) setup: Setup,
    pub(crate) bss: Option<VirtRange>,
    pub(crate) free: u64,
    pub(crate) addr: u64,
}

impl Rule {
    fn answer(&self) -> Result<segment::Break, Refusal> {
        setup::check(self.setup)?;
        segment::ibrk(self.setup, self.bss, self.addr, self.free)
    }
}

impl Display for Rule {
    fn fmt<W: Write>(&self, f: &mut Formatter<W>) -> fmt::Result {
        match self.answer() {
            Ok(segment::Break { value, bss }) => {
                let VirtRange { start, end } = bss;
                write!(f, "ok {value} {start} {end}")
            }
            Err(e) => Told(Answer::from(e)).fmt(f),
        }
    }
}
