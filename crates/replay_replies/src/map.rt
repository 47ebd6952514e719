// The table of a process: its name, its segments and its bss, each with its pages, and how many pages there are. All lines but the
// first begin with a space. It shows where each page lies and who holds its frame, with a torn book too.
ghost use Rattle.std.specs.Prelude.{◌≤◌};

use crate::answers::Told;
use spec::{Answer, PAGE_SIZE_4K, Proc, Procs, Refusal, VirtRange};
use std::fmt;
use std::fmt::{Display, Formatter, Write};

// The words of a frame in the book: sixteen places, and the count.
const BOOK_WORDS: usize = 17;

// A name without the zeros at its end, with dots for what is no sign, behind a space; nothing for no name.
#[derive(Clone, Copy)]
struct Name<'a>(&'a [u8; 28]);

impl<'a> Display for Name<'a> {
    fn fmt<W: Write>(&self, f: &mut Formatter<W>) -> fmt::Result {
        let name = self.0;
        let Some(last) = name.iter().rposition(|b| *b != 0) else {
            return Ok(());
        };
        let mut signs = [b'.'; 28];
        for (sign, b) in signs.iter_mut().zip(name) {
            if b.is_ascii_graphic() {
                *sign = *b;
            }
        }
        // At once, since each part that is written is one write to standard output.
        match str::from_utf8(&signs[..last + 1]) {
            Ok(text) => write!(f, " {text}"),
            Err(_) => Err(fmt::Error),
        }
    }
}

// The line of a page: its address, and the first frame that has it in its process's place, with the numbers of the frame's places that
// are not 0.
#[derive(Clone, Copy)]
struct Page<'a> {
    book: &'a [u64],
    number: u64,
    page: u64,
}

impl<'a> Display for Page<'a> {
    fn fmt<W: Write>(&self, f: &mut Formatter<W>) -> fmt::Result {
        let page = self.page;
        let place = (self.number.wrapping_sub(1) % 16) as usize;
        write!(f, "\n    page {page}")?;
        for (k, frame) in self.book.chunks_exact(BOOK_WORDS).enumerate() {
            let w = frame[place];
            if book::page_of(w) == page && book::owner_of(w) == self.number {
                write!(f, " frame {k} holders")?;
                for (holder, w) in (1u64..17).zip(frame) {
                    if *w != 0 {
                        write!(f, " {holder}")?;
                    }
                }
                return Ok(());
            }
        }
        write!(f, " frame none")
    }
}

// From the first page of a range up to its end. One that ends past the top of user memory has no pages.
fn paged(r: VirtRange) -> VirtRange
    ensures { result.end ≤ 140737488355328 }
{
    match mem::checked_page_up(r.start) {
        Some(start) if r.end <= spec::MAX_TOP => VirtRange { start, end: r.end },
        _ => VirtRange::default(),
    }
}

// How many pages a range has.
fn page_count(r: VirtRange) -> u64 {
    let pages = paged(r);
    pages.end.saturating_sub(pages.start).div_ceil(PAGE_SIZE_4K)
}

// The line of a segment or the bss, and those of its pages. A range that ends before it starts has no bytes.
#[derive(Clone, Copy)]
struct Part<'a> {
    kind: &'a str,
    book: &'a [u64],
    number: u64,
    range: VirtRange,
}

impl<'a> Display for Part<'a> {
    fn fmt<W: Write>(&self, f: &mut Formatter<W>) -> fmt::Result {
        let Part {
            kind,
            book,
            number,
            range,
        } = *self;
        let VirtRange { start, end } = range;
        let size = end.saturating_sub(start);
        write!(f, "\n  {kind} {start} {end} size {size}")?;
        let pages = paged(range);
        for page in (pages.start..pages.end).step_by(4096) {
            Page { book, number, page }.fmt(f)?;
        }
        Ok(())
    }
}

// What a segment is by its permission, if its place is used.
fn kind(perm: u64) -> Option<&'static str> {
    match perm {
        spec::TEXT => Some("text"),
        spec::RODATA => Some("rodata"),
        spec::DATA => Some("data"),
        _ => None,
    }
}

// The table of a living process.
#[derive(Clone, Copy)]
pub(crate) struct Map<'a> {
    pub(crate) book: &'a [u64],
    pub(crate) procs: &'a Procs,
    pub(crate) number: u64,
}

impl<'a> Map<'a> {
    // The record of the process, or why there is none.
    fn record(&self) -> Result<Proc, Refusal> {
        if !call_front::is_number(self.number) {
            return Err(Refusal::Number);
        }
        if !call_front::lives(self.procs, self.number) {
            return Err(Refusal::Dead);
        }
        Ok(self.procs.all[(self.number - 1) as usize])
    }

    fn table<W: Write>(&self, f: &mut Formatter<W>, p: &Proc) -> fmt::Result {
        let Map { book, number, .. } = *self;
        let name = Name(&p.text);
        write!(f, "process {number}{name}")?;
        let mut pages: u64 = 0;
        for segment in &p.segments {
            if let Some(kind) = kind(segment.perm) {
                let range = segment.range;
                Part {
                    kind,
                    book,
                    number,
                    range,
                }
                .fmt(f)?;
                pages = pages.saturating_add(page_count(range));
            }
        }
        let range = p.bss;
        Part {
            kind: "bss",
            book,
            number,
            range,
        }
        .fmt(f)?;
        pages = pages.saturating_add(page_count(range));
        write!(f, "\n  pages {pages}")
    }
}

impl<'a> Display for Map<'a> {
    fn fmt<W: Write>(&self, f: &mut Formatter<W>) -> fmt::Result {
        match self.record() {
            Ok(p) => self.table(f, &p),
            Err(e) => Told(Answer::from(e)).fmt(f),
        }
    }
}
