// CRC-32, as in gzip, of records, book and frames, summed in parts: from all ones, with all ones added to the last sum. Two programs
// whose sums agree after each call hold the same memory.
use spec::{Proc, Procs, VirtRange};
use std::fmt;
use std::fmt::{Display, Formatter, Write};

// The sum of nothing, and what is added to a sum at its end; and the polynomial.
const ONES: u32 = 0xffff_ffff;

const POLYNOMIAL: u32 = 0xedb8_8320;

// The sum with one bit more, that at its low end added already.
fn bit(sum: u32) -> u32 {
    sum / 2 ^ POLYNOMIAL * (sum % 2)
}

// The sum with more bytes.
fn bytes_sum(sum: u32, bytes: &[u8]) -> u32 {
    bytes.iter().fold(
        sum,
        |sum, b| (0..8).fold(sum ^ u32::from(*b), |sum, _| bit(sum)),
    )
}

// The sum with more words, eight bytes each, little-endian.
fn words_sum(sum: u32, words: &[u64]) -> u32 {
    words
        .iter()
        .fold(sum, |sum, w| bytes_sum(sum, &w.to_le_bytes()))
}

// The sum with a range: its start and end.
fn range_sum(sum: u32, r: VirtRange) -> u32 {
    words_sum(sum, &[r.start, r.end])
}

// The sum with a record: start, end and permission of each segment, its name, and its bss.
fn record_sum(sum: u32, p: &Proc) -> u32 {
    let segments = p.segments.iter().fold(
        sum,
        |sum, s| words_sum(range_sum(sum, s.range), &[s.perm]),
    );
    range_sum(bytes_sum(segments, &p.text), p.bss)
}

// The sums of all records, of book words and of the bytes of frames, in eight hex digits each.
#[derive(Clone, Copy)]
pub(crate) struct Sums<'a> {
    pub(crate) procs: &'a Procs,
    pub(crate) book: &'a [u64],
    pub(crate) frames: &'a [u8],
}

impl<'a> Display for Sums<'a> {
    fn fmt<W: Write>(&self, f: &mut Formatter<W>) -> fmt::Result {
        let records = self.procs.all.iter().fold(ONES, record_sum) ^ ONES;
        let book = words_sum(ONES, self.book) ^ ONES;
        let frames = bytes_sum(ONES, self.frames) ^ ONES;
        write!(
            f,
            "records={records:08x} book={book:08x} frames={frames:08x}"
        )
    }
}
