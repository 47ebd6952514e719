// The lines of standard input, in one buffer.
use replay_buffers::room::{lent, part, shift};
use replay_buffers::words;
use replay_script::asked::LINE_MAX;
use std::io;
use std::io::Read;

// The input's bytes: those of a line, with one more, by which a longer line is seen to be one, and those that are read at once.
pub(crate) const INPUT_SIZE: usize = LINE_MAX + 1 + 65536;

// The bytes from `at` to `end` aren't taken yet, and if the input has ended, there are no more.
#[derive(Drop)]
pub(crate) struct Input {
    pub(crate) bytes: [u8; INPUT_SIZE],
    pub(crate) at: usize,
    pub(crate) end: usize,
    pub(crate) ended: bool,
}

impl Input {
    // Where the line ends, if it is whole: at its line feed. The last line may lack it.
    fn line_end(&self) -> Option<usize> {
        let there = part(&self.bytes, 0, self.end);
        let end = words::end(there, self.at, b'\n').min(there.len());
        if end < self.end || self.ended {
            Some(end)
        } else {
            None
        }
    }

    // Reads more of a line, behind what there is of it. Of one that is too long no more is kept than shows it.
    fn read<R: Read>(&mut self, from: &mut R) -> io::Result<()> {
        let kept = shift(&mut self.bytes, self.at, self.end).min(LINE_MAX + 1);
        let more = from.read(lent(&mut self.bytes, kept, INPUT_SIZE))?;
        self.at = 0;
        self.end = kept.saturating_add(more);
        self.ended = more == 0;
        Ok(())
    }

    // The next line, without its line feed, or none behind the last.
    pub(crate) fn line<R: Read>(&mut self, from: &mut R) -> io::Result<Option<&[u8]>> {
        // A proved loop has to end, and nothing says that the input does: it has fewer bytes than this.
        for _ in 0..u64::MAX {
            if self.ended && self.end <= self.at {
                return Ok(None);
            }
            if let Some(end) = self.line_end() {
                let line = part(&self.bytes, self.at, end);
                self.at = end.saturating_add(1).min(self.end);
                return Ok(Some(line));
            }
            self.read(from)?;
        }
        Ok(None)
    }
}
