// The bytes and lists that the words of a line give, put into the program's buffers.
use crate::asked::{Args, FILE_MAX};
use replay_buffers::bytes::Why;
use replay_buffers::{bytes, room, words};
use std::rt::Files;

// As much of a name as a record keeps.
pub const NAME_SIZE: usize = 28;

// As many bytes of arguments as are over the limit of a start or push, and so many arguments that they are over it too.
pub const ARG_BYTES: usize = spec::MAX_ARGS as usize;

pub const ARGS: usize = ARG_BYTES / 8;

// One more byte than a file may have, by which a longer one is seen to be one.
pub const BYTES: usize = FILE_MAX + 1;

// A name; the bytes of arguments; their lengths, or the numbers of a list of segments; and other bytes.
#[derive(Drop)]
pub struct Buffers {
    pub name: [u8; NAME_SIZE],
    pub args: [u8; ARG_BYTES],
    pub list: [u64; ARGS],
    pub bytes: [u8; BYTES],
}

// What a word is as a number.
pub(crate) fn number(word: &[u8]) -> Result<u64, Why> {
    words::decimal(word).ok_or(Why::Bad)
}

impl Buffers {
    // Takes the bytes that a word gives, and answers how many these are.
    pub(crate) fn take(&mut self, rt: &impl Files, word: &[u8]) -> Result<usize, Why> {
        bytes::take(rt, &mut self.bytes, word)
    }

    // Takes the name that a word gives: what follows its last `/`.
    pub(crate) fn take_name(&mut self, rt: &impl Files, word: &[u8]) -> Result<usize, Why> {
        let n = self.take(rt, word)?;
        let name = kstr::elem(room::part(&self.bytes, 0, n));
        Ok(bytes::put(&mut self.name, name))
    }

    // Takes an argument behind others. One that there is no room for is cut, and those behind the last place belong to the last: there
    // are too many or too long ones then, and stay so. The first byte of all becomes a NUL if the argument has one: the answer then is
    // that of a NUL, though what is cut off may have it.
    fn take_arg(&mut self, rt: &impl Files, word: &[u8], others: Args) -> Result<Args, Why> {
        let n = self.take(rt, word)?;
        let arg = room::part(&self.bytes, 0, n);
        let size = bytes::put(room::lent(&mut self.args, others.size, ARG_BYTES), arg);
        if exec_args::has_nul(arg) {
            self.args[0] = 0;
        }
        let i = others.count.min(ARGS - 1);
        self.list[i] = self.list[i].saturating_add(size as u64);
        Ok(Args {
            size: others.size + size,
            count: i + 1,
        })
    }

    // Takes word `first` and those behind it as arguments.
    pub(crate) fn take_args(
        &mut self,
        rt: &impl Files,
        line: &[u8],
        first: usize,
    ) -> Result<Args, Why> {
        self.list = [0; ARGS];
        let mut args = Args { size: 0, count: 0 };
        for word in line.split(|b| *b == b' ').skip(first) {
            args = self.take_arg(rt, word, args)?;
        }
        Ok(args)
    }

    // Takes word `first` and those behind it as numbers, as many as there is room for, and answers how many these are.
    pub(crate) fn take_list(&mut self, line: &[u8], first: usize) -> Result<usize, Why> {
        let mut count: usize = 0;
        for word in line.split(|b| *b == b' ').skip(first) {
            let i = count.min(ARGS - 1);
            self.list[i] = number(word)?;
            count = i + 1;
        }
        Ok(count)
    }
}
