// What the program replay holds: records, setup and sizes; and the calls that lines ask for.

#![tactic(auto)]

mod listed;
pub mod run;

use replay_script::asked::FRAMES_MAX;
use spec::{Procs, Setup};

// The program's buffers of frames' bytes and of words of their book.
pub const FRAME_BYTES: usize = 4096;

pub const BOOK_WORDS: usize = 17;

pub const FRAMES_SIZE: usize = FRAMES_MAX * FRAME_BYTES;

pub const BOOK_SIZE: usize = FRAMES_MAX * BOOK_WORDS;

// Records and setup; how many bytes the frames have, and how many words their book; and how many of these a call is lent.
#[derive(Clone, Copy)]
pub struct Session {
    pub procs: Procs,
    pub setup: Setup,
    pub bytes: usize,
    pub words: usize,
    pub lent_bytes: usize,
    pub lent_words: usize,
}
