// What a line asks for.
use spec::{Form, Refusal, VirtRange};

// The most frames that there are: one more than a book may have, to try number 1. The longest file, and the longest line.
pub const FRAMES_MAX: usize = 1025;

pub const FILE_MAX: usize = 2097152;

pub const LINE_MAX: usize = 65536;

// An image that is taken: its form, and how many bytes its name and itself have.
#[derive(Clone, Copy)]
pub struct Image {
    pub form: Form,
    pub name: usize,
    pub size: usize,
}

// Arguments that are taken: how many bytes they have, and how many they are.
#[derive(Clone, Copy)]
pub struct Args {
    pub size: usize,
    pub count: usize,
}

// A line by its kind, with what it says. `Nothing` is a line without an answer, and `Refused` one that is refused before any call. The
// bytes and lists that are meant lie in the program's buffers (taken.rt), as many as are said here.
#[derive(Clone, Copy)]
pub enum Asked {
    Nothing,
    Refused(Refusal),
    Frames {
        count: usize,
        fill: u8,
    },
    Numbers {
        utzero: u64,
        ustktop: u64,
        ustksize: u64,
        uaddrtop: u64,
    },
    Flags([u8; 8]),
    Lend {
        bytes: usize,
        words: usize,
    },
    Word {
        place: usize,
        word: u64,
    },
    Start {
        number: u64,
        image: Image,
        args: Args,
    },
    Replace {
        number: u64,
        image: Image,
        argv: u64,
    },
    Push {
        number: u64,
        pc: u64,
        top: u64,
        args: Args,
    },
    Break {
        number: u64,
        addr: u64,
    },
    Fork {
        number: u64,
        child: u64,
    },
    ForkList {
        number: u64,
        child: u64,
        count: usize,
    },
    End {
        number: u64,
    },
    Range {
        number: u64,
        addr: u64,
        len: u64,
        write: bool,
    },
    From {
        number: u64,
        src: u64,
        size: usize,
    },
    To {
        number: u64,
        dst: u64,
        size: usize,
    },
    Text {
        number: u64,
        src: u64,
        size: usize,
    },
    Rule {
        bss: Option<VirtRange>,
        free: u64,
        addr: u64,
    },
    Name {
        size: usize,
    },
    Sum,
    Map {
        number: u64,
    },
}
