// The types that calls take and give back, as r9's dat.rs and mem.rs declare them, and the types of their answers.
// Every definition that a contract cites is over these; the definitions stand in specs/.

#![tactic(auto)]

// A page is mem.rs's.
pub const PAGE_SIZE_4K: u64 = 4096;

// No user address space ends above this.
pub const MAX_TOP: u64 = 140737488355328;

// What arguments may take of the largest stack that a setup may have: buffers are of this size.
pub const MAX_ARGS: u64 = 16384;

// What is fixed before the first start and handed to every call: the machine's numbers, as fake.rs has them for its own, and the flag
// table, which r9 has in its code.
#[repr(C)]
#[derive(Clone, Copy)]
pub struct Setup {
    // Where user text may begin.
    pub utzero: u64,
    // The top of the user stack, and its size.
    pub ustktop: u64,
    pub ustksize: u64,
    // The end of the user address space.
    pub uaddrtop: u64,
    // What the low three bits of a segment's flags stand for, a row for each value: a permission below, or 0 for refused.
    pub flags: [u8; 8],
}

// Permissions of segments and pages. They are numbers, since records, which C lays out and may fill with any number, and book words hold
// them so.
pub const TEXT: u64 = 1;

pub const RODATA: u64 = 2;

pub const DATA: u64 = 3;

// The number that comes with a bad address, which is told beside it.
pub const BAD_ADDRESS: u64 = 35;

// A range of user addresses, from `start` up to, but not including, `end`.
#[repr(C)]
#[derive(Clone, Copy, Debug, Default, PartialEq, Eq)]
pub struct VirtRange {
    pub start: u64,
    pub end: u64,
}

// A segment of a process's memory: whole pages, all mapped with `perm`: 1 text, 2 rodata, 3 data, and 0 in an unused place.
#[repr(C)]
#[derive(Clone, Copy, Debug, Default, PartialEq, Eq)]
pub struct UserSegment {
    pub range: VirtRange,
    pub perm: u64,
}

// What a process's record holds: its text, rodata, data and stack, its name, and the bss, which the break grows and shrinks.
// All zero: no process.
#[repr(C)]
#[derive(Clone, Copy, Default)]
pub struct Proc {
    pub segments: [UserSegment; 16],
    pub text: [u8; 28],
    pub bss: VirtRange,
}

// The records of processes 1 to 16.
#[repr(C)]
#[derive(Clone, Copy)]
pub struct Procs {
    pub all: [Proc; 16],
}

// What a program starts with: its pc and stack pointer, and argc and argv.
#[repr(C)]
#[derive(Clone, Copy, Debug, Default, PartialEq, Eq)]
pub struct UserRegs {
    pub pc: u64,
    pub sp: u64,
    pub argc: u64,
    pub argv: u64,
}

// What a call answers. A refusal is told by its number: the definitions and theorems of specs/ and C speak of numbers (World `answer`,
// holthrimi's Told).
#[derive(Clone, Copy)]
pub enum Answer {
    // Accepted, with the registers to enter a program with: start, replace, push.
    Regs(UserRegs),
    // Accepted, with a value: a break's; a string's length; of a range that can be accessed 1.
    Value(u64),
    // Accepted: fork, end and the two copies.
    Done,
    // Accepted: a range that can't be accessed, with the bad address.
    No(u64),
    // Refused with a number of the table other than 35. Nothing changed.
    Refused(u64),
    // Refused with a number of the table other than 35, and the process has ended.
    Ended(u64),
    // Refused with 35, with the bad address: the string copy called by itself. Nothing changed but its buffer.
    RefusedAt(u64),
    // Refused with 35, with the bad address, and the process has ended.
    EndedAt(u64),
}

// The records after a call, and its answer.
#[derive(Clone, Copy)]
pub struct Left {
    pub procs: Procs,
    pub answer: Answer,
}

// The form that an image is read in: ELF, or Plan 9's a.out, with the magic that is expected: two kinds, neither of which is a missing
// one.
#[derive(Clone, Copy)]
pub enum Form {
    Elf,
    Aout(u32),
}

// Why an ELF image isn't a loadable executable, in the order of the checks: numbers 11 to 27, with 28 after 23.
#[derive(Clone, Copy, Debug, PartialEq, Eq)]
pub enum ElfError {
    // Shorter than an ELF header.
    Truncated,
    BadMagic,
    NotElf64,
    NotLittleEndian,
    BadVersion,
    // Not ET_EXEC: shared objects and PIEs aren't supported.
    NotExecutable,
    NotAarch64,
    BadPhentsize,
    // The entry point isn't on an instruction boundary.
    MisalignedEntry,
    // The program headers aren't all within the image.
    PhdrsOutOfRange,
    FileszOverMemsz,
    // A segment's file bytes aren't all within the image.
    SegmentOutOfRange,
    // A segment's address and file offset differ within a page.
    Misaligned,
    // A segment's alignment isn't 0, 1 or a power of two, or its address and file offset differ modulo it.
    BadAlign,
    // A segment ends past the top of the address space.
    Overflow,
    // A segment is writable and executable, or isn't readable.
    BadFlags,
    // Segments aren't in ascending order, or two share a page.
    Unordered,
    // The entry point isn't in a text segment.
    EntryNotInText,
}

impl From<ElfError> for u64 {
    ghost use Rattle.std.specs.Prelude.{◌≡◌};
    ghost use Rattle.spec.specs.Elf.{error_number};

    ghost from_gives = { λ e number. number ≡ error_number e };

    // The number of an error in the table of refusals.
    fn from(e: ElfError) -> u64 {
        match e {
            ElfError::Truncated => 11,
            ElfError::BadMagic => 12,
            ElfError::NotElf64 => 13,
            ElfError::NotLittleEndian => 14,
            ElfError::BadVersion => 15,
            ElfError::NotExecutable => 16,
            ElfError::NotAarch64 => 17,
            ElfError::BadPhentsize => 18,
            ElfError::MisalignedEntry => 19,
            ElfError::PhdrsOutOfRange => 20,
            ElfError::FileszOverMemsz => 21,
            ElfError::SegmentOutOfRange => 22,
            ElfError::Misaligned => 23,
            ElfError::BadAlign => 28,
            ElfError::Overflow => 24,
            ElfError::BadFlags => 25,
            ElfError::Unordered => 26,
            ElfError::EntryNotInText => 27,
        }
    }
}

// Why a call, an image or a file is refused: the table of refusals but for 35, which comes with a bad address.
#[derive(Clone, Copy, Debug, PartialEq, Eq)]
pub enum Refusal {
    // 1: frames and book don't have the sizes, or the lengths of arguments don't sum to their bytes.
    Sizes,
    // 2: book and records don't go together.
    Torn,
    // 3: no process has such a number.
    Number,
    // 4: the process doesn't live.
    Dead,
    // 5: the process lives already.
    Taken,
    // 11 to 28: the ELF reader's; an a.out is refused with two of them too.
    Elf(ElfError),
    // 30: the image can't be read, or its layout isn't right (EBADEXEC).
    BadExec,
    // 31: the image has too many segments.
    Segments,
    // 32: a NUL in an argument, or a break without a bss (EBADARG).
    BadArg,
    // 33: too large an argument, or too few free frames (ENOVMEM).
    NoMemory,
    // 34: the break meets the stack's guard page (ESOVERLAP).
    Overlap,
    // 36: the top of a push isn't 16-byte aligned.
    Top,
    // 37: the lines of a file of numbers.
    SetupLines,
    // 38: the setup's numbers.
    SetupNumbers,
    // 39: the flag table.
    FlagTable,
    // 42: not an a.out with the magic.
    NotAout,
    // 43: an a.out's text and data aren't all within the image.
    AoutOutOfRange,
}

impl From<ElfError> for Refusal {
    ghost use Rattle.std.specs.Prelude.{◌≡◌};
    ghost use Rattle.spec.specs.declared.Refusal.{Refusal};

    ghost from_gives = { λ e r. r ≡ Refusal.Elf e };

    fn from(e: ElfError) -> Refusal {
        Refusal::Elf(e)
    }
}

impl From<Refusal> for u64 {
    ghost use Rattle.std.specs.Prelude.{◌≡◌};
    ghost use Rattle.spec.specs.Refusals.{refusal_number};

    ghost from_gives = { λ r number. number ≡ refusal_number r };

    // The number of a refusal in the table.
    fn from(r: Refusal) -> u64 {
        match r {
            Refusal::Sizes => 1,
            Refusal::Torn => 2,
            Refusal::Number => 3,
            Refusal::Dead => 4,
            Refusal::Taken => 5,
            Refusal::Elf(e) => u64::from(e),
            Refusal::BadExec => 30,
            Refusal::Segments => 31,
            Refusal::BadArg => 32,
            Refusal::NoMemory => 33,
            Refusal::Overlap => 34,
            Refusal::Top => 36,
            Refusal::SetupLines => 37,
            Refusal::SetupNumbers => 38,
            Refusal::FlagTable => 39,
            Refusal::NotAout => 42,
            Refusal::AoutOutOfRange => 43,
        }
    }
}

impl From<Refusal> for Answer {
    ghost use Rattle.std.specs.Prelude.{◌≡◌};
    ghost use Rattle.spec.specs.Refusals.{refusal_number};
    ghost use Rattle.spec.specs.declared.Answer.{Answer};

    ghost from_gives = { λ r answer. answer ≡ Answer.Refused (refusal_number r) };

    // Refused, and nothing changed.
    fn from(r: Refusal) -> Answer {
        Answer::Refused(u64::from(r))
    }
}
