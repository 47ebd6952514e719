// Plan 9's executables, by a.out(6): a header of eight 32-bit big-endian words, which a.out.h calls `Exec`, then the bytes of text and of
// data. The image is untrusted, so that every read lies in it and no sum wraps. Header and text are one segment at UTZERO, data and bss
// another from the next page on.

ghost use Rattle.std.specs.Prelude.{◌≡◌, ◌+◌, ◌≤◌, ◌<◌, length, IfOk};
ghost use Rattle.spec.specs.Numbers.{SetupOk};
ghost use Rattle.spec.specs.Refusals.{number_of};
ghost use Rattle.spec.specs.Aout.{text_end, data_size, entry, aout_error};
ghost use Rattle.elf.specs.Reader.{part_of, CheckedLoad};
ghost use Rattle.image.specs.Places.{exec_of, exec_error, aout_load};

use elf::Segment;
use elf_header::be32_at;
use spec::{ElfError, Refusal, Setup};

pub const EXEC_SIZE: usize = 32;

// The words of the header that are read: not syms, spsz and pcsz.
#[derive(Clone, Copy, Debug, PartialEq, Eq)]
pub struct Exec {
    pub magic: u32,
    pub text: u32,
    pub data: u32,
    pub bss: u32,
    pub entry: u32,
}

// An image with its header. The fields are private: no other crate makes one, or changes one.
#[derive(Clone, Copy)]
pub struct Aout<'a> {
    image: &'a [u8],
    magic: u32,
    header: Exec,
    pub ghost read: { header ≡ exec_of image.now },
}

// The header of an image.
fn read_exec(image: &[u8]) -> Exec
    requires { 32 ≤ length image.now }
    ensures { result ≡ exec_of image.now }
{
    Exec {
        magic: be32_at(image, 0),
        text: be32_at(image, 4),
        data: be32_at(image, 8),
        bss: be32_at(image, 12),
        entry: be32_at(image, 20),
    }
}

#[tactic(auto, using(spec::proofs::Chain::calls), unfolding(crate::specs::Places::exec_error))]
// The checks of an image whose header is `h`, after its length: its magic, that text and data lie in the file, and that the entry is an
// instruction's address in the text after the header.
fn judge_exec(setup: Setup, magic: u32, n: usize, h: Exec) -> Result<(), Refusal>
    requires { SetupOk setup }
    ensures { number_of result ≡ exec_error setup magic n h }
{
    let utzero = setup.utzero;
    let text = h.text as u64 + EXEC_SIZE as u64;
    let entry = h.entry as u64;
    if h.magic != magic {
        return Err(Refusal::NotAout);
    }
    if text + h.data as u64 > n as u64 {
        return Err(Refusal::AoutOutOfRange);
    }
    if entry % 4 != 0 {
        return Err(Refusal::Elf(ElfError::MisalignedEntry));
    }
    if !(utzero + EXEC_SIZE as u64..utzero + text).contains(&entry) {
        return Err(Refusal::Elf(ElfError::EntryNotInText));
    }
    Ok(())
}

// Validates `image` as an a.out with a magic. It is refused with 42, 43, 19 or 27.
pub fn parse<'a>(setup: Setup, magic: u32, image: &'a [u8]) -> Result<Aout<'a>, Refusal>
    requires { SetupOk setup }
    ensures number { number_of result ≡ aout_error setup magic image.now }
    ensures holds { IfOk result (λ aout. (aout.image ≡ image.entry) × (aout.magic ≡ magic)) }
{
    if image.len() < EXEC_SIZE {
        return Err(Refusal::NotAout);
    }
    let header = read_exec(image);
    judge_exec(setup, magic, image.len(), header)?;
    Ok(Aout {
        image,
        magic,
        header,
    })
}

impl<'a> Aout<'a> {
    // Where the image is entered.
    pub fn entry(&self) -> u64
        ensures { result ≡ entry self.now.image.now }
    {
        self.header.entry as u64
    }

    // The segments of the image: at place 0 header and text; at place 1 data with bss, unless both are 0.
    pub fn segment(&self, setup: Setup, i: usize) -> Option<Segment>
        requires { (text_end self.now.image.now + data_size self.now.image.now ≤ length self.now.image.now) × SetupOk setup }
        ensures value { result ≡ aout_load setup self.now.image.now i }
        ensures checked { CheckedLoad (length self.now.image.now) result }
    {
        let utzero = setup.utzero;
        let h = self.header;
        let text = EXEC_SIZE + h.text as usize;
        if i == 0 {
            return Some(Segment {
                vaddr: utzero,
                memsz: text as u64,
                offset: 0,
                filesz: text,
                perm: spec::TEXT,
            });
        }
        let memsz = h.data as u64 + h.bss as u64;
        if memsz == 0 {
            return None;
        }
        Some(Segment {
            vaddr: mem::page_up(utzero + text as u64),
            memsz,
            offset: text,
            filesz: h.data as usize,
            perm: spec::DATA,
        })
    }

    // The file bytes of a segment, or none where they leave the image.
    pub fn file(&self, g: Segment) -> &'a [u8]
        ensures { result.now ≡ part_of self.now.image.now g.offset g.filesz }
    {
        elf::part(self.image, g.offset, g.filesz)
    }
}
