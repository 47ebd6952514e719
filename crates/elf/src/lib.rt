// ELF-64 executables, as r9's elf.rs: an image is checked as a static aarch64 executable, and its loadable segments are read through
// its reader, `Elf`, which `parse` alone makes. Where segments may go in memory is the loader's business. Fields and headers are read
// by the crate elf_header.
//
// The flag table says what a segment's flags stand for. A function that needs it takes it first, as `flags`, and asks nothing of it.

#![tactic(auto)]

mod scan;

ghost use Rattle.std.specs.Prelude.{◌≡◌, ◌+◌, ◌≤◌, length, IfOk, OnOk};
ghost use Rattle.spec.specs.Refusals.{elf_number};
ghost use Rattle.spec.specs.Elf.{entry, phnum, elf_error};
ghost use Rattle.elf_header.specs.Header.{ehdr_of};
ghost use Rattle.elf.specs.Reader.{part_of, load_in, CheckedLoad};

use elf_header::{Ehdr, PHDR_SIZE};
use spec::ElfError;

// A validated executable image: the image, its ELF header, and the flag table that it was checked under. The fields are private: no
// other crate makes one, or changes one.
#[derive(Clone, Copy)]
pub struct Elf<'a> {
    image: &'a [u8],
    header: Ehdr,
    flags: [u8; 8],
    pub ghost read: { header ≡ ehdr_of image.now },
    pub ghost accepted: { elf_error flags image.now ≡ 0 },
}

// A loadable segment: `memsz` bytes at `vaddr`, the first of which are the image's `filesz` bytes at `offset`, and the rest zero.
#[derive(Clone, Copy, Debug, PartialEq, Eq)]
pub struct Segment {
    pub vaddr: u64,
    pub memsz: u64,
    pub offset: usize,
    pub filesz: usize,
    pub perm: u64,
}

// `n` bytes of an image from a place on, or none where they leave the image.
pub fn part<'a>(image: &'a [u8], from: usize, n: usize) -> &'a [u8]
    ensures { result.now ≡ part_of image.now from n }
{
    match from.checked_add(n) {
        Some(to) => image.get(from..to).unwrap_or(&[]),
        None => &[],
    }
}

// Validates `image` as a static aarch64 executable, under a flag table. A refusal's number says which check it failed first.
pub fn parse<'a>(flags: [u8; 8], image: &'a [u8]) -> Result<Elf<'a>, ElfError>
    ensures number { elf_number result ≡ elf_error flags image.now }
    ensures holds { IfOk result (λ elf. (elf.image ≡ image.entry) × (elf.flags ≡ flags)) }
{
    if image.len() < elf_header::EHDR_SIZE {
        return Err(ElfError::Truncated);
    }
    if !elf_header::has_magic(image) {
        return Err(ElfError::BadMagic);
    }
    let header = elf_header::read_ehdr(image);
    crate::scan::judge(flags, image, header)?;
    Ok(Elf {
        image,
        header,
        flags,
    })
}

impl<'a> Elf<'a> {
    // Where the image is entered.
    pub fn entry(&self) -> u64
        ensures { result ≡ entry self.now.image.now }
    {
        self.header.entry
    }

    // How many program headers the image has.
    pub fn count(&self) -> usize
        ensures { result ≡ phnum self.now.image.now }
    {
        self.header.phnum as usize
    }

    // The segment that program header `i` describes, unless it is skipped: what r9's `Elf::segments` yields. Past the table there is none.
    pub fn segment(&self, i: usize) -> Option<Segment>
        ensures value { result ≡ load_in self.now.flags self.now.image.now i }
        ensures checked { CheckedLoad (length self.now.image.now) result }
    {
        if i >= self.count() {
            return None;
        }
        let p = elf_header::read_phdr(self.image, self.header.phoff as usize + PHDR_SIZE * i);
        if !elf_header::is_load(p) {
            return None;
        }
        Some(Segment {
            vaddr: p.vaddr,
            memsz: p.memsz,
            offset: p.offset as usize,
            filesz: p.filesz as usize,
            perm: elf_header::perm(self.flags, p.flags).unwrap(),
        })
    }

    // The file bytes of a segment, or none where they leave the image.
    pub fn file(&self, g: Segment) -> &'a [u8]
        ensures { result.now ≡ part_of self.now.image.now g.offset g.filesz }
    {
        part(self.image, g.offset, g.filesz)
    }
}
