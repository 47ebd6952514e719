// A program header of an image, as r9's elf.rs reads and checks it (checks 21 to 26 and 28), and whether the entry lies in it (27). One
// header at a time; the image is untrusted, so that every read lies in it and no sum wraps.

ghost use Rattle.std.specs.Prelude.{◌≡◌, ◌&&◌, [], ◌∷◌, ◌+◌, ◌≤◌, ◌<◌, length};
ghost use Rattle.spec.specs.Tests.{◌is◌, within};
ghost use Rattle.spec.specs.Elf.{phdr_at, phdr_error, loads, flag_perm, align_ok};
ghost use Rattle.spec.specs.Refusals.{elf_number};
ghost use Rattle.elf_header.specs.Phdr.{phdr_of};

use spec::ElfError;

pub const PT_LOAD: u32 = 1;

// Where the last page of the address space starts: a segment ends there or below, so that its end can be rounded up.
pub const LAST_PAGE: u64 = 18446744073709547520;

// The fields of a program header that are read.
#[derive(Clone, Copy, Debug, PartialEq, Eq)]
pub struct Phdr {
    pub kind: u32,
    pub flags: u32,
    pub offset: u64,
    pub vaddr: u64,
    pub filesz: u64,
    pub memsz: u64,
    pub align: u64,
}

// The program header at a place of an image.
pub fn read_phdr(image: &[u8], at: usize) -> Phdr
    requires { at + 56 ≤ length image.now }
    ensures { phdr_of result ≡ phdr_at image.now at }
{
    Phdr {
        kind: crate::field::u32_at(image, at),
        flags: crate::field::u32_at(image, at + 4),
        offset: crate::field::u64_at(image, at + 8),
        vaddr: crate::field::u64_at(image, at + 16),
        filesz: crate::field::u64_at(image, at + 32),
        memsz: crate::field::u64_at(image, at + 40),
        align: crate::field::u64_at(image, at + 48),
    }
}

// Whether a header's alignment asks for nothing, or is a power of two that its address and offset agree modulo: one bit is set in it.
fn align_ok(p: Phdr) -> bool
    ensures { result ≡ align_ok (phdr_of p) }
{
    let align = p.align;
    align <= 1 || align.is_power_of_two() && p.vaddr % align == p.offset % align
}

#[tactic(auto, using(spec::proofs::Chain::calls), unfolding(spec::specs::Elf::phdr_error))]
// The checks of a program header that isn't skipped, under a flag table, in the order of r9's segment, then parse. `end` is the page end
// of the segment before it.
pub fn judge_phdr(flags: [u8; 8], image: &[u8], end: u64, p: Phdr) -> Result<(), ElfError>
    ensures { elf_number result ≡ phdr_error flags image.now end (phdr_of p ∷ []) }
{
    let bits = p.flags;
    let offset = p.offset;
    let vaddr = p.vaddr;
    let filesz = p.filesz;
    let memsz = p.memsz;
    let aligned = align_ok(p);
    if filesz > memsz {
        return Err(ElfError::FileszOverMemsz);
    }
    let len = image.len() as u64;
    if offset > len {
        return Err(ElfError::SegmentOutOfRange);
    }
    if filesz > len - offset {
        return Err(ElfError::SegmentOutOfRange);
    }
    if vaddr % spec::PAGE_SIZE_4K != offset % spec::PAGE_SIZE_4K {
        return Err(ElfError::Misaligned);
    }
    if !aligned {
        return Err(ElfError::BadAlign);
    }
    if vaddr > LAST_PAGE {
        return Err(ElfError::Overflow);
    }
    if memsz > LAST_PAGE - vaddr {
        return Err(ElfError::Overflow);
    }
    if crate::field::perm(flags, bits).is_none() {
        return Err(ElfError::BadFlags);
    }
    if vaddr / spec::PAGE_SIZE_4K * spec::PAGE_SIZE_4K < end {
        return Err(ElfError::Unordered);
    }
    Ok(())
}

// Whether a program header is loaded: a non-empty PT_LOAD.
pub fn is_load(p: Phdr) -> bool
    ensures { result ≡ loads (phdr_of p) }
{
    p.kind == PT_LOAD && p.memsz != 0
}

// Whether an entry point lies in the file bytes of a text segment.
pub fn in_text(flags: [u8; 8], entry: u64, p: Phdr) -> bool
    requires { p.vaddr + p.filesz < 18446744073709551616 }
    ensures { result ≡ (flag_perm flags (phdr_of p) is 1 && within p.vaddr (p.vaddr + p.filesz) entry) }
{
    let perm = crate::field::perm(flags, p.flags);
    perm == Some(spec::TEXT) && (p.vaddr..p.vaddr + p.filesz).contains(&entry)
}
