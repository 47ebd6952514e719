// The ELF header of an image, as r9's elf.rs reads and checks it (checks 13 to 20). The image is untrusted,
// so that every read lies in it and no sum wraps.

ghost use Rattle.std.specs.Prelude.{◌≡◌, ◌≤◌, length};
ghost use Rattle.spec.specs.Refusals.{elf_number};
ghost use Rattle.elf_header.specs.Header.{ehdr_of, fields_error};

use spec::ElfError;

pub const EHDR_SIZE: usize = 64;

pub const PHDR_SIZE: usize = 56;

pub const ELFCLASS64: u8 = 2;

pub const ELFDATA2LSB: u8 = 1;

pub const EV_CURRENT: u8 = 1;

pub const ET_EXEC: u16 = 2;

pub const EM_AARCH64: u16 = 183;

// The fields of the ELF header that are read.
#[derive(Clone, Copy, Debug, PartialEq, Eq)]
pub struct Ehdr {
    pub class: u8,
    pub encoding: u8,
    pub ident: u8,
    pub kind: u16,
    pub machine: u16,
    pub version: u32,
    pub entry: u64,
    pub phoff: u64,
    pub phentsize: u16,
    pub phnum: u16,
}

// The ELF header of an image.
pub fn read_ehdr(image: &[u8]) -> Ehdr
    requires { 64 ≤ length image.now }
    ensures { result ≡ ehdr_of image.now }
{
    Ehdr {
        class: crate::field::u8_at(image, 4),
        encoding: crate::field::u8_at(image, 5),
        ident: crate::field::u8_at(image, 6),
        kind: crate::field::u16_at(image, 16),
        machine: crate::field::u16_at(image, 18),
        version: crate::field::u32_at(image, 20),
        entry: crate::field::u64_at(image, 24),
        phoff: crate::field::u64_at(image, 32),
        phentsize: crate::field::u16_at(image, 54),
        phnum: crate::field::u16_at(image, 56),
    }
}

#[tactic(auto, using(spec::proofs::Chain::chain), unfolding(crate::specs::Header::fields_error))]
// The checks of the ELF header's fields, after its length and its magic, in an image of n bytes.
pub fn judge_ehdr(n: usize, h: Ehdr) -> Result<(), ElfError>
    ensures { elf_number result ≡ fields_error n h }
{
    if h.class != ELFCLASS64 {
        return Err(ElfError::NotElf64);
    }
    if h.encoding != ELFDATA2LSB {
        return Err(ElfError::NotLittleEndian);
    }
    if h.ident != EV_CURRENT || h.version != EV_CURRENT as u32 {
        return Err(ElfError::BadVersion);
    }
    if h.kind != ET_EXEC {
        return Err(ElfError::NotExecutable);
    }
    if h.machine != EM_AARCH64 {
        return Err(ElfError::NotAarch64);
    }
    if h.phentsize as usize != PHDR_SIZE {
        return Err(ElfError::BadPhentsize);
    }
    // A64 instructions are 4 bytes, and a misaligned pc faults.
    if h.entry % 4 != 0 {
        return Err(ElfError::MisalignedEntry);
    }
    let phoff = h.phoff;
    let phnum = h.phnum;
    let len = n as u64;
    if phoff > len {
        return Err(ElfError::PhdrsOutOfRange);
    }
    if 56 * phnum as u64 > len - phoff {
        return Err(ElfError::PhdrsOutOfRange);
    }
    Ok(())
}
