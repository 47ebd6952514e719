// The checks of an image behind its magic: of its ELF header, then of its program headers, one after the other.

ghost use Rattle.std.specs.Prelude.{◌≡◌, false, ◌+◌, ◌*◌, ◌≤◌, length};
ghost use Rattle.spec.specs.Refusals.{elf_number};
ghost use Rattle.elf_header.specs.Phdr.{phdr_of};
ghost use Rattle.elf.specs.Scan.{left, scan_error, image_error, Steps};

use elf_header::{Ehdr, PHDR_SIZE, Phdr};
use spec::ElfError;

// What the program headers so far have shown: where the last segment ends its page, and whether the entry point was found in a text segment.
#[derive(Clone, Copy, Debug, Default, PartialEq, Eq)]
pub struct Seen {
    pub end: u64,
    pub found: bool,
}

// One program header: skipped, or checked and its end and its text noted.
fn advance(flags: [u8; 8], image: &[u8], entry: u64, seen: Seen, p: Phdr) -> Result<Seen, ElfError>
    ensures { Steps flags image.now entry seen (phdr_of p) result }
{
    if !elf_header::is_load(p) {
        return Ok(seen);
    }
    elf_header::judge_phdr(flags, image, seen.end, p)?;
    Ok(Seen {
        end: mem::page_up(p.vaddr + p.memsz),
        found: seen.found | elf_header::in_text(flags, entry, p),
    })
}

// The checks of `phnum` program headers from `phoff` on, then that the entry point was found.
fn scan(
    flags: [u8; 8],
    image: &[u8],
    entry: u64,
    phoff: usize,
    phnum: usize,
) -> Result<(), ElfError>
    requires { phoff + 56 * phnum ≤ length image.now }
    ensures { elf_number result ≡ scan_error flags image.now entry 0 false (left image.now phoff phnum) }
{
    let mut seen = Seen::default();
    for i in 0..phnum {
        let p = elf_header::read_phdr(image, phoff + PHDR_SIZE * i);
        seen = advance(flags, image, entry, seen, p)?;
    }
    if !seen.found {
        return Err(ElfError::EntryNotInText);
    }
    Ok(())
}

// The checks of an image whose ELF header is `h`: of the header, then of the program headers.
pub fn judge(flags: [u8; 8], image: &[u8], h: Ehdr) -> Result<(), ElfError>
    ensures { elf_number result ≡ image_error flags image.now h }
{
    elf_header::judge_ehdr(image.len(), h)?;
    scan(flags, image, h.entry, h.phoff as usize, h.phnum as usize)
}
