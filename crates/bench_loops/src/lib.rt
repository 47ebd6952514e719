// Exported functions for bench/: the loops over frames and book, as C calls them. Each tests what the function that it calls asks of
// its caller.

#![tactic(auto)]

ghost use Rattle.std.specs.Prelude.{◌≡◌, false, ◌≤◌, ◌<◌, length, replicate};
ghost use Rattle.spec.specs.Tests.{◌is◌, ◌⇒◌else◌};
ghost use Rattle.spec.specs.Numbers.{deposit};
ghost use Rattle.spec.specs.Book.{free};
ghost use Rattle.spec.specs.Sound.{sound_book};
ghost use Rattle.spec.specs.Flags.{built_in};
ghost use Rattle.spec.specs.Elf.{elf_error};

use sound::Lookup;
use spec::Procs;

// Every byte becomes 0.
#[unsafe(no_mangle)]
pub extern "C" fn measured_zero(d: &mut [u8])
    ensures { d.new ≡ replicate (length d.old) 0 }
{
    d.fill(0);
}

// `d` becomes `s` if they are equally long, and stays otherwise.
#[unsafe(no_mangle)]
pub extern "C" fn measured_copy(d: &mut [u8], s: &[u8])
    ensures { d.new ≡ (length d.old is length s.now ⇒ s.now else d.old) }
{
    if d.len() == s.len() {
        d.copy_from_slice(s);
    }
}

// How many frames are free.
#[unsafe(no_mangle)]
pub extern "C" fn measured_free(book: &[u64]) -> usize
    ensures { result ≡ free book.now }
{
    book::free_count(book)
}

// Whether the book is sound, by the deposit machine's numbers, found as for a call that process 1 makes; a book of more than 17,408
// words, 1,024 frames', is not.
#[unsafe(no_mangle)]
pub extern "C" fn measured_sound(book: &[u64], procs: Procs) -> bool
    ensures { (length book.now ≤ 17408 → result ≡ sound_book deposit book.now procs) × (17408 < length book.now → result ≡ false) }
{
    if 17408 < book.len() {
        return false;
    }
    let mut lookup = Lookup::new();
    sound::prepare(setup::deposit(), book, &procs, 1, &mut lookup).is_ok()
}

// The number that an image is refused with by the ELF reader under the built-in flag table, or 0.
#[unsafe(no_mangle)]
pub extern "C" fn measured_parse(image: &[u8]) -> u64
    ensures { result ≡ elf_error built_in image.now }
{
    match elf::parse(setup::BUILT_IN, image) {
        Ok(_) => 0,
        Err(e) => u64::from(e),
    }
}
