// The fields of an ELF-64 image, as r9's elf.rs reads them: numbers of one to eight bytes, the magic, and the permission that flags
// stand for under a flag table. They are the only functions that read an image's bytes by place.

ghost use Rattle.std.specs.Prelude.{◌≡◌, ◌+◌, ◌%◌, ◌≤◌, length, take, drop, get_or};
ghost use Rattle.spec.specs.Tests.{same, ◌is◌};
ghost use Rattle.spec.specs.Numbers.{le, be};
ghost use Rattle.spec.specs.Elf.{magic};
ghost use Rattle.elf_header.specs.Header.{flag_at};

// The first four bytes of an ELF file.
pub const MAGIC: [u8; 4] = [127, 69, 76, 70];

// The N bytes at a place.
fn bytes_at<const N: usize>(b: &[u8], off: usize) -> [u8; N]
    requires { off + N ≤ length b.now }
    ensures { result ≡ take N (drop off b.now) }
{
    <[u8; N]>::try_from(&b[off..off + N]).unwrap()
}

// The byte at a place.
pub fn u8_at(b: &[u8], off: usize) -> u8
    requires { off + 1 ≤ length b.now }
    ensures { result ≡ le 1 b.now off }
{
    b[off]
}

// The little-endian numbers of two, four and eight bytes at a place.
pub fn u16_at(b: &[u8], off: usize) -> u16
    requires { off + 2 ≤ length b.now }
    ensures { result ≡ le 2 b.now off }
{
    u16::from_le_bytes(bytes_at(b, off))
}

pub fn u32_at(b: &[u8], off: usize) -> u32
    requires { off + 4 ≤ length b.now }
    ensures { result ≡ le 4 b.now off }
{
    u32::from_le_bytes(bytes_at(b, off))
}

pub fn u64_at(b: &[u8], off: usize) -> u64
    requires { off + 8 ≤ length b.now }
    ensures { result ≡ le 8 b.now off }
{
    u64::from_le_bytes(bytes_at(b, off))
}

// The big-endian number of four bytes at a place.
pub fn be32_at(b: &[u8], off: usize) -> u32
    requires { off + 4 ≤ length b.now }
    ensures { result ≡ be 4 b.now off }
{
    u32::from_be_bytes(bytes_at(b, off))
}

// Whether an image starts with the magic.
pub fn has_magic(image: &[u8]) -> bool
    requires { 4 ≤ length image.now }
    ensures { result ≡ same ◌is◌ (take 4 image.now) magic }
{
    image.starts_with(&MAGIC)
}

// The permission that a header's flags stand for, or none where they are refused: the row of the flag table that their low three bits
// (PF_X 1, PF_W 2, PF_R 4) name. Higher bits don't count.
pub fn perm(flags: [u8; 8], bits: u32) -> Option<u64>
    ensures { result ≡ flag_at flags bits }
{
    let row = (bits % 8) as usize;
    match flags[row] {
        0 => None,
        perm => Some(perm as u64),
    }
}
