// Names that the kernel holds in fixed arrays, as r9's str.rs. A name is any bytes, where the Rust's are UTF-8; it is cut at the
// same place. Module nul has the search of a NUL.

#![tactic(auto)]

mod nul;

ghost use Rattle.std.specs.Prelude.{◌≡◌, ◌+◌, ◌≤◌, ◌<◌, length, drop};
ghost use Rattle.spec.specs.Tests.{within};
ghost use Rattle.spec.specs.Name.{elem, cut, kstrcpy};
ghost use Rattle.spec.specs.Frames.{put};

pub use nul::{blocks, to_nul};

// How many bytes a name has room for.
const NAME_SIZE: usize = 28;

const DOTS: usize = 3;

// The place after the last `/`, or 0.
fn after_slash(name: &[u8]) -> usize
    ensures { (result ≤ length name.now) × (drop result name.now ≡ elem name.now) }
{
    match name.iter().rposition(|&b| b == b'/') {
        Some(i) => i + 1,
        None => 0,
    }
}

// The last element of a path, as exec.rs's set_text takes it: what follows the last `/`, perhaps empty.
pub fn elem(name: &[u8]) -> &[u8]
    ensures { result.now ≡ elem name.now }
{
    let at = after_slash(name);
    &name[at..]
}

// A byte 128 to 191, which in UTF-8 goes on with a character.
fn continues(b: u8) -> bool
    ensures { result ≡ within 128 192 b }
{
    !(b < 128) & (b < 192)
}

// The largest place up to 24 where no byte 128 to 191 starts, as `floor_char_boundary`. Place 0 always counts.
fn floor_char_boundary(s: &[u8]) -> usize
    requires { 24 < length s.now }
    ensures value { result ≡ cut s.now 24 }
    ensures upper_bound { result ≤ 24 }
{
    let mut n = NAME_SIZE - 1 - DOTS;
    while 0 < n {
        if !continues(s[n]) {
            return n;
        }
        n -= 1;
    }
    0
}

// Puts `s` into `dst` from place `at` on, as `copy_from_slice` into a part.
fn put(dst: &mut [u8; 28], at: usize, s: &[u8])
    requires { (length dst.old ≡ 28) × (at + length s.now ≤ 28) }
    ensures dst_after { dst.new ≡ put dst.old at s.now }
    ensures dst_len { length dst.new ≡ 28 }
{
    dst[at..at + s.len()].copy_from_slice(s);
}

// Copies `src` into `dst` and zeroes the rest, as Plan 9's kstrcpy: of more than 27 bytes, as much as fits with `...`, cut where
// no byte 128 to 191 starts.
pub fn kstrcpy(dst: &mut [u8; 28], src: &[u8])
    ensures { dst.new ≡ kstrcpy src.now }
{
    *dst = [0u8; 28];
    if src.len() < NAME_SIZE {
        put(dst, 0, src);
        return;
    }
    let n = floor_char_boundary(src);
    put(dst, 0, &src[..n]);
    put(dst, n, b"...");
}
