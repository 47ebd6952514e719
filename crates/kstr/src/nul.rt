// How many bytes stand before a NUL. Whole blocks of 64 bytes without one are found first, which is what makes the string copy as fast
// as the Rust's.

ghost use Rattle.std.specs.Prelude.{◌≡◌, false, not, ◌≤◌, length, take};
ghost use Rattle.spec.specs.Tests.{has};
ghost use Rattle.kstr.specs.Nul.{to_nul};

// Whether no byte is a NUL. It looks at all of them, so that it compiles to vectors.
fn no_nul(s: &[u8]) -> bool
    ensures { result ≡ not (has 0 s.now) }
{
    let mut ok = true;
    let mut i = 0;
    while i < s.len() {
        ok = (s[i] != 0) & ok;
        i += 1;
    }
    ok
}

// How many bytes stand in whole blocks of 64 before the first block that has a NUL.
pub fn blocks(s: &[u8]) -> usize
    ensures { (result ≤ length s.now) × (has 0 (take result s.now) ≡ false) }
{
    let mut k = 0;
    while s.len() - k >= 64 {
        let e = k + 64;
        if !no_nul(&s[k..e]) {
            return k;
        }
        k = e;
    }
    k
}

// How many bytes stand before the first NUL: first those of whole blocks, then byte by byte.
pub fn to_nul(s: &[u8]) -> usize
    ensures { result ≡ to_nul s.now }
{
    let mut i = blocks(s);
    while i < s.len() {
        if s[i] == 0 {
            return i;
        }
        i += 1;
    }
    i
}
