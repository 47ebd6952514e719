// The machine numbers in a file (request 5): four lines, `UTZERO=65536` and so on, read into a setup. A number has at most 15 digits,
// so that it never passes 64 bits.

ghost use Rattle.std.specs.Prelude.{◌≡◌, ◌≤◌, length, IfErr};
ghost use Rattle.spec.specs.SetupText.{digits, decimal_from, digits_line, read_setup};
ghost use Rattle.setup.specs.Said.{said, said_line, line_named, told};
ghost use Rattle.spec.specs.declared.Refusal.{Refusal};

use spec::{Refusal, Setup};

// A line's number, and the bytes behind it.
#[derive(Clone, Copy)]
struct Line<'a> {
    number: u64,
    rest: &'a [u8],
}

// How many digits bytes begin with.
fn count(s: &[u8]) -> usize
    ensures { (result ≤ length s.now) × (result ≡ length (digits s.now)) }
{
    for (i, b) in s.iter().enumerate() {
        if !b.is_ascii_digit() {
            return i;
        }
    }
    s.len()
}

// The number that digits stand for.
fn value(s: &[u8]) -> u64
    requires { length s.now ≤ 15 }
    ensures { result ≡ decimal_from 0 s.now }
{
    let mut n = 0;
    for b in s {
        n = 10 * n + u64::from(b.saturating_sub(b'0'));
    }
    n
}

// One to 15 digits, the first not 0, closed by one line feed.
fn digits_line(s: &[u8]) -> Option<Line>
    ensures { said result ≡ digits_line s.now }
{
    let k = count(s);
    if k == 0 {
        return None;
    }
    if k > 15 {
        return None;
    }
    if s[0] == b'0' {
        return None;
    }
    if s.get(k) != Some(&b'\n') {
        return None;
    }
    let number = value(&s[..k]);
    Some(Line {
        number,
        rest: &s[k + 1..],
    })
}

// A name with its `=`, and the digits' line behind it.
fn read_line<'a>(s: &'a [u8], name: &[u8]) -> Result<Line<'a>, Refusal>
    ensures said { said_line result ≡ line_named name.now s.now }
    ensures error { IfErr result (λ e. e ≡ Refusal.SetupLines) }
{
    let rest = s.strip_prefix(name).ok_or(Refusal::SetupLines)?;
    digits_line(rest).ok_or(Refusal::SetupLines)
}

// Reads the machine numbers: four lines in their order, with no byte behind the fourth; then the conditions.
pub fn read_setup(bytes: &[u8]) -> Result<Setup, Refusal>
    ensures { told result ≡ read_setup bytes.now }
{
    let a = read_line(bytes, b"UTZERO=")?;
    let b = read_line(a.rest, b"USTKTOP=")?;
    let c = read_line(b.rest, b"USTKSIZE=")?;
    let d = read_line(c.rest, b"UADDRTOP=")?;
    if !d.rest.is_empty() {
        return Err(Refusal::SetupLines);
    }
    let setup = Setup {
        utzero: a.number,
        ustktop: b.number,
        ustksize: c.number,
        uaddrtop: d.number,
        flags: crate::BUILT_IN,
    };
    if !crate::setup_ok(setup) {
        return Err(Refusal::SetupNumbers);
    }
    Ok(setup)
}
