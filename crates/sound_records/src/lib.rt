// One process's record, and all of them: their own rules, without the book. Refusal 2 begins with them, so that the pass over the
// book rests on records that are in order.

#![tactic(auto)]

ghost use Rattle.std.specs.Prelude.{◌≡◌, not, ℕ, length, get_or};
ghost use Rattle.spec.specs.Tests.{◌is◌, all};
ghost use Rattle.spec.specs.Book.{unused, lives as livesOf, zero_proc};
ghost use Rattle.spec.specs.Sound.{bss_ok};
ghost use Rattle.sound_records.specs.Records.{image_test, shaped, passes};

use spec::{DATA, Proc, Procs, Setup, TEXT, UserSegment, VirtRange};

// How long the records' arrays are. It does nothing: an owned value's type tells it to a proof, and a reference's does not.
pub fn lengths(procs: Procs)
    ensures records { length procs.all ≡ 16 }
    ensures each { (i : ℕ) → (length (get_or procs.all i zero_proc).segments ≡ 16) × (length (get_or procs.all i zero_proc).text ≡ 28) }
{
    let _ = procs;
}

// Whether all of some places of a record are unused.
fn all_unused(segments: &[UserSegment]) -> bool
    ensures { result ≡ all unused segments.now }
{
    segments.iter().all(|&s| s == UserSegment::default())
}

// Whether all bytes of a name are zero.
fn no_name(text: &[u8]) -> bool
    ensures { result ≡ all (λ b. b is 0) text.now }
{
    text.iter().all(|&b| b == 0)
}

// Whether a record is all zero.
fn is_zero(p: &Proc) -> bool
    ensures { result ≡ not (livesOf p.now) }
{
    all_unused(&p.segments) && no_name(&p.text) && p.bss == VirtRange::default()
}

// A process lives unless its record is all zero.
pub fn lives(p: Proc) -> bool
    ensures { result ≡ livesOf p }
{
    !is_zero(&p)
}

// A segment of the image: page-aligned, non-empty, from `low` on and at most at limit, and with a permission.
fn image_ok(setup: Setup, low: u64, s: UserSegment) -> bool
    ensures { result ≡ image_test setup low s }
{
    let start = s.range.start;
    let end = s.range.end;
    let perm = s.perm;
    let limit = setup::limit(setup);
    (start % 4096 == 0)
        & (end % 4096 == 0)
        & (start < end)
        & (low <= start)
        & (end <= limit)
        & (TEXT <= perm)
        & (perm <= DATA)
}

// The bss, where the image ends at `low`. Its start is rounded up only once it is known to be at most limit.
fn bss_ok(setup: Setup, low: u64, bss: VirtRange) -> bool
    ensures { result ≡ bss_ok setup low bss }
{
    let start = bss.start;
    let end = bss.end;
    let utzero = setup.utzero;
    let limit = setup::limit(setup);
    if limit < end {
        return false;
    }
    if end < start {
        return false;
    }
    let first = mem::page_up(start);
    (utzero <= start) & (end % 4096 == 0) & (low <= first)
}

// Whether a record's segments and bss are a living process's: image segments, ascending and disjoint, then the stack, then unused places;
// and the bss.
fn is_shaped(setup: Setup, segments: &[UserSegment], bss: VirtRange) -> bool
    ensures { result ≡ shaped setup setup.utzero bss segments.now }
{
    let stack = setup::stack(setup);
    let mut low = setup.utzero;
    for (i, s) in segments.iter().enumerate() {
        if *s == stack {
            return all_unused(&segments[i + 1..]) && bss_ok(setup, low, bss);
        }
        if !image_ok(setup, low, *s) {
            return false;
        }
        low = s.range.end;
    }
    false
}

// A record is a living process's, or a dead one's.
fn record_ok(setup: Setup, p: &Proc) -> bool
    ensures { result ≡ passes setup p.now }
{
    is_shaped(setup, &p.segments, p.bss) || is_zero(p)
}

// Whether all records are.
pub fn records_ok(setup: Setup, procs: &Procs) -> bool
    ensures { result ≡ all (passes setup) procs.now.all }
{
    procs.all.iter().all(|p| record_ok(setup, p))
}
