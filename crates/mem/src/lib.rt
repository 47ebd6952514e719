// Pages and addresses, as r9's mem.rs has them. User addresses are plain numbers; a frame's place in the frame bytes is a
// `PhysAddr`, so that neither can be passed for the other.

#![tactic(auto)]

ghost use Rattle.std.specs.Prelude.{◌≡◌, ◌+◌, ◌-◌, ◌*◌, ◌/◌, ◌^◌, ◌≤◌, ◌<◌, length, SomeIff};
ghost use Rattle.spec.specs.Numbers.{page_down, page_up};
ghost use Rattle.spec.specs.Book.{range, page_count};

// A frame's offset in the frame bytes that are lent, never a user address.
#[derive(Clone, Copy)]
pub struct PhysAddr(pub u64);

impl PhysAddr {
    pub fn new(value: u64) -> Self
        ensures { result.0 ≡ value }
    {
        PhysAddr(value)
    }

    // The address `offset` bytes further on.
    pub fn add(self, offset: u64) -> Self
        requires { self.0 + offset < 2 ^ 64 }
        ensures { result.0 ≡ self.0 + offset }
    {
        PhysAddr(self.0 + offset)
    }
}

// The address rounded down to a page.
pub fn page_down(a: u64) -> u64
    ensures { result ≡ page_down a }
{
    a / spec::PAGE_SIZE_4K * spec::PAGE_SIZE_4K
}

// The address rounded up to a page, where it fits.
pub fn page_up(a: u64) -> u64
    requires { page_up a < 2 ^ 64 }
    ensures { result ≡ page_up a }
{
    a.next_multiple_of(spec::PAGE_SIZE_4K)
}

// The address rounded up to a page, or none where 64 bits don't hold it.
pub fn checked_page_up(a: u64) -> Option<u64>
    ensures { SomeIff result (page_up a < 2 ^ 64) (page_up a) }
{
    a.checked_next_multiple_of(spec::PAGE_SIZE_4K)
}

// `VirtRange::new`.
pub fn range(start: u64, end: u64) -> spec::VirtRange
    ensures { result ≡ range start end }
{
    spec::VirtRange { start, end }
}

// `VirtRange::size`; a range that ends before it starts has none.
fn size(r: spec::VirtRange) -> u64
    ensures { result ≡ r.end - r.start }
{
    r.end.saturating_sub(r.start)
}

// How many whole pages a range has.
pub fn pages(r: spec::VirtRange) -> u64
    ensures { (result ≡ (r.end - r.start) / 4096) × (result < 2 ^ 52) }
{
    size(r) / spec::PAGE_SIZE_4K
}

// How many pages a record's segments have.
pub fn page_count(segments: &[spec::UserSegment]) -> u64
    requires { length segments.now ≤ 16 }
    ensures { (result ≡ page_count segments.now) × (result ≤ 2 ^ 52 * length segments.now) }
{
    segments.iter().map(|u| pages(u.range)).sum()
}
