// User memory, as r9's segment.rs, which follows Plan 9's port/segment.c: the break's rule. It is over numbers alone, so that it can
// be called and proved without frames; crate call_break carries it out.

#![tactic(auto)]

ghost use Rattle.std.specs.Prelude.{◌≡◌};
ghost use Rattle.spec.specs.Segment.{ibrk};
ghost use Rattle.segment.specs.Rule.{break_of};

use spec::{Refusal, Setup, VirtRange};

// What an accepted break comes to: its value, and the process's bss after it.
#[derive(Clone, Copy, Debug, PartialEq, Eq)]
pub struct Break {
    pub value: u64,
    pub bss: VirtRange,
}

// Move the end of `bss` to `addr`, rounded up to a page, as Plan 9's ibrk, if `free` frames hold the new pages. An `addr` of 0
// answers the bss's start. A process without a bss has none to move.
pub fn ibrk(setup: Setup, bss: Option<VirtRange>, addr: u64, free: u64) -> Result<Break, Refusal>
    ensures { break_of bss result ≡ ibrk setup bss addr free }
{
    let range = bss.ok_or(Refusal::BadArg)?;
    if addr == 0 {
        return Ok(Break {
            value: range.start,
            bss: range,
        });
    }
    if addr < range.start {
        return Err(Refusal::NoMemory);
    }
    let newtop = mem::checked_page_up(addr).ok_or(Refusal::NoMemory)?;
    // One guard page is kept below the stack, so that it can't run into the bss.
    if newtop > setup::limit(setup) {
        return Err(Refusal::Overlap);
    }
    // 4,096 × free may pass 64 bits: the pages that the growth touches are counted instead.
    let growth = newtop.saturating_sub(range.end);
    if growth.div_ceil(spec::PAGE_SIZE_4K) > free {
        return Err(Refusal::NoMemory);
    }
    let bss = VirtRange {
        start: range.start,
        end: newtop,
    };
    Ok(Break { value: 0, bss })
}
