// The segments of a process's record that an image's pages make, as r9's exec.rs records them. The data's pages end where the bss
// begins, and there are at most fifteen, or refusal 31.

ghost use Rattle.std.specs.Prelude.{◌≡◌, ◌+◌, ◌-◌, ◌*◌, ◌^◌, ◌≤◌, ◌<◌, MatchOption, Some, None};
ghost use Rattle.spec.specs.Exec.{kept};
ghost use Rattle.image.specs.Images.{program};
ghost use Rattle.exec.specs.Pages.{pages_in, pushed, all_recorded};

use elf::Segment;
use image::Image;
use spec::{UserSegment, VirtRange};

// The segments that an image's pages make, up to fifteen of them, and how many there are.
#[derive(Clone, Copy, Debug, PartialEq, Eq)]
pub struct Recorded {
    pub segments: [UserSegment; 16],
    pub count: usize,
}

// A segment's pages, given the bss: but the data's only up to the bss's start, rounded up, since the bss owns the pages from there.
pub fn user_segment(bss: VirtRange, g: Segment) -> UserSegment
    requires { (g.vaddr + g.memsz ≤ 2 ^ 64 - 4096) × (bss.start ≤ 2 ^ 64 - 4096) }
    ensures { result ≡ pages_in bss g }
{
    let start = mem::page_down(g.vaddr);
    let end = if g.perm == spec::DATA {
        bss.start
    } else {
        g.vaddr + g.memsz
    };
    UserSegment {
        range: VirtRange {
            start,
            end: mem::page_up(end),
        },
        perm: g.perm,
    }
}

impl Recorded {
    // One more segment behind those recorded, or none if that would be the sixteenth. An empty one is dropped. By reference: handed on by
    // value, what is recorded would be copied for each segment.
    fn push(&mut self, u: UserSegment) -> Option<()>
        ensures { MatchOption result (None ≡ pushed self.old u) (λ _. Some self.new ≡ pushed self.old u) }
    {
        if u.range.start < u.range.end {
            if self.count >= 15 {
                return None;
            }
            self.segments[self.count] = u;
            self.count += 1;
        }
        Some(())
    }
}

// The segments that an image's pages make, given its bss, as Plan 9's TSEG and DSEG, or none where they are too many.
pub fn segments(image: &Image, bss: VirtRange) -> Option<Recorded>
    requires start_bound { bss.start ≤ 2 ^ 64 - 4096 }
    ensures { result ≡ all_recorded (kept bss (program image.now).segments) }
{
    let mut seen = Recorded {
        segments: [UserSegment::default(); 16],
        count: 0,
    };
    for i in 0..image.places() {
        if let Some(g) = image.segment(i) {
            seen.push(user_segment(bss, g))?;
        }
    }
    Some(seen)
}
