// The layout of an image, as r9's exec.rs checks it: each segment lies between UTZERO and the guard page below the stack, nothing
// follows data, and the bss is what the last segment leaves behind it. It is the second half of refusal 30.

ghost use Rattle.std.specs.Prelude.{◌≡◌, ◌+◌, ◌-◌, ◌^◌, ◌≤◌, ◌<◌};
ghost use Rattle.image.specs.Images.{program};
ghost use Rattle.exec.specs.Fits.{fit_of, bss_behind};

use elf::Segment;
use image::Image;
use spec::{Setup, VirtRange};

// What the segments so far come to: whether the last is data, after which nothing may follow, and the bss behind it.
#[derive(Clone, Copy, Debug, Default, PartialEq, Eq)]
pub struct Laid {
    pub closed: bool,
    pub bss: VirtRange,
}

// One more segment of a layout: its range must fit the user address space, between UTZERO and the guard page below the stack, and it
// must not follow data. What it leaves is the bss behind it.
fn lay(setup: Setup, before: Laid, g: Segment) -> Option<Laid>
    requires { (g.vaddr + g.memsz ≤ 2 ^ 64 - 4096) × (g.filesz ≤ g.memsz) }
    ensures { result ≡ fit_of setup before (Some g) }
{
    let end = g.vaddr + g.memsz;
    if before.closed || g.vaddr < setup.utzero || end > setup::limit(setup) {
        return None;
    }
    let top = mem::page_up(end);
    let closed = g.perm == spec::DATA;
    let start = if closed {
        g.vaddr + g.filesz as u64
    } else {
        top
    };
    Some(Laid {
        closed,
        bss: VirtRange { start, end: top },
    })
}

// Checks that an image's program fits the user address space, as text and rodata, then at most one data segment, which the bss follows.
// The answer is the bss.
pub fn layout(image: &Image) -> Option<VirtRange>
    ensures { result ≡ bss_behind image.now.setup (program image.now).segments }
{
    let mut seen = Laid::default();
    for i in 0..image.places() {
        if let Some(g) = image.segment(i) {
            seen = lay(image.setup(), seen, g)?;
        }
    }
    Some(seen.bss)
}
