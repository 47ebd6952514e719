// The plan of a program, as r9's exec.rs: its layout (module layout), its record's segments (module recorded), and how many pages a start
// takes. Nothing here touches memory: a call maps what is planned here.

#![tactic(auto)]

mod layout;
mod recorded;

ghost use Rattle.std.specs.Prelude.{◌≡◌, true, length, IfOk};
ghost use Rattle.spec.specs.Numbers.{SetupOk};
ghost use Rattle.spec.specs.Book.{page_count};
ghost use Rattle.spec.specs.Image.{read_error};
ghost use Rattle.spec.specs.Exec.{layout_ok, layout_error, image_error, program_segments, program_bss, start_pieces};
ghost use Rattle.image.specs.Images.{form, bytes, program};
ghost use Rattle.exec.specs.Plan.{plan_segments, plan_number, own_number, SameImage};

use image::Image;
pub use recorded::user_segment;
use spec::{Form, Refusal, Setup, UserSegment, VirtRange};

// All that a start needs of an image that is accepted: the image, its entry point, its record's segments (`count` of the image, then the
// stack, then zeros), its bss, and how many pages it takes with the stack.
#[derive(Clone, Copy)]
pub struct Plan<'a> {
    pub image: Image<'a>,
    pub entry: u64,
    pub segments: [UserSegment; 16],
    pub count: usize,
    pub bss: VirtRange,
    pub pages: u64,
    pub ghost accepted: { layout_error image.setup (program image) ≡ 0 },
    pub ghost entered: { entry ≡ (program image).entry },
    pub ghost recorded: { segments ≡ plan_segments image.setup (program image) },
    pub ghost counted: { count ≡ length (program_segments (program image)) },
    pub ghost behind: { bss ≡ program_bss (program image) },
    pub ghost taken: { pages ≡ page_count (start_pieces image.setup (program image)) },
}

// Why there is no plan for an image.
#[derive(Clone, Copy, Debug, PartialEq, Eq)]
pub enum Unplanned {
    // The reader of its form refuses it.
    Unreadable(Refusal),
    // Its layout isn't right.
    BadLayout,
    // It has too many segments.
    TooManySegments,
}

impl From<Refusal> for Unplanned {
    ghost use Rattle.std.specs.Prelude.{◌≡◌};
    ghost use Rattle.exec.specs.declared.Unplanned.{Unplanned};

    ghost from_gives = { λ r u. u ≡ Unplanned.Unreadable r };

    fn from(r: Refusal) -> Unplanned {
        Unplanned::Unreadable(r)
    }
}

impl From<Unplanned> for Refusal {
    ghost use Rattle.std.specs.Prelude.{◌≡◌};
    ghost use Rattle.exec.specs.Plan.{refusal_of};

    ghost from_gives = { λ u r. r ≡ refusal_of u };

    // 30 for any refusal of the reader's and for a layout that isn't right, 31 for too many segments.
    fn from(u: Unplanned) -> Refusal {
        match u {
            Unplanned::Unreadable(_) | Unplanned::BadLayout => Refusal::BadExec,
            Unplanned::TooManySegments => Refusal::Segments,
        }
    }
}

impl Unplanned {
    ghost use Rattle.exec.specs.Plan.{unplanned_own};

    // The number that the reader of its form refuses the image with, or 0.
    pub fn own(self) -> u64
        ensures { result ≡ unplanned_own self }
    {
        match self {
            Unplanned::Unreadable(r) => u64::from(r),
            _ => 0,
        }
    }
}

// The plan of an image whose layout is right, given its bss: its segments, which may be too many, then the stack, and its pages.
fn fill<'a>(image: Image<'a>, bss: VirtRange) -> Result<Plan<'a>, Unplanned>
    requires laid_out { layout_ok image.setup (program image).segments ≡ true }
    requires bss_value { bss ≡ program_bss (program image) }
    ensures number { plan_number result ≡ layout_error image.entry.setup (program image.entry) }
    ensures own { own_number result ≡ 0 }
    ensures holds { IfOk result (λ plan. SameImage plan.image image.entry.setup (form image.entry) (bytes image.entry)) }
{
    let setup = image.setup();
    let Some(recorded) = crate::recorded::segments(&image, bss) else {
        return Err(Unplanned::TooManySegments);
    };
    let count = recorded.count;
    let mut segments = recorded.segments;
    let behind = VirtRange {
        start: mem::page_up(bss.start),
        end: bss.end,
    };
    let pages = mem::page_count(&segments[..count])
        + mem::pages(behind)
        + setup.ustksize / spec::PAGE_SIZE_4K;
    segments[count] = setup::stack(setup);
    Ok(Plan {
        image,
        entry: image.entry(),
        segments,
        count,
        bss,
        pages,
    })
}

// All that a start or a replace needs of an image of a form: the first steps of r9's exec and load. Nothing is mapped.
pub fn plan_of<'a>(setup: Setup, form: Form, bytes: &'a [u8]) -> Result<Plan<'a>, Unplanned>
    requires { SetupOk setup }
    ensures number { plan_number result ≡ image_error setup form bytes.now }
    ensures own { own_number result ≡ read_error setup form bytes.now }
    ensures holds { IfOk result (λ plan. SameImage plan.image setup form bytes.now) }
{
    let image = image::parse(setup, form, bytes)?;
    let Some(bss) = crate::layout::layout(&image) else {
        return Err(Unplanned::BadLayout);
    };
    fill(image, bss)
}
