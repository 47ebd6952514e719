// Functions that are no calls: they change nothing but a lent buffer, and look at no process.

ghost use Rattle.std.specs.Prelude.{◌≡◌, length, Result, Option};
ghost use Rattle.spec.specs.Book.{range};
ghost use Rattle.spec.specs.Exec.{stack_size};
ghost use Rattle.spec.specs.Name.{kstrcpy};
ghost use Rattle.spec.specs.Refusals.{number_of};
ghost use Rattle.spec.specs.SetupText.{read_setup};
ghost use Rattle.spec.specs.FlagsText.{read_flags};
ghost use Rattle.spec.specs.World.{state_of};
ghost use Rattle.segment.specs.Rule.{break_of};
ghost use Rattle.text.specs.Text.{Puts};
ghost use Rattle.setup.specs.Text.{setup_in};
ghost use Rattle.setup_flags.specs.Texts.{flags_in};
ghost use Rattle.exec_args.specs.Sizes.{saturated};
ghost use Rattle.holthrimi.specs.Rules.{form_of, bss_of, rule_of, ibrk_in, args_in, plan_in, parse_in, book_words, book_error, refused_plan, told, told_flags};

use exec::Plan;
use segment::Break;
use spec::{Form, Procs, Refusal, Setup, UserSegment, VirtRange};

// What the break's rule comes to: the number that it refuses with, or 0; its value; and the bss, zeros for none.
#[repr(C)]
#[derive(Clone, Copy)]
pub struct Rule {
    pub error: u64,
    pub value: u64,
    pub bss: VirtRange,
}

// What reading the lines of a setup comes to: 37, 38, or 0 with the setup, whose flag table is the built-in one; a refusal has zeros.
#[repr(C)]
#[derive(Clone, Copy)]
pub struct SetupRead {
    pub number: u64,
    pub setup: Setup,
}

// What reading the lines of a flag table comes to: 39, or 0 with the table; a refusal has zeros.
#[repr(C)]
#[derive(Clone, Copy)]
pub struct FlagsRead {
    pub number: u64,
    pub flags: [u8; 8],
}

// What a start needs of an image: the number that it is refused with, 38 or 39 for its setup, 30 or 31, or 0, and with 30 the number of
// its form's reader, 11 to 28 for an ELF, 42, 43, 19 or 27 for an a.out, or 0 for the layout; its entry point; its record's segments,
// `count` of the image, then the stack; its bss; and the pages that it takes with the stack. A refused image's are zeros.
#[repr(C)]
#[derive(Clone, Copy)]
pub struct Planned {
    pub number: u64,
    pub own: u64,
    pub entry: u64,
    pub segments: [UserSegment; 16],
    pub count: usize,
    pub bss: VirtRange,
    pub pages: u64,
}

impl From<Result<Setup, Refusal>> for SetupRead {
    ghost use Rattle.std.specs.Prelude.{◌≡◌};
    ghost use Rattle.setup.specs.Said.{told as read_as};
    ghost use Rattle.holthrimi.specs.Rules.{told};

    ghost from_gives = { λ r a. told a ≡ read_as r };

    fn from(r: Result<Setup, Refusal>) -> SetupRead {
        match r {
            Ok(setup) => SetupRead { number: 0, setup },
            Err(e) => SetupRead {
                number: u64::from(e),
                setup: Setup {
                    utzero: 0,
                    ustktop: 0,
                    ustksize: 0,
                    uaddrtop: 0,
                    flags: [0; 8],
                },
            },
        }
    }
}

impl From<Result<[u8; 8], Refusal>> for FlagsRead {
    ghost use Rattle.std.specs.Prelude.{◌≡◌};
    ghost use Rattle.setup_flags.specs.Rows.{told as read_as};
    ghost use Rattle.holthrimi.specs.Rules.{told_flags};

    ghost from_gives = { λ r a. told_flags a ≡ read_as r };

    fn from(r: Result<[u8; 8], Refusal>) -> FlagsRead {
        match r {
            Ok(flags) => FlagsRead { number: 0, flags },
            Err(e) => FlagsRead {
                number: u64::from(e),
                flags: [0; 8],
            },
        }
    }
}

impl<'a> From<Plan<'a>> for Planned {
    ghost use Rattle.std.specs.Prelude.{◌≡◌};
    ghost use Rattle.holthrimi.specs.Rules.{planned_of};

    ghost from_gives = { λ p a. a ≡ planned_of p };

    fn from(p: Plan<'a>) -> Planned {
        Planned {
            number: 0,
            own: 0,
            entry: p.entry,
            segments: p.segments,
            count: p.count,
            bss: p.bss,
            pages: p.pages,
        }
    }
}

// The number of a refusal, or 0.
fn number(r: Result<(), Refusal>) -> u64
    ensures { result ≡ number_of r }
{
    match r {
        Ok(()) => 0,
        Err(e) => u64::from(e),
    }
}

// What the rule comes to, with the bss as it was if it refuses.
fn ruled(bss: Option<VirtRange>, r: Result<Break, Refusal>) -> Rule
    ensures { result ≡ rule_of (break_of bss r) }
{
    match r {
        Ok(b) => Rule {
            error: 0,
            value: b.value,
            bss: b.bss,
        },
        Err(e) => Rule {
            error: u64::from(e),
            value: 0,
            bss: bss.unwrap_or_default(),
        },
    }
}

// The break's rule, or 38 or 39 for a setup that is not accepted.
fn ibrk_in(setup: Setup, bss: Option<VirtRange>, addr: u64, free: u64) -> Result<Break, Refusal>
    ensures { break_of bss result ≡ ibrk_in setup bss addr free }
{
    setup::check(setup)?;
    segment::ibrk(setup, bss, addr, free)
}

// The break's rule, over an optional bss with any numbers in it and a free count. Without `set` there is no bss.
#[unsafe(no_mangle)]
pub extern "C" fn holthrimi_ibrk(
    setup: Setup,
    set: bool,
    start: u64,
    end: u64,
    addr: u64,
    free: u64,
) -> Rule
    ensures { result ≡ rule_of (ibrk_in setup (bss_of set (range start end)) addr free) }
{
    let bss = set.then_some(VirtRange { start, end });
    ruled(bss, ibrk_in(setup, bss, addr, free))
}

// The stack that `nargs` arguments take, given their strings' size, NULs included.
#[unsafe(no_mangle)]
pub extern "C" fn holthrimi_stack_size(strings: u64, nargs: u64) -> u64
    ensures { result ≡ saturated (stack_size strings nargs) }
{
    exec_args::stack_size(strings, nargs)
}

// Arguments, in this order: their lengths, the setup, then themselves.
fn args_in(setup: Setup, bytes: &[u8], lengths: &[u64]) -> Result<(), Refusal>
    ensures { number_of result ≡ args_in setup bytes.now lengths.now }
{
    if !exec_args::lengths_fit(bytes, lengths) {
        return Err(Refusal::Sizes);
    }
    setup::check(setup)?;
    exec_args::args_size(setup, bytes, lengths)?;
    Ok(())
}

// The number that arguments are refused with: 1 for lengths that don't sum to their bytes, 38 or 39 for a setup that is not
// accepted, 32 for a NUL, 33 if they take too much of a stack; or 0.
#[unsafe(no_mangle)]
pub extern "C" fn holthrimi_args_error(setup: Setup, bytes: &[u8], lengths: &[u64]) -> u64
    ensures { result ≡ args_in setup bytes.now lengths.now }
{
    number(args_in(setup, bytes, lengths))
}

// The machine's numbers that four lines give, or 37 or 38.
#[unsafe(no_mangle)]
pub extern "C" fn holthrimi_read_setup(bytes: &[u8]) -> SetupRead
    ensures { told result ≡ read_setup bytes.now }
{
    SetupRead::from(setup::read_setup(bytes))
}

// Puts the four lines of a setup into a buffer, and answers their length; one without room for the longest is left as it is, and the
// answer is 0.
#[unsafe(no_mangle)]
pub extern "C" fn holthrimi_write_setup(setup: Setup, out: &mut [u8]) -> usize
    ensures { Puts out.old 0 (setup_in (length out.old) setup) out.new result }
{
    setup::setup_into(out, setup)
}

// The flag table that eight lines give, or 39.
#[unsafe(no_mangle)]
pub extern "C" fn holthrimi_read_flags(bytes: &[u8]) -> FlagsRead
    ensures { told_flags result ≡ read_flags bytes.now }
{
    FlagsRead::from(setup_flags::read_flags(bytes))
}

// Puts the eight lines of a flag table into a buffer, and answers their length. For a table that is refused, and without room for the
// longest, the buffer is left as it is, and the answer is 0.
#[unsafe(no_mangle)]
pub extern "C" fn holthrimi_write_flags(flags: &[u8; 8], out: &mut [u8]) -> usize
    ensures { Puts out.old 0 (flags_in (length out.old) flags.now) out.new result }
{
    setup_flags::flags_into(out, *flags)
}

// Copies a name into 28 bytes, as Plan 9's kstrcpy.
#[unsafe(no_mangle)]
pub extern "C" fn holthrimi_kstrcpy(dst: &mut [u8; 28], src: &[u8])
    ensures { dst.new ≡ kstrcpy src.now }
{
    kstr::kstrcpy(dst, src);
}

// The setup, then the image.
fn parse_in(setup: Setup, form: Form, image: &[u8]) -> Result<(), Refusal>
    ensures { number_of result ≡ parse_in setup form image.now }
{
    setup::check(setup)?;
    image::parse(setup, form, image)?;
    Ok(())
}

// The number that the reader of its form refuses an image with, or 38 or 39 for a setup that is not accepted; or 0.
#[unsafe(no_mangle)]
pub extern "C" fn holthrimi_parse(setup: Setup, aout: bool, magic: u32, image: &[u8]) -> u64
    ensures { result ≡ parse_in setup (form_of aout magic) image.now }
{
    let form = crate::form::form_of(aout, magic);
    number(parse_in(setup, form, image))
}

// Of an image that is refused only the numbers are told.
fn refused_plan(number: u64, own: u64) -> Planned
    ensures { result ≡ refused_plan number own }
{
    Planned {
        number,
        own,
        entry: 0,
        segments: [UserSegment::default(); 16],
        count: 0,
        bss: VirtRange::default(),
        pages: 0,
    }
}

// The plan of an image, or 38 or 39 for a setup that is not accepted.
fn plan_in(setup: Setup, form: Form, image: &[u8]) -> Planned
    ensures { result ≡ plan_in setup form image.now }
{
    if let Err(e) = setup::check(setup) {
        return refused_plan(u64::from(e), 0);
    }
    match exec::plan_of(setup, form, image) {
        Ok(p) => Planned::from(p),
        Err(u) => refused_plan(u64::from(Refusal::from(u)), u.own()),
    }
}

#[unsafe(no_mangle)]
pub extern "C" fn holthrimi_plan(setup: Setup, aout: bool, magic: u32, image: &[u8]) -> Planned
    ensures { result ≡ plan_in setup (form_of aout magic) image.now }
{
    let form = crate::form::form_of(aout, magic);
    plan_in(setup, form, image)
}

// The words of the book of so many frames: seventeen a frame, or 0 for a number of frames outside 1 to 1,024.
#[unsafe(no_mangle)]
pub extern "C" fn holthrimi_book_words(frames: u64) -> u64
    ensures { result ≡ book_words frames }
{
    if (1..1025).contains(&frames) {
        17 * frames
    } else {
        0
    }
}

// Frames, book and records, by what every call refuses them with: 1, 38, 39 or 2.
fn book_error(setup: Setup, frames: &[u8], book: &[u64], procs: &Procs) -> Result<(), Refusal>
    ensures { number_of result ≡ book_error (state_of setup frames.now book.now procs.now) }
{
    if !call_front::sizes_ok(frames, book) {
        return Err(Refusal::Sizes);
    }
    sound::check(setup, book, procs)
}

// The number that frames, book and records are refused with by every call, 1, 38, 39 or 2, or 0.
#[unsafe(no_mangle)]
pub extern "C" fn holthrimi_check(setup: Setup, frames: &[u8], book: &[u64], procs: &Procs) -> u64
    ensures { result ≡ book_error (state_of setup frames.now book.now procs.now) }
{
    number(book_error(setup, frames, book, procs))
}
