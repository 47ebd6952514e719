// An image in the form that the caller names (`Form`): ELF, read by crate elf, or Plan 9's a.out, read by module aout. A loader sees
// neither: it reads where the program is entered, and at each place, counted from 0, the segment that stands there or none. Places are
// an ELF's program headers, and two in an a.out. `parse` alone makes an `Image`, so that each has been checked.

#![tactic(auto)]

mod aout;

ghost use Rattle.std.specs.Prelude.{◌≡◌, ◌+◌, ◌≤◌, ◌<◌, length, take, drop, IfOk};
ghost use Rattle.spec.specs.Numbers.{SetupOk};
ghost use Rattle.spec.specs.Refusals.{number_of};
ghost use Rattle.spec.specs.Image.{read_error};
ghost use Rattle.elf.specs.Reader.{CheckedLoad};
ghost use Rattle.image.specs.Readers.{form_of, bytes_of, flags_of};

use elf::{Elf, Segment};
use spec::{Form, Refusal, Setup};

// The reader of a form.
#[derive(Clone, Copy)]
pub enum Reader<'a> {
    Elf(Elf<'a>),
    Aout(crate::aout::Aout<'a>),
}

// A validated image, and the setup that it was checked under. The fields are private: no other crate makes one, or changes one.
#[derive(Clone, Copy)]
pub struct Image<'a> {
    setup: Setup,
    reader: Reader<'a>,
    pub ghost setup_ok: { SetupOk setup },
    pub ghost flags: { flags_of setup reader ≡ setup.flags },
    pub ghost accepted: { read_error setup (form_of reader) (bytes_of reader) ≡ 0 },
}

// Validates `bytes` as an image of a form. It is refused with the number of the form's reader.
pub fn parse<'a>(setup: Setup, form: Form, bytes: &'a [u8]) -> Result<Image<'a>, Refusal>
    requires { SetupOk setup }
    ensures number { number_of result ≡ read_error setup form bytes.now }
    ensures holds { IfOk result (λ image. (image.setup ≡ setup) × (form_of image.reader ≡ form) × (bytes_of image.reader ≡ bytes.now)) }
{
    match form {
        Form::Elf => {
            let elf = elf::parse(setup.flags, bytes)?;
            Ok(Image {
                setup,
                reader: Reader::Elf(elf),
            })
        }
        Form::Aout(magic) => {
            let aout = crate::aout::parse(setup, magic, bytes)?;
            Ok(Image {
                setup,
                reader: Reader::Aout(aout),
            })
        }
    }
}

impl<'a> Image<'a> {
    ghost use Rattle.image.specs.Images.{bytes, program, place_count, segment_at};

    // The setup that the image was checked under.
    pub fn setup(&self) -> Setup
        ensures { result ≡ self.now.setup }
    {
        self.setup
    }

    // Where the image is entered.
    pub fn entry(&self) -> u64
        ensures { result ≡ (program self.now).entry }
    {
        match self.reader {
            Reader::Elf(elf) => elf.entry(),
            Reader::Aout(aout) => aout.entry(),
        }
    }

    // How many places for segments the image has.
    pub fn places(&self) -> usize
        ensures { result ≡ place_count self.now }
    {
        match self.reader {
            Reader::Elf(elf) => elf.count(),
            Reader::Aout(_) => 2,
        }
    }

    // The segment at place `i`, or none.
    pub fn segment(&self, i: usize) -> Option<Segment>
        requires { i < place_count self.now }
        ensures value { result ≡ segment_at self.now i }
        ensures checked { CheckedLoad (length (bytes self.now)) result }
    {
        match self.reader {
            Reader::Elf(elf) => elf.segment(i),
            Reader::Aout(aout) => aout.segment(self.setup, i),
        }
    }

    // The file bytes of a segment.
    pub fn file(&self, g: Segment) -> &'a [u8]
        requires { g.offset + g.filesz ≤ length (bytes self.now) }
        ensures { result.now ≡ take g.filesz (drop g.offset (bytes self.now)) }
    {
        match self.reader {
            Reader::Elf(elf) => elf.file(g),
            Reader::Aout(aout) => aout.file(g),
        }
    }
}
