// The form of an image as C names it, a flag and a magic, since C has no enum that holds a number.

ghost use Rattle.std.specs.Prelude.{◌≡◌};
ghost use Rattle.holthrimi.specs.Rules.{form_of};

use spec::Form;

// An a.out that is to have this magic, or an ELF, whatever the magic.
pub fn form_of(aout: bool, magic: u32) -> Form
    ensures { result ≡ form_of aout magic }
{
    if aout { Form::Aout(magic) } else { Form::Elf }
}
