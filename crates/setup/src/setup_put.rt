// The machine numbers written into a buffer that the caller lends: the four lines of a setup, and what the numbers program prints of a
// file. The bytes are proved equal to the definitions', so that the program has only to read and write.

ghost use Rattle.std.specs.Prelude.{◌+◌, ◌≤◌, ◌≡◌, length, take};
ghost use Rattle.text.specs.Text.{Puts};
ghost use Rattle.spec.specs.SetupText.{setup_text, read_file, numbers_text};
ghost use Rattle.setup.specs.Text.{limits_text, setup_in, numbers_in};
ghost use Rattle.setup.specs.Said.{told};

use spec::{Refusal, Setup};
use text::Writer;

// Room for the longest texts: four lines of numbers of twenty digits, and six.
const SETUP_MAX: usize = 117;

const NUMBERS_MAX: usize = 174;

// The longest file that is read.
const FILE_MAX: usize = 4096;

// Puts the four lines.
fn put_setup(w: &mut Writer, setup: Setup)
    requires { w.old.len + 117 ≤ length w.old.out.now }
    ensures same_reference { w.new.out.ghost_name ≡ w.old.out.ghost_name }
    ensures puts { Puts w.old.out.now w.old.len (setup_text setup) w.new.out.now w.new.len }
    ensures upper_bound { w.new.len ≤ w.old.len + 117 }
{
    w.put_field(b"UTZERO=", setup.utzero);
    w.put_field(b"USTKTOP=", setup.ustktop);
    w.put_field(b"USTKSIZE=", setup.ustksize);
    w.put_field(b"UADDRTOP=", setup.uaddrtop);
}

// Puts what follows from them.
fn put_limits(w: &mut Writer, setup: Setup)
    requires { w.old.len + 57 ≤ length w.old.out.now }
    ensures same_reference { w.new.out.ghost_name ≡ w.old.out.ghost_name }
    ensures puts { Puts w.old.out.now w.old.len (limits_text setup) w.new.out.now w.new.len }
{
    w.put_field(b"LIMIT=", crate::limit(setup));
    w.put_field(b"ARGLIMIT=", crate::arg_limit(setup));
}

// What a file is read as: a longer one is not as described.
fn read_file(bytes: &[u8]) -> Result<Setup, Refusal>
    ensures { told result ≡ read_file bytes.now }
{
    if bytes.len() > FILE_MAX {
        return Err(Refusal::SetupLines);
    }
    crate::setup_read::read_setup(bytes)
}

// Puts what the numbers program prints of a file.
fn put_numbers(bytes: &[u8], w: &mut Writer)
    requires { w.old.len + 174 ≤ length w.old.out.now }
    ensures same_reference { w.new.out.ghost_name ≡ w.old.out.ghost_name }
    ensures puts { Puts w.old.out.now w.old.len (numbers_text bytes.now) w.new.out.now w.new.len }
{
    match read_file(bytes) {
        Ok(setup) => {
            put_setup(w, setup);
            put_limits(w, setup);
        }
        Err(e) => w.put_field(b"refused=", u64::from(e)),
    }
}

// Puts the four lines of a setup, and answers their length. A buffer without room for the longest is left as it is, and the answer is 0.
pub fn setup_into(out: &mut [u8], setup: Setup) -> usize
    ensures puts { Puts out.old 0 (setup_in (length out.old) setup) out.new result }
    ensures upper_bound { (result ≤ length out.new) × (result ≡ length (take result out.new)) }
{
    if out.len() < SETUP_MAX {
        return 0;
    }
    let mut w = Writer::new(out);
    put_setup(&mut w, setup);
    w.len()
}

// Puts what the numbers program prints of a file, and answers its length. A buffer without room for the longest is left as it is, and the
// answer is 0.
pub fn numbers_into(bytes: &[u8], out: &mut [u8]) -> usize
    ensures puts { Puts out.old 0 (numbers_in (length out.old) bytes.now) out.new result }
    ensures upper_bound { (result ≤ length out.new) × (result ≡ length (take result out.new)) }
{
    if out.len() < NUMBERS_MAX {
        return 0;
    }
    let mut w = Writer::new(out);
    put_numbers(bytes, &mut w);
    w.len()
}
