// The whole listing of an image, as the listing program prints it, in a buffer that the caller lends. The bytes are proved equal to
// the definition's, so that the program has only to read and write.

#![tactic(auto)]

mod segment_lines;

ghost use Rattle.std.specs.Prelude.{◌≡◌, ◌≤◌, ◌+◌, length, take, IfOk};
ghost use Rattle.spec.specs.Numbers.{deposit};
ghost use Rattle.spec.specs.Refusals.{number_of};
ghost use Rattle.spec.specs.Listing.{list_error, listing};
ghost use Rattle.spec.specs.declared.Form.{Form};
ghost use Rattle.image.specs.Images.{program};
ghost use Rattle.exec.specs.Plan.{SameImage};
ghost use Rattle.text.specs.Text.{Puts};
ghost use Rattle.listing_lines.specs.Lines.{listed_text, listing_in};

use exec::{Plan, Unplanned};
use segment_lines::{put_lines, put_span};
use spec::{Form, Refusal};
use text::Writer;

// The longest image that is listed.
const IMAGE_MAX: usize = 32768;

// Room for the longest listing: fifteen segments, with numbers of twenty digits.
const LISTING_MAX: usize = 1024;

// The plan of an ELF image by the deposit machine's numbers and the built-in flag table, or why it isn't listed.
fn plan_of(image: &[u8]) -> Result<Plan, Refusal>
    ensures number { number_of result ≡ list_error image.now }
    ensures holds { IfOk result (λ plan. SameImage plan.image deposit Form.Elf image.now) }
{
    if image.len() > IMAGE_MAX {
        return Err(Refusal::Sizes);
    }
    match exec::plan_of(setup::deposit(), Form::Elf, image) {
        Ok(plan) => Ok(plan),
        Err(Unplanned::Unreadable(own)) => Err(own),
        Err(Unplanned::BadLayout) => Err(Refusal::BadExec),
        Err(Unplanned::TooManySegments) => Err(Refusal::Segments),
    }
}

// Puts the lines of a plan.
fn put_plan(w: &mut Writer, p: &Plan)
    requires deposit_numbers { p.now.image.setup ≡ deposit }
    requires room { w.old.len + 1024 ≤ length w.old.out.now }
    ensures same_reference { w.new.out.ghost_name ≡ w.old.out.ghost_name }
    ensures puts { Puts w.old.out.now w.old.len (listed_text (program p.now.image)) w.new.out.now w.new.len }
{
    w.put_field(b"entry=", p.entry);
    put_lines(w, &p.segments[..p.count]);
    w.put(b"bss=");
    put_span(w, p.bss);
    w.put_field(b"pages=", p.pages);
}

// Puts the whole listing of an image: a refusal's number, or its entry point, segments, bss and pages.
fn put_listing(image: &[u8], w: &mut Writer)
    requires { w.old.len + 1024 ≤ length w.old.out.now }
    ensures same_reference { w.new.out.ghost_name ≡ w.old.out.ghost_name }
    ensures puts { Puts w.old.out.now w.old.len (listing image.now) w.new.out.now w.new.len }
{
    match plan_of(image) {
        Ok(plan) => put_plan(w, &plan),
        Err(e) => w.put_field(b"refused=", u64::from(e)),
    }
}

// Puts the whole listing of an image, and answers its length. A buffer without room for the longest is left as it is, and the answer is 0.
pub fn list_into(image: &[u8], out: &mut [u8]) -> usize
    ensures puts { Puts out.old 0 (listing_in (length out.old) image.now) out.new result }
    ensures upper_bound { (result ≤ length out.new) × (result ≡ length (take result out.new)) }
{
    if out.len() < LISTING_MAX {
        return 0;
    }
    let mut w = Writer::new(out);
    put_listing(image, &mut w);
    w.len()
}
