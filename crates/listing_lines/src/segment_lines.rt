// The lines of a record's segments, as the listing of an image has them: each is a kind and two numbers.

ghost use Rattle.std.specs.Prelude.{◌+◌, ◌*◌, ◌≤◌, ◌≡◌, length};
ghost use Rattle.spec.specs.Listing.{kind_text};
ghost use Rattle.text.specs.Text.{Puts};
ghost use Rattle.listing_lines.specs.Lines.{span_text, lines_text, line_text};

use spec::{UserSegment, VirtRange};
use text::Writer;

// Puts a range's start and end, and the end of the line.
pub fn put_span(w: &mut Writer, r: VirtRange)
    requires { w.old.len + 42 ≤ length w.old.out.now }
    ensures same_reference { w.new.out.ghost_name ≡ w.old.out.ghost_name }
    ensures puts { Puts w.old.out.now w.old.len (span_text r) w.new.out.now w.new.len }
    ensures upper_bound { w.new.len ≤ w.old.len + 42 }
{
    w.put_decimal(r.start);
    w.put(b" ");
    w.put_decimal(r.end);
    w.put(b"\n");
}

// Puts a segment's kind.
fn put_kind(w: &mut Writer, perm: u64)
    requires { w.old.len + 7 ≤ length w.old.out.now }
    ensures same_reference { w.new.out.ghost_name ≡ w.old.out.ghost_name }
    ensures puts { Puts w.old.out.now w.old.len (kind_text perm) w.new.out.now w.new.len }
    ensures upper_bound { w.new.len ≤ w.old.len + 7 }
{
    match perm {
        spec::TEXT => w.put(b"text "),
        spec::RODATA => w.put(b"rodata "),
        _ => w.put(b"data "),
    }
}

// Puts a segment's line.
fn put_line(w: &mut Writer, u: UserSegment)
    requires { w.old.len + 57 ≤ length w.old.out.now }
    ensures same_reference { w.new.out.ghost_name ≡ w.old.out.ghost_name }
    ensures puts { Puts w.old.out.now w.old.len (line_text u) w.new.out.now w.new.len }
    ensures upper_bound { w.new.len ≤ w.old.len + 57 }
{
    w.put(b"segment=");
    put_kind(w, u.perm);
    put_span(w, u.range);
}

// Puts the lines of a record's segments.
pub fn put_lines(w: &mut Writer, segments: &[UserSegment])
    requires { w.old.len + 57 * length segments.now ≤ length w.old.out.now }
    ensures same_reference { w.new.out.ghost_name ≡ w.old.out.ghost_name }
    ensures puts { Puts w.old.out.now w.old.len (lines_text segments.now) w.new.out.now w.new.len }
    ensures upper_bound { w.new.len ≤ w.old.len + 57 * length segments.now }
{
    for u in segments {
        put_line(w, *u);
    }
}
