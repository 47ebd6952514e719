// The segments that a record holds.

ghost use Rattle.std.specs.Prelude.{◌≡◌};
ghost use Rattle.spec.specs.Book.{used};

use spec::UserSegment;

// A record's segments: its places before the first unused one.
pub fn used(places: &[UserSegment; 16]) -> &[UserSegment]
    ensures { result.now ≡ used places.now }
{
    let unused = UserSegment::default();
    let end = places
        .iter()
        .position(|s| *s == unused)
        .unwrap_or(places.len());
    &places[..end]
}
