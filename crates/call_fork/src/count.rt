// The pages that fork copies, counted.

ghost use Rattle.std.specs.Prelude.{◌≡◌, [], ◌∷◌, ◌++◌, ◌^◌, ◌<◌};
ghost use Rattle.spec.specs.Numbers.{page_up};
ghost use Rattle.spec.specs.Book.{data_only, bss_segment, page_count};

use call_front::record::bss_segment;
use spec::{DATA, Proc};

// How many pages a record's data segments and bss have.
pub fn data_pages(p: Proc) -> u64
    requires { page_up p.bss.start < 2 ^ 64 }
    ensures { result ≡ page_count (data_only (p.segments ++ bss_segment p.bss ∷ [])) }
{
    let bss = [bss_segment(p.bss)];
    p.segments
        .iter()
        .chain(&bss)
        .filter(|s| s.perm == DATA)
        .map(|s| mem::pages(s.range))
        .sum()
}
