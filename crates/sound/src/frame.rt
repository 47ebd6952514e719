// The frame of a page of the process that makes the call, by what the check of the book has left, without the book. User access and
// fork find their frames so; a page costs a search among seventeen parts.

ghost use Rattle.std.specs.Prelude.{◌≡◌, List, ℕ, ◌≤◌};
ghost use Rattle.spec.specs.Book.{frame_of};
ghost use Rattle.sound_plan.specs.Plan.{Plan as IsPlan};
ghost use Rattle.sound_table.specs.Table.{count_of};
ghost use Rattle.sound.specs.Ready.{Ready};

use crate::Lookup;

// The frame of an owner's page in the book that the lookup is ready for, with the owner, by the owner's seventeen parts and without the
// book.
pub fn frame_at(lookup: &Lookup, owner: usize, page: u64) -> Option<usize>
    requires { (1 ≤ owner) × (owner ≤ 16) × IsPlan lookup.now.plan.tags lookup.now.plan.bases × (count_of lookup.now.plan.bases owner ≤ 1024) }
    ensures { (book : List ℕ) → Ready book owner lookup.now → result ≡ frame_of book owner page }
{
    if page % 4096 != 0 {
        return None;
    }
    let plan = &lookup.plan;
    let number = owner as u64;
    let end = 17 * owner;
    for k in end - 17..end {
        let w = book::pack(page, number, book::perm_of(plan.tags[k]));
        if plan.hits(k, w) {
            let rank = plan.bases[k] + (w - plan.tags[k]) / 4096;
            let at = (rank - plan.bases[end - 17]) as usize;
            return (lookup.table[at] as usize).checked_sub(1);
        }
    }
    None
}
