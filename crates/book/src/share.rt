// Pages shared by a fork: a child gets a mapping beside each text and rodata mapping of its parent's, in the same frame, and the frame
// one holder more. No byte moves.

ghost use Rattle.std.specs.Prelude.{◌≡◌, ◌&&◌, List, ℕ, ◌+◌, ◌*◌, ◌≤◌, ◌<◌, length};
ghost use Rattle.spec.specs.Tests.{◌isnt◌};
ghost use Rattle.spec.specs.Book.{word_of, page_of, perm_of, frame_count, holders};
ghost use Rattle.spec.specs.Frames.{enter, share, store};

// Whether a word is a mapping that fork shares: of text or rodata.
fn is_shared(w: u64) -> bool
    ensures { result ≡ (w isnt 0 && perm_of w isnt 3) }
{
    w != 0 && crate::word::perm_of(w) != spec::DATA
}

// The child's mapping beside w.
fn word_for(w: u64, child: usize) -> u64
    requires { child ≤ 16 }
    ensures { result ≡ word_of (page_of w) child (perm_of w) }
{
    crate::word::pack(
        crate::word::page_of(w),
        child as u64,
        crate::word::perm_of(w),
    )
}

// Frame `k` gets the child's mapping `w`, and a holder more.
fn join(book: &mut [u64], k: usize, child: usize, w: u64)
    requires { (17 * k + 16 < length book.old) × (1 ≤ child) × (child ≤ 16) × (holders book.old k ≤ 16) }
    ensures { book.new ≡ enter book.old k child w (holders book.old k + 1) }
{
    let count = book[17 * k + 16] + 1;
    book[17 * k + (child - 1)] = w;
    book[17 * k + 16] = count;
}

// The child gets a mapping in each text and rodata frame of the parent's. In a sound book no frame has more than sixteen holders.
pub fn share_pages(book: &mut [u64], parent: usize, child: usize)
    requires le_parent { (1 ≤ parent) × (parent ≤ 16) × (1 ≤ child) × (child ≤ 16) }
    requires by_index { (k : ℕ) → k < frame_count book.old → holders book.old k ≤ 16 }
    ensures { (frames : List ℕ) → store frames book.new ≡ share (store frames book.old) parent child }
{
    // A pass as `release` makes one. No function holds both: which word is read, which is written and how the count goes all differ.
    for k in 0..book.len() / 17 {
        let w = book[17 * k + (parent - 1)];
        if is_shared(w) {
            join(book, k, child, word_for(w, child));
        }
    }
}
