// Book words: packing them and taking them apart; and the searches of the book.

ghost use Rattle.std.specs.Prelude.{◌≡◌, Bool, ℕ, ◌+◌, ◌*◌, ◌%◌, ◌^◌, ◌≤◌, ◌<◌, length, get_or, []};
ghost use Rattle.std.specs.Simd.{first_chunks};
ghost use Rattle.spec.specs.Book.{word_of, page_of, owner_of, perm_of, frame_count, holders, count_below, frame_of, free, alone};

// The word of an owner's page.
pub fn pack(page: u64, owner: u64, perm: u64) -> u64
    requires { word_of page owner perm < 2 ^ 64 }
    ensures { result ≡ word_of page owner perm }
{
    page + 16 * owner + perm
}

// The page that a word names.
pub fn page_of(w: u64) -> u64
    ensures { result ≡ page_of w }
{
    w / 4096 * 4096
}

// The number of the process that a word names.
pub fn owner_of(w: u64) -> u64
    ensures { result ≡ owner_of w }
{
    w % 4096 / 16
}

// The permission that a word gives its page.
pub fn perm_of(w: u64) -> u64
    ensures { result ≡ perm_of w }
{
    w % 16
}

// The words of each frame.
pub fn frames(book: &[u64]) -> &[[u64; 17]]
    ensures { result.now ≡ first_chunks 17 (frame_count book.now) book.now }
{
    book.as_chunks().0
}

// How many frames pass a test. A `for` counts 1,024 frames in 466 ns, as an index did, and `filter` with `count` in 754.
fn count<F: Fn(&[u64; 17]) -> bool>(book: &[u64], test: F) -> usize
    requires callable { (f : _) → length f.now ≡ 17 → F.pre test f }
    ensures { (t : ℕ → Bool) → ((k : ℕ) (f : _) (b : Bool) → k < frame_count book.now → f.now ≡ get_or (first_chunks 17 (frame_count book.now) book.now) k [] → F.post test f b → b ≡ t k) → result ≡ count_below t (frame_count book.now) }
{
    let mut n = 0;
    for f in frames(book) {
        if test(f) {
            n += 1;
        }
    }
    n
}

// How many frames are free: their count is 0.
pub fn free_count(book: &[u64]) -> usize
    ensures { result ≡ free book.now }
{
    count(book, |f| f[16] == 0)
}

// How many frames an owner holds alone: its place is not 0, and the count is 1.
pub fn alone_count(book: &[u64], owner: u64) -> usize
    requires { (1 ≤ owner) × (owner ≤ 16) }
    ensures { result ≡ alone book.now owner }
{
    let place = (owner - 1) as usize;
    count(book, |f| f[place] != 0 && f[16] == 1)
}

// The frame of an owner's page, by the owner's places. Owner and page together are the word without its permission.
pub fn frame_of(book: &[u64], owner: u64, page: u64) -> Option<usize>
    requires { (1 ≤ owner) × (owner ≤ 16) × (page % 4096 ≡ 0) }
    ensures { result ≡ frame_of book.now owner page }
{
    let key = page / 16 + owner;
    let place = (owner - 1) as usize;
    frames(book).iter().rposition(|f| f[place] / 16 == key)
}
