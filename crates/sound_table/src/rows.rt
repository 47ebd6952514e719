// Frames that hold one mapping or none, found by a look at all their places at once: an OR of words, which LLVM makes vector loads
// of. The check of the book decides most frames so. A frame that is not found here may be in order or torn.

ghost use Rattle.std.specs.Prelude.{◌≡◌, true, IfSome, ◌+◌, ◌*◌, ◌<◌, ◌≤◌, length, set};
ghost use Rattle.spec.specs.Book.{frame_count};
ghost use Rattle.sound_table.specs.Rows.{OrOf, OrBut, FourBut, Masks, Own, FourOwn, Single, Singles};

// The OR of `N` words from word `at` on.
fn or_of<const N: usize>(book: &[u64], at: usize) -> u64
    requires { at + N ≤ length book.now }
    ensures { OrOf book.now at N result }
{
    let mut a = 0;
    for i in 0..N {
        a = a | book[at + i];
    }
    a
}

// Masks of all bits, but for one in the middle: from word 15 - n on the sixteen masks of all places but place n.
fn others() -> [u64; 31]
    ensures { Masks result }
{
    let mut m = [18446744073709551615u64; 31];
    m[15] = 0;
    m
}

// The OR of the places of frame `k` but place `n`, counted from 0.
fn row_but(book: &[u64], masks: &[u64; 31], k: usize, n: usize) -> u64
    requires { (17 * k + 16 < length book.now) × (n < 16) × Masks masks.now }
    ensures { OrBut book.now (17 * k) n 16 result }
{
    let at = 17 * k;
    let others = &masks[15 - n..31 - n];
    let mut a: u64 = 0;
    for i in 0..16 {
        a = a | (book[at + i] & others[i]);
    }
    a
}

// The same of the four frames from `k` on. The four rows are joined first, so that the masks are read and applied once, and not in each
// row as by row_but.
fn four_but(book: &[u64], masks: &[u64; 31], k: usize, n: usize) -> u64
    requires { (17 * k + 68 ≤ length book.now) × (n < 16) × Masks masks.now }
    ensures { FourBut book.now (17 * k) n 16 result }
{
    let at = 17 * k;
    let from = 15 - n;
    let mut a: u64 = 0;
    for i in 0..16 {
        let w = book[at + i] | book[at + 17 + i] | book[at + 34 + i] | book[at + 51 + i];
        a = a | (w & masks[from + i]);
    }
    a
}

// Whether frame `k` counts one holder, and has a word of owner n + 1 in place `n`.
fn is_own(book: &[u64], k: usize, n: usize) -> bool
    requires { (17 * k + 16 < length book.now) × (n < 16) }
    ensures { result ≡ true → Own book.now k n }
{
    let w = book[17 * k + n];
    let count = book[17 * k + 16];
    (book::owner_of(w) == n as u64 + 1) & (count == 1)
}

// Whether the four frames from `k` on have their only mapping in place `n`, each.
fn four_own(book: &[u64], masks: &[u64; 31], k: usize, n: usize) -> bool
    requires { (17 * k + 68 ≤ length book.now) × (n < 16) × Masks masks.now }
    ensures { result ≡ true → FourOwn book.now k n }
{
    for j in 0..4 {
        if !is_own(book, k + j, n) {
            return false;
        }
    }
    four_but(book, masks, k, n) == 0
}

// The place of the owner that a word names, if it names one.
fn place_of(w: u64) -> Option<usize>
    ensures { IfSome result (λ n. n < 16) }
{
    let owner = book::owner_of(w) as usize;
    if owner == 0 || 16 < owner {
        return None;
    }
    Some(owner - 1)
}

// The only mapping of frame `k`, or 1 where the frame is free, or 0 where neither is found. An enum in place of these numbers is of two
// words, and was measured: the check of a full book ran through 1.04 times the instructions, and that of a free one 1.08 times.
fn single(book: &[u64], masks: &[u64; 31], k: usize) -> u64
    requires { (17 * k + 16 < length book.now) × Masks masks.now }
    ensures { Single book.now k result }
{
    let count = book[17 * k + 16];
    if count == 0 {
        if or_of::<16>(book, 17 * k) == 0 {
            return 1;
        }
        return 0;
    }
    if count != 1 {
        return 0;
    }
    let Some(n) = place_of(or_of::<16>(book, 17 * k)) else {
        return 0;
    };
    if !is_own(book, k, n) {
        return 0;
    }
    if row_but(book, masks, k, n) != 0 {
        return 0;
    }
    book[17 * k + n]
}

// What `single` says of the frames from + i to below from + end, where the words before are found.
fn each(book: &[u64], masks: &[u64; 31], words: &mut [u64; 128], from: usize, i: usize, end: usize)
    requires { (i ≤ end) × (end ≤ 128) × (from + end ≤ frame_count book.now) × Masks masks.now × Singles book.now words.old from i }
    ensures { Singles book.now words.new from end }
{
    for j in i..end {
        words[j] = single(book, masks, from + j);
    }
}

// Sets the four words from word `i` on.
fn put_four(words: &mut [u64; 128], i: usize, a: u64, b: u64, c: u64, d: u64)
    requires { (i + 4 ≤ 128) }
    ensures { words.new ≡ set (set (set (set words.old i a) (i + 1) b) (i + 2) c) (i + 3) d }
{
    words[i] = a;
    words[i + 1] = b;
    words[i + 2] = c;
    words[i + 3] = d;
}

// The four frames from + i on: all at once where their mappings stand in place `last`, where that of the frame before stood, or where
// they are free; or else one by one. The answer is such a place for the next four.
fn four(
    book: &[u64],
    masks: &[u64; 31],
    words: &mut [u64; 128],
    from: usize,
    i: usize,
    last: usize,
) -> usize
    requires { (i + 4 ≤ 128) × (from + i + 4 ≤ frame_count book.now) × (last < 16) × Masks masks.now × Singles book.now words.old from i }
    ensures { (result < 16) × Singles book.now words.new from (i + 4) }
{
    let k = from + i;
    if four_own(book, masks, k, last) {
        let at = 17 * k + last;
        put_four(
            words,
            i,
            book[at],
            book[at + 17],
            book[at + 34],
            book[at + 51],
        );
        return last;
    }
    if book[17 * k + 16] == 0 {
        if or_of::<68>(book, 17 * k) == 0 {
            put_four(words, i, 1, 1, 1, 1);
            return last;
        }
    }
    each(book, masks, words, from, i, i + 4);
    place_of(words[i + 3]).unwrap_or(last)
}

// Of each of the `count` frames from `from` on its only mapping, or 1 where the frame is free, or 0 where neither is found. `first` is
// the place to try first, and the answer is such a place for the frames that follow.
pub fn singles(
    book: &[u64],
    words: &mut [u64; 128],
    from: usize,
    count: usize,
    first: usize,
) -> usize
    requires { (count ≤ 128) × (from + count ≤ frame_count book.now) × (first < 16) }
    ensures { (result < 16) × Singles book.now words.new from count }
{
    let masks = others();
    let mut last = first;
    let mut i = 0;
    // By `while`: the frames that four don't divide are left to `each`, from the same i on.
    while i + 4 <= count {
        last = four(book, &masks, words, from, i, last);
        i += 4;
    }
    each(book, &masks, words, from, i, count);
    last
}
