// The pass over the book that refusal 2 takes: each mapping's rank in the plan is taken, by a bit, and for the pages of the process that
// makes the call the frame is entered in a table. Frames with one mapping or none are found beforehand (module rows), and only the others
// are gone through place by place. Added: r9 keeps its pages in page tables of its own making.

#![tactic(auto)]

mod rows;

ghost use Rattle.std.specs.Prelude.{◌≡◌, true, ◌+◌, ◌-◌, ◌*◌, ◌/◌, ◌%◌, ◌^◌, ◌<◌, ◌≤◌, length, get_or};
ghost use Rattle.spec.specs.Tests.{◌is◌, all_below};
ghost use Rattle.spec.specs.Book.{owner_of, frame_count};
ghost use Rattle.sound_plan.specs.Plan.{Plan as IsPlan, hits};
ghost use Rattle.sound_table.specs.Rows.{Single, Singles};
ghost use Rattle.sound_table.specs.Table.{Planned, FramedAll, Hints, Takes, Stored, Entered, Near, Noted, Passes, Passed, Marked, Blank, marked};

use rows::singles;
use sound_plan::Plan;
use spec::DATA;

// A word without its owner: all mappings of one frame agree on it.
fn unowned(w: u64) -> u64
    ensures { result ≡ w - 16 * owner_of w }
{
    book::page_of(w) + book::perm_of(w)
}

// The place among hints of the words with w's owner and permission.
fn hint_at(w: u64) -> usize
    ensures { result ≡ w % 4096 }
{
    book::pack(0, book::owner_of(w), book::perm_of(w)) as usize
}

// A word with a bit set that was 0.
fn with_bit(word: u64, bit: u64) -> u64
    requires { (bit < 64) × (word / 2 ^ bit % 2 ≡ 0) }
    ensures { result ≡ word + 2 ^ bit }
{
    word | (1u64 << bit)
}

// What the pass reads: the book and its plan, and which pages are those of the process that makes the call, by their ranks: `pages` of
// them, from `own` on.
#[derive(Clone, Copy)]
struct Pass<'a> {
    book: &'a [u64],
    plan: &'a Plan,
    own: u64,
    pages: u64,
    ghost planned: { IsPlan plan.now.tags plan.now.bases },
    ghost few: { pages ≤ 1024 },
}

// What it notes besides the table: of each rank whether it is taken, by a bit, and for each owner and permission the part that the last
// word with them was of, to be tried first.
#[derive(Drop)]
struct Notes {
    bits: [u64; 256],
    hints: [usize; 272],
    ghost parts: { Hints hints },
}

impl Notes {
    // Takes a rank. The answer is no where it is taken already.
    fn take(&mut self, rank: u64) -> bool
        requires { rank < 16384 }
        ensures { Takes self.old.bits self.new.bits rank result }
    {
        let small = rank as u32;
        let at = (small / 64) as usize;
        let bit = (small % 64) as u64;
        let word = self.bits[at];
        if (word >> bit) % 2 != 0 {
            return false;
        }
        self.bits[at] = with_bit(word, bit);
        true
    }
}

impl<'a> Pass<'a> {
    ghost use Rattle.sound_table.specs.Going.{Going, Enters, EntersNear, PassesFrame, PassesTo};

    // Enters frame `k` for a rank that is of the process that makes the call.
    fn store(&self, table: &mut [u16; 1024], rank: u64, k: usize)
        requires { k < 1024 }
        ensures { Stored self.now.own self.now.pages table.old table.new rank (k + 1) }
    {
        if self.own <= rank && rank - self.own < self.pages {
            table[(rank - self.own) as usize] = (k + 1) as u16;
        }
    }

    // Takes the rank of the page that w, a word of part p, names, and enters frame `k` for it if it is of the process that makes the
    // call. The answer is no where the rank is taken already.
    fn enter(&self, notes: &mut Notes, table: &mut [u16; 1024], p: usize, w: u64, k: usize) -> bool
        requires { (p < 272) × (k < 1024) × (hits self.now.plan.now.tags self.now.plan.now.bases w p ≡ true) }
        ensures { Enters self.now notes.old.bits table.old notes.new.bits table.new w k result }
    {
        let rank = self.plan.bases[p] + (w - self.plan.tags[p]) / 4096;
        if !notes.take(rank) {
            return false;
        }
        self.store(table, rank, k);
        true
    }

    // The same where the word is of the part that the last word with its owner and permission was of, as it mostly is.
    fn mark_near(
        &self,
        notes: &mut Notes,
        table: &mut [u16; 1024],
        w: u64,
        k: usize,
    ) -> Option<bool>
        requires { (k < 1024) × (w % 4096 < 272) }
        ensures { EntersNear self.now notes.old.bits table.old notes.new.bits table.new w k result }
    {
        let hint = notes.hints[hint_at(w)];
        if !self.plan.hits(hint, w) {
            return None;
        }
        Some(self.enter(notes, table, hint, w, k))
    }

    // The same by a search for the part, which is the hint from then on. Where no part has the word, the answer is no.
    fn mark_far(&self, notes: &mut Notes, table: &mut [u16; 1024], w: u64, k: usize) -> bool
        requires { (k < 1024) × (w % 4096 < 272) }
        ensures { Enters self.now notes.old.bits table.old notes.new.bits table.new w k result }
    {
        let Some(p) = self.plan.part_of(w) else {
            return false;
        };
        notes.hints[hint_at(w)] = p;
        self.enter(notes, table, p, w, k)
    }

    // The same with the hint tried first.
    fn mark_word(&self, notes: &mut Notes, table: &mut [u16; 1024], w: u64, k: usize) -> bool
        requires { (k < 1024) × (w % 4096 < 272) }
        ensures { Enters self.now notes.old.bits table.old notes.new.bits table.new w k result }
    {
        match self.mark_near(notes, table, w, k) {
            Some(entered) => entered,
            None => self.mark_far(notes, table, w, k),
        }
    }

    // The pass over frame `k`, place by place: each mapping stands in its owner's place, all agree on page and permission, data stands
    // alone, and the count is theirs.
    fn mark_frame(&self, notes: &mut Notes, table: &mut [u16; 1024], k: usize) -> bool
        requires k_bound { (k < 1024) × (k < frame_count self.now.book.now) }
        requires planned { Going self.now notes.old.bits table.old (16 * k) }
        ensures { PassesFrame self.now notes.new.bits table.new k result }
    {
        let first = 17 * k;
        let mut base: u64 = 0;
        let mut seen: u64 = 0;
        for i in 0..16 {
            let w = self.book[first + i];
            if w == 0 {
                continue;
            }
            if book::owner_of(w) != i as u64 + 1 {
                return false;
            }
            let b = unowned(w);
            if seen != 0 {
                if b != base {
                    return false;
                }
                if book::perm_of(b) == DATA {
                    return false;
                }
            }
            base = b;
            seen += 1;
            if !self.mark_word(notes, table, w, k) {
                return false;
            }
        }
        seen == self.book[first + 16]
    }

    // The pass over frame `k`, of which w was found: its only mapping, 1 where it is free, or 0, and then it is passed place by place. The
    // only mapping's two tries are written out: mark_word, used twice, would be compiled as a call, which took 1.1 times as long.
    fn mark_row(&self, notes: &mut Notes, table: &mut [u16; 1024], w: u64, k: usize) -> bool
        requires k_bound { (k < 1024) × (k < frame_count self.now.book.now) × Single self.now.book.now k w }
        requires planned { Going self.now notes.old.bits table.old (16 * k) }
        ensures { PassesFrame self.now notes.new.bits table.new k result }
    {
        if w == 0 {
            return self.mark_frame(notes, table, k);
        }
        if w == 1 {
            return true;
        }
        match self.mark_near(notes, table, w, k) {
            Some(entered) => entered,
            None => self.mark_far(notes, table, w, k),
        }
    }

    // The pass over the `count` frames from `from` on, of which the words were found.
    fn mark_block(
        &self,
        notes: &mut Notes,
        table: &mut [u16; 1024],
        words: &[u64; 128],
        from: usize,
        count: usize,
    ) -> bool
        requires count_bound { (count ≤ 128) × (from + count ≤ 1024) × (from + count ≤ frame_count self.now.book.now) × Singles self.now.book.now words.now from count }
        requires planned { Going self.now notes.old.bits table.old (16 * from) × FramedAll self.now.book.now from }
        ensures { PassesTo self.now notes.new.bits table.new (from + count) result }
    {
        for i in 0..count {
            if !self.mark_row(notes, table, words[i], from + i) {
                return false;
            }
        }
        true
    }

    // The pass, block by block. The answer is no where a frame is torn, a mapping is of no part's page, or its rank is taken already.
    fn mark_all(&self, notes: &mut Notes, table: &mut [u16; 1024]) -> bool
        requires { (length self.now.book.now ≤ 17408) × Noted self.now.book.now self.now.plan.now.tags self.now.plan.now.bases self.now.own self.now.pages notes.old.bits table.old 0 }
        ensures { PassesTo self.now notes.new.bits table.new (frame_count self.now.book.now) result }
    {
        let mut words = [0u64; 128];
        let frames = self.book.len() / 17;
        let mut last = 0;
        let mut k = 0;
        // By `while`, and not step_by, whose loop would owe a measure and the same sum: the last block may be shorter.
        while k < frames {
            let count = (frames - k).min(128);
            last = singles(self.book, &mut words, k, count, last);
            if !self.mark_block(notes, table, &words, k, count) {
                return false;
            }
            k += count;
        }
        true
    }
}

// Whether the first `n` bits of a word are all 1.
fn ones(word: u64, n: u64) -> bool
    requires { n ≤ 64 }
    ensures { result ≡ all_below n (λ i. word / 2 ^ i % 2 is 1) }
{
    if n == 64 {
        return word == 18446744073709551615;
    }
    let end = 1u64 << n;
    word % end == end - 1
}

// Whether each of the first `total` ranks is taken.
fn all_marked(bits: &[u64; 256], total: usize) -> bool
    requires { total ≤ 16384 }
    ensures { result ≡ all_below total (marked bits.now) }
{
    let words = total / 64;
    let mut ok = true;
    for j in 0..words {
        ok = ones(bits[j], 64) & ok;
    }
    let rest = (total % 64) as u64;
    if rest == 0 {
        return ok;
    }
    ones(bits[words], rest) & ok
}

// The base of the first part behind those of `processes` processes; there are sixteen.
fn base_behind(plan: &Plan, processes: u64) -> u64
    ensures { result ≡ get_or plan.now.bases (17 * processes) 0 }
{
    if 16 < processes {
        0
    } else {
        plan.bases[17 * processes as usize]
    }
}

// Whether each frame is in order, and the book has the plan's words, each once. If so, `table` has the frames of the pages of process
// `number`; it comes in as zeros.
pub fn mark(book: &[u64], plan: &Plan, table: &mut [u16; 1024], number: u64) -> bool
    requires { (length book.now ≤ 17408) × IsPlan plan.now.tags plan.now.bases × Blank table.old }
    ensures { Marked book.now plan.now.tags plan.now.bases number table.new result }
{
    let own = base_behind(plan, number.saturating_sub(1));
    let pages = base_behind(plan, number).saturating_sub(own);
    let frames = (book.len() / 17) as u64;
    if frames < pages {
        return false;
    }
    let pass = Pass {
        book,
        plan,
        own,
        pages,
    };
    let mut notes = Notes {
        bits: [0; 256],
        hints: [0; 272],
    };
    pass.mark_all(&mut notes, table) && all_marked(&notes.bits, plan.bases[272] as usize)
}
