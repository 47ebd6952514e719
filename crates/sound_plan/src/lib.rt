// The plan of all pages that the records call for, in 272 parts, seventeen for each process: for each part the word of its first page
// (its tag) and how many pages the parts before it have (its base). It is laid from the records, and then says of a book's word which
// part's page it is of.

#![tactic(auto)]

ghost use Rattle.std.specs.Prelude.{◌≡◌, ℕ, ◌+◌, ◌*◌, ◌<◌, ◌≤◌, length};
ghost use Rattle.spec.specs.Book.{proc_at};
ghost use Rattle.sound_plan.specs.Plan.{seat as seatOf, max_pages, SmallParts, Laid, LaidAll, Rising, hits as hitsOf, later as laterOf, Ascending, Span, PartOf, Plan as IsPlan};

use spec::{DATA, MAX_TOP, Proc, Procs, UserSegment, VirtRange};

// The plan of all pages: the tag of each part, and its base, with the count of all pages after the last. No ghost field says that it is one
// (`Plan` of specs/): it is zeros before it is laid, and again where a call is refused, as the contract of `sound::prepare` says.
#[derive(Drop)]
pub struct Plan {
    pub tags: [u64; 272],
    pub bases: [u64; 273],
}

// An unused place as an empty part at the top, so that an owner's segments ascend.
fn seat(s: UserSegment) -> UserSegment
    ensures { result ≡ seatOf s }
{
    if s.perm == 0 {
        let range = VirtRange {
            start: MAX_TOP,
            end: MAX_TOP,
        };
        return UserSegment { range, perm: 0 };
    }
    s
}

impl Plan {
    // Lays the parts of process n + 1, where the processes before it have `total` pages, and gives the pages up to its last.
    fn lay(&mut self, p: &Proc, n: usize, total: u64) -> u64
        requires { (n < 16) × SmallParts p.now × (total ≤ 17 * n * max_pages) }
        ensures { Laid p.now n total self.old.tags self.old.bases self.new.tags self.new.bases result 17 }
    {
        let owner = n as u64 + 1;
        let first = 17 * n;
        let mut t = total;
        for (j, place) in p.segments.iter().enumerate() {
            let s = seat(*place);
            let k = first + j;
            self.tags[k] = book::pack(s.range.start, owner, s.perm);
            self.bases[k] = t;
            t += (s.range.end - s.range.start) / 4096;
        }
        let from = mem::page_up(p.bss.start);
        let k = first + 16;
        self.tags[k] = book::pack(from, owner, DATA);
        self.bases[k] = t;
        t + (p.bss.end - from) / 4096
    }

    // Lays the parts of all processes, and gives the count of all pages, which is also the last base.
    pub fn lay_all(&mut self, procs: &Procs) -> u64
        requires { (i : ℕ) → i < 16 → SmallParts (proc_at procs.now (i + 1)) }
        ensures { LaidAll procs.now self.new.tags self.new.bases result }
    {
        sound_records::lengths(*procs);
        let mut t = 0;
        for (n, p) in procs.all.iter().enumerate() {
            t = self.lay(p, n, t);
        }
        self.bases[272] = t;
        t
    }

    // Whether a word is of a page of part k.
    #[tactic(auto, unfolding(crate::specs::Plan::hits))]
    pub fn hits(&self, k: usize, w: u64) -> bool
        requires { (k < 272) × Rising self.now.bases }
        ensures { result ≡ hitsOf self.now.tags self.now.bases w k }
    {
        let tag = self.tags[k];
        if w < tag {
            return false;
        }
        let d = w - tag;
        d % 4096 == 0 && d / 4096 < self.bases[k + 1] - self.bases[k]
    }

    // The later of two places, k + step and k, whose tag is at most w.
    fn later(&self, k: usize, step: usize, w: u64) -> usize
        requires { k + step < 272 }
        ensures { result ≡ laterOf self.now.tags k step w }
    {
        if self.tags[k + step] <= w {
            k + step
        } else {
            k
        }
    }

    // Of an owner's sixteen segments, from `first` on, the last whose tag is at most w, by halves; or `first`.
    fn segment_of(&self, first: usize, w: u64) -> usize
        requires { (first + 16 ≤ 272) × Ascending self.now.tags first }
        ensures { Span self.now.tags first w result 1 }
    {
        let half = self.later(first, 8, w);
        let quarter = self.later(half, 4, w);
        let pair = self.later(quarter, 2, w);
        self.later(pair, 1, w)
    }

    // The part that a word is of, the bss or a segment of its owner.
    pub fn part_of(&self, w: u64) -> Option<usize>
        requires { IsPlan self.now.tags self.now.bases }
        ensures { PartOf self.now.tags self.now.bases w result }
    {
        let owner = book::owner_of(w) as usize;
        if owner == 0 || 16 < owner {
            return None;
        }
        let bss = 17 * owner - 1;
        if self.hits(bss, w) {
            return Some(bss);
        }
        let k = self.segment_of(bss - 16, w);
        if self.hits(k, w) { Some(k) } else { None }
    }
}
