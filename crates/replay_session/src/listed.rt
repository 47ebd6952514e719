// Fork with the list of segments that numbers give.
ghost use Rattle.std.specs.Prelude.{◌≡◌, ◌++◌, ◌+◌, ◌*◌, ◌≤◌, ◌<◌, length, take, drop};
ghost use Rattle.spec.specs.Machine.{fork, plainly, call};
ghost use Rattle.spec.specs.World.{Does, state_of};
ghost use Rattle.replay_session.specs.Triples.{list_of, segment_at};

use spec::{Left, Procs, Setup, UserSegment, VirtRange};

// How many segments of a list are lent: at most 17. That is one more than a record has, so a longer list is unlike every record too.
fn count(triples: &[u64]) -> usize
    ensures { (result ≤ 17) × (3 * result ≤ length triples.now) × (result < 17 → length triples.now < 3 * result + 3) }
{
    (triples.len() / 3).min(17)
}

// The segment at place i of a list, three numbers each.
fn segment_at(triples: &[u64], i: usize) -> UserSegment
    requires { 3 * i + 2 < length triples.now }
    ensures { result ≡ segment_at triples.now i }
{
    let start = triples[3 * i];
    let end = triples[3 * i + 1];
    let perm = triples[3 * i + 2];
    UserSegment {
        range: VirtRange { start, end },
        perm,
    }
}

// The first n segments of a list, and unused places behind them.
fn segments(triples: &[u64], n: usize) -> [UserSegment; 17]
    requires { (n ≤ 17) × (3 * n ≤ length triples.now) }
    ensures { (length result ≡ 17) × (take n result ++ list_of (drop (3 * n) triples.now) ≡ list_of triples.now) }
{
    let mut list = [UserSegment::default(); 17];
    for i in 0..n {
        list[i] = segment_at(triples, i);
    }
    list
}

// Fork with the list of segments that numbers give, three each: start, end and permission. A rest of one or two numbers is cut off.
pub(crate) fn fork_triples(
    setup: Setup,
    frames: &mut [u8],
    book: &mut [u64],
    procs: Procs,
    number: u64,
    child: u64,
    triples: &[u64],
) -> Left
    ensures { Does (state_of setup frames.old book.old procs) (call number (fork child (list_of triples.now))) (state_of setup frames.new book.new result.procs) (plainly result.answer) }
{
    let n = count(triples);
    let list = segments(triples, n);
    call_fork::fork_list(setup, frames, book, procs, number, child, &list[..n])
}
