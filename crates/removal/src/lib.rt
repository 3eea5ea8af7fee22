// Which vertices fall when some edges of a graph are removed, by a search over its tables.
#![tactic(auto)]

ghost use Rattle.std.specs.Prelude.{◌≡◌, true, cond, ℕ, ◌*◌, ◌^◌, ◌≤◌, ◌<◌, length, get_or};
ghost use Rattle.connectivity.specs.Plan.{plan, entire, limits};
ghost use Rattle.connectivity.specs.Fallen.{per_word, marked, word_from, words_from, words_for};
ghost use Rattle.graph.specs.Admission.{told_by, lent};
ghost use Rattle.removal.specs.Fallen.{none, removed_by, is_unseen, Topmost, Packed, Ready, Searched};

use graph::{Answer, Graph};

// 02: the vertices that fall, sixty-four marks to a word, the lowest vertex in the lowest bit; and how many are marked.
#[derive(Clone, Copy)]
pub struct Fallen {
    pub words: [u64; Fallen::WORDS],
    pub count: u16,
}

impl Fallen {
    // Sixty-four vertices to a word.
    pub const WORDS: usize = (Graph::MAX_VERTICES + 63) / 64;

    // No vertex falls.
    pub fn none() -> Fallen
        ensures { result ≡ none limits }
    {
        Fallen {
            words: [0u64; Fallen::WORDS],
            count: 0,
        }
    }
}

// Removes the edges of `cut` (01: a set of tabs); a number that is no edge's removes nothing. Those vertices fall that the lowest one then
// does not reach; an excluded one (02: a slug) is none. Of a plan that is refused nothing falls.
pub fn remove(vertices: u16, ends: &[u16], excluded: &[u16], cut: &[u16]) -> Result<Fallen, Answer>
    ensures { result ≡ removed_by limits (plan vertices ends.now excluded.now) cut.now }
{
    let mut incident = [0u16; 2 * Graph::MAX_EDGES];
    let mut begins = [0u16; Graph::MAX_VERTICES];
    let mut dead = [0u8; Graph::MAX_EDGES];
    let mut first = [0u16; Graph::MAX_VERTICES];
    let mut order = [0u16; Graph::MAX_VERTICES];
    let mut cursor = [0u16; Graph::MAX_VERTICES];
    without(
        vertices,
        ends,
        excluded,
        cut,
        &mut incident,
        &mut begins,
        &mut dead,
        &mut first,
        &mut order,
        &mut cursor,
    )?;
    Ok(pack(vertices, excluded, &first))
}

// Searches from the lowest vertex over the edges that are left. The lent tables have room for every plan, and no mark is set.
fn without(
    vertices: u16,
    ends: &[u16],
    excluded: &[u16],
    cut: &[u16],
    incident: &mut [u16],
    begins: &mut [u16],
    dead: &mut [u8],
    first: &mut [u16],
    order: &mut [u16],
    cursor: &mut [u16],
) -> Result<u16, Answer>
    requires { Ready limits incident.old begins.old dead.old first.old order.old cursor.old }
    ensures { Searched limits (plan vertices ends.now excluded.now) cut.now first.new result }
{
    let filled = incidence::fill(vertices, ends, incident, begins);
    let answer = own(vertices, ends, excluded, filled);
    let number = answer.number;
    if number != 0 {
        return Err(answer);
    }
    graph::excluded::mark(cut, dead);
    graph::excluded::mask(ends, excluded, dead);
    let root = graph::excluded::lowest_kept(excluded) as u16;
    depth::explore(
        vertices, ends, incident, begins, dead, root, 0, first, order, cursor,
    )
}

// The plan's own refusal, where `filled` is that of all that it lists: without excluded vertices it is the same, and no edge is looked at
// again.
fn own(vertices: u16, ends: &[u16], excluded: &[u16], filled: Answer) -> Answer
    requires { filled ≡ told_by (lent limits (entire vertices ends.now) true) }
    ensures { result ≡ told_by (lent limits (plan vertices ends.now excluded.now) true) }
{
    if excluded.len() == 0 {
        return filled;
    }
    graph::refusal(vertices, ends, excluded, false)
}

// Marks each vertex that was not seen, but for the excluded ones.
fn pack(vertices: u16, excluded: &[u16], first: &[u16]) -> Fallen
    requires { (vertices ≤ limits.vertices) × (vertices ≤ length first.now) }
    ensures { Packed limits vertices excluded.now first.now result }
{
    let mut barred = [0u8; Graph::MAX_VERTICES];
    graph::excluded::mark(excluded, &mut barred);
    let mut words = [0u64; Fallen::WORDS];
    fill(vertices as usize, first, &barred, &mut words);
    let count = total(&words);
    Fallen {
        words: words,
        count: count,
    }
}

// Fills the words, one after the other.
fn fill(n: usize, first: &[u16], barred: &[u8], words: &mut [u64])
    requires { (n ≤ length first.now) × (n ≤ length barred.now) × (length words.old ≤ words_for limits) }
    ensures { words.new ≡ words_from (is_unseen n first.now barred.now) 0 (length words.old) }
{
    for (i, slot) in words.iter_mut().enumerate() {
        *slot = word(n, first, barred, 64 * i);
    }
}

// The marks of sixty-four vertices from `from` on, the highest first.
fn word(n: usize, first: &[u16], barred: &[u8], from: usize) -> u64
    requires { (n ≤ length first.now) × (n ≤ length barred.now) × (from ≤ per_word * words_for limits) }
    ensures { result ≡ word_from (is_unseen n first.now barred.now) from per_word }
{
    let mut word = 0;
    for v in (from..top(n, from)).rev() {
        word = 2 * word + mark(n, first, barred, v);
    }
    word
}

// Behind the last of these that is a vertex, so that a small plan takes little.
fn top(n: usize, from: usize) -> usize
    requires { from ≤ per_word * words_for limits }
    ensures { Topmost n from result }
{
    if n <= from {
        return from;
    }
    if n - from < 64 {
        return n;
    }
    from + 64
}

// 1 where v has no mark in either table, else 0.
#[tactic(auto, using(crate::proofs::Packing::unseen_first, crate::proofs::Packing::unseen_barred, crate::proofs::Packing::unseen_is))]
fn mark(n: usize, first: &[u16], barred: &[u8], v: usize) -> u64
    requires { (n ≤ length first.now) × (n ≤ length barred.now) × (v < n) }
    ensures { result ≡ cond (is_unseen n first.now barred.now v) 1 0 }
{
    if first[v] != 0 {
        return 0;
    }
    if barred[v] != 0 {
        return 0;
    }
    1 // v falls
}

// How many marks are set: the sum of each word's ones.
fn total(words: &[u64]) -> u16
    requires { (length words.now ≤ words_for limits) × ((i : ℕ) → get_or words.now i 0 < 2 ^ per_word) }
    ensures { result ≡ marked words.now }
{
    words.iter().map(|word| word.count_ones() as u16).sum()
}
