// Excluded vertices (02: slugs, which are meant to fall): 18, the lowest vertex that is kept, and the edges that end at an excluded one.
ghost use Rattle.std.specs.Prelude.{◌≡◌, ◌==◌, take, count_by, cond, ◌||◌, List, ℕ, ◌<◌, ◌≤◌, length, set};
ghost use Rattle.connectivity.specs.Lists.{mem};
ghost use Rattle.connectivity.specs.Graph.{edges};
ghost use Rattle.connectivity.specs.Plan.{plan, graph, limits};
ghost use Rattle.connectivity.specs.Admission.{Admitted, excluded_answer};
ghost use Rattle.graph.specs.Admission.{told_by};
ghost use Rattle.graph.specs.Marks.{rank};
ghost use Rattle.graph.specs.Tells.{Tells};
ghost use Rattle.graph.specs.Excluded.{first_gap, is_marked, is_open, Masked, MarkedAll, Barring};

use crate::{Answer, Graph};

// 18 at the first excluded vertex that is not below `vertices` or not above the one before; else 0.
pub(crate) fn judge_excluded(vertices: u16, excluded: &[u16]) -> Answer
    ensures { result ≡ told_by (excluded_answer vertices 0 0 excluded.now) }
{
    let mut low: u16 = 0;
    for (k, &v) in excluded.iter().enumerate() {
        if v < low {
            return eighteen(k); // not above the one before
        }
        if vertices <= v {
            return eighteen(k);
        }
        low = v + 1;
    }
    Answer {
        number: 0,
        place: 0,
    }
}

fn eighteen(place: usize) -> Answer
    requires { place < 65536 }
    ensures { result ≡ record { number = 18; place = place } }
{
    Answer {
        number: 18,
        place: place as u16,
    }
}

// The lowest number that an ascending list does not have: the lowest vertex that is kept, of an admitted plan.
pub fn lowest_kept(excluded: &[u16]) -> usize
    ensures { result ≡ first_gap 0 excluded.now }
{
    for (k, &v) in excluded.iter().enumerate() {
        if v as usize != k {
            return k;
        }
    }
    excluded.len()
}

// Whether v is excluded.
pub fn is_excluded(excluded: &[u16], v: u16) -> bool
    ensures { result ≡ mem v excluded.now }
{
    excluded.contains(&v)
}

// Marks each edge that ends at an excluded vertex; every other mark stays.
pub fn mask(ends: &[u16], excluded: &[u16], dead: &mut [u8])
    ensures { Masked limits ends.now excluded.now dead.old dead.new }
{
    if excluded.len() == 0 {
        return; // no look at the edges
    }
    let mut barred = [0u8; Graph::MAX_VERTICES];
    mark(excluded, &mut barred);
    cover(ends, &barred, dead);
}

// Marks the edges that have a marked end.
fn cover(ends: &[u16], barred: &[u8], dead: &mut [u8])
    ensures { (excluded : List ℕ) → Barring limits excluded barred.now → Masked limits ends.now excluded dead.old dead.new }
{
    for e in 0..ends.len() / 2 {
        cover_one(e, ends[2 * e], ends[2 * e + 1], barred, dead);
    }
}

// The same of one edge, which has these ends.
fn cover_one(e: usize, left: u16, right: u16, barred: &[u8], dead: &mut [u8])
    ensures { dead.new ≡ cond (is_marked barred.now left || is_marked barred.now right) (set dead.old e 1) dead.old }
{
    if is_marked(barred, left) {
        put(e, dead);
        return;
    }
    if is_marked(barred, right) {
        put(e, dead);
    }
}

// Marks the places that a list names; a number behind the last place names none.
pub fn mark(list: &[u16], marks: &mut [u8])
    ensures { MarkedAll list.now marks.old marks.new }
{
    for &v in list {
        mark_one(v, marks);
    }
}

fn mark_one(v: u16, marks: &mut [u8])
    ensures { marks.new ≡ set marks.old v 1 }
{
    put(v as usize, marks);
}

fn put(at: usize, marks: &mut [u8])
    ensures { marks.new ≡ set marks.old at 1 }
{
    if at < marks.len() {
        marks[at] = 1;
    }
}

// Whether a number has a mark.
fn is_marked(marks: &[u8], v: u16) -> bool
    ensures { result ≡ is_marked marks.now v }
{
    let at = v as usize;
    if at >= marks.len() {
        return false;
    }
    marks[at] == 1
}

// How many edges an admitted plan keeps.
pub(crate) fn count_kept(vertices: u16, ends: &[u16], excluded: &[u16]) -> u16
    requires { Admitted limits (plan vertices ends.now excluded.now) }
    ensures { result ≡ length (edges (graph (plan vertices ends.now excluded.now))) }
{
    let edges = ends.len() / 2;
    if excluded.len() == 0 {
        return edges as u16; // all, without a look at them
    }
    let mut dead = [0u8; Graph::MAX_EDGES];
    mask(ends, excluded, &mut dead);
    count_open(edges, &dead)
}

// How many of the first `edges` edges have no mark.
fn count_open(edges: usize, dead: &[u8]) -> u16
    requires { (edges ≤ limits.edges) × (edges ≤ length dead.now) }
    ensures { result ≡ count_by (λ mark. mark == 0) (take edges dead.now) }
{
    let mut count: u16 = 0;
    // a sum without a way out, as `misfits` of the crate's root: a count of what a filter lets through is compiled to a jump for each mark
    for &mark in &dead[..edges] {
        count += u16::from(mark == 0);
    }
    count
}
