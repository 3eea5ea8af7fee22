// The lowest cut of at most two edges of a plan.
#![tactic(auto)]

ghost use Rattle.std.specs.Prelude.{◌≡◌, not, ◌*◌, ◌≤◌, length};
ghost use Rattle.connectivity.specs.Plan.{plan, graph, limits};
ghost use Rattle.connectivity.specs.Cut.{lowest_cut};
ghost use Rattle.connectivity.specs.Verdict.{verdict_on, verdict_handed};
ghost use Rattle.graph.specs.Tells.{Tells};
ghost use Rattle.incidence.specs.Tables.{Tabled};
ghost use Rattle.cuts.specs.Lowest.{Told};
ghost use Rattle.cuts.specs.Tries.{Tables, Spaces, LabelledBy, Searched};
ghost use Rattle.cuts.specs.Verdict.{handed};
ghost use Rattle.cuts.specs.Answered.{SearchedFrom, Answered};

use graph::{Answer, Graph};
use lowest::Lowest;

mod alike; // alike.rt: which edges have like labels
pub mod ends; // ends.rt: the end that was found over an edge, a mark for two edges
pub mod lowest; // lowest.rt: the fewest edges that disconnect, the lowest set
mod survey; // survey.rt: the first search, and the excluded vertices behind it
mod tries; // tries.rt: whether one or two edges disconnect

// The plan's own refusals; 6 where a lent table is too short: `incident` wants two places for each edge, the others one for each vertex. Else its
// lowest cut of at most two edges, if it has one. The tables then hold all that it lists by vertex, and in `first` and `order` what a search from
// the lowest vertex that is kept finds over them; behind that stand the excluded vertices, each as a root.
pub fn lowest_cut(
    vertices: u16,
    ends: &[u16],
    excluded: &[u16],
    incident: &mut [u16],
    begins: &mut [u16],
    first: &mut [u16],
    order: &mut [u16],
) -> Result<Option<Lowest>, Answer>
    ensures { Answered limits (plan vertices ends.now excluded.now) incident.old begins.old first.old order.old incident.new begins.new first.new order.new result }
{
    let short = is_short(
        vertices as usize,
        ends.len() / 2,
        incident.len(),
        begins.len(),
        first.len(),
        order.len(),
    );
    let answer = graph::refusal(vertices, ends, excluded, short);
    if answer.number != 0 {
        return Err(answer);
    }
    incidence::fill(vertices, ends, incident, begins);
    lowest_filled(vertices, ends, excluded, incident, begins, first, order)
}

// Whether one of the lent tables, of which these are the lengths, is too short for n vertices and m edges.
fn is_short(n: usize, m: usize, incident: usize, begins: usize, first: usize, order: usize) -> bool
    ensures { Tells (not result) ((n ≤ first) × (n ≤ order) × (2 * m ≤ incident) × (n ≤ begins)) }
{
    first < n || order < n || incident / 2 < m || begins < n
}

// The lowest cut of an admitted plan whose tables by vertex are filled; whatever stands in `first` is cleared.
fn lowest_filled(
    vertices: u16,
    ends: &[u16],
    excluded: &[u16],
    incident: &[u16],
    begins: &[u16],
    first: &mut [u16],
    order: &mut [u16],
) -> Result<Option<Lowest>, Answer>
    requires { Tabled limits (plan vertices ends.now excluded.now) incident.now begins.now × (vertices ≤ length first.old) × (vertices ≤ length order.old) }
    ensures { (handed result ≡ verdict_handed (verdict_on (lowest_cut (graph (plan vertices ends.now excluded.now))))) × SearchedFrom limits (plan vertices ends.now excluded.now) incident.now begins.now first.old order.old first.new order.new }
{
    incidence::clear(vertices as usize, first);
    let mut dead = [0u8; Graph::MAX_EDGES];
    graph::excluded::mask(ends, excluded, &mut dead);
    let mut cursor = [0u16; Graph::MAX_VERTICES];
    let mut labels = [0u64; Graph::MAX_EDGES];
    let mut marks = [0u16; Graph::MAX_VERTICES];
    let mut other = [0u16; Graph::MAX_VERTICES];
    Ok(lowest_over(
        vertices,
        ends,
        excluded,
        incident,
        begins,
        &mut dead,
        first,
        order,
        &mut cursor,
        &mut labels,
        &mut marks,
        &mut other,
    ))
}

// The lowest cut of an admitted plan over its tables and lent ones in which no vertex is marked, and no edge but those of excluded vertices: the
// empty set, if a search does not see all vertices that are kept. What that finds stays: later ones have `marks` and `other`.
fn lowest_over(
    vertices: u16,
    ends: &[u16],
    excluded: &[u16],
    incident: &[u16],
    begins: &[u16],
    dead: &mut [u8],
    first: &mut [u16],
    order: &mut [u16],
    cursor: &mut [u16],
    labels: &mut [u64],
    marks: &mut [u16],
    other: &mut [u16],
) -> Option<Lowest>
    requires { Tables limits (plan vertices ends.now excluded.now) incident.now begins.now dead.old first.old order.old cursor.old × Spaces (plan vertices ends.now excluded.now) dead.old labels.old marks.old other.old }
    ensures { Told result (lowest_cut (graph (plan vertices ends.now excluded.now))) × Searched (plan vertices ends.now excluded.now) incident.now begins.now dead.old first.old order.old cursor.old first.new order.new }
{
    let count = survey::survey(
        vertices, ends, excluded, incident, begins, dead, first, order, cursor,
    );
    if count < vertices - excluded.len() as u16 {
        return Some(lowest::cut(0, 0, 0));
    }
    label(vertices, ends, excluded, first, order, labels);
    lowest::small_cut(
        vertices, ends, excluded, incident, begins, first, labels, dead, marks, other, cursor,
    )
}

// Labels over a spanning forest. The sums are only needed here: what comes later has their room on the stack.
fn label(
    vertices: u16,
    ends: &[u16],
    excluded: &[u16],
    first: &[u16],
    order: &[u16],
    labels: &mut [u64],
)
    ensures { LabelledBy limits (plan vertices ends.now excluded.now) first.now order.now labels.old labels.new }
{
    let mut sums = [0u64; Graph::MAX_VERTICES];
    labels::balance(vertices, ends, excluded, first, order, labels, &mut sums);
}
