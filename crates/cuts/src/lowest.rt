// The lowest cut of at most two edges of a connected plan. Labels tell which sets need not be tried; a search tries the others.
ghost use Rattle.std.specs.Prelude.{◌≡◌, ◌≤◌, ◌<◌, get_or};
ghost use Rattle.connectivity.specs.Plan.{plan, graph, limits};
ghost use Rattle.connectivity.specs.Cut.{lowest_cut};
ghost use Rattle.cuts.specs.Lowest.{Shown, ShownBoth, one_told, two_told, first_one, first_with, first_two, Told, Whole};
ghost use Rattle.cuts.specs.Alike.{Chaining};
ghost use Rattle.cuts.specs.Tries.{Ready, Restored};

use crate::alike;
use crate::tries::is_cut;
use graph::Graph;

// How many chains there are for edges with like labels. More would be shorter, and take more of the stack.
const HEADS: usize = 1024;

// A cut of at most two edges: how many, and which; unused places are 0.
#[derive(Clone, Copy)]
pub struct Lowest {
    pub count: u16,
    pub first: u16,
    pub second: u16,
}

// A cut of so many edges, and these.
pub(crate) fn cut(count: u16, first: u16, second: u16) -> Lowest
    ensures { result ≡ record { count = count; first = first; second = second } }
{
    Lowest {
        count,
        first,
        second,
    }
}

// The fewest edges, two at most, that disconnect a connected plan whose edges have labels, and of such sets the lowest. Edges with like
// labels are put on chains only where no edge disconnects alone.
pub(crate) fn small_cut(
    vertices: u16,
    ends: &[u16],
    excluded: &[u16],
    incident: &[u16],
    begins: &[u16],
    first: &[u16],
    labels: &[u64],
    dead: &mut [u8],
    marks: &mut [u16],
    order: &mut [u16],
    cursor: &mut [u16],
) -> Option<Lowest>
    requires { Whole limits (plan vertices ends.now excluded.now) labels.now × Ready limits (plan vertices ends.now excluded.now) incident.now begins.now first.now dead.old marks.old order.old cursor.old }
    ensures { Told result (lowest_cut (graph (plan vertices ends.now excluded.now))) }
{
    let edges = (ends.len() / 2) as u16;
    let single = lowest_one(
        vertices, ends, excluded, incident, begins, first, labels, edges, dead, marks, order,
        cursor,
    );
    match single {
        Some(e) => Some(cut(1, e, 0)),
        None => lowest_pair(
            vertices, ends, excluded, incident, begins, first, labels, edges, dead, marks, order,
            cursor,
        ),
    }
}

// The lowest edge that disconnects, if there is one. One whose label is not 0 need not be tried.
fn lowest_one(
    vertices: u16,
    ends: &[u16],
    excluded: &[u16],
    incident: &[u16],
    begins: &[u16],
    first: &[u16],
    labels: &[u64],
    edges: u16,
    dead: &mut [u8],
    marks: &mut [u16],
    order: &mut [u16],
    cursor: &mut [u16],
) -> Option<u16>
    requires { Shown (plan vertices ends.now excluded.now) labels.now edges × Ready limits (plan vertices ends.now excluded.now) incident.now begins.now first.now dead.old marks.old order.old cursor.old }
    ensures { (first_one (graph (plan vertices ends.now excluded.now)) edges ≡ one_told result) × Restored dead.old marks.old order.old cursor.old dead.new marks.new order.new cursor.new }
{
    for e in 0..edges {
        if alike::is_like(labels, dead, 0, e)
            && is_cut(
                vertices, ends, excluded, incident, begins, first, e, e, dead, marks, order, cursor,
            )
        {
            return Some(e);
        }
    }
    None
}

// The lowest pair that disconnects, if there is one. Edges with like labels are put on chains.
fn lowest_pair(
    vertices: u16,
    ends: &[u16],
    excluded: &[u16],
    incident: &[u16],
    begins: &[u16],
    first: &[u16],
    labels: &[u64],
    edges: u16,
    dead: &mut [u8],
    marks: &mut [u16],
    order: &mut [u16],
    cursor: &mut [u16],
) -> Option<Lowest>
    requires { ShownBoth (plan vertices ends.now excluded.now) labels.now edges × Ready limits (plan vertices ends.now excluded.now) incident.now begins.now first.now dead.old marks.old order.old cursor.old }
    ensures { Told result (first_two (graph (plan vertices ends.now excluded.now)) edges) }
{
    let mut next = [0u16; Graph::MAX_EDGES];
    let mut heads = [0u16; HEADS];
    chains::chain(edges, labels, &mut next, &mut heads);
    lowest_two(
        vertices, ends, excluded, incident, begins, first, labels, &next, edges, dead, marks,
        order, cursor,
    )
}

// The lowest pair that disconnects, if there is one, over chains. An edge whose label no later edge has need not be tried.
fn lowest_two(
    vertices: u16,
    ends: &[u16],
    excluded: &[u16],
    incident: &[u16],
    begins: &[u16],
    first: &[u16],
    labels: &[u64],
    next: &[u16],
    edges: u16,
    dead: &mut [u8],
    marks: &mut [u16],
    order: &mut [u16],
    cursor: &mut [u16],
) -> Option<Lowest>
    requires { ShownBoth (plan vertices ends.now excluded.now) labels.now edges × Chaining edges labels.now next.now × Ready limits (plan vertices ends.now excluded.now) incident.now begins.now first.now dead.old marks.old order.old cursor.old }
    ensures { Told result (first_two (graph (plan vertices ends.now excluded.now)) edges) }
{
    for e in 0..edges {
        if dead[e as usize] != 0 {
            continue;
        }
        let other = lowest_with(
            vertices, ends, excluded, incident, begins, first, labels, next, edges, e, dead, marks,
            order, cursor,
        );
        if let Some(d) = other {
            return Some(cut(2, e, d));
        }
    }
    None
}

// The lowest edge above `e` that disconnects together with it, if there is one. Those with another label need not be tried.
fn lowest_with(
    vertices: u16,
    ends: &[u16],
    excluded: &[u16],
    incident: &[u16],
    begins: &[u16],
    first: &[u16],
    labels: &[u64],
    next: &[u16],
    edges: u16,
    e: u16,
    dead: &mut [u8],
    marks: &mut [u16],
    order: &mut [u16],
    cursor: &mut [u16],
) -> Option<u16>
    requires { ShownBoth (plan vertices ends.now excluded.now) labels.now edges × Chaining edges labels.now next.now × Ready limits (plan vertices ends.now excluded.now) incident.now begins.now first.now dead.old marks.old order.old cursor.old × (e < edges) × (get_or dead.old e 0 ≡ 0) }
    ensures { (first_with (graph (plan vertices ends.now excluded.now)) edges e ≡ two_told e result) × Restored dead.old marks.old order.old cursor.old dead.new marks.new order.new cursor.new }
{
    let mut other = alike::next_like(labels, dead, next, edges, e);
    while let Some(d) = other {
        if is_cut(
            vertices, ends, excluded, incident, begins, first, e, d, dead, marks, order, cursor,
        ) {
            return Some(d);
        }
        other = alike::next_like(labels, dead, next, edges, d);
    }
    None
}
