// The cuts that have to be tried: each edge alone if its label is 0; each edge together with the lowest one that it is a cut pair with. Labels
// tell which need not be tried.
ghost use Rattle.std.specs.Prelude.{◌≡◌, ◌+◌, ◌/◌, ◌<◌, ◌≤◌, length};
ghost use Rattle.connectivity.specs.Plan.{plan, graph, limits};
ghost use Rattle.graph.specs.Marks.{read};
ghost use Rattle.cuts.specs.Alike.{Chaining};
ghost use Rattle.components.specs.Splitting.{Classes};
ghost use Rattle.components.specs.Stars.{Singles, Stars, Turn, Working, Worked};
ghost use Rattle.components.specs.Tries.{Stage, Found};

use crate::tries;
use graph::Graph;

// How many chains there are for edges with like labels. More would be shorter, and take more of the stack.
const HEADS: usize = 1024;

// Takes the bodies apart by every cut of one edge or two that has to be tried. The edges of excluded vertices count as claimed from the start, so
// that none of them is.
pub(crate) fn part(
    vertices: u16,
    ends: &[u16],
    excluded: &[u16],
    incident: &[u16],
    begins: &[u16],
    first: &[u16],
    labels: &[u64],
    table: &mut [u16],
)
    requires { Stage limits (plan vertices ends.now excluded.now) incident.now begins.now first.now labels.now table.old }
    ensures { Found (plan vertices ends.now excluded.now) table.old table.new }
{
    let mut claimed = [0u8; Graph::MAX_EDGES];
    graph::excluded::mask(ends, excluded, &mut claimed);
    let mut next = [0u16; Graph::MAX_EDGES];
    let edges = (ends.len() / 2) as u16;
    chain(edges, labels, &mut next);
    singles(
        vertices,
        ends,
        excluded,
        incident,
        begins,
        first,
        labels,
        edges,
        &mut claimed,
        table,
    );
    stars(
        vertices,
        ends,
        excluded,
        incident,
        begins,
        first,
        labels,
        &next,
        edges,
        &mut claimed,
        table,
    );
}

// Edges with like labels on chains. The heads are only needed here.
fn chain(edges: u16, labels: &[u64], next: &mut [u16])
    requires { (edges ≤ length labels.now) × (edges ≤ length next.old) }
    ensures { Chaining edges labels.now next.new }
{
    let mut heads = [0u16; HEADS];
    chains::chain(edges, labels, next, &mut heads);
}

// Tries each edge alone. One whose label is not 0 parts nothing.
fn singles(
    vertices: u16,
    ends: &[u16],
    excluded: &[u16],
    incident: &[u16],
    begins: &[u16],
    first: &[u16],
    labels: &[u64],
    edges: u16,
    claimed: &mut [u8],
    table: &mut [u16],
)
    requires { (edges ≡ length ends.now / 2) × Working limits (plan vertices ends.now excluded.now) incident.now begins.now first.now labels.now claimed.old table.old × Singles (graph (plan vertices ends.now excluded.now)) vertices (length ends.now / 2) 0 claimed.old table.old }
    ensures { Singles (graph (plan vertices ends.now excluded.now)) vertices (length ends.now / 2) (length ends.now / 2) claimed.new table.new × Worked vertices claimed.old table.old claimed.new table.new }
{
    for e in 0..edges {
        turn(
            vertices, ends, excluded, incident, begins, first, labels, 0, e, e, claimed, table,
        );
    }
}

// Tries each edge that is not claimed together with each later one.
fn stars(
    vertices: u16,
    ends: &[u16],
    excluded: &[u16],
    incident: &[u16],
    begins: &[u16],
    first: &[u16],
    labels: &[u64],
    next: &[u16],
    edges: u16,
    claimed: &mut [u8],
    table: &mut [u16],
)
    requires { (edges ≡ length ends.now / 2) × Working limits (plan vertices ends.now excluded.now) incident.now begins.now first.now labels.now claimed.old table.old × Chaining (length ends.now / 2) labels.now next.now × Stars (graph (plan vertices ends.now excluded.now)) vertices (length ends.now / 2) 0 0 claimed.old table.old }
    ensures { Stars (graph (plan vertices ends.now excluded.now)) vertices (length ends.now / 2) (length ends.now / 2) 0 claimed.new table.new × Worked vertices claimed.old table.old claimed.new table.new }
{
    for e in 0..edges {
        star(
            vertices, ends, excluded, incident, begins, first, labels, next, e, claimed, table,
        );
    }
}

// The same of one edge: those with its label are on its chain.
fn star(
    vertices: u16,
    ends: &[u16],
    excluded: &[u16],
    incident: &[u16],
    begins: &[u16],
    first: &[u16],
    labels: &[u64],
    next: &[u16],
    e: u16,
    claimed: &mut [u8],
    table: &mut [u16],
)
    requires { (e < length ends.now / 2) × Working limits (plan vertices ends.now excluded.now) incident.now begins.now first.now labels.now claimed.old table.old × Chaining (length ends.now / 2) labels.now next.now × Stars (graph (plan vertices ends.now excluded.now)) vertices (length ends.now / 2) e 0 claimed.old table.old }
    ensures { Stars (graph (plan vertices ends.now excluded.now)) vertices (length ends.now / 2) (e + 1) 0 claimed.new table.new × Worked vertices claimed.old table.old claimed.new table.new }
{
    if claimed[e as usize] != 0 {
        return;
    }
    let label = labels[e as usize];
    let mut x = next[e as usize];
    while x != 0 {
        let d = x - 1;
        turn(
            vertices, ends, excluded, incident, begins, first, labels, label, e, d, claimed, table,
        );
        x = next[d as usize];
    }
}

// Where d has this label and is not claimed, tries the cut of e and d, and claims d if it parts.
fn turn(
    vertices: u16,
    ends: &[u16],
    excluded: &[u16],
    incident: &[u16],
    begins: &[u16],
    first: &[u16],
    labels: &[u64],
    label: u64,
    e: u16,
    d: u16,
    claimed: &mut [u8],
    table: &mut [u16],
)
    requires { (e < length ends.now / 2) × (d < length ends.now / 2) × Working limits (plan vertices ends.now excluded.now) incident.now begins.now first.now labels.now claimed.old table.old × Classes vertices (read table.old) }
    ensures { Turn (graph (plan vertices ends.now excluded.now)) vertices label e d labels.now claimed.old table.old claimed.new table.new }
{
    let at = d as usize;
    if labels[at] != label {
        return;
    }
    if claimed[at] != 0 {
        return;
    }
    claimed[at] = u8::from(tries::attempt(
        vertices, ends, excluded, incident, begins, first, e, d, table,
    ));
}
