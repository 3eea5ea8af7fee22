// A try of one or two edges: they are marked for the time of a search, and all marks are taken back.
ghost use Rattle.std.specs.Prelude.{◌≡◌, List, [], ◌∷◌, ℕ, ltb};
ghost use Rattle.connectivity.specs.Plan.{plan, graph, limits};
ghost use Rattle.connectivity.specs.Graph.{Vertex, Edge};
ghost use Rattle.connectivity.specs.Cut.{disconnects};
ghost use Rattle.connectivity.specs.Admission.{kept_vertices};
ghost use Rattle.graph.specs.Marks.{read};
ghost use Rattle.depth.specs.Depth.{Crossing, Found, Cutting};
ghost use Rattle.cuts.specs.Tries.{Tables, Ready, Restored};

use crate::ends::{lower_end, mark};

// The edges `e` and `d`, which may be the same, disconnect: without them a search does not see all vertices that are kept. It begins at the end of `e` that
// was found over `e`, if there is one: of an edge that disconnects alone it sees just the part that is cut off.
pub(crate) fn is_cut(
    vertices: u16,
    ends: &[u16],
    excluded: &[u16],
    incident: &[u16],
    begins: &[u16],
    first: &[u16],
    e: u16,
    d: u16,
    dead: &mut [u8],
    marks: &mut [u16],
    order: &mut [u16],
    cursor: &mut [u16],
) -> bool
    requires { Ready limits (plan vertices ends.now excluded.now) incident.now begins.now first.now dead.old marks.old order.old cursor.old × Edge (graph (plan vertices ends.now excluded.now)) e × Edge (graph (plan vertices ends.now excluded.now)) d }
    ensures { (result ≡ disconnects (graph (plan vertices ends.now excluded.now)) (e ∷ (d ∷ []))) × Restored dead.old marks.old order.old cursor.old dead.new marks.new order.new cursor.new }
{
    let root = lower_end(ends, first, e);
    mark(e, d, 1, dead);
    let count = seen(
        vertices, ends, excluded, incident, begins, dead, root, marks, order, cursor,
    );
    mark(e, d, 0, dead);
    count < vertices - excluded.len() as u16
}

// How many vertices a search from `root` sees over the edges without a mark. The vertices' marks are taken back.
fn seen(
    vertices: u16,
    ends: &[u16],
    excluded: &[u16],
    incident: &[u16],
    begins: &[u16],
    dead: &[u8],
    root: u16,
    marks: &mut [u16],
    order: &mut [u16],
    cursor: &mut [u16],
) -> u16
    requires { Tables limits (plan vertices ends.now excluded.now) incident.now begins.now dead.now marks.old order.old cursor.old × Vertex (graph (plan vertices ends.now excluded.now)) root }
    ensures { ((cut : List ℕ) → Cutting (plan vertices ends.now excluded.now) cut (read dead.now) → ltb result (kept_vertices (plan vertices ends.now excluded.now)) ≡ disconnects (graph (plan vertices ends.now excluded.now)) cut) × (marks.new ≡ marks.old) }
{
    let count = search(
        vertices, ends, excluded, incident, begins, dead, root, marks, order, cursor,
    );
    depth::undo(order, 0, count, marks);
    count
}

// The search from `root` over the edges without a mark; how many vertices it has seen. No edge of an excluded vertex is without a mark.
pub(crate) fn search(
    vertices: u16,
    ends: &[u16],
    excluded: &[u16],
    incident: &[u16],
    begins: &[u16],
    dead: &[u8],
    root: u16,
    marks: &mut [u16],
    order: &mut [u16],
    cursor: &mut [u16],
) -> u16
    requires { Tables limits (plan vertices ends.now excluded.now) incident.now begins.now dead.now marks.old order.old cursor.old × Vertex (graph (plan vertices ends.now excluded.now)) root }
    ensures { Found (Crossing (plan vertices ends.now excluded.now) incident.now begins.now dead.now) vertices root 0 marks.old order.old cursor.old marks.new order.new cursor.new result }
{
    let found = depth::explore(
        vertices, ends, incident, begins, dead, root, 0, marks, order, cursor,
    );
    match found {
        Ok(count) => count,
        Err(_) => 0, // never: the plan is admitted, and there is room
    }
}
