// One cut of one edge or two, tried by a search.
ghost use Rattle.std.specs.Prelude.{◌≡◌, not, [], ◌∷◌, ℕ, ◌/◌, ◌<◌, ◌≤◌, length, get_or};
ghost use Rattle.connectivity.specs.Plan.{plan, graph, limits};
ghost use Rattle.connectivity.specs.Graph.{Vertex, Edge};
ghost use Rattle.connectivity.specs.Reach.{Reach, Without};
ghost use Rattle.graph.specs.Marks.{read};
ghost use Rattle.graph.specs.Tells.{Tells};
ghost use Rattle.incidence.specs.Tables.{Tabled};
ghost use Rattle.components.specs.Splitting.{Classes, unseen};
ghost use Rattle.components.specs.Stars.{Attempt};
ghost use Rattle.components.specs.Tries.{PartedAt};

use crate::split;
use cuts::ends::{lower_end, mark};
use graph::Graph;
use graph::ends::far_end;

// Searches from an end of d without e and d. Where that does not come to its other end, the groups are taken apart by what was seen; whether they
// are. Not inlined: so `pairs::turn` is, which for most edges only looks at a label.
#[inline(never)]
pub(crate) fn attempt(
    vertices: u16,
    ends: &[u16],
    excluded: &[u16],
    incident: &[u16],
    begins: &[u16],
    first: &[u16],
    e: u16,
    d: u16,
    table: &mut [u16],
) -> bool
    requires { Tabled limits (plan vertices ends.now excluded.now) incident.now begins.now × (vertices ≤ length first.now) × (e < length ends.now / 2) × Edge (graph (plan vertices ends.now excluded.now)) d × (vertices ≤ length table.old) × Classes vertices (read table.old) }
    ensures { Attempt (graph (plan vertices ends.now excluded.now)) vertices (e ∷ (d ∷ [])) d table.old table.new result }
{
    let root = lower_end(ends, first, d);
    let far = far_end(ends, d, root);
    let mut marks = [0u16; Graph::MAX_VERTICES];
    search(
        vertices, ends, excluded, incident, begins, e, d, root, &mut marks,
    );
    part(vertices, far, &marks, table)
}

// The search from `root` without e and d: marks what it sees, which is no excluded vertex. It has tables of its own: to clear them costs less than
// a search.
fn search(
    vertices: u16,
    ends: &[u16],
    excluded: &[u16],
    incident: &[u16],
    begins: &[u16],
    e: u16,
    d: u16,
    root: u16,
    marks: &mut [u16],
)
    requires { Tabled limits (plan vertices ends.now excluded.now) incident.now begins.now × (e < length ends.now / 2) × (d < length ends.now / 2) × Vertex (graph (plan vertices ends.now excluded.now)) root × (vertices ≤ length marks.old) × ((v : ℕ) → v < vertices → get_or marks.old v 0 ≡ 0) }
    ensures { (v : ℕ) → v < vertices → Tells (not (unseen marks.new v)) (Reach (graph (plan vertices ends.now excluded.now)) (Without (e ∷ (d ∷ []))) root v) }
{
    let mut dead = [0u8; Graph::MAX_EDGES];
    graph::excluded::mask(ends, excluded, &mut dead);
    mark(e, d, 1, &mut dead);
    let mut order = [0u16; Graph::MAX_VERTICES];
    let mut cursor = [0u16; Graph::MAX_VERTICES];
    // never refused: the plan is admitted, and there is room
    let _ = depth::explore(
        vertices,
        ends,
        incident,
        begins,
        &dead,
        root,
        0,
        marks,
        &mut order,
        &mut cursor,
    );
}

// Where v has no mark, the groups are taken apart by the marks; whether they are.
fn part(vertices: u16, v: u16, marks: &[u16], table: &mut [u16]) -> bool
    requires { (v < length marks.now) × (vertices ≤ limits.vertices) × (vertices ≤ length marks.now) × (vertices ≤ length table.old) × Classes vertices (read table.old) }
    ensures { PartedAt vertices marks.now v table.old table.new result }
{
    if marks[v as usize] != 0 {
        return false;
    }
    let mut other = [0u16; Graph::MAX_VERTICES];
    split::split(vertices, marks, &mut other, table);
    true
}
