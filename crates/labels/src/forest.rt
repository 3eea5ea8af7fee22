// A spanning forest of a plan's graph, by searches from one root after the other.
ghost use Rattle.std.specs.Prelude.{◌≡◌, ℕ, ◌/◌, ◌≤◌, ◌<◌, length, get_or};
ghost use Rattle.connectivity.specs.Plan.{plan, limits};
ghost use Rattle.connectivity.specs.Admission.{Admitted};
ghost use Rattle.depth.specs.Depth.{Searched};
ghost use Rattle.depth.specs.Parts.{Rooms};
ghost use Rattle.labels.specs.Answered.{Spanned};
ghost use Rattle.labels.specs.Planting.{Spacious, Open, Prepared, Planted};

// Fills the tables by vertex of an admitted plan, marks the edges of excluded vertices, and searches from one vertex after the other until each
// has been seen.
pub(crate) fn plant(
    vertices: u16,
    ends: &[u16],
    excluded: &[u16],
    incident: &mut [u16],
    begins: &mut [u16],
    dead: &mut [u8],
    first: &mut [u16],
    order: &mut [u16],
    cursor: &mut [u16],
)
    requires { Admitted limits (plan vertices ends.now excluded.now) × Spacious (plan vertices ends.now excluded.now) incident.old begins.old dead.old × Rooms vertices first.old order.old cursor.old }
    ensures { Planted (plan vertices ends.now excluded.now) incident.old begins.old dead.old first.old order.old cursor.old incident.new begins.new dead.new first.new order.new cursor.new }
{
    prepare(vertices, ends, excluded, incident, begins, dead, first);
    search_all(
        vertices, ends, excluded, incident, begins, dead, first, order, cursor,
    );
}

// Fills the tables by vertex, marks the edges of excluded vertices and no other, and clears the marks of the vertices.
fn prepare(
    vertices: u16,
    ends: &[u16],
    excluded: &[u16],
    incident: &mut [u16],
    begins: &mut [u16],
    dead: &mut [u8],
    first: &mut [u16],
)
    requires { Admitted limits (plan vertices ends.now excluded.now) × Spacious (plan vertices ends.now excluded.now) incident.old begins.old dead.old × (vertices ≤ length first.old) }
    ensures { Prepared limits (plan vertices ends.now excluded.now) incident.old begins.old dead.old first.old incident.new begins.new dead.new first.new }
{
    incidence::fill(vertices, ends, incident, begins);
    dead[..ends.len() / 2].fill(0);
    graph::excluded::mask(ends, excluded, dead);
    incidence::clear(vertices as usize, first);
}

// Searches from vertex 0 on, until every vertex stands in the order: an excluded one as a root alone, since all its edges are marked.
fn search_all(
    vertices: u16,
    ends: &[u16],
    excluded: &[u16],
    incident: &[u16],
    begins: &[u16],
    dead: &[u8],
    first: &mut [u16],
    order: &mut [u16],
    cursor: &mut [u16],
)
    requires { Open limits (plan vertices ends.now excluded.now) incident.now begins.now dead.now × Rooms vertices first.old order.old cursor.old × ((v : ℕ) → v < vertices → get_or first.old v 0 ≡ 0) }
    ensures { Spanned (plan vertices ends.now excluded.now) first.old order.old cursor.old first.new order.new cursor.new }
{
    let mut seen = 0;
    for v in 0..vertices {
        if vertices <= seen {
            return;
        }
        seen = search_from(
            vertices, ends, excluded, incident, begins, dead, v, seen, first, order, cursor,
        );
    }
}

// One search, which is not refused.
fn search_from(
    vertices: u16,
    ends: &[u16],
    excluded: &[u16],
    incident: &[u16],
    begins: &[u16],
    dead: &[u8],
    root: u16,
    seen: u16,
    first: &mut [u16],
    order: &mut [u16],
    cursor: &mut [u16],
) -> u16
    requires { Open limits (plan vertices ends.now excluded.now) incident.now begins.now dead.now × Rooms vertices first.old order.old cursor.old }
    ensures { Searched (plan vertices ends.now excluded.now) incident.now begins.now dead.now root seen first.old order.old cursor.old first.new order.new cursor.new result }
{
    let found = depth::explore(
        vertices, ends, incident, begins, dead, root, seen, first, order, cursor,
    );
    let Ok(count) = found else {
        return seen;
    };
    count
}
