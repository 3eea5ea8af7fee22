// The first search, from the lowest vertex that is kept, and behind what it has seen the excluded vertices, each as a root.
ghost use Rattle.std.specs.Prelude.{◌≡◌, [], ◌<◌, length, set};
ghost use Rattle.connectivity.specs.Plan.{plan, limits};
ghost use Rattle.graph.specs.Marks.{read};
ghost use Rattle.depth.specs.Depth.{Cutting};
ghost use Rattle.depth.specs.Forest.{Appended};
ghost use Rattle.cuts.specs.Tries.{Tables, SearchedBy, Appending};

use crate::tries;

// How many vertices the search has seen.
pub(crate) fn survey(
    vertices: u16,
    ends: &[u16],
    excluded: &[u16],
    incident: &[u16],
    begins: &[u16],
    dead: &[u8],
    first: &mut [u16],
    order: &mut [u16],
    cursor: &mut [u16],
) -> u16
    requires { Tables limits (plan vertices ends.now excluded.now) incident.now begins.now dead.now first.old order.old cursor.old × Cutting (plan vertices ends.now excluded.now) [] (read dead.now) }
    ensures { SearchedBy (plan vertices ends.now excluded.now) incident.now begins.now dead.now first.old order.old cursor.old first.new order.new cursor.new result }
{
    let root = graph::excluded::lowest_kept(excluded) as u16;
    let count = tries::search(
        vertices, ends, excluded, incident, begins, dead, root, first, order, cursor,
    );
    append(excluded, count, first, order);
    count
}

// Puts the excluded vertices behind the first `count` places of the order.
fn append(excluded: &[u16], count: u16, first: &mut [u16], order: &mut [u16])
    requires { Appending excluded.now count first.old order.old }
    ensures { Appended excluded.now count first.old order.old first.new order.new }
{
    for (i, &v) in excluded.iter().enumerate() {
        put_root(v, count as usize + i, first, order);
    }
}

// Puts v at a place of the order, and gives it the mark of a root.
fn put_root(v: u16, to: usize, first: &mut [u16], order: &mut [u16])
    requires { (v < length first.old) × (to < length order.old) }
    ensures { (first.new ≡ set first.old v 65535) × (order.new ≡ set order.old to v) }
{
    first[v as usize] = 65535;
    order[to] = v;
}
