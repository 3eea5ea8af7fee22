// The groups of a plan: which vertices hold together, told by the lowest vertex of each group.
#![tactic(auto)]

ghost use Rattle.std.specs.Prelude.{◌≤◌, length};
ghost use Rattle.connectivity.specs.Plan.{plan, graph, limits};
ghost use Rattle.connectivity.specs.Component.{components};
ghost use Rattle.connectivity.specs.Admission.{Admitted};
ghost use Rattle.incidence.specs.Tables.{Front};
ghost use Rattle.components.specs.Answered.{Answered};

use graph::{Answer, Graph};

mod pairs; // pairs.rt: the cuts of one edge and of two that have to be tried
mod split; // split.rt: groups in a table, and how they are taken apart
mod tries; // tries.rt: one cut tried by a search

// The plan's own refusals; 6 where `table` has fewer numbers than there are vertices. Else for each vertex the lowest one that holds together
// with it, and for an excluded one itself.
pub fn find(vertices: u16, ends: &[u16], excluded: &[u16], table: &mut [u16]) -> Answer
    ensures { Answered limits (plan vertices ends.now excluded.now) table.old table.new result }
{
    let short = table.len() < vertices as usize;
    let answer = graph::refusal(vertices, ends, excluded, short);
    let number = answer.number;
    if number == 0 {
        fill(vertices, ends, excluded, table);
    }
    answer
}

// The same of an admitted plan and a table that is long enough.
fn fill(vertices: u16, ends: &[u16], excluded: &[u16], table: &mut [u16])
    requires { Admitted limits (plan vertices ends.now excluded.now) × (vertices ≤ length table.old) }
    ensures { Front (components (graph (plan vertices ends.now excluded.now))) table.old table.new }
{
    let mut incident = [0u16; 2 * Graph::MAX_EDGES];
    let mut begins = [0u16; Graph::MAX_VERTICES];
    let mut dead = [0u8; Graph::MAX_EDGES];
    let mut first = [0u16; Graph::MAX_VERTICES];
    let mut order = [0u16; Graph::MAX_VERTICES];
    let mut cursor = [0u16; Graph::MAX_VERTICES];
    let mut labels = [0u64; Graph::MAX_EDGES];
    let mut sums = [0u64; Graph::MAX_VERTICES];
    labels::label(
        vertices,
        ends,
        excluded,
        &mut incident,
        &mut begins,
        &mut dead,
        &mut first,
        &mut order,
        &mut cursor,
        &mut labels,
        &mut sums,
    );
    split::bodies(vertices, &first, &order, table);
    pairs::part(
        vertices, ends, excluded, &incident, &begins, &first, &labels, table,
    );
}
