// The record of a plan that has no cut of at most two edges: three walks and then Mader-paths.
#![tactic(auto)]

ghost use Rattle.connectivity.specs.Plan.{plan, limits};
ghost use Rattle.record.specs.Answered.{Answered};
ghost use Rattle.record.specs.Standing.{Counted};

use cuts::lowest::Lowest;
use graph::{Answer, Graph};

mod build; // build.rt: the tables, and walk after walk, until every edge is built
mod exit; // exit.rt: a way out of a link
mod link; // link.rt: the places of built vertices, and the links
mod open; // open.rt: which link or edge is next
mod step; // step.rt: one Mader-path more
mod theta; // theta.rt: the first three walks
mod walk; // walk.rt: the ways up along first edges

// The plan's own 1 to 5, 18 and 19; 6 unless `rows` has three numbers for each edge that is kept; then its lowest cut of at most two edges, or that it
// has none, with the record at the front of `rows`.
pub fn write_record(
    vertices: u16,
    ends: &[u16],
    excluded: &[u16],
    rows: &mut [u16],
) -> Result<Option<Lowest>, Answer>
    ensures { Answered limits (plan vertices ends.now excluded.now) rows.old rows.new result }
{
    let graph = Graph::new(vertices, ends, excluded)?;
    write_admitted(vertices, ends, excluded, graph.kept_edges, rows)
}

// The same of an admitted plan, of which so many edges are kept.
fn write_admitted(
    vertices: u16,
    ends: &[u16],
    excluded: &[u16],
    edges: u16,
    rows: &mut [u16],
) -> Result<Option<Lowest>, Answer>
    requires { Counted limits (plan vertices ends.now excluded.now) edges }
    ensures { Answered limits (plan vertices ends.now excluded.now) rows.old rows.new result }
{
    if rows.len() / 3 < edges as usize {
        return Err(Answer {
            number: 6,
            place: 0,
        });
    }
    let mut incident = [0u16; 2 * Graph::MAX_EDGES];
    let mut begins = [0u16; Graph::MAX_VERTICES + 1];
    let mut first = [0u16; Graph::MAX_VERTICES];
    let mut order = [0u16; Graph::MAX_VERTICES];
    let found = cuts::lowest_cut(
        vertices,
        ends,
        excluded,
        &mut incident,
        &mut begins,
        &mut first,
        &mut order,
    )?;
    if let Some(cut) = found {
        return Ok(Some(cut));
    }
    // The last group ends where the table does.
    begins[vertices as usize] = ends.len() as u16;
    build::build_record(
        vertices, ends, edges, &incident, &begins, &first, &order, rows,
    );
    Ok(None)
}
