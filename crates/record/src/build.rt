// The tables, and walk after walk, until every edge is built.
ghost use Rattle.std.specs.Prelude.{◌≡◌, ◌<◌, length};
ghost use Rattle.connectivity.specs.Plan.{limits};
ghost use Rattle.graph.specs.Marks.{read};
ghost use Rattle.record.specs.Progress.{Finishing, FinishedBy, Ready, AllBuilt};
ghost use Rattle.record.specs.Tabling.{Prepared, RecordedBy};

use crate::step::{Progress, Stage};
use crate::{step, theta};
use graph::Graph;

// Writes the record of a plan that keeps `edges` edges at the front of `rows`, over the tables by vertex and the search of the lowest cut. What stands
// behind stays.
pub(crate) fn build_record(
    vertices: u16,
    ends: &[u16],
    edges: u16,
    incident: &[u16],
    begins: &[u16],
    first: &[u16],
    order: &[u16],
    rows: &mut [u16],
)
    requires { Prepared limits vertices ends.now edges incident.now begins.now first.now order.now (length rows.old) }
    ensures { RecordedBy limits vertices ends.now edges incident.now begins.now first.now order.now rows.old rows.new }
{
    let mut number = [0u16; Graph::MAX_VERTICES];
    let mut last = [0u16; Graph::MAX_VERTICES];
    let mut over = [0u16; Graph::MAX_EDGES];
    numbers::look_below(
        vertices,
        ends,
        first,
        order,
        &mut number,
        &mut last,
        &mut over,
    );
    build_all(
        ends, edges, incident, begins, first, order, &number, &last, &mut over, rows,
    );
}

// Writes and builds the first three walks, and goes on. An edge that is built has nothing in `over` any more, one of an excluded vertex (02) never had.
fn build_all(
    ends: &[u16],
    edges: u16,
    incident: &[u16],
    begins: &[u16],
    first: &[u16],
    order: &[u16],
    number: &[u16],
    last: &[u16],
    over: &mut [u16],
    rows: &mut [u16],
)
    requires { Ready limits ends.now edges incident.now begins.now first.now order.now number.now last.now over.old (length rows.old) }
    ensures { AllBuilt limits ends.now edges incident.now begins.now first.now order.now number.now last.now over.old rows.old rows.new }
{
    let mut places = [0u16; Graph::MAX_VERTICES];
    let mut below = [0u16; Graph::MAX_VERTICES];
    let mut tips = [0u16; 2 * (Graph::MAX_VERTICES + 2)];
    let begun = theta::first_walks(
        ends,
        incident,
        begins,
        first,
        order,
        number,
        last,
        &mut places,
        &mut below,
        &mut tips,
        over,
        rows,
    );
    finish(
        ends,
        edges,
        incident,
        begins,
        first,
        order,
        number,
        last,
        begun,
        &mut places,
        &mut below,
        &mut tips,
        over,
        rows,
    );
}

// Adds Mader-paths until all `edges` edges are built.
fn finish(
    ends: &[u16],
    edges: u16,
    incident: &[u16],
    begins: &[u16],
    first: &[u16],
    order: &[u16],
    number: &[u16],
    last: &[u16],
    begun: Progress,
    places: &mut [u16],
    below: &mut [u16],
    tips: &mut [u16],
    over: &mut [u16],
    rows: &mut [u16],
)
    requires { Finishing limits ends.now edges incident.now begins.now first.now order.now number.now last.now places.old below.old tips.old over.old rows.old begun.row begun.step begun.next }
    ensures { FinishedBy limits ends.now edges incident.now begins.now first.now order.now number.now last.now places.old below.old tips.old over.old rows.old begun.row begun.step begun.next rows.new }
{
    let mut done = begun;
    let mut stage = first_stage(begins, order);
    while done.row < edges {
        stage = step::next_edge(
            ends, incident, begins, first, order, number, last, places, below, tips, over,
            done.next, stage,
        );
        done = step::add_path(
            ends, first, number, stage.edge, done, places, below, tips, over, rows,
        );
    }
}

// Before any vertex, and any link.
fn first_stage(begins: &[u16], order: &[u16]) -> Stage
    requires { (0 < length order.now) × (read order.now 0 < length begins.now) }
    ensures { (result.empty ≡ 2) × (result.at ≡ 0) × (result.slot ≡ read begins.now (read order.now 0)) }
{
    Stage {
        empty: 2,
        at: 0,
        slot: begins[order[0] as usize],
        edge: 0,
    }
}
