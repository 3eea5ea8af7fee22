// One step more: a Mader-path.
ghost use Rattle.connectivity.specs.Plan.{limits};
ghost use Rattle.record.specs.Recording.{Nexting, NextBy};
ghost use Rattle.record.specs.Progress.{Adding, AddedBy};

use crate::{exit, link, open, walk};
use graph::ends::far_end;

// How far the building has come: the links before `empty` have no inside; the vertices of the order before `at` have only built edges, and of the
// next one those before `slot` are built; and the edge that the next Mader-path begins with.
#[derive(Drop)]
pub(crate) struct Stage {
    pub(crate) empty: u16,
    pub(crate) at: u16,
    pub(crate) slot: u16,
    pub(crate) edge: u16,
}

// How many rows are written, how many steps they are, and the next free place.
#[derive(Drop)]
pub(crate) struct Progress {
    pub(crate) row: u16,
    pub(crate) step: u16,
    pub(crate) next: u16,
}

// Both cursors go on, and what they come to gives an edge that a Mader-path begins with.
pub(crate) fn next_edge(
    ends: &[u16],
    incident: &[u16],
    begins: &[u16],
    first: &[u16],
    order: &[u16],
    number: &[u16],
    last: &[u16],
    places: &[u16],
    below: &[u16],
    tips: &[u16],
    over: &[u16],
    next: u16,
    stage: Stage,
) -> Stage
    requires { Nexting limits ends.now incident.now begins.now first.now order.now number.now last.now places.now below.now tips.now over.now next stage.empty stage.at stage.slot }
    ensures { NextBy limits ends.now incident.now begins.now first.now order.now number.now last.now places.now below.now tips.now over.now next stage.empty stage.at stage.slot result.empty result.at result.slot result.edge }
{
    let m = open::next_link(tips, next, stage.empty);
    if m < next {
        let k = 2 * (m as usize);
        let top = tips[k] - 1;
        let bottom = tips[k + 1] - 1;
        return Stage {
            empty: m,
            at: stage.at,
            slot: stage.slot,
            edge: exit::leave_link(
                ends, incident, begins, first, number, last, places, below, over, top, bottom,
            ),
        };
    }
    let o = open::next_open(incident, begins, order, over, stage.at, stage.slot);
    let e = incident[o.slot as usize];
    Stage {
        empty: m,
        at: o.at,
        slot: o.slot,
        edge: over[e as usize] - 1,
    }
}

// Writes and builds the Mader-path over `f`, from its upper end, and up the tree from its lower end to the first built vertex. Its rows come behind
// those so far.
pub(crate) fn add_path(
    ends: &[u16],
    first: &[u16],
    number: &[u16],
    f: u16,
    done: Progress,
    places: &mut [u16],
    below: &mut [u16],
    tips: &mut [u16],
    over: &mut [u16],
    rows: &mut [u16],
) -> Progress
    requires { Adding limits ends.now first.now number.now f done.row done.step done.next places.old below.old tips.old over.old rows.old }
    ensures { AddedBy limits ends.now first.now number.now f done.row done.step done.next places.old below.old tips.old over.old rows.old places.new below.new tips.new over.new rows.new result.row result.step result.next }
{
    let s = walk::upper(ends, number, f);
    let w = far_end(ends, f, s);
    let x = walk::first_marked(ends, first, places, w);
    let from = 3 * (done.row as usize);
    let count = walk::write_walk(ends, first, f, s, w, x, done.step, &mut rows[from..]);
    let two = link::split_both(ends, first, below, s, x, done.next, places, tips);
    let three = link::build_walk(ends, first, f, w, x, two, places, below, tips, over);
    Progress {
        row: done.row + count,
        step: done.step + 1,
        next: three,
    }
}
