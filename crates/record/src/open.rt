// What to go on with: a link that has an inside, or an edge that is not built. Both cursors only move on.

ghost use Rattle.std.specs.Prelude.{◌*◌, ◌≤◌, length};
ghost use Rattle.connectivity.specs.Plan.{limits};
ghost use Rattle.graph.specs.Marks.{read};
ghost use Rattle.record.specs.Linking.{top_of};
ghost use Rattle.record.specs.Cursors.{NextLink, NextSlot, Slots, Opening, OpenedAt};

use graph::Graph;

// A vertex of the order, and a place in its group.
#[derive(Drop)]
pub(crate) struct Open {
    pub(crate) at: u16,
    pub(crate) slot: u16,
}

// The first place from `from` on of a link that has an inside, or `next`.
pub(crate) fn next_link(tips: &[u16], next: u16, from: u16) -> u16
    requires { (2 * next ≤ length tips.now) × (from ≤ next) }
    ensures { NextLink (top_of tips.now) next from result }
{
    for m in from..next {
        if tips[2 * (m as usize)] != 0 {
            return m;
        }
    }
    next
}

// The first vertex of the order, from `at` on, that has an edge that is not built, and where that edge is listed; of the first vertex the edges
// before `slot` are built.
pub(crate) fn next_open(
    incident: &[u16],
    begins: &[u16],
    order: &[u16],
    over: &[u16],
    at: u16,
    slot: u16,
) -> Open
    requires { Opening limits incident.now begins.now order.now over.now at slot }
    ensures { OpenedAt limits incident.now begins.now order.now over.now at slot result.at result.slot }
{
    let mut from = slot;
    for i in at..Graph::MAX_VERTICES as u16 {
        let v = order[i as usize] as usize;
        let end = begins[v + 1];
        let k = next_slot(incident, over, from, end);
        if k < end {
            return Open { at: i, slot: k };
        }
        from = begins[order[i as usize + 1] as usize];
    }
    Open { at, slot } // never: some edge is not built
}

// The first place from `from` on and below `end` of an edge that is not built, or `end`.
fn next_slot(incident: &[u16], over: &[u16], from: u16, end: u16) -> u16
    requires { Slots incident.now (length over.now) from end }
    ensures { NextSlot (read incident.now) (read over.now) from end result }
{
    for k in from..end {
        if over[incident[k as usize] as usize] != 0 {
            return k;
        }
    }
    end
}
