// The first three walks, between the root and a vertex x: from x up to the root, and over each of two edges from the root to below its first child
// and up to x.
ghost use Rattle.std.specs.Prelude.{length};
ghost use Rattle.connectivity.specs.Plan.{limits};
ghost use Rattle.graph.specs.Marks.{read};
ghost use Rattle.graph.specs.Tells.{Tells};
ghost use Rattle.record.specs.Recording.{Beginning, BegunBy};
ghost use Rattle.record.specs.Opening.{Door, DoorFits, Doors, NextDoorBy, Meets, Met, Rowed, RowedBy, Raw, RaisedBy, WayAt, Finding, ForkedBy};

use crate::step::Progress;
use crate::{link, walk};
use graph::ends::far_end;

// Where two edges from the root `r` lead: over `f` to `w` and over `d` to `u`. `x` is the first vertex on the way up from `u` that is also on the
// way up from `w`, and `e` leads from it to its parent `p`.
#[derive(Clone, Copy)]
struct Fork {
    x: u16,
    e: u16,
    p: u16,
    f: u16,
    w: u16,
    d: u16,
    u: u16,
}

// Writes and builds the first three walks.
pub(crate) fn first_walks(
    ends: &[u16],
    incident: &[u16],
    begins: &[u16],
    first: &[u16],
    order: &[u16],
    number: &[u16],
    last: &[u16],
    places: &mut [u16],
    below: &mut [u16],
    tips: &mut [u16],
    over: &mut [u16],
    rows: &mut [u16],
) -> Progress
    requires { Beginning limits ends.now incident.now begins.now first.now order.now number.now last.now places.old below.old tips.old over.old (length rows.old) }
    ensures { BegunBy limits ends.now incident.now begins.now first.now order.now number.now last.now places.old below.old tips.old over.old rows.old places.new below.new tips.new over.new rows.new result.row result.step result.next }
{
    let r = order[0];
    let t = find(
        ends, incident, begins, first, order, number, last, r, places,
    );
    let count = write_walks(ends, first, r, t, rows);
    let next = build_walks(ends, first, r, t, places, below, tips, over);
    Progress {
        row: count,
        step: 3,
        next,
    }
}

// Two edges from the root `r` to below its first child, and where the ways up from there meet. No mark is set in `places`, before and after.
fn find(
    ends: &[u16],
    incident: &[u16],
    begins: &[u16],
    first: &[u16],
    order: &[u16],
    number: &[u16],
    last: &[u16],
    r: u16,
    places: &mut [u16],
) -> Fork
    requires { Finding limits ends.now incident.now begins.now first.now order.now number.now last.now r places.old }
    ensures { ForkedBy limits ends.now incident.now begins.now first.now order.now number.now last.now r places.old places.new result.x result.e result.p result.f result.w result.d result.u }
{
    let end = last[order[1] as usize];
    let j = next_door(ends, incident, first, number, end, r, begins[r as usize]);
    let k = next_door(ends, incident, first, number, end, r, j + 1);
    let f = incident[j as usize];
    let d = incident[k as usize];
    let w = far_end(ends, f, r);
    let u = far_end(ends, d, r);
    let x = meeting(ends, first, w, u, r, places);
    let e = first[x as usize] - 1;
    let p = far_end(ends, e, x);
    Fork {
        x,
        e,
        p,
        f,
        w,
        d,
        u,
    }
}

// The first place from `from` on of an edge at the root `r` that is not in the tree and leads to a vertex whose number is at most `end`; that of an
// excluded one (02) is higher.
fn next_door(
    ends: &[u16],
    incident: &[u16],
    first: &[u16],
    number: &[u16],
    end: u16,
    r: u16,
    from: u16,
) -> u16
    requires { Doors limits ends.now incident.now first.now number.now end r from }
    ensures { NextDoorBy limits ends.now incident.now first.now number.now end r from result }
{
    for k in from..ends.len() as u16 {
        let e = incident[k as usize];
        if is_door(first, number, end, e, far_end(ends, e, r)) {
            return k;
        }
    }
    from // never: there is such an edge
}

fn is_door(first: &[u16], number: &[u16], end: u16, e: u16, w: u16) -> bool
    requires { DoorFits limits e w (length first.now) (length number.now) }
    ensures { Tells result (Door (read first.now) (read number.now) end e w) }
{
    first[w as usize] != e + 1 && number[w as usize] <= end
}

// The first vertex on the way up from `u` that is also on the way up from `w`. No mark is set, before and after.
fn meeting(ends: &[u16], first: &[u16], w: u16, u: u16, r: u16, marks: &mut [u16]) -> u16
    requires { Meets limits ends.now first.now w u r marks.old }
    ensures { Met limits ends.now first.now w u r marks.old marks.new result }
{
    walk::mark_up(ends, first, w, r, 1, marks);
    let x = walk::first_marked(ends, first, marks, u);
    walk::mark_up(ends, first, w, r, 0, marks);
    x
}

// Writes the rows of the three walks, each behind those before it; how many there are.
fn write_walks(ends: &[u16], first: &[u16], r: u16, t: Fork, rows: &mut [u16]) -> u16
    requires { Rowed limits ends.now first.now r t.x t.e t.p t.f t.w t.d t.u (length rows.old) }
    ensures { RowedBy limits ends.now first.now r t.x t.e t.p t.f t.w t.d t.u rows.old rows.new result }
{
    let a = walk::write_walk(ends, first, t.e, t.x, t.p, r, 0, rows);
    let from = 3 * (a as usize);
    let b = walk::write_walk(ends, first, t.f, r, t.w, t.x, 1, &mut rows[from..]);
    let from = 3 * ((a + b) as usize);
    let c = walk::write_walk(ends, first, t.d, r, t.u, t.x, 2, &mut rows[from..]);
    a + b + c
}

// An edge, where it leads, and where the way up from there ends.
#[derive(Drop)]
struct Way {
    e: u16,
    v: u16,
    stop: u16,
}

// Builds them; the next free place then. The walk from `x` comes first: from then on what is above a built vertex is built.
fn build_walks(
    ends: &[u16],
    first: &[u16],
    r: u16,
    t: Fork,
    places: &mut [u16],
    below: &mut [u16],
    tips: &mut [u16],
    over: &mut [u16],
) -> u16
    requires { Raw limits ends.now first.now r t.x t.e t.p t.f t.w t.d t.u places.old below.old tips.old over.old }
    ensures { RaisedBy limits ends.now first.now r t.x t.e t.p t.f t.w t.d t.u places.old below.old tips.old over.old places.new below.new tips.new over.new result }
{
    places[r as usize] = 1;
    places[t.x as usize] = 1;
    below[t.p as usize] = t.x + 1;
    let mut next: u16 = 2;
    for k in 0..3 {
        let to = way_at(k, r, t);
        next = link::build_walk(
            ends, first, to.e, to.v, to.stop, next, places, below, tips, over,
        );
    }
    next
}

// The walk `k` of the three: from `x` up to the root, from the root over `f` up to `x`, and over `d` up to `x`.
fn way_at(k: u16, r: u16, t: Fork) -> Way
    ensures { WayAt k r t.x t.e t.p t.f t.w t.d t.u result.e result.v result.stop }
{
    if k == 0 {
        return Way {
            e: t.e,
            v: t.p,
            stop: r,
        };
    }
    if k == 1 {
        return Way {
            e: t.f,
            v: t.w,
            stop: t.x,
        };
    }
    Way {
        e: t.d,
        v: t.u,
        stop: t.x,
    }
}
