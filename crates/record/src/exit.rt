// A way out of a link: an edge that a Mader-path from its inside begins with, sought from both ends of the link.
ghost use Rattle.std.specs.Prelude.{◌+◌, ◌<◌, ◌≤◌, length};
ghost use Rattle.connectivity.specs.Plan.{limits};
ghost use Rattle.graph.specs.Marks.{read};
ghost use Rattle.graph.specs.Tells.{Tells};
ghost use Rattle.record.specs.Leaving.{Leaving, LeftBy};
ghost use Rattle.record.specs.Exits.{Ranging, Under, Passes, Testing, Looking, ExitAt, Chosen};

use crate::walk;
use graph::ends::far_end;

// Some numbers in the order, from the first to the last; none if that is less.
#[derive(Drop)]
struct Range {
    from: u16,
    to: u16,
}

// The edge that a Mader-path over an edge at a vertex inside the link from `top` down to `bottom` begins with: looks at its vertices from
// both ends, always on at the end with less work behind it.
pub(crate) fn leave_link(
    ends: &[u16],
    incident: &[u16],
    begins: &[u16],
    first: &[u16],
    number: &[u16],
    last: &[u16],
    places: &[u16],
    below: &[u16],
    over: &[u16],
    top: u16,
    bottom: u16,
) -> u16
    requires { Leaving limits ends.now incident.now begins.now first.now number.now last.now places.now below.now over.now top bottom }
    ensures { LeftBy limits ends.now incident.now begins.now first.now number.now last.now places.now below.now over.now top bottom result }
{
    let under = range_below(number, last, below, bottom);
    let mut a = top;
    let mut b = bottom;
    let mut a_work = size(begins, a);
    let mut b_work = size(begins, b);
    loop {
        let v = chosen(a_work, b_work, a, b);
        let f = exit_at(
            ends, incident, begins, number, places, over, v, under.from, under.to,
        );
        if f != 0 {
            return f - 1;
        }
        if a_work <= b_work {
            a = below[a as usize] - 1;
            a_work = std::num::wrapping_add_u16(a_work, size(begins, a));
        } else {
            b = walk::above(ends, first, b);
            b_work = std::num::wrapping_add_u16(b_work, size(begins, b));
        }
    }
}

// The end to go on at: a with the work x behind it, or b with y, whichever has less.
fn chosen(x: u16, y: u16, a: u16, b: u16) -> u16
    ensures { Chosen x y a b result }
{
    if x <= y {
        return a;
    }
    b
}

// The numbers of what is built, and hangs on what is built, below a link.
fn range_below(number: &[u16], last: &[u16], below: &[u16], bottom: u16) -> Range
    requires { Ranging number.now last.now below.now bottom }
    ensures { Under (read number.now) (read last.now) (read below.now bottom) result.from result.to }
{
    let next = below[bottom as usize];
    if next == 0 {
        return Range { from: 1, to: 0 };
    }
    let c = next as usize - 1;
    Range {
        from: number[c],
        to: last[c],
    }
}

// How many edges a vertex has.
fn size(begins: &[u16], v: u16) -> u16
    requires { (v + 1 < length begins.now) × (read begins.now v ≤ read begins.now (v + 1)) }
{
    begins[v as usize + 1] - begins[v as usize]
}

// One more than the edge that a Mader-path over an edge at `v`, inside a link, begins with; 0 for none.
fn exit_at(
    ends: &[u16],
    incident: &[u16],
    begins: &[u16],
    number: &[u16],
    places: &[u16],
    over: &[u16],
    v: u16,
    from: u16,
    to: u16,
) -> u16
    requires { Looking ends.now incident.now begins.now number.now places.now over.now v }
    ensures { ExitAt ends.now incident.now begins.now number.now places.now over.now v from to result }
{
    let begin = begins[v as usize] as usize;
    let end = begins[v as usize + 1] as usize;
    let own = places[v as usize];
    for k in begin..end {
        let f = over[incident[k] as usize];
        if f != 0 && is_exit(ends, number, places, f - 1, own, from, to) {
            return f;
        }
    }
    0
}

// Whether `f`, which a Mader-path over an edge at the place `own` begins with, leads to another place: its upper end is there, or its lower end hangs
// on what is built below the link, whose numbers are given.
fn is_exit(
    ends: &[u16],
    number: &[u16],
    places: &[u16],
    f: u16,
    own: u16,
    from: u16,
    to: u16,
) -> bool
    requires { Testing ends.now number.now places.now f }
    ensures { Tells result (Passes ends.now number.now places.now f own from to) }
{
    let s = walk::upper(ends, number, f);
    if places[s as usize] != own {
        return true;
    }
    let w = number[far_end(ends, f, s) as usize];
    from <= w && w <= to
}
