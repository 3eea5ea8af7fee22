// What lies below each vertex: the edges that lead up from there, and the last number.
ghost use Rattle.std.specs.Prelude.{◌≡◌, ◌-◌, ◌/◌, ◌≤◌, ◌<◌, length};
ghost use Rattle.connectivity.specs.Plan.{entire, limits};
ghost use Rattle.numbers.specs.Tables.{hand_to, own_at, owns_to, raise_to, lower_last, lower_over, lasts_down, overs_down};
ghost use Rattle.numbers.specs.Parts.{EndsBelow, Owning, Lowering};

use crate::ends;
use graph::ends::far_end;

// Each edge that is not in the tree stands for itself, and for the first edge of its lower end if none there is higher.
pub(crate) fn own_all(vertices: u16, ends: &[u16], first: &[u16], number: &[u16], over: &mut [u16])
    requires { Owning limits (entire vertices ends.now) (length first.now) (length number.now) (length over.old) }
    ensures { over.new ≡ owns_to vertices ends.now first.now number.now over.old (length ends.now / 2) }
{
    let edges = (ends.len() / 2) as u16;
    for e in 0..edges {
        own_one(vertices, ends, first, number, e, over);
    }
}

// The same of one edge: it is in the tree exactly where it is the first one of its lower end. That may be an excluded vertex (02), a root; the
// edge then stands for nothing.
fn own_one(vertices: u16, ends: &[u16], first: &[u16], number: &[u16], e: u16, over: &mut [u16])
    requires { Owning limits (entire vertices ends.now) (length first.now) (length number.now) (length over.old) × (e < length ends.now / 2) }
    ensures { over.new ≡ own_at vertices ends.now first.now number.now over.old e }
{
    let w = ends::lower(ends, number, e);
    let d = ends::mark(vertices, ends.len() / 2, first, w);
    if d != 0 {
        if d != e + 1 {
            over[e as usize] = e + 1;
            hand(ends, number, d, e + 1, over);
        }
    }
}

// The place of `t`, an edge or none, gets the higher of the edge there and `x`.
fn hand(ends: &[u16], number: &[u16], t: u16, x: u16, over: &mut [u16])
    requires { EndsBelow ends.now (length number.now) × (t ≤ length over.old) }
    ensures { over.new ≡ hand_to ends.now number.now over.old t x }
{
    if t != 0 {
        let k = t as usize - 1;
        over[k] = ends::higher(ends, number, over[k], x);
    }
}

// From the last vertex of the order to the second: what is below it is below its parent, too.
pub(crate) fn lower_all(
    vertices: u16,
    ends: &[u16],
    first: &[u16],
    order: &[u16],
    number: &[u16],
    last: &mut [u16],
    over: &mut [u16],
)
    requires { Lowering limits (entire vertices ends.now) (length first.now) (length number.now) (length last.old) (length over.old) × (vertices ≤ length order.now) }
    ensures { (last.new ≡ lasts_down vertices ends.now first.now order.now last.old (vertices - 1)) × (over.new ≡ overs_down vertices ends.now first.now order.now number.now over.old (vertices - 1)) }
{
    for k in (1..vertices).rev() {
        lower_one(vertices, ends, first, number, order[k as usize], last, over);
    }
}

// The same of one vertex; a root has no parent, and its mark names no edge.
fn lower_one(
    vertices: u16,
    ends: &[u16],
    first: &[u16],
    number: &[u16],
    v: u16,
    last: &mut [u16],
    over: &mut [u16],
)
    requires { Lowering limits (entire vertices ends.now) (length first.now) (length number.now) (length last.old) (length over.old) }
    ensures { (last.new ≡ lower_last vertices ends.now first.now last.old v) × (over.new ≡ lower_over vertices ends.now first.now number.now over.old v) }
{
    let edges = ends.len() / 2;
    let t = ends::mark(vertices, edges, first, v);
    if t != 0 {
        let up = far_end(ends, t - 1, v);
        raise(last, up, v);
        let d = ends::mark(vertices, edges, first, up);
        let x = over[t as usize - 1];
        hand(ends, number, d, x, over);
    }
}

// What is last below `v` is below `up`, too.
fn raise(last: &mut [u16], up: u16, v: u16)
    requires { (up < length last.old) × (v < length last.old) }
    ensures { last.new ≡ raise_to last.old up v }
{
    let to = last[v as usize];
    if last[up as usize] < to {
        last[up as usize] = to;
    }
}
