// Labels of edges that cancel around every vertex: the label of an edge whose loss alone parts what was joined is 0, and those of two that
// do so only together are equal.
#![tactic(auto)]

ghost use Rattle.std.specs.Prelude.{not, ◌/◌, ◌≤◌, length};
ghost use Rattle.connectivity.specs.Plan.{plan, limits};
ghost use Rattle.connectivity.specs.Admission.{Admitted};
ghost use Rattle.graph.specs.Tells.{Tells};
ghost use Rattle.labels.specs.Answered.{Labelled, tables, Answered};
ghost use Rattle.labels.specs.Labels.{Ample, Room, Summed, Masks, Silent, OpenAt, Ready, Toggled, Named, Settled, Scattered, Settling};

use graph::{Answer, Graph};

mod forest; // forest.rt: a spanning forest, by searches

// The plan's own refusals; 6 where a lent table is too short: `incident` wants two places for each edge, `dead` and `labels` one, the others one
// for each vertex. Else, in any number of bodies: fills the tables by vertex; marks in `dead` the edges of excluded vertices (1, every other 0);
// finds a spanning forest of the others (`first`: one more than the edge by which a vertex was found, 65535 for a root; `order`: the vertices as
// they were found; an excluded one is a root alone); and gives each edge a label, a marked one 0, such that around every vertex they xor to 0.
// The cursors and the sums are then 0.
pub fn label(
    vertices: u16,
    ends: &[u16],
    excluded: &[u16],
    incident: &mut [u16],
    begins: &mut [u16],
    dead: &mut [u8],
    first: &mut [u16],
    order: &mut [u16],
    cursor: &mut [u16],
    labels: &mut [u64],
    sums: &mut [u64],
) -> Answer
    ensures { Answered limits (plan vertices ends.now excluded.now) (tables incident.old begins.old dead.old first.old order.old cursor.old labels.old sums.old) (tables incident.new begins.new dead.new first.new order.new cursor.new labels.new sums.new) result }
{
    let short = is_short(
        vertices as usize,
        ends.len() / 2,
        incident.len(),
        begins.len(),
        dead.len(),
        first.len(),
        order.len(),
        cursor.len(),
        labels.len(),
        sums.len(),
    );
    let answer = graph::refusal(vertices, ends, excluded, short);
    let number = answer.number;
    if number == 0 {
        forest::plant(
            vertices, ends, excluded, incident, begins, dead, first, order, cursor,
        );
        distribute(vertices, ends, excluded, dead, first, order, labels, sums);
    }
    answer
}

// Labels along a spanning forest that is lent. The plan's own refusals; 6 unless `first`, `order` and `sums` have a place for each vertex and
// `labels` one for each edge. Else each edge gets a label, one of an excluded vertex 0, and each vertex in `sums` the xor of those around it: 0,
// if `first` and `order` are a spanning forest. Where they are none, the labels are of no use.
pub fn balance(
    vertices: u16,
    ends: &[u16],
    excluded: &[u16],
    first: &[u16],
    order: &[u16],
    labels: &mut [u64],
    sums: &mut [u64],
) -> Answer
    ensures { Labelled limits (plan vertices ends.now excluded.now) first.now order.now labels.old sums.old labels.new sums.new result }
{
    let short = is_tight(
        vertices as usize,
        ends.len() / 2,
        first.len(),
        order.len(),
        labels.len(),
        sums.len(),
    );
    let answer = graph::refusal(vertices, ends, excluded, short);
    let number = answer.number;
    if number == 0 {
        let mut dead = [0u8; Graph::MAX_EDGES];
        graph::excluded::mask(ends, excluded, &mut dead);
        distribute(vertices, ends, excluded, &dead, first, order, labels, sums);
    }
    answer
}

// Whether one of the tables of `label`, of which these are the lengths, is too short for n vertices and m edges; and the same of `balance`.
fn is_short(
    n: usize,
    m: usize,
    incident: usize,
    begins: usize,
    dead: usize,
    first: usize,
    order: usize,
    cursor: usize,
    labels: usize,
    sums: usize,
) -> bool
    ensures { Tells (not result) (Ample n m incident begins dead first order cursor labels sums) }
{
    if incident / 2 < m {
        return true;
    }
    if begins < n {
        return true;
    }
    if dead < m {
        return true;
    }
    if cursor < n {
        return true;
    }
    is_tight(n, m, first, order, labels, sums)
}

fn is_tight(n: usize, m: usize, first: usize, order: usize, labels: usize, sums: usize) -> bool
    ensures { Tells (not result) (Room n m first order labels sums) }
{
    if first < n {
        return true;
    }
    if order < n {
        return true;
    }
    if labels < m {
        return true;
    }
    if sums < n {
        return true;
    }
    false
}

// Labels the edges of an admitted plan: any numbers at first; then, from the last place of the order to the first, the label of a vertex's
// first edge is changed such that the labels around the vertex xor to 0.
fn distribute(
    vertices: u16,
    ends: &[u16],
    excluded: &[u16],
    dead: &[u8],
    first: &[u16],
    order: &[u16],
    labels: &mut [u64],
    sums: &mut [u64],
)
    requires { Admitted limits (plan vertices ends.now excluded.now) × Masks (plan vertices ends.now excluded.now) dead.now × Room vertices (length ends.now / 2) (length first.now) (length order.now) (length labels.old) (length sums.old) }
    ensures { Settling (plan vertices ends.now excluded.now) first.now order.now labels.old sums.old labels.new sums.new 0 }
{
    labels[..ends.len() / 2].fill(0);
    sums[..vertices as usize].fill(0);
    scatter(vertices, ends, excluded, dead, labels, sums);
    settle(vertices, ends, excluded, dead, first, order, labels, sums);
}

// Xors a number into the label of each edge that has no mark.
fn scatter(
    vertices: u16,
    ends: &[u16],
    excluded: &[u16],
    dead: &[u8],
    labels: &mut [u64],
    sums: &mut [u64],
)
    requires { Admitted limits (plan vertices ends.now excluded.now) × Masks (plan vertices ends.now excluded.now) dead.now × Summed (plan vertices ends.now excluded.now) labels.old sums.old }
    ensures { Scattered (plan vertices ends.now excluded.now) labels.old sums.old labels.new sums.new }
{
    for e in 0..ends.len() / 2 {
        toggle(ends, e, noise(dead[e], e), labels, sums);
    }
}

// From the last place of the order to the first, xors the sum of each vertex into the label of its first edge: so the sum becomes 0, and
// where a tree of a forest ends, that of its root is 0 already.
fn settle(
    vertices: u16,
    ends: &[u16],
    excluded: &[u16],
    dead: &[u8],
    first: &[u16],
    order: &[u16],
    labels: &mut [u64],
    sums: &mut [u64],
)
    requires { Admitted limits (plan vertices ends.now excluded.now) × Masks (plan vertices ends.now excluded.now) dead.now × (vertices ≤ length first.now) × (vertices ≤ length order.now) × Summed (plan vertices ends.now excluded.now) labels.old sums.old }
    ensures { Settling (plan vertices ends.now excluded.now) first.now order.now labels.old sums.old labels.new sums.new 0 }
{
    for k in (0..vertices as usize).rev() {
        settle_one(
            vertices, ends, excluded, dead, order[k], first, labels, sums,
        );
    }
}

// Xors the sum of v into the label of its first edge; v has none if it is a root or no vertex, or if the edge is marked.
fn settle_one(
    vertices: u16,
    ends: &[u16],
    excluded: &[u16],
    dead: &[u8],
    v: u16,
    first: &[u16],
    labels: &mut [u64],
    sums: &mut [u64],
)
    requires { Admitted limits (plan vertices ends.now excluded.now) × Masks (plan vertices ends.now excluded.now) dead.now × (vertices ≤ length first.now) × Summed (plan vertices ends.now excluded.now) labels.old sums.old }
    ensures { Settled (plan vertices ends.now excluded.now) first.now v labels.old sums.old labels.new sums.new }
{
    let e = first_edge(vertices, v, first) as usize;
    if is_open(ends.len() / 2, e, dead) {
        let x = sums[v as usize];
        toggle(ends, e, x, labels, sums);
    }
}

// Whether e is one of m edges and has no mark.
fn is_open(m: usize, e: usize, dead: &[u8]) -> bool
    requires { m ≤ length dead.now }
    ensures { Tells result (OpenAt m dead.now e) }
{
    if e >= m {
        return false;
    }
    if dead[e] != 0 {
        return false;
    }
    true
}

// The edge by which v was found: one less than its mark; 65535 where there is none. A root's mark gives a number above every edge.
fn first_edge(vertices: u16, v: u16, first: &[u16]) -> u16
    requires { vertices ≤ length first.now }
    ensures { Named vertices first.now v result }
{
    if v >= vertices {
        return 65535;
    }
    let at = v as usize;
    let mark = first[at];
    if mark == 0 {
        return 65535;
    }
    mark - 1
}

// Xors x into the label of e and into the sums of its ends.
fn toggle(ends: &[u16], e: usize, x: u64, labels: &mut [u64], sums: &mut [u64])
    requires { Ready ends.now e labels.old sums.old }
    ensures { Toggled ends.now e x labels.old sums.old labels.new sums.new }
{
    let l = ends[2 * e] as usize;
    let r = ends[2 * e + 1] as usize;
    labels[e] = labels[e] ^ x;
    sums[l] = sums[l] ^ x;
    sums[r] = sums[r] ^ x;
}

// The number for an edge: none if it is marked, so that it counts at neither end.
fn noise(mark: u8, e: usize) -> u64
    ensures { Silent mark result }
{
    if mark != 0 {
        return 0;
    }
    mix(e as u64)
}

// A number that looks random, the same for the same e: the labels are right whatever it is, and tell more apart the better it is mixed.
fn mix(e: u64) -> u64 {
    let a = scramble(e ^ 0x9e37_79b9);
    let b = scramble(a ^ (a >> 32));
    let c = scramble(b ^ (b >> 32));
    (b << 32) ^ c
}

fn scramble(x: u64) -> u64 {
    (x % 0x1_0000_0000) * 0x9e37_79b1
}
