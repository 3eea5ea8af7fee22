// A depth-first search over the tables of edges by vertex: it costs what it visits, and asks nothing of the tables.
#![tactic(auto)]

ghost use Rattle.std.specs.Prelude.{◌≡◌, not, ◌/◌, ◌<◌, ◌≤◌, length, set};
ghost use Rattle.connectivity.specs.Plan.{entire, limits};
ghost use Rattle.graph.specs.Tells.{Tells};
ghost use Rattle.depth.specs.Depth.{Crossing, Found, Fresh, counted, enough, refused, Answered, Undone};
ghost use Rattle.depth.specs.Parts.{Least, Fit, Rooms, EndsAt, Leads, LeadsOn, SeekStart, Sought, DescendStart, Descended, AscendStart, Ascended, GoesOn, TurnStart, Turned};

use graph::{Answer, Graph};

// Where a search is: at which vertex, how many vertices stand in the order, and how many are on the way up from here, this one included.
#[derive(Drop)]
struct State {
    at: u16,
    count: u16,
    depth: u16,
}

// Refuses by 1 to 3 what the plan's counts decide, and by 6 lent tables that are too short. Else searches from `root`, depth first, over
// the edges that the tables list in the group of a vertex, if they have it as an end and their mark in `dead` is 0, to vertices that have no
// mark. Leaves in `first` by which edge each was entered (one more than its number, 65535 at `root`), and in `order`, behind the first
// `seen`, the entered vertices as they were found; the cursors of the entered vertices are 0; every other number stays. The answer is how
// many stand in the order. The order ends at `vertices`: what finds no room there is not entered. Nothing is entered where `root` is no
// vertex or has a mark.
pub fn explore(
    vertices: u16,
    ends: &[u16],
    incident: &[u16],
    begins: &[u16],
    dead: &[u8],
    root: u16,
    seen: u16,
    first: &mut [u16],
    order: &mut [u16],
    cursor: &mut [u16],
) -> Result<u16, Answer>
    ensures { Answered limits (entire vertices ends.now) incident.now begins.now dead.now root seen first.old order.old cursor.old first.new order.new cursor.new result }
{
    let places = least(begins.len(), first.len(), order.len(), cursor.len());
    let number = refusal(vertices, ends, incident.len(), dead.len(), places);
    if number != 0 {
        return Err(Answer {
            number: number,
            place: 0,
        });
    }
    if is_fresh(vertices, root, seen, first) {
        let count = dig(
            vertices, ends, incident, begins, dead, root, seen, first, order, cursor,
        );
        return Ok(count);
    }
    Ok(seen)
}

// 1 to 3 by the counts, then 6 where a lent table is too short; else 0. Of the tables by vertex the shortest has `places`.
fn refusal(vertices: u16, ends: &[u16], incident: usize, dead: usize, places: usize) -> u16
    ensures { result ≡ (refused limits (entire vertices ends.now) (enough (entire vertices ends.now) incident places dead places places places)).number }
{
    let number = misfit(vertices, ends);
    if number != 0 {
        return number;
    }
    if is_short(vertices as usize, ends.len(), incident, dead, places) {
        return 6;
    }
    0
}

// 1 to 3 by the counts; else 0.
fn misfit(vertices: u16, ends: &[u16]) -> u16
    ensures { result ≡ (counted limits (entire vertices ends.now)).number }
{
    if ends.len() % 2 != 0 {
        return 1;
    }
    if vertices < 2 {
        return 2;
    }
    if Graph::MAX_VERTICES < vertices as usize {
        return 2;
    }
    if Graph::MAX_EDGES < ends.len() / 2 {
        return 3;
    }
    0
}

// Whether one of the lent tables is too short.
fn is_short(n: usize, ends: usize, incident: usize, dead: usize, places: usize) -> bool
    ensures { Tells (not result) ((ends ≤ incident) × (ends / 2 ≤ dead) × (n ≤ places)) }
{
    if incident < ends {
        return true;
    }
    if dead < ends / 2 {
        return true;
    }
    if places < n {
        return true;
    }
    false
}

fn least(a: usize, b: usize, c: usize, d: usize) -> usize
    ensures { Least a b c d result }
{
    a.min(b).min(c).min(d)
}

// Whether the search can begin: there is room for the root, and it is a vertex that has no mark.
fn is_fresh(vertices: u16, root: u16, seen: u16, first: &[u16]) -> bool
    requires { vertices ≤ length first.now }
    ensures { Tells result (Fresh vertices root seen first.now) }
{
    if seen >= vertices {
        return false;
    }
    if root >= vertices {
        return false;
    }
    let at = root as usize;
    if first[at] != 0 {
        return false;
    }
    true
}

// The search from a root that can be entered. It ends where the order is full; the cursors of what was entered are cleared at the end.
fn dig(
    vertices: u16,
    ends: &[u16],
    incident: &[u16],
    begins: &[u16],
    dead: &[u8],
    root: u16,
    seen: u16,
    first: &mut [u16],
    order: &mut [u16],
    cursor: &mut [u16],
) -> u16
    requires { Fit limits (entire vertices ends.now) incident.now begins.now dead.now × Rooms vertices first.old order.old cursor.old × Fresh vertices root seen first.old }
    ensures { Found (Crossing (entire vertices ends.now) incident.now begins.now dead.now) vertices root seen first.old order.old cursor.old first.new order.new cursor.new result }
{
    enter(root, 65535, seen, first, order, cursor);
    let mut s = State {
        at: root,
        count: seen + 1,
        depth: 1,
    };
    while goes_on(vertices, s.count, s.depth) {
        s = turn(
            vertices, ends, incident, begins, dead, s, first, order, cursor,
        );
    }
    let count = s.count;
    undo(order, seen, count, cursor);
    count
}

// Whether there is a vertex where the search is, and room for another.
fn goes_on(vertices: u16, count: u16, depth: u16) -> bool
    ensures { Tells result (GoesOn vertices count depth) }
{
    if depth == 0 {
        return false;
    }
    if count >= vertices {
        return false;
    }
    true
}

// Marks w, puts it into the order, and sets its cursor to the front of its group.
fn enter(w: u16, mark: u16, count: u16, first: &mut [u16], order: &mut [u16], cursor: &mut [u16])
    requires { (w < length first.old) × (count < length order.old) × (w < length cursor.old) }
    ensures { (first.new ≡ set first.old w mark) × (order.new ≡ set order.old count w) × (cursor.new ≡ set cursor.old w 0) }
{
    let at = w as usize;
    let to = count as usize;
    first[at] = mark;
    order[to] = w;
    cursor[at] = 0;
}

// One step: down to the next vertex that has no mark, or up.
fn turn(
    vertices: u16,
    ends: &[u16],
    incident: &[u16],
    begins: &[u16],
    dead: &[u8],
    s: State,
    first: &mut [u16],
    order: &mut [u16],
    cursor: &mut [u16],
) -> State
    requires { Fit limits (entire vertices ends.now) incident.now begins.now dead.now × Rooms vertices first.old order.old cursor.old × TurnStart vertices first.old s }
    ensures { Turned (entire vertices ends.now) incident.now begins.now dead.now s first.old order.old cursor.old first.new order.new cursor.new result }
{
    let at = s.at as usize;
    let start = begins[at] as usize;
    let from = start + (cursor[at] as usize);
    let to = group_end(vertices, ends.len(), begins, s.at);
    let k = seek(vertices, ends, incident, dead, first, s.at, from, to);
    if k < to {
        return descend(
            vertices, ends, incident, dead, s, start, k, first, order, cursor,
        );
    }
    ascend(vertices, ends, dead, s, first)
}

// Where v's group ends in the table of `size` places.
fn group_end(vertices: u16, size: usize, begins: &[u16], v: u16) -> usize
    requires { (v < vertices) × (vertices ≤ limits.vertices) × (vertices ≤ length begins.now) }
    ensures { EndsAt vertices size begins.now v result }
{
    let next = v + 1;
    if next >= vertices {
        return size;
    }
    let to = begins[next as usize] as usize;
    if size < to {
        return size;
    }
    to
}

// The first place from `from` up to `to` whose edge leads from v to a vertex that has no mark, else `to`.
fn seek(
    vertices: u16,
    ends: &[u16],
    incident: &[u16],
    dead: &[u8],
    first: &[u16],
    v: u16,
    from: usize,
    to: usize,
) -> usize
    requires { SeekStart (entire vertices ends.now) incident.now dead.now first.now v to }
    ensures { Sought (entire vertices ends.now) incident.now dead.now first.now v from to result }
{
    for i in from..to {
        if leads_on(vertices, ends, dead, first, v, incident[i]) {
            return i;
        }
    }
    to
}

// Whether e leads from v to a vertex that has no mark.
fn leads_on(vertices: u16, ends: &[u16], dead: &[u8], first: &[u16], v: u16, e: u16) -> bool
    requires { (v < vertices) × (length ends.now / 2 ≤ length dead.now) × (vertices ≤ length first.now) }
    ensures { LeadsOn (entire vertices ends.now) dead.now first.now v e result }
{
    let w = lead(vertices, ends, dead, v, e);
    if w >= vertices {
        return false;
    }
    let at = w as usize;
    if first[at] != 0 {
        return false;
    }
    true
}

// The vertex to which edge e leads from v, or `vertices` where it leads to none.
fn lead(vertices: u16, ends: &[u16], dead: &[u8], v: u16, e: u16) -> u16
    requires { (v < vertices) × (length ends.now / 2 ≤ length dead.now) }
    ensures { Leads (entire vertices ends.now) dead.now v e result }
{
    let at = e as usize;
    if at >= ends.len() / 2 {
        return vertices;
    }
    if dead[at] != 0 {
        return vertices;
    }
    let a = ends[2 * at];
    let b = ends[2 * at + 1];
    if a == v {
        return b;
    }
    if b == v {
        return a;
    }
    vertices
}

// Down over the edge at place k, to a vertex that has no mark; the cursor goes past it.
fn descend(
    vertices: u16,
    ends: &[u16],
    incident: &[u16],
    dead: &[u8],
    s: State,
    start: usize,
    k: usize,
    first: &mut [u16],
    order: &mut [u16],
    cursor: &mut [u16],
) -> State
    requires { DescendStart limits (entire vertices ends.now) incident.now dead.now s start k first.old order.old cursor.old }
    ensures { Descended (entire vertices ends.now) incident.now dead.now s start k first.old order.old cursor.old first.new order.new cursor.new result }
{
    let e = incident[k];
    let w = lead(vertices, ends, dead, s.at, e);
    let at = s.at as usize;
    cursor[at] = (k + 1 - start) as u16;
    enter(w, e + 1, s.count, first, order, cursor);
    State {
        at: w,
        count: s.count + 1,
        depth: s.depth + 1,
    }
}

// Up over the first edge; from the root, to no vertex.
fn ascend(vertices: u16, ends: &[u16], dead: &[u8], s: State, first: &[u16]) -> State
    requires { AscendStart (entire vertices ends.now) dead.now s first.now }
    ensures { Ascended (entire vertices ends.now) dead.now s first.now result }
{
    let at = s.at as usize;
    let e = first[at] - 1;
    let above = lead(vertices, ends, dead, s.at, e);
    State {
        at: above,
        count: s.count,
        depth: s.depth - 1,
    }
}

// Takes marks back: those of the vertices at the places from `from` up to `to` of the order become 0. A place behind the order and a number
// that has no mark are passed over.
pub fn undo(order: &[u16], from: u16, to: u16, first: &mut [u16])
    ensures { Undone order.now from to first.old first.new }
{
    let last = order.len().min(to as usize);
    for i in from as usize..last {
        unmark(order[i], first);
    }
}

fn unmark(v: u16, first: &mut [u16])
    ensures { first.new ≡ set first.old v 0 }
{
    let at = v as usize;
    if at < first.len() {
        first[at] = 0;
    }
}
