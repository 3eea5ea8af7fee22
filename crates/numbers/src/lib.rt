// The vertices by their numbers in the order of a search, and what lies below each.
#![tactic(auto)]

ghost use Rattle.std.specs.Prelude.{◌≡◌, not, ◌/◌, ◌≤◌, length};
ghost use Rattle.connectivity.specs.Plan.{entire, limits};
ghost use Rattle.graph.specs.Tells.{Tells};
ghost use Rattle.numbers.specs.Tables.{numbers_to};
ghost use Rattle.numbers.specs.Answered.{Filled, Looked};
ghost use Rattle.numbers.specs.Parts.{Room, Fit};

use graph::Answer;

mod below; // below.rt: what lies below each vertex
mod ends; // ends.rt: the ends of edges by their numbers, and the marks of vertices

// The plan's own 1 to 5; 6 unless `first`, `order`, `number` and `last` have a place for each vertex and `over` one for each edge. Else `number`
// gets the place of each vertex in the order. Where that and the marks in `first` are a depth-first tree, as a search leaves them, `last` gets the
// last number at or below each vertex, and `over` for each edge one more than the edge that a Mader-path over it begins with: the edge
// itself if it is not in the tree; else an edge from below it, not in the tree, whose upper end is highest. Vertices that the search has left out (02:
// slugs) stand behind the tree, each as a root: an edge whose lower end is a root has 0. Where there is no such tree, these two are of no use.
pub fn look_below(
    vertices: u16,
    ends: &[u16],
    first: &[u16],
    order: &[u16],
    number: &mut [u16],
    last: &mut [u16],
    over: &mut [u16],
) -> Answer
    ensures { Looked limits (entire vertices ends.now) first.now order.now number.old last.old over.old number.new last.new over.new result }
{
    let short = is_short(
        vertices as usize,
        ends.len() / 2,
        first.len(),
        order.len(),
        number.len(),
        last.len(),
        over.len(),
    );
    let none = [0u16; 0];
    let answer = graph::refusal(vertices, ends, &none, short);
    let refused = answer.number;
    if refused == 0 {
        fill(vertices, ends, first, order, number, last, over);
    }
    answer
}

// Whether one of the tables, of which these are the lengths, is too short for n vertices and m edges.
fn is_short(
    n: usize,
    m: usize,
    first: usize,
    order: usize,
    number: usize,
    last: usize,
    over: usize,
) -> bool
    ensures { Tells (not result) (Room n m first order number last over) }
{
    if first < n {
        return true;
    }
    if order < n {
        return true;
    }
    if number < n {
        return true;
    }
    if last < n {
        return true;
    }
    if over < m {
        return true;
    }
    false
}

// The three tables of an admitted plan.
fn fill(
    vertices: u16,
    ends: &[u16],
    first: &[u16],
    order: &[u16],
    number: &mut [u16],
    last: &mut [u16],
    over: &mut [u16],
)
    requires { Fit limits (entire vertices ends.now) (length first.now) (length order.now) (length number.old) (length last.old) (length over.old) }
    ensures { Filled (entire vertices ends.now) first.now order.now number.old last.old over.old number.new last.new over.new }
{
    number_all(vertices, order, number, last);
    incidence::clear(ends.len() / 2, over);
    below::own_all(vertices, ends, first, number, over);
    below::lower_all(vertices, ends, first, order, number, last, over);
}

// The number of each vertex is its place in the order; so far none has a later one below it.
fn number_all(vertices: u16, order: &[u16], number: &mut [u16], last: &mut [u16])
    requires { (vertices ≤ length order.now) × (vertices ≤ length number.old) × (vertices ≤ length last.old) }
    ensures { (number.new ≡ numbers_to vertices order.now number.old vertices) × (last.new ≡ numbers_to vertices order.now last.old vertices) }
{
    for k in 0..vertices {
        let v = order[k as usize];
        if v < vertices {
            number[v as usize] = k;
            last[v as usize] = k;
        }
    }
}
