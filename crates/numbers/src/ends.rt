// The ends of edges by their numbers, and the marks of vertices. An edge is given as one more than its number where there may be none.
ghost use Rattle.std.specs.Prelude.{◌≡◌, ◌/◌, ◌≤◌, ◌<◌, length};
ghost use Rattle.numbers.specs.Tables.{lower_end, least_number, is_none, higher_of, mark_of};
ghost use Rattle.numbers.specs.Parts.{EndsBelow};

// The end of `e` that has the higher number.
pub(crate) fn lower(ends: &[u16], number: &[u16], e: u16) -> u16
    requires { (e < length ends.now / 2) × EndsBelow ends.now (length number.now) }
    ensures { result ≡ lower_end ends.now number.now e }
{
    let k = 2 * (e as usize);
    let l = ends[k];
    let r = ends[k + 1];
    if number[l as usize] < number[r as usize] {
        return r;
    }
    l
}

// Whether there is no such edge.
fn is_none(ends: &[u16], x: u16) -> bool
    ensures { result ≡ is_none ends.now x }
{
    if x == 0 {
        return true;
    }
    ends.len() / 2 < x as usize
}

// The number of the upper end of `e`.
fn level(ends: &[u16], number: &[u16], e: u16) -> u16
    requires { (e < length ends.now / 2) × EndsBelow ends.now (length number.now) }
    ensures { result ≡ least_number ends.now number.now e }
{
    let k = 2 * (e as usize);
    let a = number[ends[k] as usize];
    let b = number[ends[k + 1] as usize];
    if a < b {
        return a;
    }
    b
}

// Of two edges the one whose upper end is higher; the other where one is none.
pub(crate) fn higher(ends: &[u16], number: &[u16], x: u16, y: u16) -> u16
    requires { EndsBelow ends.now (length number.now) }
    ensures { result ≡ higher_of ends.now number.now x y }
{
    if is_none(ends, x) {
        return y;
    }
    if is_none(ends, y) {
        return x;
    }
    if level(ends, number, y - 1) < level(ends, number, x - 1) {
        return y;
    }
    x
}

// The first edge of `v`, of so many: none for a root, and for what is no vertex.
pub(crate) fn mark(vertices: u16, edges: usize, first: &[u16], v: u16) -> u16
    requires { vertices ≤ length first.now }
    ensures { result ≡ mark_of vertices edges first.now v }
{
    if vertices <= v {
        return 0;
    }
    let t = first[v as usize];
    if edges < t as usize {
        return 0;
    }
    t
}
