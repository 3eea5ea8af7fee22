// The ways up along first edges, as a search leaves them.
ghost use Rattle.std.specs.Prelude.{◌≡◌, ◌+◌, ◌*◌, ◌/◌, ◌<◌, ◌≤◌, length};
ghost use Rattle.connectivity.specs.Plan.{limits};
ghost use Rattle.record.specs.Ways.{with_row, next_up, upper_end, Ended, Rises, Climbing, Climbed, OneMore, OverUp, Marking, MarkedUp, Toward, MetFirst, Raising, RaisedUp};

use graph::ends::far_end;

// Writes the rows of step `step` from `v` up to `stop` along first edges at the front of `rows`; how many there are.
pub(crate) fn climb(
    ends: &[u16],
    first: &[u16],
    v: u16,
    stop: u16,
    step: u16,
    rows: &mut [u16],
) -> u16
    requires { Climbing limits ends.now first.now v stop (length rows.old) }
    ensures { Climbed limits ends.now first.now v stop step rows.old rows.new result }
{
    let mut at = v;
    let mut count: u16 = 0;
    while at != stop {
        let e = first[at as usize] - 1;
        write_row(rows, count, step, e, at);
        at = far_end(ends, e, at);
        count += 1;
    }
    count
}

// The row after `count` rows.
pub(crate) fn write_row(rows: &mut [u16], count: u16, step: u16, e: u16, v: u16)
    requires { 3 * count + 3 ≤ length rows.old }
    ensures { rows.new ≡ with_row rows.old count step e v }
{
    let k = 3 * (count as usize);
    rows[k] = step;
    rows[k + 1] = e;
    rows[k + 2] = v;
}

// The end of an edge that has the lower number.
pub(crate) fn upper(ends: &[u16], number: &[u16], e: u16) -> u16
    requires { Ended ends.now number.now e }
    ensures { result ≡ upper_end ends.now number.now e }
{
    let k = 2 * (e as usize);
    let l = ends[k];
    let r = ends[k + 1];
    if number[l as usize] < number[r as usize] {
        return l;
    }
    r
}

// Where the first edge of `v` leads.
pub(crate) fn above(ends: &[u16], first: &[u16], v: u16) -> u16
    requires { Rises ends.now first.now v }
    ensures { result ≡ next_up ends.now first.now v }
{
    far_end(ends, first[v as usize] - 1, v)
}

// The first marked vertex from `v` up.
pub(crate) fn first_marked(ends: &[u16], first: &[u16], marks: &[u16], v: u16) -> u16
    requires { Toward limits ends.now first.now marks.now v }
    ensures { MetFirst limits ends.now first.now marks.now v result }
{
    let mut at = v;
    while marks[at as usize] == 0 {
        at = above(ends, first, at);
    }
    at
}

// Sets the marks of the vertices from `v` up to `stop`.
pub(crate) fn mark_up(ends: &[u16], first: &[u16], v: u16, stop: u16, mark: u16, marks: &mut [u16])
    requires { Marking limits ends.now first.now v stop (length marks.old) }
    ensures { MarkedUp limits ends.now first.now v stop mark marks.old marks.new }
{
    let mut at = v;
    while at != stop {
        marks[at as usize] = mark;
        at = above(ends, first, at);
    }
    marks[stop as usize] = mark;
}

// Builds the edges from `v` up to `stop`: nothing stands in `over` at them any more, and each vertex is noted below its parent. The last vertex before `stop`.
pub(crate) fn build_up(
    ends: &[u16],
    first: &[u16],
    v: u16,
    stop: u16,
    below: &mut [u16],
    over: &mut [u16],
) -> u16
    requires { Raising limits ends.now first.now v stop (length below.old) (length over.old) }
    ensures { RaisedUp limits ends.now first.now v stop below.old over.old below.new over.new result }
{
    let mut at = v;
    let mut top = v;
    while at != stop {
        let e = first[at as usize] - 1;
        over[e as usize] = 0;
        top = at;
        at = far_end(ends, e, top);
        below[at as usize] = top + 1;
    }
    top
}

// Writes the rows of step `step`: from `from` over `e` to `v`, and up to `stop`; how many there are.
pub(crate) fn write_walk(
    ends: &[u16],
    first: &[u16],
    e: u16,
    from: u16,
    v: u16,
    stop: u16,
    step: u16,
    rows: &mut [u16],
) -> u16
    requires { OneMore limits ends.now first.now v stop (length rows.old) }
    ensures { OverUp limits ends.now first.now e from v stop step rows.old rows.new result }
{
    write_row(rows, 0, step, e, from);
    climb(ends, first, v, stop, step, &mut rows[3..]) + 1
}
