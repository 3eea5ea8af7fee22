// The build state: what the rows of a firm verdict leave to be known, and the step that takes up one row.
ghost use Rattle.std.specs.Prelude.{◌≡◌, true, cond, ◌||◌, ◌/◌, ◌*◌, ◌+◌, ◌≤◌, ◌<◌, eqb, length, get_or};
ghost use Rattle.connectivity.specs.Plan.{limits};
ghost use Rattle.graph.specs.Tells.{Tells};
ghost use Rattle.verify_firm.specs.Marks.{row_mark, StaysFresh, WentOn, Opens, Parallels, FitsEar, Joined, FitsLinks, StepTold, Whole, Reads, RowsFit, EdgeReady, EdgeAdded, RowsReady, RowsAdded, Begins, Ready, Stepped};

use graph::ends::far_end;
use graph::{Answer, Graph};

// The step that runs: its first row, where it began, where it has come to. It is fresh while it has left no vertex twice and its inner
// ones were in no step before.
#[derive(Clone, Copy)]
pub(crate) struct Run {
    pub first: u16,
    pub start: u16,
    pub at: u16,
    pub fresh: bool,
}

// A mark for each vertex: `degree` counts its edges in whole steps; `left` is 0, or one more than the row that leaves it as an inner
// vertex, from which its link is found. `low` and `high` are the ends of the latest whole step.
#[derive(Drop)]
pub(crate) struct State {
    pub degree: [u16; Graph::MAX_VERTICES],
    pub left: [u16; Graph::MAX_VERTICES],
    pub steps: u16,
    pub run: Run,
    pub low: u16,
    pub high: u16,
}

// A row taken up: the state, and the answer to the row, which is 0 and 0 or rejects it.
#[derive(Drop)]
pub(crate) struct Taken {
    pub state: State,
    pub answer: Answer,
}

impl State {
    pub(crate) fn new() -> State
        ensures { Begins limits result }
    {
        State {
            degree: [0u16; Graph::MAX_VERTICES],
            left: [0u16; Graph::MAX_VERTICES],
            steps: 0,
            run: begins(0),
            low: 0,
            high: 0,
        }
    }

    // Takes up `row`, with 10, 11 and 12; where it is the last of its step, also with 13, or 14 and 15.
    pub(crate) fn step(
        mut self,
        ends: &[u16],
        used: &mut [u8],
        list: &[u16],
        row: u16,
        last: bool,
    ) -> Taken
        requires { Ready limits ends.now used.old list.now row self }
        ensures { Stepped limits ends.now used.old used.new list.now row last self result }
    {
        let k = 3 * (row as usize);
        let e = list[k + 1];
        let v = list[k + 2];
        let steps = self.steps;
        let run = self.run;
        let number = row_number(ends, used, list[k], e, v, steps, row, run);
        if number != 0 {
            return rejected(self, number, row);
        }
        used[e as usize] = 1;
        let to = far_end(ends, e, v);
        let built = self.degree[v as usize];
        let on = go_on(run, row, v, to, built, &mut self.left);
        self.run = on;
        if !last {
            return passed(self);
        }
        let low = self.low;
        let high = self.high;
        let from = self.left[on.start as usize];
        let came = self.left[on.at as usize];
        let found = step_number(&self.degree, list, steps, on, low, high, from, came);
        if found != 0 {
            return rejected(self, found, row);
        }
        let first = on.first;
        add_rows(&mut self.degree, ends, list, first, row + 1);
        self.steps = steps + 1;
        self.low = on.start;
        self.high = on.at;
        self.run = begins(row + 1);
        passed(self)
    }
}

fn rejected(state: State, number: u16, row: u16) -> Taken
    ensures { result ≡ record { state = state; answer = record { number = number; place = row } } }
{
    Taken {
        state,
        answer: Answer { number, place: row },
    }
}

fn passed(state: State) -> Taken
    ensures { result ≡ record { state = state; answer = record { number = 0; place = 0 } } }
{
    Taken {
        state,
        answer: Answer {
            number: 0,
            place: 0,
        },
    }
}

// A step whose first row is to come.
fn begins(row: u16) -> Run
    ensures { result ≡ record { first = row; start = 0; at = 0; fresh = true } }
{
    Run {
        first: row,
        start: 0,
        at: 0,
        fresh: true,
    }
}

// 10, 11, 12 of one row, or 0.
fn row_number(
    ends: &[u16],
    used: &[u8],
    s: u16,
    e: u16,
    v: u16,
    steps: u16,
    row: u16,
    run: Run,
) -> u16
    requires { (length ends.now / 2 ≤ limits.edges) × (length used.now ≡ limits.edges) }
    ensures { result ≡ row_mark ends.now used.now steps row run (record { step = s; edge = e; from = v }) }
{
    if s != steps {
        return 10;
    }
    let k = e as usize;
    if ends.len() / 2 <= k {
        return 11;
    }
    if used[k] != 0 {
        return 11;
    }
    if !is_end(ends[2 * k], ends[2 * k + 1], v) {
        return 12;
    }
    let first = run.first;
    if first == row {
        return 0;
    }
    let at = run.at;
    if at != v {
        return 12;
    }
    0
}

fn is_end(l: u16, r: u16, v: u16) -> bool
    ensures { result ≡ (eqb l v || eqb r v) }
{
    if l == v {
        return true;
    }
    r == v
}

// The step leaves `v`, which has `built` edges in whole steps: as its first vertex, or as an inner one, which is then marked.
fn go_on(
    run: Run,
    row: u16,
    v: u16,
    to: u16,
    built: u16,
    left: &mut [u16; Graph::MAX_VERTICES],
) -> Run
    requires { (v < limits.vertices) × (row < limits.edges) }
    ensures { WentOn left.old run row v to built left.new result }
{
    let first = run.first;
    if first == row {
        return Run {
            first: row,
            start: v,
            at: to,
            fresh: true,
        };
    }
    let mark = left[v as usize];
    left[v as usize] = row + 1;
    Run {
        first,
        start: run.start,
        at: to,
        fresh: stays_fresh(run, v, built, mark),
    }
}

fn stays_fresh(run: Run, v: u16, built: u16, mark: u16) -> bool
    ensures { Tells result (StaysFresh run v built mark) }
{
    let fresh = run.fresh;
    if !fresh {
        return false;
    }
    if built != 0 {
        return false;
    }
    if mark != 0 {
        return false;
    }
    let start = run.start;
    if v == start {
        return false;
    }
    true
}

// 13, or 14 and 15, of a step that is whole, or 0; `from` and `to` are the link marks of its ends.
fn step_number(
    degree: &[u16],
    list: &[u16],
    steps: u16,
    run: Run,
    low: u16,
    high: u16,
    from: u16,
    to: u16,
) -> u16
    requires { Whole limits degree.now list.now steps run low high from to }
    ensures { StepTold limits degree.now list.now steps run low high from to result }
{
    if steps == 0 {
        if opens(run, to) {
            return 0;
        }
        return 13;
    }
    if steps < 3 {
        if parallels(run, low, high) {
            return 0;
        }
        return 13;
    }
    if fits_ear(degree, run) {
        if fits_links(degree, list, run, from, to) {
            return 0;
        }
        return 15;
    }
    14
}

// Step 0 is a path between two different vertices; `mark` is the link mark of the second.
fn opens(run: Run, mark: u16) -> bool
    ensures { Tells result (Opens run mark) }
{
    let fresh = run.fresh;
    if !fresh {
        return false;
    }
    if mark != 0 {
        return false;
    }
    let at = run.at;
    let start = run.start;
    if at == start {
        return false;
    }
    true
}

// Steps 1 and 2 are paths beside those before, in either direction.
fn parallels(run: Run, low: u16, high: u16) -> bool
    ensures { Tells result (Parallels run low high) }
{
    let fresh = run.fresh;
    if !fresh {
        return false;
    }
    let start = run.start;
    let at = run.at;
    if start == low {
        if at == high {
            return true;
        }
    }
    if start != high {
        return false;
    }
    at == low
}

// 14: the ends are built, the inner vertices are new and differ, and the step is closed only at a branch.
fn fits_ear(degree: &[u16], run: Run) -> bool
    requires { (run.start < length degree.now) × (run.at < length degree.now) }
    ensures { Tells result (FitsEar degree.now run) }
{
    let fresh = run.fresh;
    if !fresh {
        return false;
    }
    let start = run.start;
    let at = run.at;
    let built = degree[start as usize];
    if built == 0 {
        return false;
    }
    if degree[at as usize] == 0 {
        return false;
    }
    if start != at {
        return true;
    }
    3 <= built
}

// 15: an end is a branch, or the ends lie inside different links.
fn fits_links(degree: &[u16], list: &[u16], run: Run, from: u16, to: u16) -> bool
    requires { Reads limits degree.now list.now run from to }
    ensures { Tells result (FitsLinks degree.now list.now run from to) }
{
    let start = run.start;
    if 3 <= degree[start as usize] {
        return true;
    }
    let at = run.at;
    if 3 <= degree[at as usize] {
        return true;
    }
    if from < to {
        return apart(degree, list, from - 1, to - 1);
    }
    apart(degree, list, to - 1, from - 1)
}

// The rows `i` and `j` are of different steps, or a branch stands there or between.
fn apart(degree: &[u16], list: &[u16], i: u16, j: u16) -> bool
    requires { (i ≤ j) × RowsFit limits degree.now list.now (j + 1) }
    ensures { Tells result (Joined degree.now list.now i j → ⊥) }
{
    if list[3 * (i as usize)] != list[3 * (j as usize)] {
        return true;
    }
    for k in i as usize..=j as usize {
        let v = list[3 * k + 2];
        if 3 <= degree[v as usize] {
            return true;
        }
    }
    false
}

// The edges of the rows from `first` on and below `end` count as built.
fn add_rows(
    degree: &mut [u16; Graph::MAX_VERTICES],
    ends: &[u16],
    list: &[u16],
    first: u16,
    end: u16,
)
    requires { RowsReady limits degree.old ends.now list.now first end }
    ensures { RowsAdded degree.old degree.new ends.now list.now first end }
{
    for k in first as usize..end as usize {
        add_edge(degree, ends, list[3 * k + 1]);
    }
}

fn add_edge(degree: &mut [u16; Graph::MAX_VERTICES], ends: &[u16], e: u16)
    requires { EdgeReady limits degree.old ends.now e }
    ensures { EdgeAdded degree.old degree.new ends.now e }
{
    let k = 2 * (e as usize);
    let l = ends[k] as usize;
    let r = ends[k + 1] as usize;
    degree[l] = degree[l] + 1;
    degree[r] = degree[r] + 1;
}
