// The second implementation's check of a verdict. Of the steps that have passed it keeps their edges and the ends of the last alone.
use crate::plan::{Plan, Row, rows_of};
use crate::second::Graph;
use crate::set::Set;
use crate::verdict::{Claim, Kind, Refusal, Rule};
use std::alloc::{AllocError, Global};

// The answer to a verdict.
pub fn check(
    alloc: Global,
    plan: Plan<'_>,
    claim: Claim<'_>,
) -> Result<Result<(), Refusal>, AllocError> {
    let rows = rows_of(alloc, claim.list)?;
    Ok(answer(plan, claim, &rows))
}

fn answer(plan: Plan<'_>, claim: Claim<'_>, rows: &[Row]) -> Result<(), Refusal> {
    let graph = Graph::admitted(plan)?;
    match claim.kind {
        Kind::Firm => check_firm(graph, claim.list.len(), rows),
        Kind::Weak => check_weak(graph, claim.list),
        Kind::Unknown => Err(Rule::Form.at(0)),
    }
}

fn check_weak(graph: Graph<'_>, list: &[u16]) -> Result<(), Refusal> {
    if graph.is_parted(cut_of(graph.edges, list)?) {
        Ok(())
    } else {
        Err(Rule::NotParted.at(0))
    }
}

// Up to two of these edges, the second above the first.
fn cut_of(edges: Set, list: &[u16]) -> Result<Set, Refusal> {
    match list {
        [] => Ok(Set::EMPTY),
        [_, _, _, ..] => Err(Rule::Form.at(0)),
        &[first, ..] if !edges.has(first) => Err(Rule::Edge.at(0)),
        &[first] => Ok(Set::of(first)),
        &[first, second] if first < second && edges.has(second) => Ok(Set::of(first).with(second)),
        [_, _] => Err(Rule::Edge.at(1)),
    }
}

// What the steps so far have built: their edges, the number of steps and of rows, and the start and the end of the last.
#[derive(Clone, Copy, Default)]
struct Built {
    edges: Set,
    steps: u16,
    rows: u16,
    tips: Option<Set>,
}

// A step, the rows of one walk: its start, its end, the edges, the vertices between and how many edges there are.
#[derive(Clone, Copy, Default)]
struct Step {
    start: Set,
    stop: Set,
    inner: Set,
    edges: Set,
    length: u16,
}

// A record of so many numbers.
fn check_firm(graph: Graph<'_>, length: usize, rows: &[Row]) -> Result<(), Refusal> {
    if length != 3 * graph.edges.count() {
        return Err(Rule::Form.at(0));
    }
    let mut built = Built::default();
    for walk in rows.chunk_by(|row, next| row.step == next.step) {
        built = more(graph, built, walk)?;
    }
    // three steps or more, and three edges or more at each vertex
    if built.steps >= 3 && graph.of_degree(graph.edges, 3) == graph.kept {
        Ok(())
    } else {
        Err(Rule::Closing.at(0))
    }
}

// What is built with one step more.
fn more(graph: Graph<'_>, built: Built, walk: &[Row]) -> Result<Built, Refusal> {
    let step = walked(graph, built, walk)?;
    let tips = step.start.or(step.stop);
    let rows = built.rows.saturating_add(step.length);
    match fault(graph, built, step, tips) {
        Some(rule) => Err(rule.at(rows.saturating_sub(1))),
        None => Ok(Built {
            edges: built.edges.or(step.edges),
            steps: built.steps.saturating_add(1),
            rows,
            tips: Some(tips),
        }),
    }
}

// The rows of a step, each with an edge that is kept and new, from one of its ends: where the row before led.
fn walked(graph: Graph<'_>, built: Built, walk: &[Row]) -> Result<Step, Refusal> {
    let mut step = Step::default();
    for row in walk {
        let place = built.rows.saturating_add(step.length);
        if row.step != built.steps {
            return Err(Rule::Step.at(place));
        }
        if !graph.edges.has(row.edge) || built.edges.or(step.edges).has(row.edge) {
            return Err(Rule::Edge.at(place));
        }
        step = step
            .led(graph.ends_of(row.edge), *row)
            .ok_or(Rule::Walk.at(place))?;
    }
    Ok(step)
}

impl Step {
    // The step with one row more, over an edge with these ends.
    fn led(self, ends: Set, row: Row) -> Option<Step> {
        let from = Set::of(row.from);
        let is_first = self.length == 0;
        if !ends.meets(from) || !is_first && self.stop != from {
            return None;
        }
        Some(Step {
            start: if is_first { from } else { self.start },
            stop: ends.without(from),
            inner: if is_first {
                self.inner
            } else {
                self.inner.or(from)
            },
            edges: self.edges.with(row.edge),
            length: self.length.saturating_add(1),
        })
    }

    // The inner vertices are no ends of the step, not built and all different.
    fn is_new(self, tips: Set, built: Set) -> bool {
        self.inner.count() + 1 == usize::from(self.length) && !self.inner.meets(tips.or(built))
    }
}

// What is wrong with a step: one of the first three is a path between two vertices, the same as those of the step before; the others are walks
// between built vertices.
fn fault(graph: Graph<'_>, built: Built, step: Step, tips: Set) -> Option<Rule> {
    let vertices = graph.of_degree(built.edges, 1);
    let is_new = step.is_new(tips, vertices);
    if built.steps < 3 {
        let is_path = is_new && tips.count() == 2 && built.tips.is_none_or(|others| others == tips);
        if is_path { None } else { Some(Rule::Path) }
    } else if is_new && tips.without(vertices) == Set::EMPTY {
        ear_fault(graph, built.edges, step)
    } else {
        Some(Rule::Ear)
    }
}

// A walk leads back to its start only at a branch. If neither end is a branch, they lie inside different links: no built edges lead from one to
// the other past no branch.
fn ear_fault(graph: Graph<'_>, built: Set, step: Step) -> Option<Rule> {
    let branches = graph.of_degree(built, 3);
    if step.start.or(step.stop).meets(branches) {
        None
    } else if step.start == step.stop {
        Some(Rule::Ear)
    } else if graph.reached(built, branches, step.start).meets(step.stop) {
        Some(Rule::SameLink)
    } else {
        None
    }
}
