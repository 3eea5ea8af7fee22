// The check of a plan text and a verdict text. The tables of both have room for every text in the form.
#![tactic(auto)]

ghost use Rattle.std.specs.Prelude.{◌≡◌};
ghost use Rattle.connectivity.specs.Plan.{plan, limits};
ghost use Rattle.graph.specs.Admission.{told_by};
ghost use Rattle.text.specs.Column.{five, largest};
ghost use Rattle.text.specs.Plan.{PlanReading};
ghost use Rattle.verify_texts.specs.Texts.{verdict_in, judge_read, judge_texts};
ghost use Rattle.verify_texts.specs.Table.{plan_of};

use graph::{Answer, Graph};

pub mod board; // board.rt: the check as C takes it, for a board's firmware

// The plan is read first, and any refusal there is the answer.
pub fn check_texts(plan: &[u8], verdict: &[u8]) -> Answer
    ensures { result ≡ told_by (judge_texts five largest limits plan.now verdict.now) }
{
    let mut table = [0u16; 2 * Graph::MAX_EDGES + Graph::MAX_VERTICES];
    let read = text_read::read_plan(plan, &mut table);
    match read {
        Err(answer) => answer,
        Ok(graph) => {
            let (ends, excluded) = parts(graph, &table);
            check_verdict(graph.vertices, ends, excluded, verdict)
        }
    }
}

// The ends and, directly behind them, the excluded vertices of the plan in a table that was filled.
pub fn parts(counts: Graph, table: &[u16]) -> (&[u16], &[u16])
    ensures { plan counts.vertices result.0.now result.1.now ≡ plan_of counts table.now }
{
    let (ends, rest) = table.split_at(table.len().min(2 * counts.edges as usize));
    let size = counts.vertices.saturating_sub(counts.kept_vertices) as usize;
    (ends, &rest[..rest.len().min(size)])
}

// The verdict is read, and judged.
fn check_verdict(vertices: u16, ends: &[u16], excluded: &[u16], verdict: &[u8]) -> Answer
    ensures { result ≡ told_by (judge_read limits (PlanReading.read (plan vertices ends.now excluded.now)) (verdict_in five largest limits verdict.now)) }
{
    let mut list = [0u16; 3 * Graph::MAX_EDGES];
    match text_read::read_verdict(verdict, &mut list) {
        Err(answer) => answer,
        Ok(read) => verify::check(vertices, ends, excluded, read.kind, &list[..read.count]),
    }
}
