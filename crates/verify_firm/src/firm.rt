// The check of a firm verdict: its rows in turn, then every vertex a branch. Vertices and edges are those that the plan keeps (02).
ghost use Rattle.std.specs.Prelude.{◌≡◌, [], ◌*◌, ◌≤◌, ◌<◌, length};
ghost use Rattle.connectivity.specs.Plan.{plan, graph, limits};
ghost use Rattle.connectivity.specs.Judge.{rows_of, judge_rows, judge_firm};
ghost use Rattle.graph.specs.Admission.{told_by};
ghost use Rattle.graph.specs.Marks.{rank};
ghost use Rattle.graph.specs.Tells.{Tells};
ghost use Rattle.graph.proofs.Lent.{Made};
ghost use Rattle.verify_firm.specs.Marks.{Closed, is_forked, last_at};

use crate::answer;
use crate::state::State;
use graph::{Answer, Graph};

// 9 unless the list has three numbers for each edge; then the rows.
pub(crate) fn firm_admitted(counts: Graph, ends: &[u16], excluded: &[u16], list: &[u16]) -> Answer
    requires { Made limits (plan counts.vertices ends.now excluded.now) counts }
    ensures { result ≡ told_by (judge_firm (graph (plan counts.vertices ends.now excluded.now)) list.now) }
{
    let edges = counts.kept_edges;
    if list.len() != 3 * (edges as usize) {
        return answer(9, 0);
    }
    judge_rows(counts, ends, excluded, list)
}

// The first row's rejection, with its place; or 16; or 0. The edges that are not kept begin as used ones, so that a row that names one is
// rejected by 11.
fn judge_rows(counts: Graph, ends: &[u16], excluded: &[u16], list: &[u16]) -> Answer
    requires { Made limits (plan counts.vertices ends.now excluded.now) counts × (length list.now ≡ 3 * counts.kept_edges) }
    ensures { result ≡ told_by (judge_rows (graph (plan counts.vertices ends.now excluded.now)) [] [] 0 (rows_of list.now)) }
{
    let mut used = [0u8; Graph::MAX_EDGES];
    graph::excluded::mask(ends, excluded, &mut used);
    let edges = counts.kept_edges;
    let mut state = State::new();
    for row in 0..edges {
        let last = is_last(list, row, edges);
        let taken = state.step(ends, &mut used, list, row, last);
        let found = taken.answer;
        let number = found.number;
        if number != 0 {
            return found;
        }
        state = taken.state;
    }
    let steps = state.steps;
    if closed(&state.degree, counts.vertices, counts.kept_vertices, steps) {
        return answer(0, 0);
    }
    answer(16, 0)
}

// No row follows, or one with another step number.
fn is_last(list: &[u16], row: u16, edges: u16) -> bool
    requires { (row < edges) × (length list.now ≡ 3 * edges) }
    ensures { result ≡ last_at list.now row }
{
    if row + 1 == edges {
        return true;
    }
    let k = 3 * (row as usize);
    list[k] != list[k + 3]
}

// 16: three steps or more, and every vertex a branch. No edge that counts as built ends at a vertex that is not kept, so there are then as
// many branches as vertices that are.
fn closed(degree: &[u16], vertices: u16, kept: u16, steps: u16) -> bool
    requires { vertices ≤ length degree.now }
    ensures { Tells result (Closed degree.now vertices kept steps) }
{
    if steps < 3 {
        return false;
    }
    branches(degree, vertices) == kept
}

// How many branches there are. The loop has no way out, so that several vertices are judged at once.
fn branches(degree: &[u16], vertices: u16) -> u16
    requires { vertices ≤ length degree.now }
    ensures { result ≡ rank (is_forked degree.now) vertices }
{
    let mut count: u16 = 0;
    for &built in &degree[..vertices as usize] {
        count += u16::from(3 <= built);
    }
    count
}
