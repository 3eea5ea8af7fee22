// The writer on texts: the verdict text of a plan text.
#![tactic(auto)]

ghost use Rattle.std.specs.Prelude.{◌≡◌, [], ◌∷◌, ◌≤◌};
ghost use Rattle.connectivity.specs.Plan.{plan, limits};
ghost use Rattle.connectivity.specs.Admission.{kept_edges, Admitted};
ghost use Rattle.text.specs.Column.{five, largest};
ghost use Rattle.text_write.specs.Entry.{WritesVerdict};
ghost use Rattle.certify.specs.Answered.{named};
ghost use Rattle.certify_texts.specs.Says.{WritesFor, WritesOf};

use certify::Finding;
use cuts::lowest::Lowest;
use graph::{Answer, Graph};

pub mod export; // export.rt: the writer as C takes it

// Writes the verdict text of a plan text; kind 2 with the number of its refusal where it is refused. 6 where `bytes` is shorter than that.
pub fn verdict_text(plan: &[u8], bytes: &mut [u8]) -> Result<usize, Answer>
    ensures { WritesFor five largest limits plan.now bytes.old bytes.new result }
{
    let mut table = [0u16; 2 * Graph::MAX_EDGES + Graph::MAX_VERTICES];
    let read = text_read::read_plan(plan, &mut table);
    match read {
        Err(answer) => write_refusal(answer.number, bytes),
        Ok(graph) => {
            let (ends, excluded) = verify_texts::parts(graph, &table);
            write_admitted(graph.vertices, ends, excluded, graph.kept_edges, bytes)
        }
    }
}

fn write_refusal(number: u16, bytes: &mut [u8]) -> Result<usize, Answer>
    ensures { WritesVerdict five limits 2 (number ∷ []) bytes.old bytes.new result }
{
    let list = [number];
    text_write::write_verdict(2, &list, bytes)
}

// The verdict text of an admitted plan, of which `kept` edges are kept.
fn write_admitted(
    vertices: u16,
    ends: &[u16],
    excluded: &[u16],
    kept: u16,
    bytes: &mut [u8],
) -> Result<usize, Answer>
    requires { Admitted limits (plan vertices ends.now excluded.now) × (kept ≡ kept_edges (plan vertices ends.now excluded.now)) }
    ensures { WritesOf five limits (plan vertices ends.now excluded.now) bytes.old bytes.new result }
{
    let mut rows = [0u16; 3 * Graph::MAX_EDGES];
    let found = certify::verdict(vertices, ends, excluded, &mut rows);
    match found {
        Err(answer) => write_refusal(answer.number, bytes),
        Ok(Finding::Weak { cut, .. }) => write_weak(cut, bytes),
        Ok(Finding::Firm) => {
            let size = 3 * kept as usize;
            text_write::write_verdict(0, &rows[..size], bytes)
        }
    }
}

fn write_weak(cut: Lowest, bytes: &mut [u8]) -> Result<usize, Answer>
    requires { cut.count ≤ 2 }
    ensures { WritesVerdict five limits 1 (named cut) bytes.old bytes.new result }
{
    let list = [cut.first, cut.second];
    let count = cut.count as usize;
    text_write::write_verdict(1, &list[..count], bytes)
}
