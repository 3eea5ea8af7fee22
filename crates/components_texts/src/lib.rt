// The groups of a plan text.
#![tactic(auto)]

ghost use Rattle.std.specs.Prelude.{◌≡◌, [], ◌∷◌, ◌+◌, ◌*◌, ◌≤◌, length};
ghost use Rattle.std.proofs.lemmas.List.Edits.{sets};
ghost use Rattle.connectivity.specs.Lists.{range, keep};
ghost use Rattle.connectivity.specs.Plan.{plan, graph, limits};
ghost use Rattle.connectivity.specs.Admission.{Admitted};
ghost use Rattle.graph.specs.Excluded.{is_open};
ghost use Rattle.text.specs.Column.{five, largest};
ghost use Rattle.text_write.specs.Entry.{WritesLines};
ghost use Rattle.components_texts.specs.Groups.{WritesGroups};
ghost use Rattle.components_texts.specs.Pairs.{group_pairs, pair_unless, others, Paired};

use graph::{Answer, Graph};

pub mod export; // export.rt: the groups as C takes them

// Writes a line for each piece that a plan text keeps, piece and group; of a refused plan its number alone. 6 where `bytes` is shorter than that.
pub fn groups_text(plan: &[u8], bytes: &mut [u8]) -> Result<usize, Answer>
    ensures { WritesGroups five largest limits plan.now bytes.old bytes.new result }
{
    let mut table = [0u16; 2 * Graph::MAX_EDGES + Graph::MAX_VERTICES];
    let read = text_read::read_plan(plan, &mut table);
    match read {
        Err(answer) => write_number(answer.number, bytes),
        Ok(graph) => {
            let (ends, excluded) = verify_texts::parts(graph, &table);
            write_admitted(graph.vertices, ends, excluded, bytes)
        }
    }
}

fn write_number(number: u16, bytes: &mut [u8]) -> Result<usize, Answer>
    ensures { WritesLines five 1 (number ∷ []) bytes.old bytes.new result }
{
    let list = [number];
    text_write::write_lines(1, &list, bytes)
}

// The lines of an admitted plan.
fn write_admitted(
    vertices: u16,
    ends: &[u16],
    excluded: &[u16],
    bytes: &mut [u8],
) -> Result<usize, Answer>
    requires { Admitted limits (plan vertices ends.now excluded.now) }
    ensures { WritesLines five 2 (group_pairs (graph (plan vertices ends.now excluded.now))) bytes.old bytes.new result }
{
    let mut table = [0u16; Graph::MAX_VERTICES];
    components::find(vertices, ends, excluded, &mut table);
    let mut list = [0u16; 2 * Graph::MAX_VERTICES];
    let size = pair(vertices, excluded, &table, &mut list);
    text_write::write_lines(2, &list[..size], bytes)
}

// Each vertex that is not excluded and its number in the table, one pair after the other; how many numbers that makes.
fn pair(vertices: u16, excluded: &[u16], table: &[u16], list: &mut [u16]) -> usize
    requires { (vertices ≤ limits.vertices) × (vertices ≤ length table.now) × (2 * vertices ≤ length list.old) }
    ensures { Paired table.now (others vertices excluded.now) list.old list.new result }
{
    let mut marks = [0u8; Graph::MAX_VERTICES];
    graph::excluded::mark(excluded, &mut marks);
    pair_open(vertices, &marks, table, list)
}

// The same of each vertex that has no mark.
fn pair_open(vertices: u16, marks: &[u8], table: &[u16], list: &mut [u16]) -> usize
    requires { (vertices ≤ length marks.now) × (vertices ≤ length table.now) × (2 * vertices ≤ length list.old) }
    ensures { Paired table.now (keep (is_open marks.now) (range 0 vertices)) list.old list.new result }
{
    let mut at = 0;
    for v in 0..vertices {
        at = put(v, marks[v as usize], table[v as usize], list, at);
    }
    at
}

// One pair, unless there is a mark; and the place behind it.
#[tactic(auto, unfolding(crate::specs::Pairs::pair_unless))]
fn put(v: u16, mark: u8, group: u16, list: &mut [u16], at: usize) -> usize
    requires { at + 2 ≤ length list.old }
    ensures { (result ≡ at + length (pair_unless mark v group)) × (list.new ≡ sets list.old at (pair_unless mark v group)) }
{
    if mark != 0 {
        return at;
    }
    list[at] = v;
    list[at + 1] = group;
    at + 2
}
