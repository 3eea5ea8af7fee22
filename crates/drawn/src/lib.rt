// Drawn lists (02, note 5): read, judged, and the drawn tabs taken that are wide enough. A refusal leaves both tables unchanged.
#![tactic(auto)]

mod judge;
mod length;
mod line;
mod take;

ghost use Rattle.std.specs.Prelude.{◌≡◌, [], ◌*◌, ◌≤◌, length, take};
ghost use Rattle.connectivity.specs.Plan.{entire, limits};
ghost use Rattle.graph.specs.Admission.{handed, constructed};
ghost use Rattle.drawn.specs.Text.{form};
ghost use Rattle.drawn.specs.Entry.{ReadsDrawn};

use graph::{Answer, Graph};

// The bytes of the longest drawn list in the form.
pub const DRAWN_SIZE: usize = line::HEADER + Graph::MAX_EDGES * line::LINE;

// Reads a drawn list: the ends of the tabs that are taken into `ends`, their drawn numbers into `numbers`. The header's 20, 21, 2, 3, 6, the lines' 20,
// then the first drawn tab with 4 or 5.
pub fn read_drawn(text: &[u8], ends: &mut [u16], numbers: &mut [u16]) -> Result<Graph, Answer>
    ensures { ReadsDrawn form limits text.now ends.old numbers.old ends.new numbers.new result }
{
    let Some(header) = line::read_header(text) else {
        return Err(judge::number_alone(20));
    };
    let answer = judge::judge(text, header, ends.len(), numbers.len());
    let number = answer.number;
    if number != 0 {
        return Err(answer);
    }
    let count = take::store(
        text,
        header.edges as usize,
        header.least + header.kerf,
        ends,
        numbers,
    );
    counted(header.vertices, ends, count)
}

// The plan of so many tabs in a filled table, with its counts.
fn counted(vertices: u16, ends: &[u16], count: usize) -> Result<Graph, Answer>
    requires { (2 * count ≤ length ends.now) × (count ≤ limits.edges) }
    ensures { handed result ≡ constructed limits (entire vertices (take (2 * count) ends.now)) }
{
    let size = 2 * count;
    let none = [0u16; 0];
    Graph::new(vertices, &ends[..size], &none)
}
