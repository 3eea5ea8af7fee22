// Every refusal of a drawn list with a header in the form, before anything is stored.
ghost use Rattle.std.specs.Prelude.{◌≡◌, cond, ◌+◌, ◌*◌, ◌≤◌, ◌<◌, length, drop};
ghost use Rattle.connectivity.specs.Plan.{limits};
ghost use Rattle.connectivity.specs.Admission.{answer};
ghost use Rattle.graph.specs.Admission.{told_by};
ghost use Rattle.drawn.specs.Text.{form, edge_size, header_size, edges_fit, read_answer};
ghost use Rattle.drawn.specs.Line.{Headed, lines_answer};

use crate::line;
use crate::line::{HEADER, Header, LINE};
use graph::{Answer, Graph};

// The first refusal of a text with this header: 21, 2, 3, 6, 20 for the lines, then 4 and 5; else 0. `ends` and `numbers` are how many numbers are
// lent for each.
pub(crate) fn judge(text: &[u8], header: Header, ends: usize, numbers: usize) -> Answer
    requires { Headed form text.now header }
    ensures { result ≡ told_by (read_answer form limits text.now ends numbers) }
{
    let vertices = header.vertices;
    let edges = header.edges as usize;
    if header.least == 0 {
        return number_alone(21);
    }
    if vertices < 2 {
        return number_alone(2);
    }
    if Graph::MAX_VERTICES < vertices as usize {
        return number_alone(2);
    }
    if Graph::MAX_EDGES < edges {
        return number_alone(3);
    }
    if ends < 2 * edges {
        return number_alone(6);
    }
    if numbers < edges {
        return number_alone(6);
    }
    judge_lines(text, vertices, edges)
}

pub(crate) fn number_alone(number: u16) -> Answer
    ensures { result ≡ told_by (answer number 0) }
{
    Answer { number, place: 0 }
}

// 20 unless a line in the form for each drawn tab follows the header, and nothing else; then the first drawn tab with 4 or 5; else 0. The length
// tells whether something is missing or follows, before any line is looked at.
fn judge_lines(text: &[u8], vertices: u16, edges: usize) -> Answer
    requires { (header_size form ≤ length text.now) × (edges ≤ limits.edges) }
    ensures { result ≡ told_by (lines_answer form vertices 0 edges (drop (header_size form) text.now)) }
{
    if text.len() - HEADER != edges * LINE {
        return number_alone(20);
    }
    judge_edges(text, vertices, edges)
}

// The same of a text of this length. Of the lines behind a tab with 4 or 5 just the form counts.
fn judge_edges(text: &[u8], vertices: u16, edges: usize) -> Answer
    requires { (header_size form + edges * edge_size form ≡ length text.now) × (edges ≤ limits.edges) }
    ensures { result ≡ told_by (lines_answer form vertices 0 edges (drop (header_size form) text.now)) }
{
    for e in 0..edges {
        let next = HEADER + e * LINE;
        let Some(edge) = line::read_edge(text, next) else {
            return number_alone(20);
        };
        let number = graph::judge_edge(vertices, edge.left, edge.right);
        if number != 0 {
            return if_fits(lines_fit(text, next + LINE, edges - e - 1), number, e);
        }
    }
    number_alone(0)
}

// This refusal, if the lines behind its place are in the form, too; else 20.
fn if_fits(fits: bool, number: u16, place: usize) -> Answer
    requires { place < 65536 }
    ensures { result ≡ told_by (cond fits (answer number place) (answer 20 0)) }
{
    if fits {
        return Answer {
            number,
            place: place as u16,
        };
    }
    number_alone(20)
}

// From `at` to its end the text is the lines of so many drawn tabs, in the form.
fn lines_fit(text: &[u8], at: usize, edges: usize) -> bool
    requires { at + edges * edge_size form ≡ length text.now }
    ensures { result ≡ edges_fit form edges (drop at text.now) }
{
    for e in 0..edges {
        if line::read_edge(text, at + e * LINE).is_none() {
            return false;
        }
    }
    true
}
