// A plan text: its header, and every refusal before anything is stored.
ghost use Rattle.std.specs.Prelude.{◌≡◌, ◌&&◌, ◌++◌, ◌+◌, ◌*◌, ◌≤◌, ◌<◌, ltb, leb, length, take, drop};
ghost use Rattle.connectivity.specs.Plan.{plan, limits};
ghost use Rattle.connectivity.specs.Admission.{answer};
ghost use Rattle.graph.specs.Admission.{told_by, handed, constructed};
ghost use Rattle.text.specs.Column.{five, largest, line_size};
ghost use Rattle.text.specs.Plan.{filled, read_answer};
ghost use Rattle.text_read.specs.Header.{HeaderRead, Headed, ends_at, excluded_at, Fitting, if_fits, edge_lines_answer, excluded_lines_answer, lines_answer};

use crate::line;
use graph::{Answer, Graph};
use text::{HEADER, LONGEST, SHORTEST};

// The header of a plan text: its counts, and the place behind it.
#[derive(Clone, Copy)]
pub(crate) struct Header {
    pub vertices: u16,
    pub edges: u16,
    pub excluded: u16,
    pub next: usize,
}

// Reads the header, of two columns or three; none where it is not in the form.
pub(crate) fn read_header(text: &[u8]) -> Option<Header>
    ensures { HeaderRead five largest text.now result }
{
    if let Some(two) = line::first_line(text, 2) {
        return Some(Header {
            vertices: two.first,
            edges: two.second,
            excluded: 0,
            next: HEADER,
        });
    }
    let three = line::first_line(text, 3)?;
    if !third_fits(three.first, three.third) {
        return None;
    }
    Some(Header {
        vertices: three.first,
        edges: three.second,
        excluded: three.third,
        next: LONGEST,
    })
}

// Of a third column, only 1 to the number of vertices is in the form.
fn third_fits(vertices: u16, excluded: u16) -> bool
    ensures { result ≡ (leb 1 excluded && leb excluded vertices) }
{
    1 <= excluded && excluded <= vertices
}

// The first refusal of a text with this header: 2, 3, 6, 7 for the lines, then 4, 5, 18 and 19; else 0.
pub(crate) fn judge(text: &[u8], header: Header, space: usize) -> Answer
    requires { Headed five largest text.now header }
    ensures { result ≡ told_by (read_answer five largest limits text.now space) }
{
    let vertices = header.vertices;
    let edges = header.edges as usize;
    let excluded = header.excluded as usize;
    if vertices < 2 {
        return number_alone(2);
    }
    if Graph::MAX_VERTICES < vertices as usize {
        return number_alone(2);
    }
    if Graph::MAX_EDGES < edges {
        return number_alone(3);
    }
    if space < 2 * edges + excluded {
        return number_alone(6);
    }
    judge_lines(text, header.next, vertices, edges, excluded)
}

fn number_alone(number: u16) -> Answer
    ensures { result ≡ told_by (answer number 0) }
{
    Answer { number, place: 0 }
}

// 7 unless the text from `at` on is a line of two for each edge and a line of one for each excluded vertex, in the form, and nothing follows; then
// the first edge with 4 or 5, the first excluded vertex with 18, and 19; else 0. The length tells whether something is missing or follows, before
// any line is looked at.
fn judge_lines(text: &[u8], at: usize, vertices: u16, edges: usize, excluded: usize) -> Answer
    requires { (at ≤ length text.now) × (edges ≤ limits.edges) × (excluded ≤ vertices) }
    ensures { result ≡ told_by (lines_answer five largest vertices edges excluded (drop at text.now)) }
{
    if text.len() - at != edges * HEADER + excluded * SHORTEST {
        return number_alone(7);
    }
    let fit = judge_edges(text, at, vertices, edges);
    let first = fit.number;
    if first == 7 {
        return fit;
    }
    let rising = judge_excluded(text, at + edges * HEADER, vertices, excluded);
    let second = rising.number;
    if second == 7 {
        return rising;
    }
    if first != 0 {
        return fit;
    }
    if second != 0 {
        return rising;
    }
    if vertices as usize - excluded < 2 {
        return number_alone(19);
    }
    number_alone(0)
}

// 7 unless the lines of the edges from `at` on are in the form; then the first edge with 4 or 5. Of the lines behind it just the form counts.
fn judge_edges(text: &[u8], at: usize, vertices: u16, edges: usize) -> Answer
    requires { (edges ≤ limits.edges) × (at + edges * line_size five 2 ≤ length text.now) }
    ensures { result ≡ told_by (edge_lines_answer five largest vertices 0 edges (drop at text.now)) }
{
    for e in 0..edges {
        let next = at + e * HEADER;
        let Some(line) = line::read_line(text, next, 2) else {
            return number_alone(7);
        };
        let number = graph::judge_edge(vertices, line.first, line.second);
        if number != 0 {
            return if_fits(
                line::lines_begin(text, next + HEADER, 2, edges - e - 1),
                number,
                e,
            );
        }
    }
    number_alone(0)
}

// This refusal, if the lines behind its place are in the form, too; else 7.
fn if_fits(fits: bool, number: u16, place: usize) -> Answer
    requires { place < 65536 }
    ensures { result ≡ told_by (if_fits fits (answer number place)) }
{
    if fits {
        return Answer {
            number,
            place: place as u16,
        };
    }
    number_alone(7)
}

// 7 unless the lines of the excluded vertices from `at` on are in the form; then the first one that is not below `vertices` or not above the one
// before, with 18. Of the lines behind it just the form counts.
fn judge_excluded(text: &[u8], at: usize, vertices: u16, excluded: usize) -> Answer
    requires { (excluded ≤ vertices) × (at + excluded * line_size five 1 ≤ length text.now) }
    ensures { result ≡ told_by (excluded_lines_answer five largest vertices 0 0 excluded (drop at text.now)) }
{
    let mut low: u16 = 0;
    for k in 0..excluded {
        let next = at + k * SHORTEST;
        let Some(line) = line::read_line(text, next, 1) else {
            return number_alone(7);
        };
        let v = line.first;
        if !between(low, v, vertices) {
            return if_fits(
                line::lines_begin(text, next + SHORTEST, 1, excluded - k - 1),
                18,
                k,
            );
        }
        low = v + 1;
    }
    number_alone(0)
}

// v is not below `low` and below `high`.
fn between(low: u16, v: u16, high: u16) -> bool
    ensures { result ≡ (leb low v && ltb v high) }
{
    low <= v && v < high
}

// Fills the table: the ends of each edge, and directly behind them the excluded vertices.
pub(crate) fn store(text: &[u8], header: Header, table: &mut [u16])
    requires { Fitting five largest limits text.now header.next header.vertices header.edges header.excluded × (2 * header.edges + header.excluded ≤ length table.old) }
    ensures { table.new ≡ filled (ends_at five text.now header.next header.edges ++ excluded_at five text.now header.next header.edges header.excluded) table.old }
{
    let edges = header.edges as usize;
    let excluded = header.excluded as usize;
    let next = header.next;
    line::store_lines(text, next, 2, edges, table, 0);
    line::store_lines(text, next + edges * HEADER, 1, excluded, table, 2 * edges);
}

// The plan in a filled table, with its counts.
pub(crate) fn counted(header: Header, table: &[u16]) -> Result<Graph, Answer>
    requires { 2 * header.edges + header.excluded ≤ length table.now }
    ensures { handed result ≡ constructed limits (plan header.vertices (take (2 * header.edges) table.now) (take header.excluded (drop (2 * header.edges) table.now))) }
{
    let size = 2 * header.edges as usize;
    let end = size + header.excluded as usize;
    Graph::new(header.vertices, &table[..size], &table[size..end])
}
