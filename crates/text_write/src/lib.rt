// Plan text and verdict text (01, "Columns") written, lines of a list, and an answer's line. A refusal leaves what is lent unchanged.
#![tactic(auto)]

mod line;

ghost use Rattle.std.specs.Prelude.{◌≡◌, cond, eqb};
ghost use Rattle.connectivity.specs.Plan.{plan, limits};
ghost use Rattle.connectivity.specs.Admission.{Admitted};
ghost use Rattle.text.specs.Column.{five};
ghost use Rattle.text.specs.Verdict.{count_of, has_text};
ghost use Rattle.text_write.specs.Entry.{WritesPlan, WritesVerdict, WritesLines, answer_text};

use graph::{Answer, Graph};
use text::{ANSWER_SIZE, HEADER, SHORTEST, WIDTH};

// Writes the text of a plan: the plan's own 1 to 5, 18 and 19, then 6.
pub fn write_plan(
    vertices: u16,
    ends: &[u16],
    excluded: &[u16],
    text: &mut [u8],
) -> Result<usize, Answer>
    ensures { WritesPlan five limits (plan vertices ends.now excluded.now) text.old text.new result }
{
    Graph::new(vertices, ends, excluded)?;
    write_admitted(vertices, ends, excluded, text)
}

// The same of an admitted plan.
fn write_admitted(
    vertices: u16,
    ends: &[u16],
    excluded: &[u16],
    text: &mut [u8],
) -> Result<usize, Answer>
    requires { Admitted limits (plan vertices ends.now excluded.now) }
    ensures { WritesPlan five limits (plan vertices ends.now excluded.now) text.old text.new result }
{
    let edges = ends.len() / 2;
    let columns = header_columns(excluded.len());
    let next = columns * WIDTH + 1 + edges * HEADER; // where the lines of the excluded vertices begin
    let size = next + excluded.len() * SHORTEST;
    if text.len() < size {
        return refused_writing(6);
    }
    let header = [vertices, edges as u16, excluded.len() as u16];
    line::write_text(&header, columns, ends, 2, edges, text);
    line::write_lines(excluded, 1, excluded.len(), text, next);
    Ok(size)
}

// How many columns the header has: a third where there are excluded vertices.
fn header_columns(excluded: usize) -> usize
    ensures { result ≡ cond (eqb excluded 0) 2 3 }
{
    if excluded == 0 { 2 } else { 3 }
}

fn refused_writing(number: u16) -> Result<usize, Answer>
    ensures { result ≡ Err (record { number = number; place = 0 }) }
{
    Err(Answer { number, place: 0 })
}

// Writes the text of a verdict: 8 where it has no text form, then 6.
pub fn write_verdict(kind: u16, list: &[u16], text: &mut [u8]) -> Result<usize, Answer>
    ensures { WritesVerdict five limits kind list.now text.old text.new result }
{
    if !has_text(kind, list) {
        return refused_writing(8);
    }
    let count = count_of(kind, list);
    let columns = text::per_line(kind);
    let lines = text::lines_of(kind, count);
    let size = HEADER + lines * (columns * WIDTH + 1);
    if text.len() < size {
        return refused_writing(6);
    }
    let header = [kind, count as u16];
    line::write_text(&header, 2, list, columns, lines, text);
    Ok(size)
}

// The verdict has a text form.
fn has_text(kind: u16, list: &[u16]) -> bool
    ensures { result ≡ has_text limits kind list.now }
{
    let count = count_of(kind, list);
    if !text::count_fits(kind, count) {
        return false;
    }
    list.len() == text::numbers_needed(kind, count as u16)
}

// The count that stands in the header.
fn count_of(kind: u16, list: &[u16]) -> usize
    ensures { result ≡ count_of kind list.now }
{
    if kind == 2 {
        if list.len() == 0 {
            return 0;
        }
        return list[0] as usize;
    }
    if kind == 0 {
        return list.len() / 3;
    }
    list.len()
}

// Writes as many lines of `columns` numbers each as the list has whole ones: 8 unless there are one to three columns, then 6.
pub fn write_lines(columns: usize, list: &[u16], text: &mut [u8]) -> Result<usize, Answer>
    ensures { WritesLines five columns list.now text.old text.new result }
{
    if columns < 1 {
        return refused_writing(8);
    }
    if 3 < columns {
        return refused_writing(8);
    }
    let lines = list.len() / columns;
    let size = columns * WIDTH + 1;
    // by division: lines * size could be too large for the type
    if text.len() / size < lines {
        return refused_writing(6);
    }
    line::write_lines(list, columns, lines, text, 0);
    Ok(lines * size)
}

// The line of an answer: number and place in two columns.
pub fn answer_line(answer: Answer) -> [u8; ANSWER_SIZE]
    ensures { result ≡ answer_text five answer }
{
    let mut text = [0u8; ANSWER_SIZE];
    let header = [answer.number, answer.place];
    let none = [0u16; 0];
    line::write_text(&header, 2, &none, 1, 0, &mut text);
    text
}
