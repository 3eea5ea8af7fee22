// Plan text and verdict text (01, "Columns") read. A refusal leaves what is lent unchanged.
#![tactic(auto)]

pub mod column; // column.rt: a number in its column
mod line;
mod plan;
pub mod reader; // reader.rt: the cursor by which every line is taken

ghost use Rattle.std.specs.Prelude.{◌≡◌};
ghost use Rattle.connectivity.specs.Plan.{limits};
ghost use Rattle.text.specs.Column.{five, largest};
ghost use Rattle.text_read.specs.Entry.{ReadsPlan, ReadsVerdict};

use graph::{Answer, Graph};
use text::HEADER;

#[derive(Clone, Copy)]
pub struct VerdictRead {
    pub kind: u16,
    pub count: usize,
}

// Reads a plan text into `table`, the ends and directly behind them the excluded vertices: 7 for the header, 2, 3, 6, 7 for the lines, then the
// first edge with 4 or 5, 18 and 19.
pub fn read_plan(text: &[u8], table: &mut [u16]) -> Result<Graph, Answer>
    ensures { ReadsPlan five largest limits text.now table.old table.new result }
{
    let Some(header) = plan::read_header(text) else {
        return Err(Answer {
            number: 7,
            place: 0,
        });
    };
    let answer = plan::judge(text, header, table.len());
    let number = answer.number;
    if number != 0 {
        return Err(answer);
    }
    plan::store(text, header, table);
    plan::counted(header, table)
}

// Reads a verdict text into `list`: 8 for the header, 6, then 8 for the lines.
pub fn read_verdict(text: &[u8], list: &mut [u16]) -> Result<VerdictRead, Answer>
    ensures { ReadsVerdict five largest limits text.now list.old list.new result }
{
    let Some(header) = line::first_line(text, 2) else {
        return refused_verdict(8);
    };
    let kind = header.first;
    let count = header.second as usize;
    if !text::count_fits(kind, count) {
        return refused_verdict(8);
    }
    let size = text::numbers_needed(kind, header.second);
    if list.len() < size {
        return refused_verdict(6);
    }
    let columns = text::per_line(kind);
    if !line::lines_fit(text, HEADER, columns, text::lines_of(kind, count)) {
        return refused_verdict(8);
    }
    if kind == 2 {
        list[0] = header.second;
        return Ok(VerdictRead { kind, count: 1 });
    }
    line::store_lines(text, HEADER, columns, count, list, 0);
    Ok(VerdictRead { kind, count: size })
}

fn refused_verdict(number: u16) -> Result<VerdictRead, Answer>
    ensures { result ≡ Err (record { number = number; place = 0 }) }
{
    Err(Answer { number, place: 0 })
}
