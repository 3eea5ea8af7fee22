// Lines of numbers in columns, taken by the reader: judged with their numbers in one look, and stored in another.
ghost use Rattle.std.specs.Prelude.{◌≡◌, true, false, ◌+◌, ◌*◌, ◌≤◌, ◌<◌, length, drop};
ghost use Rattle.std.proofs.lemmas.List.Edits.{sets};
ghost use Rattle.text.specs.Column.{five, largest, line_size, line_fits, numbers, lines_begin, lines_fit, lines_numbers};
ghost use Rattle.text_read.specs.Line.{LineRead};

use crate::column::{number, read_column};
use crate::reader::take_line;
use text::WIDTH;

// The numbers of a line; those of columns that it does not have are 0.
#[derive(Drop)]
pub(crate) struct Line {
    pub first: u16,
    pub second: u16,
    pub third: u16,
}

// Reads the first line of a text, of `columns` numbers; none where it is not in the form.
pub(crate) fn first_line(text: &[u8], columns: usize) -> Option<Line>
    requires { (1 ≤ columns) × (columns ≤ 3) }
    ensures { LineRead five largest columns text.now result }
{
    if text.len() < columns * WIDTH + 1 {
        return None;
    }
    read_line(text, 0, columns)
}

// Reads the line of `columns` numbers that begins at `at`; none where it is not in the form.
pub(crate) fn read_line(text: &[u8], at: usize, columns: usize) -> Option<Line>
    requires { (at + line_size five columns ≤ length text.now) × (1 ≤ columns) × (columns ≤ 3) }
    ensures { LineRead five largest columns (drop at text.now) result }
{
    read_columns(take_line(text, at, columns * WIDTH + 1), columns)
}

// Reads the columns of a line, behind which a line feed stands.
fn read_columns(line: &[u8], columns: usize) -> Option<Line>
    requires { (1 ≤ columns) × (columns ≤ 3) × (length line.now ≡ line_size five columns) }
    ensures { LineRead five largest columns line.now result }
{
    if line[columns * WIDTH] != 10 {
        return None;
    }
    let first = read_column(line, 0)?;
    if columns < 2 {
        return Some(Line {
            first,
            second: 0,
            third: 0,
        });
    }
    let second = read_column(line, WIDTH)?;
    if columns < 3 {
        return Some(Line {
            first,
            second,
            third: 0,
        });
    }
    let third = read_column(line, 2 * WIDTH)?;
    Some(Line {
        first,
        second,
        third,
    })
}

// From `at` on the text begins with `count` lines of `columns` numbers each, in the form. It is long enough for them.
pub(crate) fn lines_begin(text: &[u8], at: usize, columns: usize, count: usize) -> bool
    requires { (at + count * line_size five columns ≤ length text.now) × (1 ≤ columns) × (columns ≤ 3) }
    ensures { result ≡ lines_begin five largest columns count (drop at text.now) }
{
    let size = columns * WIDTH + 1;
    for k in 0..count {
        if read_line(text, at + k * size, columns).is_none() {
            return false;
        }
    }
    true
}

// From `at` on the text is `count` lines of `columns` numbers each, in the form, and nothing follows.
pub(crate) fn lines_fit(text: &[u8], at: usize, columns: usize, count: usize) -> bool
    requires { (at ≤ length text.now) × (1 ≤ columns) × (columns ≤ 3) × (count < 65536) }
    ensures { result ≡ lines_fit five largest columns count (drop at text.now) }
{
    if text.len() - at != count * (columns * WIDTH + 1) {
        return false;
    }
    lines_begin(text, at, columns, count)
}

// Stores the numbers of the line that begins at `at` from `to` on.
fn store_line(text: &[u8], at: usize, columns: usize, list: &mut [u16], to: usize)
    requires { (at ≤ length text.now) × (columns ≤ 3) × (to + columns ≤ length list.old) × (line_fits five largest columns (drop at text.now) ≡ true) }
    ensures { list.new ≡ sets list.old to (numbers five columns (drop at text.now)) }
{
    store_columns(take_line(text, at, columns * WIDTH + 1), columns, list, to);
}

fn store_columns(line: &[u8], columns: usize, list: &mut [u16], to: usize)
    requires { (columns ≤ 3) × (length line.now ≡ line_size five columns) × (to + columns ≤ length list.old) × (line_fits five largest columns line.now ≡ true) }
    ensures { list.new ≡ sets list.old to (numbers five columns line.now) }
{
    for k in 0..columns {
        list[to + k] = number(line, k * WIDTH) as u16;
    }
}

// Stores the numbers of `count` lines of `columns` numbers each from `to` on.
pub(crate) fn store_lines(
    text: &[u8],
    at: usize,
    columns: usize,
    count: usize,
    list: &mut [u16],
    to: usize,
)
    requires { (at ≤ length text.now) × (columns ≤ 3) × (to + columns * count ≤ length list.old) × (lines_begin five largest columns count (drop at text.now) ≡ true) }
    ensures { list.new ≡ sets list.old to (lines_numbers five columns count (drop at text.now)) }
{
    let size = columns * WIDTH + 1;
    for k in 0..count {
        store_line(text, at + k * size, columns, list, to + k * columns);
    }
}
