// The form of plan text and verdict text (01, "Columns"): what reading and writing share.
#![tactic(auto)]

ghost use Rattle.std.specs.Prelude.{◌≡◌, ◌+◌, ◌/◌, ◌%◌, ◌<◌};
ghost use Rattle.connectivity.specs.Plan.{limits};
ghost use Rattle.text.specs.Column.{five, byte_at, column};
ghost use Rattle.text.specs.Verdict.{per_line, lines_of, needed, is_refusal, count_fits};

use graph::Graph;

// The bytes of a column.
pub const WIDTH: usize = 5;

// The worths of the five columns, to read and to write by.
pub const WORTHS: [u32; WIDTH] = [10000, 1000, 100, 10, 1];

// The bytes of the shortest line: one column and a line feed.
pub const SHORTEST: usize = WIDTH + 1;

// The bytes of a header: two columns and a line feed. That of a plan with slugs (02) has a third column.
pub const HEADER: usize = 2 * WIDTH + 1;

// The bytes of the longest line: three columns and a line feed.
pub const LONGEST: usize = 3 * WIDTH + 1;

// The bytes of the longest plan text in the form: a header of three columns, and a line for every edge and every vertex (02: slug). All pieces
// as slugs are refused, but by 18 or 19 and not by 7.
pub const PLAN_SIZE: usize = LONGEST + Graph::MAX_EDGES * HEADER + Graph::MAX_VERTICES * SHORTEST;

// The bytes of the longest verdict text: a firm one, with a row for each edge.
pub const VERDICT_SIZE: usize = HEADER + Graph::MAX_EDGES * LONGEST;

// The bytes of the longest text of groups: a line of two columns for each vertex.
pub const GROUPS_SIZE: usize = Graph::MAX_VERTICES * HEADER;

// The bytes of an answer's line.
pub const ANSWER_SIZE: usize = HEADER;

// The bytes of x in a column. A column has room for every value of the type.
pub fn column(x: u16) -> [u8; WIDTH]
    ensures { result ≡ column five x }
{
    let mut bytes = [0u8; WIDTH];
    for (i, &worth) in WORTHS.iter().enumerate() {
        bytes[i] = byte_at(worth, x as u32);
    }
    bytes
}

// The byte of x at a worth: blanks before the number, and the last digit always.
fn byte_at(worth: u32, x: u32) -> u8
    requires { 0 < worth }
    ensures { result ≡ byte_at worth x }
{
    if worth <= x {
        return digit_byte(worth, x);
    }
    if 1 < worth {
        return 32;
    }
    digit_byte(worth, x)
}

// The byte of the digit of x at a worth.
fn digit_byte(worth: u32, x: u32) -> u8
    requires { 0 < worth }
    ensures { result ≡ 48 + x / worth % 10 }
{
    48 + (x / worth % 10) as u8
}

// How many numbers stand on a line.
pub fn per_line(kind: u16) -> usize
    ensures { result ≡ per_line kind }
{
    if kind == 0 { 3 } else { 1 }
}

// How many lines follow the header.
pub fn lines_of(kind: u16, count: usize) -> usize
    ensures { result ≡ lines_of kind count }
{
    if kind == 2 { 0 } else { count }
}

// The kind and the count are in the form.
pub fn count_fits(kind: u16, count: usize) -> bool
    ensures { result ≡ count_fits limits kind count }
{
    if kind == 0 {
        return count <= Graph::MAX_EDGES;
    }
    if kind == 1 {
        return count <= 2;
    }
    if kind == 2 {
        return is_refusal(count);
    }
    false
}

// The number is a plan's refusal.
fn is_refusal(number: usize) -> bool
    ensures { result ≡ is_refusal number }
{
    if number < 1 {
        return false;
    }
    if number <= 7 {
        return true;
    }
    if number < 18 {
        return false;
    }
    number <= 19
}

// How many numbers the list of a verdict with this header has.
pub fn numbers_needed(kind: u16, count: u16) -> usize
    ensures { result ≡ needed kind count }
{
    if kind == 2 {
        return 1;
    }
    if kind == 0 {
        return 3 * count as usize;
    }
    count as usize
}
