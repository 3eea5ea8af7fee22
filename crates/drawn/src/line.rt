// The lines of a drawn list (02, note 5), taken by the reader of texts: its first line, and the line of a drawn tab.
ghost use Rattle.std.specs.Prelude.{◌≡◌, true, false, cond, ◌+◌, ◌≤◌, ltb, length, take, drop};
ghost use Rattle.text.specs.Column.{five, same};
ghost use Rattle.drawn.specs.Text.{form, letter_column, edge_size, header_size};
ghost use Rattle.drawn.specs.Line.{times, HeaderRead, EdgeRead};

use crate::length;
use text::{WIDTH, WORTHS};
use text_read::column::column_at;
use text_read::reader::line_at;

// The bytes of the first line: pieces, tabs, least width, kerf and letter, and a line feed.
pub const HEADER: usize = 3 * WIDTH + 2 * length::WIDTH + 1;

// The bytes of the line of a drawn tab: two pieces and a gap, and a line feed.
pub const LINE: usize = 2 * WIDTH + length::WIDTH + 1;

// The letters of a kerf.
const FULL: u8 = b'F';

const HALF: u8 = b'H';

// The numbers of the first line, lengths in thousandths; the kerf is the full one.
#[derive(Clone, Copy)]
pub(crate) struct Header {
    pub vertices: u16,
    pub edges: u16,
    pub least: u32,
    pub kerf: u32,
}

// The line of a drawn tab likewise.
#[derive(Drop)]
pub(crate) struct Edge {
    pub left: u16,
    pub right: u16,
    pub gap: u32,
}

// Reads the first line of a text; none where it is not in the form.
pub(crate) fn read_header(text: &[u8]) -> Option<Header>
    ensures { HeaderRead form text.now result }
{
    if text.len() < HEADER {
        return None;
    }
    header_columns(line_at(text, 0, HEADER))
}

// Reads its columns.
fn header_columns(line: &[u8]) -> Option<Header>
    requires { length line.now ≡ header_size form }
    ensures { HeaderRead form line.now result }
{
    let vertices = column_at(line, 0)?;
    let edges = column_at(line, WIDTH)?;
    let least = length::read_length(line, 2 * WIDTH)?;
    let kerf = length::read_length(line, 2 * WIDTH + length::WIDTH)?;
    let times = kerf_times(line, 2 * WIDTH + 2 * length::WIDTH)?;
    if line[HEADER - 1] != 10 {
        return None;
    }
    Some(Header {
        vertices,
        edges,
        least,
        kerf: times * kerf,
    })
}

// How often the kerf counts, by the letter in the column that begins at `at`: once for F, twice for H; none where neither stands there.
fn kerf_times(line: &[u8], at: usize) -> Option<u32>
    requires { at + length five ≤ length line.now }
    ensures { result ≡ times form at line.now }
{
    if is_letter(line, at, FULL) {
        return Some(1);
    }
    if is_letter(line, at, HALF) {
        return Some(2);
    }
    None
}

// This letter stands right-justified in the column that begins at `at`.
fn is_letter(line: &[u8], at: usize, letter: u8) -> bool
    requires { at + length five ≤ length line.now }
    ensures { result ≡ same (letter_column five letter) (take (length five) (drop at line.now)) }
{
    for (i, &worth) in WORTHS.iter().enumerate() {
        if line[at + i] != byte_of(worth, letter) {
            return false;
        }
    }
    true
}

// The byte of a letter's column at a worth: a blank before the letter.
fn byte_of(worth: u32, letter: u8) -> u8
    ensures { result ≡ cond (ltb 1 worth) 32 letter }
{
    if 1 < worth { 32 } else { letter }
}

// Reads the line of a drawn tab that begins at `at`; none where it is not in the form.
pub(crate) fn read_edge(text: &[u8], at: usize) -> Option<Edge>
    requires { at + edge_size form ≤ length text.now }
    ensures { EdgeRead form (drop at text.now) result }
{
    edge_columns(line_at(text, at, LINE))
}

// Reads its columns.
fn edge_columns(line: &[u8]) -> Option<Edge>
    requires { length line.now ≡ edge_size form }
    ensures { EdgeRead form line.now result }
{
    let left = column_at(line, 0)?;
    let right = column_at(line, WIDTH)?;
    let gap = length::read_length(line, 2 * WIDTH)?;
    if line[LINE - 1] != 10 {
        return None;
    }
    Some(Edge { left, right, gap })
}
