// A number in a column of five: read, and judged in the same look; of any text at any place, for texts of other forms.
ghost use Rattle.std.specs.Prelude.{◌≡◌, ◌+◌, ◌≤◌, length, take, drop};
ghost use Rattle.text.specs.Column.{five, largest, digit, value};
ghost use Rattle.text_read.specs.Line.{zero_at, misfit, misfits, ColumnRead, number_at};

use text::{WIDTH, WORTHS};

// The largest value in the form.
pub const LARGEST: u32 = 65535;

// The digit that a byte stands for; any other byte counts 0.
pub fn digit_of(b: u8) -> u32
    ensures { result ≡ digit b }
{
    if b < 48 {
        return 0;
    }
    if 57 < b {
        return 0;
    }
    (b - 48) as u32
}

// The number in the column that begins at `at`.
pub(crate) fn number(line: &[u8], at: usize) -> u32
    requires { at + length five ≤ length line.now }
    ensures { result ≡ value five (take (length five) (drop at line.now)) }
{
    let mut sum = 0;
    for (i, &worth) in WORTHS.iter().enumerate() {
        sum += worth * digit_of(line[at + i]);
    }
    sum
}

// Reads the column that begins at `at`: its number, or none where it is not in the form.
pub(crate) fn read_column(line: &[u8], at: usize) -> Option<u16>
    requires { at + length five ≤ length line.now }
    ensures { ColumnRead five largest (take (length five) (drop at line.now)) result }
{
    let x = number(line, at);
    if LARGEST < x {
        return None;
    }
    if misfits(line, at, x) != 0 {
        return None;
    }
    Some(x as u16)
}

// How many bytes of the column that begins at `at` are not those of its number x. A sum, as the number is, and with no way out: both are compiled
// to a few steps over all five bytes, which are loaded once.
fn misfits(line: &[u8], at: usize, x: u32) -> u32
    requires { at + length five ≤ length line.now }
    ensures { result ≡ misfits five x (take (length five) (drop at line.now)) }
{
    let mut sum = 0;
    for (i, &worth) in WORTHS.iter().enumerate() {
        sum += misfit(worth, x, line[at + i]);
    }
    sum
}

// 1 where the byte is not the one that its digit has at this worth in the number x. So nothing is divided: the digits are those of the bytes.
fn misfit(worth: u32, x: u32, b: u8) -> u32
    ensures { result ≡ misfit worth x b }
{
    if zero_at(worth, x) + digit_of(b) == b as u32 {
        0
    } else {
        1
    }
}

// The byte of the digit 0 at this worth: a blank in front of the number x, else a 0; the last digit is always written.
fn zero_at(worth: u32, x: u32) -> u32
    ensures { result ≡ zero_at worth x }
{
    if worth <= x {
        return 48;
    }
    if 1 < worth {
        return 32;
    }
    48
}

// The number in the column that begins at `at` of any text: none where it is not in the form or not all of it is there.
pub fn column_at(text: &[u8], at: usize) -> Option<u16>
    ensures { ColumnRead five largest (take (length five) (drop at text.now)) result }
{
    if text.len() < at {
        return None;
    }
    if text.len() - at < WIDTH {
        return None;
    }
    read_column(text, at)
}

// The same as a plain number: one above the largest where it is not in the form or not all of it is there.
pub fn number_at(text: &[u8], at: usize) -> u32
    ensures { result ≡ number_at five largest text.now at }
{
    match column_at(text, at) {
        Some(x) => x as u32,
        None => LARGEST + 1,
    }
}
