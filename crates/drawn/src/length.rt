// A length in eight columns, in thousandths of a millimetre: read, and judged in the same look.
ghost use Rattle.std.specs.Prelude.{◌≡◌, ◌+◌, ◌≤◌, length, take, drop};
ghost use Rattle.text.specs.Column.{value};
ghost use Rattle.drawn.specs.Length.{eight, thousand};
ghost use Rattle.drawn.specs.Line.{zero_at, misfit, misfits, LengthRead};

use text_read::column::digit_of;

// The bytes of a length.
pub(crate) const WIDTH: usize = 8;

// The worths of the eight columns; the point counts nothing.
const WORTHS: [u32; WIDTH] = [1000000, 100000, 10000, 1000, 0, 100, 10, 1];

// A millimetre: the worth of the last digit before the point.
const MILLIMETRE: u32 = 1000;

// The value of the length that begins at `at`.
fn thousandths(line: &[u8], at: usize) -> u32
    requires { at + length eight ≤ length line.now }
    ensures { result ≡ value eight (take (length eight) (drop at line.now)) }
{
    let mut sum = 0;
    for (i, &worth) in WORTHS.iter().enumerate() {
        sum += worth * digit_of(line[at + i]);
    }
    sum
}

// Reads the length that begins at `at`: its value, or none where it is not in the form.
pub(crate) fn read_length(line: &[u8], at: usize) -> Option<u32>
    requires { at + length eight ≤ length line.now }
    ensures { LengthRead thousand eight (take (length eight) (drop at line.now)) result }
{
    let x = thousandths(line, at);
    if misfits(line, at, x) != 0 {
        return None;
    }
    Some(x)
}

// How many bytes of the length that begins at `at` are not those of its value x.
fn misfits(line: &[u8], at: usize, x: u32) -> u32
    requires { at + length eight ≤ length line.now }
    ensures { result ≡ misfits thousand eight x (take (length eight) (drop at line.now)) }
{
    let mut sum = 0;
    for (i, &worth) in WORTHS.iter().enumerate() {
        sum += misfit(worth, x, line[at + i]);
    }
    sum
}

// 1 where the byte is not the one that its digit has at this worth in the length x.
fn misfit(worth: u32, x: u32, b: u8) -> u32
    ensures { result ≡ misfit thousand worth x b }
{
    if zero_at(worth, x) + digit_of(b) == b as u32 {
        0
    } else {
        1
    }
}

// The byte of the digit 0 at this worth: the point, a blank in front of the length x, else a 0; the last digit before the point is always written.
fn zero_at(worth: u32, x: u32) -> u32
    ensures { result ≡ zero_at thousand worth x }
{
    if worth == 0 {
        return 46;
    }
    if worth <= x {
        return 48;
    }
    if MILLIMETRE < worth {
        return 32;
    }
    48
}
