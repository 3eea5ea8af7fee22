// Lines of numbers in columns, written.
ghost use Rattle.std.specs.Prelude.{◌≡◌, ◌++◌, ◌+◌, ◌*◌, ◌≤◌, length, take, drop};
ghost use Rattle.std.proofs.lemmas.List.Edits.{sets};
ghost use Rattle.text.specs.Column.{five, column, line, lines, line_size};

use text::WIDTH;

// Writes x into the column that begins at `at`.
fn write_column(text: &mut [u8], at: usize, x: u16)
    requires { at + length five ≤ length text.old }
    ensures { text.new ≡ sets text.old at (column five x) }
{
    // byte by byte: these are stored as they are made, where a copy waits for all of them
    let bytes = text::column(x);
    for (i, &byte) in bytes.iter().enumerate() {
        text[at + i] = byte;
    }
}

// Writes a line of the `columns` numbers from `from` on.
fn write_line(list: &[u16], from: usize, columns: usize, text: &mut [u8], at: usize)
    requires { (columns ≤ 3) × (from + columns ≤ length list.now) × (at + line_size five columns ≤ length text.old) }
    ensures { text.new ≡ sets text.old at (line five (take columns (drop from list.now))) }
{
    for k in 0..columns {
        write_column(text, at + k * WIDTH, list[from + k]);
    }
    text[at + columns * WIDTH] = 10;
}

// Writes `count` lines of `columns` numbers each, from `at` on.
pub(crate) fn write_lines(list: &[u16], columns: usize, count: usize, text: &mut [u8], at: usize)
    requires { (columns ≤ 3) × (columns * count ≤ length list.now) × (at + count * line_size five columns ≤ length text.old) }
    ensures { text.new ≡ sets text.old at (lines five columns count list.now) }
{
    let size = columns * WIDTH + 1;
    for k in 0..count {
        write_line(list, k * columns, columns, text, at + k * size);
    }
}

// Writes a header, the first `front` of its numbers, then `count` lines of `columns` numbers each.
pub(crate) fn write_text(
    header: &[u16],
    front: usize,
    list: &[u16],
    columns: usize,
    count: usize,
    text: &mut [u8],
)
    requires { (front ≤ 3) × (front ≤ length header.now) × (columns ≤ 3) × (columns * count ≤ length list.now) × (line_size five front + count * line_size five columns ≤ length text.old) }
    ensures { text.new ≡ sets text.old 0 (line five (take front header.now) ++ lines five columns count list.now) }
{
    write_line(header, 0, front, text, 0);
    write_lines(list, columns, count, text, front * WIDTH + 1);
}
