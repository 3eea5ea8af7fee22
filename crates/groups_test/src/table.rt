// What is told of a lent table.
use std::fmt;

// What stands in a lent table before a call; no piece.
pub const UNTOUCHED: u16 = 54321;

// Numbers as they are printed: a blank before each.
#[derive(Drop)]
pub(crate) struct Numbers<'a, T>(pub &'a [T]);

impl<T: fmt::Display> fmt::Display for Numbers<'_, T> {
    fn fmt<W: fmt::Write>(&self, f: &mut fmt::Formatter<W>) -> fmt::Result {
        for number in self.0 {
            write!(f, " {number}")?;
        }
        Ok(())
    }
}

// How many pieces are the lowest of their groups.
pub(crate) fn groups(table: &[u16]) -> usize {
    table
        .iter()
        .enumerate()
        .filter(|(piece, lowest)| usize::from(**lowest) == *piece)
        .count()
}

// A fingerprint with more numbers.
pub(crate) fn fingerprint(start: u32, table: &[u16]) -> u32 {
    table.iter().fold(start, |hash, number| {
        hash.wrapping_mul(16777619)
            .wrapping_add(u32::from(*number))
            .wrapping_add(1)
    })
}
