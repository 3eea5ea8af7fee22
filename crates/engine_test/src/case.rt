// The cases of the table: a line each.
use crate::plan::Listed;
use crate::{lent, show};
use std::alloc::{AllocError, Global};
use std::io;

// How many numbers a field has at most, and the most that is lent of a table.
const MOST: usize = 17;

// A case: its line, and the numbers in its third field.
#[derive(Drop)]
pub(crate) struct Case<'a> {
    alloc: Global,
    line: &'a [u8],
    numbers: Vec<u16>,
}

impl<'a> Case<'a> {
    fn new(alloc: Global, line: &'a [u8]) -> Result<Case<'a>, AllocError> {
        let numbers = numbers(alloc, field(line, 2))?;
        Ok(Case {
            alloc,
            line,
            numbers,
        })
    }

    // The k-th number of the case; 0 where it has fewer.
    pub(crate) fn number(&self, k: usize) -> u16 {
        self.numbers.get(k).copied().unwrap_or(0)
    }

    // The plan of the case; field `slugs` lists its slugs.
    pub(crate) fn plan(&self, slugs: usize) -> Result<Listed, AllocError> {
        Ok(Listed {
            vertices: self.number(0),
            ends: self.list(3)?,
            excluded: self.list(slugs)?,
        })
    }

    // A table that is lent full of nines: the k-th number of the case is its length.
    pub(crate) fn lent<T: Copy + From<u8>>(&self, k: usize) -> Result<Vec<T>, AllocError> {
        vec![in self.alloc; T::from(9); usize::from(self.number(k)).min(MOST)]
    }

    // The numbers of a field.
    pub(crate) fn list(&self, i: usize) -> Result<Vec<u16>, AllocError> {
        numbers(self.alloc, field(self.line, i))
    }

    // The same, as bytes.
    pub(crate) fn bytes(&self, i: usize) -> Result<Vec<u8>, AllocError> {
        let list = self.list(i)?;
        list.iter().map(|x| (*x % 256) as u8).collect(self.alloc)
    }

    // The same, as labels.
    pub(crate) fn labels(&self, i: usize) -> Result<Vec<u64>, AllocError> {
        let list = self.list(i)?;
        list.iter().map(|x| u64::from(*x)).collect(self.alloc)
    }
}

// A field of a line; nothing where the line has fewer.
fn field(line: &[u8], i: usize) -> &[u8] {
    line.split(|byte| *byte == b';').nth(i).unwrap_or(&[])
}

fn numbers(alloc: Global, field: &[u8]) -> Result<Vec<u16>, AllocError> {
    let digits = field.iter().copied().filter(|byte| *byte != b' ');
    digits.map(worth).take(MOST).collect(alloc)
}

// The number that a byte stands for.
fn worth(byte: u8) -> u16 {
    match byte {
        b'a'..=b'h' => u16::from(byte - b'a') + 10,
        b'l' => 999,
        b'm' => 1000,
        b'n' => 1001,
        b'r' => 65535,
        _ => u16::from(byte % 48),
    }
}

// Shows the name of a case and runs it: a letter behind the name tells what is called.
pub(crate) fn run(rt: &(impl Print + AllocGlobal), line: &[u8]) -> io::Result<()> {
    let name = field(line, 0);
    show::say(rt, name)?;
    let case = Case::new(rt.alloc(), line)?;
    match line.get(name.len() + 2) {
        Some(b'f') => lent::fill(rt, &case)?,
        Some(b's') => lent::search(rt, &case)?,
        Some(b'u') => lent::undo(rt, &case)?,
        Some(b'b') => lent::balance(rt, &case)?,
        Some(b'l') => lent::label(rt, &case)?,
        Some(b'c') => lent::chain(rt, &case)?,
        Some(b'k') => lent::cut(rt, &case)?,
        Some(b'n') => lent::below(rt, &case)?,
        Some(b'g') => lent::large(rt, &case)?,
        _ => {}
    }
    println!(rt)
}
