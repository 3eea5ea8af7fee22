// A plan as it is handed over, and the rows of a record.
use std::alloc::{AllocError, Global};

// The ends of an edge stand side by side in `ends`, those of edge 0 first.
#[derive(Clone, Copy)]
pub struct Plan<'a> {
    pub vertices: u16,
    pub ends: &'a [u16],
    pub excluded: &'a [u16],
}

#[derive(Clone, Copy)]
pub struct Row {
    pub step: u16,
    pub edge: u16,
    pub from: u16,
}

// The rows of a list; one or two numbers behind the last row are left out.
pub fn rows_of(alloc: Global, list: &[u16]) -> Result<Vec<Row>, AllocError> {
    let mut rows = Vec::new(alloc);
    for numbers in list.chunks_exact(3) {
        if let &[step, edge, from] = numbers {
            rows.push(Row { step, edge, from })?;
        }
    }
    Ok(rows)
}

// The list of some rows.
pub fn list_of(alloc: Global, rows: &[Row]) -> Result<Vec<u16>, AllocError> {
    let mut list = Vec::new(alloc);
    for row in rows {
        list.extend_from_slice(&[row.step, row.edge, row.from])?;
    }
    Ok(list)
}
