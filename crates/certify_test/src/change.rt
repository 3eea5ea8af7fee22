// The record of a plan, changed at random.
use crate::plan::{Row, list_of};
use crate::random::{Random, below};
use crate::sample::Sample;
use crate::verdict::Kind;
use std::alloc::{AllocError, Global};

// One of the numbers of a row.
#[derive(Clone, Copy)]
pub enum Part {
    Step,
    Edge,
    From,
}

// The changes; `row` is the place of the row, or of the first, in which something changes.
#[derive(Clone, Copy)]
pub enum Change {
    Nothing,
    // Another number, of 0 to 15.
    Number { row: usize, part: Part, value: u16 },
    // Two rows exchange their edges and vertices.
    Exchange { row: usize, other: usize },
    // The row is walked from its other end.
    OtherEnd { row: usize },
    // From the row on each step is one more, or one less.
    StepMore { row: usize },
    StepLess { row: usize },
    // The row is of another edge, and walked from its first end.
    OtherEdge { row: usize, edge: u16 },
    // One vertex more, another kind, as many rows as there are edges with the excluded ones, or one number less.
    Vertices,
    Kind,
    AllRows,
    Shorter,
}

impl Part {
    fn drawn(number: u32) -> Self {
        match below(number, 3) {
            0 => Part::Step,
            1 => Part::Edge,
            _ => Part::From,
        }
    }
}

impl Change {
    // Draws the way, the row, and one or two numbers more.
    pub fn drawn(random: &mut Random, edges: u16) -> Self {
        let way = random.below(11);
        let row = usize::from(random.below(edges));
        let third = random.number();
        match way {
            0..3 => Change::Number {
                row,
                part: Part::drawn(third),
                value: random.below(15),
            },
            3 | 4 => Change::Exchange {
                row,
                other: usize::from(below(third, 14)),
            },
            5 | 6 => Change::OtherEnd { row },
            7 if below(third, 2) == 0 => Change::StepMore { row },
            7 => Change::StepLess { row },
            8 => Change::Vertices,
            9 => match below(third, 3) {
                0 => Change::Kind,
                1 => Change::AllRows,
                _ => Change::Shorter,
            },
            _ => Change::OtherEdge {
                row,
                edge: random.below(16),
            },
        }
    }
}

// What is handed to the check then: the number of vertices, a kind and a list.
#[derive(Drop)]
pub struct Changed {
    pub vertices: u16,
    pub kind: Kind,
    pub list: Vec<u16>,
}

impl Change {
    // A record of a plan with this change. Where there are more rows than it has, they are those behind it.
    pub fn applied(
        self,
        alloc: Global,
        sample: &Sample,
        record: &[Row],
        behind: &[u16],
    ) -> Result<Changed, AllocError> {
        let mut rows = Vec::new(alloc);
        for (place, &row) in record.iter().enumerate() {
            rows.push(self.changed(record, &sample.ends, place, row))?;
        }
        let mut list = list_of(alloc, &rows)?;
        match self {
            Change::AllRows => {
                let more = (3 * usize::from(sample.edges)).saturating_sub(list.len());
                list.extend_from_slice(&behind[..more.min(behind.len())])?;
            }
            Change::Shorter => {
                list.pop();
            }
            _ => (),
        }
        Ok(Changed {
            vertices: self.vertices(sample.vertices),
            kind: self.kind(),
            list,
        })
    }

    fn vertices(self, vertices: u16) -> u16 {
        match self {
            Change::Vertices if vertices < 13 => vertices + 1,
            _ => vertices,
        }
    }

    fn kind(self) -> Kind {
        match self {
            Change::Kind => Kind::Unknown,
            _ => Kind::Firm,
        }
    }

    // What stands at a place of the record, where `old` stood.
    fn changed(self, record: &[Row], ends: &[u16], place: usize, old: Row) -> Row {
        match self {
            Change::Number { row, part, value } if row == place => numbered(old, part, value),
            Change::Exchange { row, other } if row == place => exchanged(old, record.get(other)),
            Change::Exchange { row, other } if other == place => exchanged(old, record.get(row)),
            Change::OtherEnd { row } if row == place => Row {
                from: other_end(ends, old),
                ..old
            },
            Change::StepMore { row } if row <= place => Row {
                step: old.step.saturating_add(1),
                ..old
            },
            Change::StepLess { row } if row <= place => Row {
                step: old.step.saturating_sub(1),
                ..old
            },
            Change::OtherEdge { row, edge } if row == place => Row {
                edge,
                from: get(ends, 2 * usize::from(edge)),
                ..old
            },
            _ => old,
        }
    }
}

fn numbered(row: Row, part: Part, value: u16) -> Row {
    match part {
        Part::Step => Row {
            step: another(row.step, value),
            ..row
        },
        Part::Edge => Row {
            edge: another(row.edge, value),
            ..row
        },
        Part::From => Row {
            from: another(row.from, value),
            ..row
        },
    }
}

// A value, or the next where that stood already.
fn another(old: u16, value: u16) -> u16 {
    if old == value {
        value.saturating_add(1)
    } else {
        value
    }
}

// A row with the edge and the vertex of another, if there is one.
fn exchanged(row: Row, other: Option<&Row>) -> Row {
    match other {
        Some(other) => Row {
            step: row.step,
            ..*other
        },
        None => row,
    }
}

// The first end of a row's edge that is not its vertex.
fn other_end(ends: &[u16], row: Row) -> u16 {
    let first = 2 * usize::from(row.edge);
    if get(ends, first) == row.from {
        get(ends, first + 1)
    } else {
        get(ends, first)
    }
}

fn get(list: &[u16], place: usize) -> u16 {
    list.get(place).copied().unwrap_or(0)
}
