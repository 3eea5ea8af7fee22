// Random plans: the graph of a shape under new numbers, with the rows of the walks that it was made of.
use crate::plan::{Plan, Row};
use crate::random::{Random, below};
use crate::shape::Shape;
use crate::walks::{self, Edge};
use std::alloc::{AllocError, Global};

// A plan of `edges` edges. Those of the walks come to `kept_edges`, and the front of `rows` is their record; the others, whose rows stand behind it,
// end at excluded vertices. `space` numbers are lent for a record.
#[derive(Drop)]
pub struct Sample {
    pub vertices: u16,
    pub ends: Vec<u16>,
    pub excluded: Vec<u16>,
    pub edges: u16,
    pub kept_edges: u16,
    pub rows: Vec<Row>,
    pub space: usize,
}

// A random plan of a shape.
pub fn of_shape(alloc: Global, random: &mut Random, shape: Shape) -> Result<Sample, AllocError> {
    let mut walks = walks::of_shape(alloc, random, shape)?;
    let kept = walks.vertices;
    let kept_edges = few(walks.edges.len());
    walks.widen(random)?;
    let names = Names::drawn(alloc, random, walks.vertices)?;
    let places = places(alloc, random, few(walks.edges.len()))?;
    let space = 3 * usize::from(kept_edges) + usize::from(random.below(5));
    let mut sample = Sample {
        vertices: walks.vertices,
        ends: ends(alloc, &walks.edges, &names, &places)?,
        excluded: names.from(alloc, kept)?,
        edges: few(walks.edges.len()),
        kept_edges,
        rows: rows(alloc, &walks.edges, &names, &places)?,
        space,
    };
    if shape == Shape::Damaged {
        sample.damage(alloc, random, &names)?;
    }
    Ok(sample)
}

// How many edges there are, of which there are few.
fn few(count: usize) -> u16 {
    u16::try_from(count).unwrap_or(u16::MAX)
}

// x, with a and b exchanged.
fn exchanged(x: u16, a: u16, b: u16) -> u16 {
    if x == a {
        b
    } else if x == b {
        a
    } else {
        x
    }
}

// The new numbers of the vertices.
#[derive(Drop)]
struct Names {
    list: Vec<u16>,
}

impl Names {
    // Each vertex in turn changes its number with a random one.
    fn drawn(alloc: Global, random: &mut Random, vertices: u16) -> Result<Self, AllocError> {
        let mut list: Vec<u16> = (0..vertices).collect(alloc)?;
        for vertex in 0..vertices {
            let other = random.below(vertices);
            for name in &mut list {
                *name = exchanged(*name, vertex, other);
            }
        }
        Ok(Names { list })
    }

    fn of(&self, vertex: u16) -> u16 {
        self.list.get(usize::from(vertex)).copied().unwrap_or(0)
    }

    // Those of the vertices from one on, in ascending order.
    fn from(&self, alloc: Global, vertex: u16) -> Result<Vec<u16>, AllocError> {
        let mut list: Vec<u16> = self
            .list
            .iter()
            .skip(usize::from(vertex))
            .copied()
            .collect(alloc)?;
        list.sort_unstable();
        Ok(list)
    }
}

// The place of an edge of the walks in the plan, and whether its ends are exchanged there.
#[derive(Clone, Copy)]
struct Spot {
    place: u16,
    is_turned: bool,
}

// Each edge in turn changes its place with a random one, and half of them their ends.
fn places(alloc: Global, random: &mut Random, edges: u16) -> Result<Vec<Spot>, AllocError> {
    let mut spots = Vec::new(alloc);
    for place in 0..edges {
        spots.push(Spot {
            place,
            is_turned: false,
        })?;
    }
    for place in 0..edges {
        let other = random.below(edges);
        let turns = random.below(2) == 0;
        for spot in &mut spots {
            spot.place = exchanged(spot.place, place, other);
            if spot.place == place {
                spot.is_turned = spot.is_turned != turns;
            }
        }
    }
    Ok(spots)
}

// The ends of the edges, in the order of their places.
fn ends(
    alloc: Global,
    edges: &[Edge],
    names: &Names,
    spots: &[Spot],
) -> Result<Vec<u16>, AllocError> {
    let mut ends = Vec::new(alloc);
    for place in 0..few(spots.len()) {
        for (edge, spot) in edges.iter().zip(spots) {
            let tail = names.of(edge.tail);
            let head = names.of(edge.head);
            if spot.place == place {
                ends.extend_from_slice(&if spot.is_turned {
                    [head, tail]
                } else {
                    [tail, head]
                })?;
            }
        }
    }
    Ok(ends)
}

// The rows of the walks, and behind them those of the edges that are not kept.
fn rows(
    alloc: Global,
    edges: &[Edge],
    names: &Names,
    spots: &[Spot],
) -> Result<Vec<Row>, AllocError> {
    let mut rows = Vec::new(alloc);
    for (edge, spot) in edges.iter().zip(spots) {
        rows.push(Row {
            step: edge.step,
            edge: spot.place,
            from: names.of(edge.tail),
        })?;
    }
    Ok(rows)
}

// Writes a number at a place of a list, if there is such a place.
fn put(list: &mut [u16], place: u16, x: u16) {
    if let Some(number) = list.get_mut(usize::from(place)) {
        *number = x;
    }
}

// The numbers at twice a place and behind it are made the same.
fn repeat(list: &mut [u16], pair: u16) {
    let first = 2 * usize::from(pair);
    if first + 1 < list.len() {
        list[first + 1] = list[first];
    }
}

impl Sample {
    // The record of the walks, and the rows behind it.
    pub fn record(&self) -> (&[Row], &[Row]) {
        self.rows
            .split_at(self.rows.len().min(usize::from(self.kept_edges)))
    }

    pub fn plan(&self) -> Plan<'_> {
        Plan {
            vertices: self.vertices,
            ends: &self.ends,
            excluded: &self.excluded,
        }
    }

    // One damage, or two.
    fn damage(
        &mut self,
        alloc: Global,
        random: &mut Random,
        names: &Names,
    ) -> Result<(), AllocError> {
        let way = random.below(12);
        let number = random.number();
        let place = below(number, 3);
        match way {
            // one end less, another number of vertices, an end that is wrong (5: and an edge), an edge that is wrong, too little space
            0 => {
                self.ends.pop();
            }
            1 => self.vertices = below(number, 2),
            2 => self.vertices = 1001,
            3 | 5 => put(&mut self.ends, below(number, 28), self.vertices),
            4 => repeat(&mut self.ends, below(number, 14)),
            6 => if self.kept_edges > 0 {
                self.space = 3 * usize::from(self.kept_edges) - 1;
            },
            // an excluded vertex that is none, one twice, one that is not above the one before (10: and an edge)
            7 => put(&mut self.excluded, place, self.vertices),
            8 => repeat(&mut self.excluded, place % 2),
            9 | 10 => put(&mut self.excluded, 1 + place, 0),
            // one vertex that is kept, or none, and maybe one that is not above the one before
            _ => {
                self.excluded = names.from(alloc, below(number, 2))?;
                put(&mut self.excluded, 1 + 5 * place, 0);
            }
        }
        if way == 5 || way == 10 {
            repeat(&mut self.ends, random.below(14));
        }
        Ok(())
    }
}
