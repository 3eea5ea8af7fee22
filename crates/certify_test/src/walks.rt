// Random graphs of the shapes, of at most 8 vertices and 14 edges, made of walks; beside these, up to 4 vertices to be excluded and edges that end
// there, at most 16 edges in all.
use crate::random::Random;
use crate::shape::Shape;
use std::alloc::{AllocError, Global};

const MAX_EDGES: usize = 14;

const MAX_LISTED: usize = 16;

// An edge and the step of its walk.
#[derive(Clone, Copy)]
pub struct Edge {
    pub tail: u16,
    pub head: u16,
    pub step: u16,
}

// The vertices and edges of the walks so far; the next walk is of the step `step`.
#[derive(Drop)]
pub struct Walks {
    pub vertices: u16,
    pub edges: Vec<Edge>,
    step: u16,
}

// A random graph of a shape.
pub fn of_shape(alloc: Global, random: &mut Random, shape: Shape) -> Result<Walks, AllocError> {
    let vertices = vertices_of(shape, random);
    let border = border_of(shape, vertices, random);
    let turns = turns_of(shape, vertices, random);
    let mut walks = Walks {
        vertices,
        edges: Vec::new(alloc),
        step: 0,
    };
    for turn in 0..turns {
        match shape {
            Shape::Ring => walks.side(random, turn)?,
            Shape::Grown => walks.ear(random, turn)?,
            _ => walks.pair(random, shape, border)?,
        }
    }
    Ok(walks)
}

fn vertices_of(shape: Shape, random: &mut Random) -> u16 {
    let (least, choices) = match shape {
        Shape::Dense | Shape::Parallel => (2, 3),
        Shape::Ring | Shape::Joined => (3, 5),
        Shape::Grown => (2, 1),
        Shape::Parted | Shape::Any | Shape::Damaged => (2, 7),
    };
    least + random.below(choices)
}

// The last vertex of the first of two bodies, which is not the last of all; where they have one in common, that.
fn border_of(shape: Shape, vertices: u16, random: &mut Random) -> u16 {
    if shape == Shape::Joined {
        1 + random.below(vertices.saturating_sub(2))
    } else {
        random.below(vertices.saturating_sub(1))
    }
}

// The turns in which the edges are made; with some shapes some turns make none.
fn turns_of(shape: Shape, vertices: u16, random: &mut Random) -> u16 {
    let drawn = random.below(21);
    match shape {
        Shape::Ring => vertices,
        Shape::Parallel => 5,
        Shape::Grown => 11,
        Shape::Dense | Shape::Joined => 18,
        Shape::Parted | Shape::Any | Shape::Damaged => drawn,
    }
}

// b, or what the shape has an edge from a lead to instead: the border where that stands between a and b; a itself, for no edge, where
// one of a and b is above the border and the other is not.
fn allowed(shape: Shape, a: u16, b: u16, border: u16) -> u16 {
    if (a <= border) == (b <= border) {
        return b;
    }
    match shape {
        Shape::Joined if a != border => border,
        Shape::Parted => a,
        _ => b,
    }
}

impl Walks {
    // Some edges from a vertex of a ring to the next one, or from the last to the first.
    fn side(&mut self, random: &mut Random, vertex: u16) -> Result<(), AllocError> {
        let next = vertex.saturating_add(1);
        let count = 1 + random.below(3);
        self.bundle(vertex, if next < self.vertices { next } else { 0 }, count)
    }

    // One edge between two random vertices, or some, if they differ and the shape allows it.
    fn pair(&mut self, random: &mut Random, shape: Shape, border: u16) -> Result<(), AllocError> {
        let a = random.below(self.vertices);
        let b = allowed(shape, a, random.below(self.vertices), border);
        let count = 1 + random.below(4);
        self.bundle(a, b, if shape == Shape::Parallel { count } else { 1 })
    }

    // Some edges from a to b.
    fn bundle(&mut self, a: u16, b: u16, count: u16) -> Result<(), AllocError> {
        for _ in 0..count {
            self.walk(a, b, 0)?;
        }
        Ok(())
    }

    // Three walks from 0 to 1, then two ears anywhere, then for most other vertices one edge more.
    fn ear(&mut self, random: &mut Random, turn: u16) -> Result<(), AllocError> {
        let inner = random.below(3);
        let a = random.below(self.vertices);
        let b = random.below(self.vertices);
        let is_chosen = random.below(8) != 0;
        let vertex = turn.saturating_sub(3);
        match turn {
            0..3 => self.walk(0, 1, inner),
            3..5 => self.walk(a, b, inner),
            _ if is_chosen && vertex < self.vertices => self.walk(vertex, b, 0),
            _ => Ok(()),
        }
    }

    // A walk from a to b over some new vertices, where there is room and it is no single edge from a vertex to itself.
    fn walk(&mut self, a: u16, b: u16, inner: u16) -> Result<(), AllocError> {
        if !self.fits(a == b, inner) {
            return Ok(());
        }
        let mut from = a;
        for _ in 0..inner {
            let vertex = self.vertices;
            self.join(from, vertex, MAX_EDGES)?;
            self.vertices = vertex.saturating_add(1);
            from = vertex;
        }
        self.join(from, b, MAX_EDGES)?;
        self.step = self.step.saturating_add(1);
        Ok(())
    }

    fn fits(&self, is_closed: bool, inner: u16) -> bool {
        if inner == 0 {
            return !is_closed;
        }
        let edges = self.edges.len().saturating_add(usize::from(inner));
        self.vertices.saturating_add(inner) < 8 && edges < MAX_EDGES
    }

    // One more edge, where there are fewer than the most.
    fn join(&mut self, tail: u16, head: u16, most: usize) -> Result<(), AllocError> {
        let step = self.step;
        if self.edges.len() < most {
            self.edges.push(Edge { tail, head, step })?;
        }
        Ok(())
    }

    // In half of the plans, some more vertices, to be excluded, and edges from them.
    pub fn widen(&mut self, random: &mut Random) -> Result<(), AllocError> {
        let kept = self.vertices;
        let count = random.below(8).saturating_sub(3);
        let turns = random.below(8);
        self.vertices = kept.saturating_add(count);
        for _ in 0..turns {
            let a = kept.saturating_add(random.below(count));
            let b = random.below(self.vertices);
            if count != 0 && a != b {
                self.join(a, b, MAX_LISTED)?;
            }
        }
        Ok(())
    }
}
