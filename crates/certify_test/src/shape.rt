// The shapes of the random plans.
use std::fmt;

#[derive(Clone, Copy, PartialEq, Eq)]
pub enum Shape {
    // Few vertices and many edges.
    Dense,
    // A ring whose sides have up to three edges.
    Ring,
    // Two bodies that have one vertex in common.
    Joined,
    // Up to four edges at once between two vertices.
    Parallel,
    // Two bodies with no edge between them.
    Parted,
    // Three walks and then ears.
    Grown,
    // Any vertices and edges.
    Any,
    // The same, to be refused for the most part.
    Damaged,
}

impl Shape {
    pub const ALL: [Shape; 8] = [
        Shape::Dense,
        Shape::Ring,
        Shape::Joined,
        Shape::Parallel,
        Shape::Parted,
        Shape::Grown,
        Shape::Any,
        Shape::Damaged,
    ];
}

impl fmt::Display for Shape {
    fn fmt<W: fmt::Write>(&self, f: &mut fmt::Formatter<W>) -> fmt::Result {
        f.write_str(match self {
            Shape::Dense => "few pieces, many tabs",
            Shape::Ring => "rings with doubled sides",
            Shape::Joined => "bodies joined at one piece",
            Shape::Parallel => "parallel tabs",
            Shape::Parted => "already parted",
            Shape::Grown => "grown by ears",
            Shape::Any => "any",
            Shape::Damaged => "damaged",
        })
    }
}
