// Plans, and the rules by which tabs are laid.
ghost use Rattle.std.specs.Prelude.{◌≤◌};

use std::alloc::{AllocError, Global};

// A plan as it is handed over: how many pieces there are, two ends for each tab, the slugs; and how long a table is lent with it.
#[derive(Drop)]
pub(crate) struct Plan {
    pub pieces: u16,
    pub ends: Vec<u16>,
    pub slugs: Vec<u16>,
    pub lent: usize,
}

// The rules by which tabs are laid.
#[derive(Clone, Copy)]
pub(crate) enum Rule {
    // Between any two pieces: one at once, two or three.
    Single,
    Double,
    Triple,
    // On rings, in any order.
    Round,
    // As `Single`, and a tab may join a piece to itself.
    Loose,
    // For large plans. The sides of a ring, each seventh in turn.
    Ring,
    // 125 blobs on a ring, for 1,000 pieces and 4,000 tabs: piece p is in the blob p % 125.
    Blobs,
}

// What random numbers are drawn from.
#[derive(Clone, Copy)]
pub(crate) struct Seed(pub u32);

impl Seed {
    // The i-th random number, below the bound; 0 if that is 0.
    pub(crate) fn draw(self, i: u32, bound: u16) -> u16
        ensures { result ≤ bound }
    {
        below(stirred(stirred(self.0, i), 5), bound)
    }
}

fn stirred(seed: u32, i: u32) -> u32 {
    let x = ((u64::from(seed) * 48271 + u64::from(i) * 69621 + 1) % 2147483647) as u32;
    x ^ x / 65536
}

// A number below the bound; 0 if that is 0.
pub(crate) fn below(x: u32, bound: u16) -> u16
    ensures { result ≤ bound }
{
    if bound == 0 {
        return 0;
    }
    (x % u32::from(bound)) as u16
}

// How the tabs of a plan are laid.
#[derive(Clone, Copy)]
pub(crate) struct Laying {
    pub rule: Rule,
    // Among how many pieces.
    pub pieces: u16,
    pub seed: Seed,
}

impl Laying {
    // The ends of so many tabs.
    pub(crate) fn ends(self, alloc: Global, tabs: u16) -> Result<Vec<u16>, AllocError> {
        let mut ends = Vec::new(alloc);
        for tab in 0..tabs {
            ends.push(self.first_end(tab))?;
            ends.push(self.second_end(tab))?;
        }
        Ok(ends)
    }

    pub(crate) fn first_end(self, tab: u16) -> u16 {
        below(u32::from(self.begin(tab)), self.pieces)
    }

    fn second_end(self, tab: u16) -> u16 {
        let end = u32::from(self.begin(tab)) + u32::from(self.stride(tab));
        below(end, self.pieces)
    }

    // Where a tab begins. On rings, up to 16 tabs begin at different places.
    fn begin(self, tab: u16) -> u16 {
        match self.rule {
            Rule::Ring => tab % 4001 * 7,
            Rule::Blobs => tab % 125 + tab / 125 % 8 * 125,
            Rule::Round => tab ^ self.seed.draw(8, 16),
            _ => self.seed.draw(self.bundle(tab) + 10000, self.pieces),
        }
    }

    // How many pieces further it ends, half of them at most.
    fn stride(self, tab: u16) -> u16 {
        let random = self.bundle(tab) + 20000;
        match self.rule {
            Rule::Ring => 1,
            Rule::Blobs => blob(tab),
            Rule::Loose => self.seed.draw(random, self.pieces),
            _ => self.seed.draw(random, self.pieces / 2) % 1000 + 1,
        }
    }

    // Which of the tabs that go together one is of: on a ring all go as far.
    fn bundle(self, tab: u16) -> u32
        ensures { result ≤ tab }
    {
        match self.rule {
            Rule::Double => u32::from(tab / 2),
            Rule::Triple => u32::from(tab / 3),
            Rule::Round => 0,
            _ => u32::from(tab),
        }
    }
}

// The first tab of a blob leads to the next one, the others inside it.
fn blob(tab: u16) -> u16 {
    if tab < 125 {
        376
    } else {
        tab / 1000 % 4 * 125 + 125
    }
}
