// Plans to try all on: large ones, and random ones of up to ten pieces and sixteen tabs, of which some pieces are slugs.
ghost use Rattle.std.specs.Prelude.{◌≤◌};

use std::alloc::{AllocError, Global};

// A plan: how many vertices it has, two ends for each edge, and the excluded vertices.
#[derive(Clone, Copy)]
pub(crate) struct Plan<'a> {
    pub(crate) vertices: u16,
    pub(crate) ends: &'a [u16],
    pub(crate) excluded: &'a [u16],
}

// The same with lists of its own.
#[derive(Drop)]
pub(crate) struct Listed {
    pub(crate) vertices: u16,
    pub(crate) ends: Vec<u16>,
    pub(crate) excluded: Vec<u16>,
}

impl Listed {
    pub(crate) fn plan(&self) -> Plan<'_> {
        Plan {
            vertices: self.vertices,
            ends: &self.ends,
            excluded: &self.excluded,
        }
    }

    // A large plan.
    pub(crate) fn large(
        alloc: Global,
        vertices: u16,
        rule: Rule,
        excluded: Vec<u16>,
        seed: u32,
    ) -> Result<Listed, AllocError> {
        let tabs = match rule {
            Rule::Backwards => 999,
            Rule::TooMany => 4001,
            Rule::Doubled => 1998,
            _ => 4000,
        };
        let laying = Laying {
            rule,
            pieces: vertices,
            seed,
        };
        Ok(Listed {
            vertices,
            ends: laying.ends(alloc, tabs)?,
            excluded,
        })
    }

    // A random plan.
    pub(crate) fn random(alloc: Global, seed: u32) -> Result<Listed, AllocError> {
        let pieces = 2 + draw(seed, 1, 9);
        let rule = Rule::from(draw(seed, 2, 9));
        let tabs = draw(seed, 3, 17).min(16);
        let a = draw(seed, 4, pieces / 2) % 5;
        let step = 1 + draw(seed, 5, 2) % 2;
        let slugs = [a, a + step, a + 2 * step, a + 3 * step];
        let k = usize::from(draw(seed, 6, 5) % 5);
        let laying = Laying { rule, pieces, seed };
        Ok(Listed {
            vertices: pieces,
            ends: laying.ends(alloc, tabs)?,
            excluded: slugs[..k].to_vec(alloc)?,
        })
    }
}

// A number below the bound; 0 if that is 0.
fn below(x: u32, bound: u16) -> u16
    ensures { result ≤ bound }
{
    if bound == 0 {
        return 0;
    }
    (x % u32::from(bound)) as u16
}

// The same of the i-th random number for a seed.
pub(crate) fn draw(seed: u32, i: u32, bound: u16) -> u16
    ensures { result ≤ bound }
{
    below(stirred(stirred(seed, i), 5), bound)
}

fn stirred(seed: u32, i: u32) -> u32 {
    let x = ((u64::from(seed) * 48271 + u64::from(i) * 69621 + 1) % 2147483647) as u32;
    x ^ x / 65536
}

// The rules by which tabs are laid.
#[derive(Clone, Copy)]
pub(crate) enum Rule {
    // a path, its tabs numbered backwards
    Backwards,
    Scattered,
    // at least four bodies, where the number of pieces is a multiple of four
    Bodies,
    // scattered, and one too many for a plan
    TooMany,
    // a path of double tabs
    Doubled,
    Star,
    // three tabs side by side each time
    Tripled,
}

impl From<u16> for Rule {
    fn from(number: u16) -> Rule {
        match number {
            0 => Rule::Backwards,
            1 => Rule::Scattered,
            2 => Rule::Bodies,
            3 => Rule::TooMany,
            4 => Rule::Doubled,
            5 => Rule::Star,
            _ => Rule::Tripled,
        }
    }
}

// A random choice among so many pieces, and the rule by which tabs are laid between them.
#[derive(Clone, Copy)]
struct Laying {
    rule: Rule,
    pieces: u16,
    seed: u32,
}

impl Laying {
    // The ends of so many tabs.
    fn ends(self, alloc: Global, tabs: u16) -> Result<Vec<u16>, AllocError> {
        let mut ends = Vec::new(alloc);
        for tab in 0..tabs {
            let begin = self.begin(tab);
            let step = self.step(tab);
            ends.push(below(u32::from(begin), self.pieces))?;
            ends.push(below(u32::from(begin) + u32::from(step), self.pieces))?;
        }
        Ok(ends)
    }

    // Where a tab begins.
    fn begin(self, tab: u16) -> u16 {
        match self.rule {
            Rule::Backwards => 64998 - tab % 4001,
            Rule::Doubled => tab / 2,
            Rule::Star => 0,
            Rule::Scattered | Rule::Bodies | Rule::TooMany => self.draw(10000, tab, self.pieces),
            Rule::Tripled => self.draw(10000, tab / 3, self.pieces),
        }
    }

    // How many pieces further it ends, less than there are. Where that is always a multiple of four, and so is the number of pieces, there are
    // four bodies at least.
    fn step(self, tab: u16) -> u16 {
        let most = self.pieces.saturating_sub(1).max(1);
        match self.rule {
            Rule::Backwards | Rule::Doubled => 1,
            Rule::Bodies if most < 4 => 1,
            Rule::Bodies => self.draw(20000, tab, most / 4) % 250 * 4 + 4,
            Rule::Scattered | Rule::TooMany => self.draw(20000, tab, most) % 1000 + 1,
            Rule::Star => below(u32::from(tab), most) % 1000 + 1,
            Rule::Tripled => below(u32::from(tab / 3), most) % 1000 + 1,
        }
    }

    // A random number for a tab.
    fn draw(self, from: u16, tab: u16, bound: u16) -> u16 {
        draw(self.seed, u32::from(from) + u32::from(tab), bound)
    }
}
