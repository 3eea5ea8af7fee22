// Random plans of up to 8 pieces, 12 tabs and 8 slugs, some of them damaged.
use crate::plan::{Laying, Plan, Rule, Seed, below};
use std::alloc::{AllocError, Global};

// What is wrong with a random plan.
#[derive(Clone, Copy, PartialEq, Eq)]
enum Damage {
    Nothing,
    // One end more.
    OddEnds,
    // No piece, or one.
    FewPieces,
    // 1,001.
    ManyPieces,
    // Ends that are no pieces.
    NoPieces,
    // Tabs from a piece to itself.
    Loops,
    LoopsAndNoPieces,
    // Too little space.
    ShortTable,
    // One of the slugs is another number.
    WrongSlug,
    LoopsAndWrongSlug,
    NoneKeptAndWrongSlug,
    // No piece is kept.
    NoneKept,
    OneKept,
}

impl Damage {
    fn drawn(seed: Seed) -> Damage {
        match seed.draw(5, 64) {
            0 => Damage::OddEnds,
            1 => Damage::FewPieces,
            2 => Damage::ManyPieces,
            3 => Damage::NoPieces,
            4 => Damage::Loops,
            5 => Damage::LoopsAndNoPieces,
            6 => Damage::ShortTable,
            7 | 8 => Damage::WrongSlug,
            9 => Damage::LoopsAndWrongSlug,
            10 => Damage::NoneKeptAndWrongSlug,
            11 => Damage::NoneKept,
            12 => Damage::OneKept,
            _ => Damage::Nothing,
        }
    }

    fn rule(self, seed: Seed) -> Rule {
        match self {
            Damage::Loops | Damage::LoopsAndNoPieces | Damage::LoopsAndWrongSlug => Rule::Loose,
            _ => match seed.draw(3, 4) {
                0 => Rule::Single,
                1 => Rule::Double,
                2 => Rule::Triple,
                _ => Rule::Round,
            },
        }
    }

    // The number of pieces that is handed over.
    fn pieces(self, size: u16) -> u16 {
        match self {
            Damage::FewPieces => size % 2,
            Damage::ManyPieces => 1001,
            Damage::NoPieces | Damage::LoopsAndNoPieces => size / 2,
            _ => size,
        }
    }

    fn is_wrong_slug(self) -> bool {
        matches!(
            self,
            Damage::WrongSlug | Damage::LoopsAndWrongSlug | Damage::NoneKeptAndWrongSlug
        )
    }
}

// A random plan. It has two less tabs than pieces at least. The lent table has up to three numbers more than are needed, or is one too short.
pub(crate) fn plan(alloc: Global, number: u32) -> Result<Plan, AllocError> {
    let seed = Seed(number);
    let damage = Damage::drawn(seed);
    let few = seed.draw(1, 7);
    let size = few + 2;
    let tabs = few + seed.draw(2, 13 - few);
    let laying = Laying {
        rule: damage.rule(seed),
        pieces: size,
        seed,
    };
    let mut ends = laying.ends(alloc, tabs)?;
    if damage == Damage::OddEnds {
        ends.push(laying.first_end(tabs))?;
    }
    let lent = match damage {
        Damage::ShortTable => size - 1,
        _ => size + seed.draw(4, 4),
    };
    Ok(Plan {
        pieces: damage.pieces(size),
        ends,
        slugs: slugs(alloc, seed, size, damage)?,
        lent: usize::from(lent),
    })
}

// Its slugs, ascending, but for a damage.
fn slugs(alloc: Global, seed: Seed, size: u16, damage: Damage) -> Result<Vec<u16>, AllocError> {
    let choice = Choice::drawn(seed, size, damage);
    let mut slugs: Vec<u16> = (0..size)
        .filter(|piece| choice.takes(*piece))
        .collect(alloc)?;
    if damage.is_wrong_slug() {
        if let Some(slug) = slugs.get_mut(usize::from(seed.draw(35, 3))) {
            *slug = seed.draw(36, 10);
        }
    }
    Ok(slugs)
}

// Which pieces are slugs. Several are told by the bits of a number.
#[derive(Clone, Copy)]
enum Choice {
    All,
    Nothing,
    One(u16),
    Several(u16),
    SeveralAndFirst(u16),
    AllButOne(u16),
    AllButTwo(u16, u16),
}

impl Choice {
    // None in a third of the plans.
    fn drawn(seed: Seed, size: u16, damage: Damage) -> Choice {
        let piece = seed.draw(30, size);
        let other = below(
            u32::from(piece) + 1 + u32::from(seed.draw(31, size / 2)),
            size,
        );
        let several = seed.draw(32, 256) & seed.draw(33, 256);
        match damage {
            Damage::NoneKept | Damage::NoneKeptAndWrongSlug => Choice::All,
            Damage::OneKept => Choice::AllButOne(piece),
            _ => match seed.draw(34, 6) {
                0 | 1 => Choice::Nothing,
                2 => Choice::One(piece),
                3 => Choice::Several(several),
                4 => Choice::SeveralAndFirst(several),
                _ => Choice::AllButTwo(piece, other),
            },
        }
    }

    fn takes(self, piece: u16) -> bool {
        match self {
            Choice::All => true,
            Choice::Nothing => false,
            Choice::One(slug) => piece == slug,
            Choice::Several(bits) => has_bit(bits, piece),
            Choice::SeveralAndFirst(bits) => piece == 0 || has_bit(bits, piece),
            Choice::AllButOne(kept) => piece != kept,
            Choice::AllButTwo(kept, other) => piece != kept && piece != other,
        }
    }
}

fn has_bit(bits: u16, place: u16) -> bool {
    bits.checked_shr(u32::from(place)).unwrap_or(0) % 2 == 1
}
