// Sets of vertices or of edges, of which there are at most 16: a number with a bit for each.
ghost use Rattle.std.specs.Prelude.{◌<◌, ◌^◌};

#[derive(Clone, Copy, PartialEq, Eq, Default)]
pub struct Set {
    bits: u32,
}

impl Set {
    pub const EMPTY: Set = Set { bits: 0 };

    // The set of one number; of none, if it is 16 or more.
    pub fn of(number: u16) -> Self {
        Set {
            bits: if number < 16 { 1 << number } else { 0 },
        }
    }

    // The set of those below 16 that pass a test.
    pub fn of_all<F: Fn(u16) -> bool>(test: F) -> Self
        requires { F.IsAlwaysCallable test }
    {
        let mut set = Set::EMPTY;
        for number in 0..16 {
            if test(number) {
                set = set.with(number);
            }
        }
        set
    }

    pub fn with(self, number: u16) -> Self {
        self.or(Set::of(number))
    }

    pub fn or(self, other: Set) -> Self {
        Set {
            bits: self.bits | other.bits,
        }
    }

    pub fn and(self, other: Set) -> Self {
        Set {
            bits: self.bits & other.bits,
        }
    }

    pub fn without(self, other: Set) -> Self {
        Set {
            bits: self.bits & !other.bits,
        }
    }

    // The set of its lowest number.
    pub fn lowest(self) -> Self {
        Set {
            bits: self.bits & self.bits.wrapping_neg(),
        }
    }

    pub fn has(self, number: u16) -> bool {
        self.meets(Set::of(number))
    }

    pub fn meets(self, other: Set) -> bool {
        self.and(other) != Set::EMPTY
    }

    pub fn count(self) -> usize
        ensures { result < 2 ^ 32 }
    {
        self.bits.count_ones() as usize
    }
}
