// Random numbers, each from the one before (Lehmer's generator with factor 48271).
ghost use Rattle.std.specs.Prelude.{◌≤◌};

#[derive(Clone, Copy)]
pub struct Random {
    state: u32,
}

impl Random {
    pub fn new(seed: u32) -> Self {
        Random { state: seed }
    }

    // The next number.
    pub fn number(&mut self) -> u32 {
        self.state = (u64::from(self.state) * 48271 % 2147483647) as u32;
        self.state
    }

    // The next number, brought below the bound.
    pub fn below(&mut self, bound: u16) -> u16
        ensures { result ≤ bound }
    {
        let number = self.number();
        below(number, bound)
    }

    // Where the generator is after some numbers more.
    pub fn later(self, count: u16) -> Self {
        let mut random = self;
        for _ in 0..count {
            random.number();
        }
        random
    }
}

// A number brought below the bound; 0 if that is 0.
pub fn below(number: u32, bound: u16) -> u16
    ensures { result ≤ bound }
{
    if bound == 0 {
        return 0;
    }
    (number % u32::from(bound)) as u16
}
