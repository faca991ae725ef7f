// Numbers drawn by chance.
ghost use Rattle.std.specs.Prelude.{◌≡◌, ◌<◌, ◌≤◌, max, true};

// A generator of numbers: the same state goes on to the same numbers.
#[derive(Clone, Copy)]
pub struct Chance {
    pub state: u64,
}

impl Chance {
    // Steps the state by an odd number, and mixes its bits.
    fn next(&mut self) -> u64 {
        self.state = self.state.wrapping_add(0x9e37_79b9_7f4a_7c15);
        let mixed = (self.state ^ (self.state >> 30)).wrapping_mul(0xbf58_476d_1ce4_e5b9);
        let mixed = (mixed ^ (mixed >> 27)).wrapping_mul(0x94d0_49bb_1331_11eb);
        mixed ^ (mixed >> 31)
    }

    // A number below a bound; a bound of 0 counts as 1.
    pub fn below(&mut self, bound: usize) -> usize
        ensures { result < max bound 1 }
    {
        let bound = bound.max(1) as u64;
        (self.next() % bound) as usize
    }

    // Whether what happens once in so many times happens now. What happens every time does.
    pub fn one_in(&mut self, times: usize) -> bool
        ensures { times ≤ 1 → result ≡ true }
    {
        self.below(times) == 0
    }
}
