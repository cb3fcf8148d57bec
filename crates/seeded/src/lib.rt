//! Random numbers for tests: the same seed gives the same numbers.
#![tactic(auto)]

ghost use Rattle.std.specs.Prelude.{◌≡◌, ◌<◌, ◌≤◌, IsTrue};

/// The generator SplitMix64 (Steele, Lea, Flood, *Fast splittable pseudorandom number generators*, 2014).
#[derive(Clone, Copy)]
pub struct Random {
    state: u64,
}

impl Random {
    pub fn new(seed: u64) -> Random {
        Random { state: seed }
    }

    /// The next number.
    pub fn next(&mut self) -> u64 {
        self.state = self.state.wrapping_add(0x9e37_79b9_7f4a_7c15);
        let mixed = (self.state ^ (self.state >> 30)).wrapping_mul(0xbf58_476d_1ce4_e5b9);
        let mixed = (mixed ^ (mixed >> 27)).wrapping_mul(0x94d0_49bb_1331_11eb);
        mixed ^ (mixed >> 31)
    }

    /// A number below this one; 0 if this one is 0.
    pub fn below(&mut self, bound: u32) -> u32
        ensures below { 0 < bound → result < bound }
        ensures none { bound ≡ 0 → result ≡ 0 }
    {
        let drawn = (self.next() >> 32) as u32;
        if bound == 0 { 0 } else { drawn % bound }
    }

    /// Whether something happens that happens once in this many times: always, if these are 0 or 1.
    pub fn once_in(&mut self, times: u32) -> bool
        ensures { times ≤ 1 → IsTrue result }
    {
        self.below(times) == 0
    }

    /// A place in a sequence of this length; 0 if it is empty.
    pub fn place(&mut self, length: usize) -> usize
        ensures within { 0 < length → result < length }
        ensures none { length ≡ 0 → result ≡ 0 }
    {
        let drawn = (self.next() >> 32) as usize;
        if length == 0 { 0 } else { drawn % length }
    }
}
