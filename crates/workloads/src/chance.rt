//! Numbers by chance, the same for the same seed.

/// The generator SplitMix64 (Steele, Lea, Flood, *Fast splittable pseudorandom number generators*, 2014).
#[derive(Clone, Copy)]
pub struct Chance {
    state: u64,
}

impl Chance {
    pub fn new(seed: u64) -> Chance {
        Chance { state: seed }
    }

    /// The next number.
    pub fn draw(&mut self) -> u64 {
        self.state = self.state.wrapping_add(0x9e37_79b9_7f4a_7c15);
        let mixed = (self.state ^ (self.state >> 30)).wrapping_mul(0xbf58_476d_1ce4_e5b9);
        let mixed = (mixed ^ (mixed >> 27)).wrapping_mul(0x94d0_49bb_1331_11eb);
        mixed ^ (mixed >> 31)
    }
}

/// The low 16 bits of a number.
pub fn low_16(number: u64) -> u16 {
    (number & 0xffff) as u16
}

/// The low 32 bits of a number.
pub fn low_32(number: u64) -> u32 {
    (number & 0xffff_ffff) as u32
}

/// An order by chance of all numbers of 16 bits: each stands at one place. A key gives an order.
pub fn in_order(place: u16, key: u64) -> u16 {
    let mixed = place.wrapping_add(low_16(key));
    let mixed = (mixed ^ (mixed >> 7)).wrapping_mul(0x6b4f);
    let mixed = (mixed ^ (mixed >> 9)).wrapping_mul(0xd2a5);
    let mixed = mixed.wrapping_add(low_16(key >> 16));
    mixed ^ (mixed >> 8)
}
