//! Numbers that look random, the same in each run.

/// Draws numbers, one after another, by a linear congruence.
#[derive(Drop)]
pub struct Drawing(u32);

impl Drawing {
    pub fn new() -> Drawing {
        Drawing(1)
    }

    /// A number from 1 to `most`, which is taken as 1 where it is 0.
    pub fn up_to(&mut self, most: u32) -> u32 {
        let next = (u64::from(self.0) * 1_103_515_245 + 12_345) % (1 << 31);
        self.0 = next as u32;
        // the low bits repeat soon
        (self.0 >> 8) % most.max(1) + 1
    }
}
