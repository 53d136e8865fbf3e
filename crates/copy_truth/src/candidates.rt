//! Sets of constants of one sort.
#![tactic(auto)]

ghost use Rattle.std.specs.Prelude.{◌≡◌, ◌<◌, ◌==◌, ◌||◌, ℕ, true, false, not, nat_lt};
ghost use Rattle.copy_truth.specs.Candidates.{has_place};

/// Constants of one sort, as bits: those at places from 128 on are always among them.
#[derive(Clone, Copy)]
pub struct Candidates {
    bits: u128,
}

impl Candidates {
    /// As few as there can be.
    pub fn fewest() -> Candidates
        ensures { (place : ℕ) → has_place result place ≡ not (nat_lt place 128) }
    {
        Candidates { bits: 0 }
    }

    /// All constants.
    pub fn all() -> Candidates
        ensures { (place : ℕ) → has_place result place ≡ true }
    {
        Candidates { bits: u128::MAX }
    }

    /// Whether the constant at a place is among them.
    pub fn has(self, place: u64) -> bool
        ensures { result ≡ has_place self place }
    {
        place >= 128 || (self.bits >> place) & 1 == 1
    }

    /// Whether there are as few as there can be.
    pub fn is_fewest(self) -> bool
        ensures { result ≡ true → (place : ℕ) → has_place self place ≡ not (nat_lt place 128) }
    {
        self.bits == 0
    }

    /// Whether none of them stands below a place; it may also answer no for places from 128 on.
    pub fn are_none_below(self, count: u64) -> bool
        ensures { result ≡ true → (place : ℕ) → place < count → has_place self place ≡ false }
    {
        self.is_fewest() && count <= 128
    }

    /// These and one more.
    pub fn with(self, place: u64) -> Candidates
        ensures { (other : ℕ) → has_place result other ≡ (has_place self other || other == place) }
    {
        if place >= 128 {
            return self;
        }
        Candidates {
            bits: self.bits | 1 << place,
        }
    }

    /// These, and one more where this is false.
    pub fn with_false(self, place: u64, value: bool) -> Candidates
        ensures kept { (other : ℕ) → has_place result other ≡ false → has_place self other ≡ false }
        ensures one { (other : ℕ) → has_place result other ≡ false → other ≡ place → value ≡ true }
    {
        if value {
            return self;
        }
        self.with(place)
    }

    /// These and one more, if that is among others.
    pub fn with_one_within(self, place: u64, others: Candidates) -> Candidates
        ensures kept { (other : ℕ) → has_place result other ≡ false → has_place self other ≡ false }
        ensures one { (other : ℕ) → has_place result other ≡ false → has_place others other ≡ true → (other == place) ≡ false }
    {
        if others.has(place) {
            return self.with(place);
        }
        self
    }

    /// How many of them stand below a place, those from 128 on left out.
    pub fn count_below(self, count: u64) -> u32 {
        if count >= 128 {
            return self.bits.count_ones();
        }
        (self.bits & ((1 << count) - 1)).count_ones()
    }

    /// These and others.
    pub fn with_all(self, others: Candidates) -> Candidates
        ensures { (place : ℕ) → has_place result place ≡ (has_place self place || has_place others place) }
    {
        Candidates {
            bits: self.bits | others.bits,
        }
    }
}
