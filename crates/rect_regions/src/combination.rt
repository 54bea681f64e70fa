// How two sets make another.
ghost use Rattle.std.specs.Prelude.{◌≡◌};

/// Which points stay of those of two sets.
#[derive(Clone, Copy, Debug, PartialEq, Eq)]
pub enum Combination {
    /// The points of either.
    Union,
    /// The points of the one that the other has not.
    Difference,
    /// The points of both.
    Overlap,
}

impl Combination {
    ghost use Rattle.rect_regions.specs.Combinations.{keeps, limit_of};

    /// Whether a point stays, by whether the one set has it and the other.
    pub fn keeps(self, one: bool, other: bool) -> bool
        ensures { result ≡ keeps self one other }
    {
        match self {
            Combination::Union => one || other,
            Combination::Difference => one && !other,
            Combination::Overlap => one && other,
        }
    }

    /// Where nothing is kept any more, if nothing of the one set stands behind the first number and
    /// nothing of the other behind the second.
    pub fn limit(self, one: u32, other: u32) -> u32
        ensures { result ≡ limit_of self one other }
    {
        match self {
            Combination::Union => one.max(other),
            Combination::Difference => one,
            Combination::Overlap => one.min(other),
        }
    }
}
