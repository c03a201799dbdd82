ghost use Rattle.std.specs.Prelude.{◌≡◌, ◌*◌, ◌^◌, ◌≤◌, nat_lt};

/// A fraction: so much over so much.
#[derive(Clone, Copy, Debug)]
pub(crate) struct Fraction {
    pub(crate) over: u128,
    pub(crate) under: u128,
}

impl Fraction {
    /// Whether it is the greater of the two, by exact products.
    pub(crate) fn exceeds(&self, other: &Fraction) -> bool
        requires over { self.now.over ≤ 2 ^ 90 }
        requires under { self.now.under ≤ 2 ^ 26 }
        requires other_over { other.now.over ≤ 2 ^ 90 }
        requires other_under { other.now.under ≤ 2 ^ 26 }
        ensures { result ≡ nat_lt (other.now.over * self.now.under) (self.now.over * other.now.under) }
    {
        other.over * self.under < self.over * other.under
    }
}

/// A position, and what its cleaning is worth.
#[derive(Clone, Copy, Debug)]
pub(crate) struct Weighed {
    pub(crate) position: u32,
    pub(crate) worth: Fraction,
}
