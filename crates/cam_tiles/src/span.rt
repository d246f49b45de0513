//! Numbers side by side: of rows, of columns, of tiles.

ghost use Rattle.std.specs.Prelude.{◌↔◌, ◌⊎◌, ◌+◌, ◌/◌, ◌<◌, ◌≤◌, ℕ, IfSome};
ghost use Rattle.std.specs.Int.{IsBitSet};
ghost use Rattle.cam_tiles.specs.Machinery.Spans.{HasPixelOf};

/// Those from `first` on, and before `end`; none where `end` is not past `first`.
#[derive(Clone, Copy)]
pub(crate) struct Span {
    pub(crate) first: u32,
    pub(crate) end: u32,
}

impl Span {
    /// None.
    pub(crate) const NONE: Span = Span { first: 0, end: 0 };

    /// The columns or rows of a tile.
    pub(crate) const WHOLE: Span = Span { first: 0, end: 64 };

    /// As bits: bit k for number k.
    pub(crate) fn bits(self) -> u64
        requires some { self.first < self.end }
        requires few { self.end ≤ 64 }
        ensures { (k : ℕ) → k < 64 → IsBitSet result k ↔ ((self.first ≤ k) × (k < self.end)) }
    {
        (u64::MAX >> (64 - self.end)) & (u64::MAX << self.first)
    }

    /// The tiles that have pixels of it, where its numbers are pixels.
    #[inline]
    pub(crate) fn tiles(self) -> Span
        ensures each { (tile : ℕ) → ((result.first ≤ tile) × (tile < result.end)) ↔ HasPixelOf self tile }
        ensures ordered { result.first ≤ result.end }
        ensures few { result.end ≤ (self.end + 63) / 64 }
    {
        if self.end <= self.first {
            return Span::NONE;
        }
        Span {
            first: self.first / 64,
            end: self.end.div_ceil(64),
        }
    }

    /// Those of it and of another, where they are side by side.
    #[inline]
    pub(crate) fn united(self, other: Span) -> Option<Span>
        ensures { IfSome result (λ s. (k : ℕ) → ((s.first ≤ k) × (k < s.end))
            ↔ (((self.first ≤ k) × (k < self.end)) ⊎ ((other.first ≤ k) × (k < other.end)))) }
    {
        if other.end <= other.first {
            return Some(self);
        }
        if self.end <= self.first {
            return Some(other);
        }
        if self.end < other.first || other.end < self.first {
            return None;
        }
        Some(Span {
            first: other.first.min(self.first),
            end: other.end.max(self.end),
        })
    }

    /// Those of it that are not in another: what is before this, and what is behind.
    #[inline]
    pub(crate) fn without(self, out: Span) -> (Span, Span)
        ensures { (k : ℕ) → (((result.0.first ≤ k) × (k < result.0.end)) ⊎ ((result.1.first ≤ k) × (k < result.1.end)))
            ↔ (((self.first ≤ k) × (k < self.end)) × (((out.first ≤ k) × (k < out.end)) → ⊥)) }
    {
        if out.end <= out.first {
            return (self, Span::NONE);
        }
        let before = Span {
            first: self.first,
            end: self.end.min(out.first),
        };
        let behind = Span {
            first: self.first.max(out.end),
            end: self.end,
        };
        (before, behind)
    }
}
