//! Spans of the indices of free variables.

ghost use Rattle.std.specs.Prelude.{◌≡◌, ◌+◌, ◌-◌, ◌<◌, ◌^◌, max};
ghost use Rattle.rz_rules.specs.declared.kinds.Role.TheVariants.{Variable};
ghost use Rattle.rz_rules.specs.declared.kinds.Space.{Space};
ghost use Rattle.rz_rules.specs.Form.{bound};
ghost use Rattle.rz_pool.specs.Spans.{span_of, lesser};
ghost use Rattle.rz_pool.specs.Free.{bound_here, least_here};

use rz_rules::{Slot, Space};

/// The indices of some variables of a space: none is below `least`, and none is `bound` or more.
/// There is no variable where the bound is 0.
#[derive(Clone, Copy, Debug)]
pub struct Span {
    pub least: u64,
    pub bound: u64,
}

/// For each space a span.
#[derive(Clone, Copy, Debug)]
pub struct Spans {
    pub points: Span,
    pub terms: Span,
}

impl Span {
    /// The span of no variable.
    pub const EMPTY: Span = Span { least: 0, bound: 0 };

    /// The span of the variables that stand under so many binders, as it is outside of these.
    fn outside(self, binders: u8) -> Span
        ensures least { result.least ≡ self.least - binders }
        ensures bound { result.bound ≡ self.bound - binders }
    {
        Span {
            least: self.least.saturating_sub(u64::from(binders)),
            bound: self.bound.saturating_sub(u64::from(binders)),
        }
    }

    /// The span around two.
    fn joined(self, other: Span) -> Span
        ensures least { result.least ≡ lesser self.bound self.least other.bound other.least }
        ensures bound { result.bound ≡ max self.bound other.bound }
    {
        if self.bound == 0 {
            return other;
        }
        if other.bound == 0 {
            return self;
        }
        Span {
            least: self.least.min(other.least),
            bound: self.bound.max(other.bound),
        }
    }

    /// The span with an index more.
    fn with(self, index: u64) -> Span
        requires { index < 2 ^ 32 }
        ensures least { result.least ≡ lesser (index + 1) index self.bound self.least }
        ensures bound { result.bound ≡ max (index + 1) self.bound }
    {
        let here = Span {
            least: index,
            bound: index + 1,
        };
        here.joined(self)
    }
}

impl Spans {
    /// The spans of no variable.
    pub const EMPTY: Spans = Spans {
        points: Span::EMPTY,
        terms: Span::EMPTY,
    };

    /// The span of a space.
    pub fn of(self, space: Space) -> Span
        ensures { result ≡ span_of self space }
    {
        match space {
            Space::Points => self.points,
            Space::Terms => self.terms,
        }
    }

    /// The spans with the index of a variable of a space.
    pub fn with(self, space: Space, index: u64) -> Spans
        requires { index < 2 ^ 32 }
        ensures least { (view : Space) → (span_of result view).least
            ≡ least_here view (Variable space) index (span_of self view).bound
            (span_of self view).least }
        ensures bound { (view : Space) → (span_of result view).bound
            ≡ bound_here view (Variable space) index (span_of self view).bound }
    {
        match space {
            Space::Points => Spans {
                points: self.points.with(index),
                terms: self.terms,
            },
            Space::Terms => Spans {
                points: self.points,
                terms: self.terms.with(index),
            },
        }
    }

    /// The spans around two, of which the second is that of a kid at a place.
    pub fn joined(self, kid: Spans, slot: Slot) -> Spans
        ensures least { (space : Space) → (span_of result space).least
            ≡ lesser (span_of self space).bound (span_of self space).least
            ((span_of kid space).bound - bound slot space)
            ((span_of kid space).least - bound slot space) }
        ensures bound { (space : Space) → (span_of result space).bound
            ≡ max (span_of self space).bound ((span_of kid space).bound - bound slot space) }
    {
        Spans {
            points: self.points.joined(kid.points.outside(slot.points)),
            terms: self.terms.joined(kid.terms.outside(slot.terms)),
        }
    }
}
