// A case with a certificate that is past 13, with what is kept of its resources.
ghost use Rattle.std.specs.Prelude.{◌≡◌, ◌<◌};
ghost use Rattle.prices.specs.PricedCase.{the_case};
ghost use Rattle.capabilities.specs.Kept.{Kept};

use crate::Capability;
use limits::{ReserveBounds, ResourceLimits};
use prices::BoundedCase;

#[derive(Clone, Copy)]
pub struct KeptCase<'a> {
    pub bounded: BoundedCase<'a>,
    pub kept: &'a [Capability],
    pub ghost decided: { Kept (the_case bounded.priced) bounded.priced.case.resources kept.now },
}

impl<'a> KeptCase<'a> {
    ghost use Rattle.market.specs.Availability.{on_line};
    ghost use Rattle.market.specs.Rows.{is_spinning};
    ghost use Rattle.limits.specs.Together.{limits_of, reserve_bounds_of};

    pub fn new(bounded: BoundedCase<'a>, kept: &'a [Capability]) -> Self
        requires { Kept (the_case bounded.priced) bounded.priced.case.resources kept.now }
        ensures bounded { result.bounded ≡ bounded.entry }
        ensures kept { result.kept ≡ kept.entry }
    {
        KeptCase { bounded, kept }
    }

    // ---- what is kept of resource i

    #[tactic(auto, using(crate::proofs::Places::kept_at), unfolding(crate::specs::Kept::capability_of))]
    pub fn on_line(&self, i: usize) -> bool
        requires { i < self.now.bounded.priced.case.resources }
        ensures { result ≡ on_line ((the_case self.now.bounded.priced).resource i) }
    {
        self.kept[i].on_line
    }

    #[tactic(auto, using(crate::proofs::Places::kept_at), unfolding(crate::specs::Kept::capability_of))]
    pub fn spinning(&self, i: usize) -> bool
        requires { i < self.now.bounded.priced.case.resources }
        ensures { result ≡ is_spinning ((the_case self.now.bounded.priced).resource i) }
    {
        self.kept[i].spinning
    }

    #[tactic(auto, using(crate::proofs::Places::kept_at), unfolding(crate::specs::Kept::capability_of))]
    pub fn limits(&self, i: usize) -> ResourceLimits
        requires { i < self.now.bounded.priced.case.resources }
        ensures { result ≡ limits_of ((the_case self.now.bounded.priced).resource i) }
    {
        self.kept[i].limits
    }

    #[tactic(auto, using(crate::proofs::Places::kept_at), unfolding(crate::specs::Kept::capability_of))]
    pub fn bounds(&self, i: usize) -> ReserveBounds
        requires { i < self.now.bounded.priced.case.resources }
        ensures { result ≡ reserve_bounds_of (the_case self.now.bounded.priced) ((the_case self.now.bounded.priced).resource i) }
    {
        self.kept[i].bounds
    }
}
