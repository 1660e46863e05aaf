// A resource's record in the ranges of a valid case, and what is worked out of it: its limits, and the upper bounds of its
// reserves.
ghost use Rattle.std.specs.Prelude.{◌≡◌, cond, ◌||◌, ℕ, min};
ghost use Rattle.market.specs.Bits.{has, regulating_flag, spinning_flag, on_line_supplemental};
ghost use Rattle.market.specs.Case.{Case, Resource as Figures};
ghost use Rattle.market.specs.declared.Reserve.{Reserve};
ghost use Rattle.market.specs.Availability.{availability_of, on_line};
ghost use Rattle.market.specs.declared.Availability.TheVariants.{OnLine, OffLine};
ghost use Rattle.market.specs.Limits.{max_of, min_of, hi_of, lo_of, ramp_floor};
ghost use Rattle.market.specs.UpperBounds.{ramp_of, on_line_bound};
ghost use Rattle.market.specs.Records.{kw, power, record_of, reserve_terms_of, terms_of};
ghost use Rattle.case_records.specs.Ranged.{Ranged};

use crate::{
    ReserveBounds, ReserveInRange, ResourceLimits, TermsInRange, larger, less, lesser, portion,
    ramped,
};
use market::{Availability, Flags, Kw, Minutes, Resource, State, Status, Thousandths};

#[derive(Clone, Copy, Drop)]
pub struct ResourceInRange {
    pub resource: Resource,
    pub ghost ranged: { Ranged resource },
}

// ---- limits: whether the resource is on-line, `on`, is decided once for all of them

fn regulates(flags: Flags) -> bool
    ensures { result ≡ regulating_flag flags.0 }
{
    flags.has(Flags::REGULATING)
}

// The emergency limit if its flag, `releases`, is set, else the regulating one if the resource regulates, else the economic.
fn in_force(flags: Flags, releases: Flags, emergency: Kw, regulating: Kw, economic: Kw) -> Kw
    ensures { result ≡ cond (has releases.0 flags.0) emergency (cond (regulating_flag flags.0) regulating economic) }
{
    if flags.has(releases) {
        return emergency;
    }
    if regulates(flags) {
        return regulating;
    }
    economic
}

// MAX. What it has in common with MIN is `in_force`; the flag, the figures and what holds off-line differ.
#[tactic(auto, unfolding(market::specs::Limits::max_of, market::specs::Records::record_of, market::specs::Records::output_limits_of, market::specs::Records::state_of))]
fn max_limit(on: bool, r: Resource) -> Kw
    ensures { (s : Figures) → on ≡ on_line s → r ≡ record_of s → result ≡ power (max_of s) }
{
    let limits = r.limits;
    if !on {
        return limits.economic_max;
    }
    in_force(
        r.state.flags,
        Flags::EMERGENCY_MAXIMUM,
        limits.emergency_max,
        limits.regulating_max,
        limits.economic_max,
    )
}

// MIN
#[tactic(auto, unfolding(market::specs::Limits::min_of, market::specs::Records::record_of, market::specs::Records::output_limits_of, market::specs::Records::state_of))]
fn min_limit(on: bool, r: Resource) -> Kw
    ensures { (s : Figures) → on ≡ on_line s → r ≡ record_of s → result ≡ kw (min_of s) }
{
    if !on {
        return Kw(0);
    }
    let limits = r.limits;
    in_force(
        r.state.flags,
        Flags::EMERGENCY_MINIMUM,
        limits.emergency_min,
        limits.regulating_min,
        limits.economic_min,
    )
}

// Spinning, or on-line supplemental.
fn carries_contingency(t: State) -> bool
    ensures { result ≡ (spinning_flag t.flags.0 || on_line_supplemental t.status.0) }
{
    let flags = t.flags;
    if flags.has(Flags::SPINNING) {
        return true;
    }
    let status = t.status;
    status.has(Status::ON_LINE_SUPPLEMENTAL)
}

// Of a reserve off-line: if the flag for it is set, `flagged`, the response, at most the economic maximum.
#[tactic(auto, unfolding(market::specs::Records::record_of, market::specs::Records::output_limits_of))]
fn off_line_bound(flagged: bool, r: Resource, response: Kw) -> Kw
    ensures { (s : Figures) (n : ℕ) → r ≡ record_of s → response ≡ power n → result ≡ power (cond flagged (min s.economic_max n) 0) }
{
    if !flagged {
        return Kw(0);
    }
    lesser(r.limits.economic_max, response)
}

impl ResourceInRange {
    ghost use Rattle.limits.specs.Together.{limits_of, reserve_bounds_when, reserve_bounds_of};
    ghost use Rattle.limits.specs.InRange.{terms_in};

    // HI
    #[tactic(auto, unfolding(market::specs::Limits::hi_of, market::specs::Records::record_of, market::specs::Records::output_limits_of))]
    fn high_limit(self, on: bool) -> Kw
        ensures { (s : Figures) → on ≡ on_line s → self.resource ≡ record_of s → result ≡ kw (hi_of s) }
    {
        if !on {
            return self.resource.limits.economic_max;
        }
        let climb = ramped(self.resource.ramps.up, Minutes(5));
        units::sum(self.resource.other_powers.initial, climb)
    }

    // What five minutes of ramp leave of the initial energy.
    fn ramp_floor(self) -> Kw
        ensures { (s : Figures) → self.resource ≡ record_of s → result ≡ kw (ramp_floor s) }
    {
        let fall = ramped(self.resource.ramps.down, Minutes(5));
        less(self.resource.other_powers.initial, fall)
    }

    // LO, of its MAX, `most`, and its HI, `high`: a self-schedule above either of them yields (02, request 6).
    #[tactic(auto, unfolding(market::specs::Limits::lo_of, market::specs::Records::record_of, market::specs::Records::other_powers_of, market::specs::Records::state_of))]
    fn low_limit(self, on: bool, most: Kw, high: Kw) -> Kw
        ensures { (s : Figures) → on ≡ on_line s → most ≡ power (max_of s) → high ≡ kw (hi_of s) → self.resource ≡ record_of s → result ≡ kw (lo_of s) }
    {
        if !on {
            return Kw(0);
        }
        let floor = self.ramp_floor();
        let flags = self.resource.state.flags;
        if !flags.has(Flags::SELF_SCHEDULED) {
            return floor;
        }
        let in_reach = lesser(high, lesser(most, self.resource.other_powers.self_schedule));
        larger(floor, in_reach)
    }

    #[tactic(auto, unfolding(crate::specs::Together::limits_of))]
    pub fn limits(self, on: bool) -> ResourceLimits
        ensures { (s : Figures) → on ≡ on_line s → self.resource ≡ record_of s → result ≡ limits_of s }
    {
        let most = max_limit(on, self.resource);
        let high = self.high_limit(on);
        ResourceLimits {
            max: most,
            min: min_limit(on, self.resource),
            high: high,
            low: self.low_limit(on, most, high),
        }
    }

    // ---- of a reserve on-line

    // RAMP
    #[tactic(auto, unfolding(market::specs::UpperBounds::ramp_of, market::specs::Records::reserve_terms_of, market::specs::Records::record_of, market::specs::Records::ramps_of))]
    fn ramp_bound(self, reserve: ReserveInRange) -> Kw
        ensures { (c : Case) (p : Reserve) (s : Figures) → reserve.terms ≡ reserve_terms_of c p → self.resource ≡ record_of s → result ≡ power (ramp_of c p s) }
    {
        let climb = ramped(self.resource.ramps.rate, reserve.terms.minutes);
        portion(climb, Thousandths::ONE, reserve.terms.multiplier)
    }

    // If the resource carries it, `carries`, the least of RAMP, SHARE and MAX, which is `most`.
    #[tactic(auto, unfolding(market::specs::UpperBounds::on_line_bound))]
    fn on_line_bound(self, carries: bool, most: Kw, reserve: ReserveInRange) -> Kw
        ensures { (c : Case) (p : Reserve) (s : Figures) → most ≡ power (max_of s) → reserve.terms ≡ reserve_terms_of c p → self.resource ≡ record_of s → result ≡ power (cond carries (on_line_bound c p s) 0) }
    {
        if !carries {
            return Kw(0);
        }
        let ramp = self.ramp_bound(reserve);
        let share = reserve.share();
        lesser(ramp, lesser(share, most))
    }

    // ---- of its four reserves, on-line and off-line: each figure has a rule of its own in either

    #[tactic(auto, unfolding(crate::specs::Together::reserve_bounds_when, market::specs::UpperBounds::bound_when, market::specs::Records::terms_of, market::specs::Records::record_of, market::specs::Records::state_of))]
    fn on_line_bounds(self, most: Kw, terms: TermsInRange) -> ReserveBounds
        ensures { (c : Case) (s : Figures) → most ≡ power (max_of s) → terms_in terms ≡ terms_of c → self.resource ≡ record_of s → result ≡ reserve_bounds_when OnLine c s }
    {
        let state = self.resource.state;
        let regulates = regulates(state.flags);
        let contingency = carries_contingency(state);
        let short_term = state.flags.has(Flags::ON_LINE_SHORT_TERM);
        ReserveBounds {
            regulation: self.on_line_bound(regulates, most, terms.regulating),
            contingency: self.on_line_bound(contingency, most, terms.contingency),
            on_line_short_term: self.on_line_bound(short_term, most, terms.short_term),
            off_line_short_term: Kw(0),
        }
    }

    #[tactic(auto, unfolding(crate::specs::Together::reserve_bounds_when, market::specs::UpperBounds::bound_when, market::specs::Records::terms_of, market::specs::Records::record_of, market::specs::Records::state_of, market::specs::Records::other_powers_of))]
    fn off_line_bounds(self, terms: TermsInRange) -> ReserveBounds
        ensures { (c : Case) (s : Figures) → terms_in terms ≡ terms_of c → self.resource ≡ record_of s → result ≡ reserve_bounds_when OffLine c s }
    {
        let flags = self.resource.state.flags;
        let powers = self.resource.other_powers;
        let supplemental = lesser(powers.off_line_response, terms.contingency.share());
        let has_supplemental = flags.has(Flags::OFF_LINE_SUPPLEMENTAL);
        let has_short_term = flags.has(Flags::OFF_LINE_SHORT_TERM);
        ReserveBounds {
            regulation: Kw(0),
            contingency: off_line_bound(has_supplemental, self.resource, supplemental),
            on_line_short_term: Kw(0),
            off_line_short_term: off_line_bound(
                has_short_term,
                self.resource,
                powers.off_line_short_term,
            ),
        }
    }

    // By the three cases. Tripped, it provides nothing.
    pub fn reserve_bounds(
        self,
        most: Kw,
        terms: TermsInRange,
        availability: Availability,
    ) -> ReserveBounds
        ensures { (c : Case) (s : Figures) → most ≡ power (max_of s) → terms_in terms ≡ terms_of c → availability ≡ availability_of s → self.resource ≡ record_of s → result ≡ reserve_bounds_of c s }
    {
        match availability {
            Availability::OnLine => self.on_line_bounds(most, terms),
            Availability::OffLine => self.off_line_bounds(terms),
            Availability::Tripped => ReserveBounds {
                regulation: Kw(0),
                contingency: Kw(0),
                on_line_short_term: Kw(0),
                off_line_short_term: Kw(0),
            },
        }
    }
}
