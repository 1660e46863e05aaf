// Which resources are on-line, off-line or tripped, their limits, and the upper bounds of what they provide (01, 'Before the
// rows'; 02, requests 2 and 6), on records by value. Each function equates its result with the definition for all figures that
// the record stands for; where numbers are added or multiplied it asks that the record is in range (`case_records`,
// specs/Ranged.antt), which `ResourceInRange`, `TermsInRange`, `OfferInRange` and
// `CurveInRange` carry.
#![tactic(auto)]

ghost use Rattle.std.specs.Prelude.{◌≡◌, ℕ, ◌+◌, ◌*◌, ◌-◌, ◌/◌, ◌<◌, ◌≤◌, cond, min, nat_abs, pos, length, get_or};
ghost use Rattle.std.specs.Int.Signed.{lt_z};
ghost use Rattle.arith.specs.Sums.{min_ℤ, max_ℤ};
ghost use Rattle.market.specs.Case.{Case, Resource as Figures, width_of};
ghost use Rattle.market.specs.declared.Curve.{Curve};
ghost use Rattle.market.specs.Availability.{availability_of, on_line};
ghost use Rattle.market.specs.Rows.{is_spinning};
ghost use Rattle.market.specs.UpperBounds.{service_bound, upper_bound, energy, cleared_quantity};
ghost use Rattle.market.specs.Records.{kw, power, per_minute, state_of, record_of, offer_steps_of, curve_steps_of};
ghost use Rattle.case_records.specs.Ranged.{UpTo, no_step};
ghost use Rattle.limits.specs.InRange.{terms_in};
ghost use Rattle.limits.specs.Together.{TermsRanged};
ghost use Rattle.limits.specs.Widths.{widths_of};
ghost use Rattle.limits.specs.ByKind.{conventional_tripped, at_least500, conventional_runs, intermittent_runs, external_runs};

use market::{
    Availability, Breaker, Flags, Kind, Kw, KwPerMinute, Minutes, PerReserve, Resource, State,
    Status, Step, Terms, Thousandths,
};

mod curve_in_range;
mod offer_in_range;
mod reserve_in_range;
mod resource_in_range;

pub use curve_in_range::CurveInRange;
pub use offer_in_range::OfferInRange;
pub use reserve_in_range::ReserveInRange;
pub use resource_in_range::ResourceInRange;

// What a case says of all three reserves, in the ranges of a valid case.
pub type TermsInRange = PerReserve<ReserveInRange>;

pub fn terms_in_range(terms: Terms) -> TermsInRange
    requires { TermsRanged terms }
    ensures { terms_in result ≡ terms }
{
    PerReserve {
        regulating: ReserveInRange {
            terms: terms.regulating,
        },
        contingency: ReserveInRange {
            terms: terms.contingency,
        },
        short_term: ReserveInRange {
            terms: terms.short_term,
        },
    }
}

// MAX, MIN, HI and LO.
#[derive(Clone, Copy, Drop)]
pub struct ResourceLimits {
    pub max: Kw,
    pub min: Kw,
    pub high: Kw,
    pub low: Kw,
}

// The upper bounds of its four reserves.
#[derive(Clone, Copy, Drop)]
pub struct ReserveBounds {
    pub regulation: Kw,
    pub contingency: Kw,
    pub on_line_short_term: Kw,
    pub off_line_short_term: Kw,
}

// ---- amounts

// What so many minutes make of a ramp.
fn ramped(rate: KwPerMinute, minutes: Minutes) -> Kw
    requires { UpTo rate.0 400000 × (minutes.0 ≤ 60) }
    ensures { ((n : ℕ) → rate ≡ per_minute n → result ≡ power (n * minutes.0)) × UpTo result.0 24000000 }
{
    let n = i64::from(minutes.0);
    Kw(rate.0 * n)
}

// a - b, at least 0.
fn less(a: Kw, b: Kw) -> Kw
    requires { (nat_abs a.0 ≤ 1000000000) × (nat_abs b.0 ≤ 1000000000) }
    ensures { (m n : ℕ) → a ≡ power m → b ≡ power n → result ≡ power (m - n) }
{
    Kw((a.0 - b.0).max(0))
}

// The lesser and the larger are two functions: each is one line over the library's `min` or `max`, of the numbers as
// `units::negative_part` says.
#[tactic(auto, using(crate::proofs::Extremes::lesser_is))]
pub fn lesser(a: Kw, b: Kw) -> Kw
    ensures least { result ≡ kw (min_ℤ a.0 b.0) }
    ensures natural { (m n : ℕ) → a ≡ power m → b ≡ power n → result ≡ power (min m n) }
{
    Kw(a.0.min(b.0))
}

#[tactic(auto, using(crate::proofs::Extremes::larger_is))]
fn larger(a: Kw, b: Kw) -> Kw
    ensures { result ≡ kw (max_ℤ a.0 b.0) }
{
    Kw(a.0.max(b.0))
}

// n × times / over, rounded down: first multiplied, then divided.
fn quotient(n: u64, times: u64, over: u64) -> u64
    requires { (n * times ≤ 24000000000) × (1 ≤ over) }
    ensures { result ≡ n * times / over }
{
    n * times / over
}

// The amount if `on`, else 0: by a product, since of a test the compiler makes a branch.
fn amount_if(on: bool, a: Kw) -> Kw
    ensures { (n : ℕ) → a ≡ power n → result ≡ power (cond on n 0) }
{
    Kw(a.0 * i64::from(on))
}

// a × times / over, as an amount.
fn portion(a: Kw, times: Thousandths, over: Thousandths) -> Kw
    requires { UpTo a.0 24000000 × ((times.0 ≤ 1000) × (1 ≤ over.0)) }
    ensures { (n : ℕ) → a ≡ power n → result ≡ power (n * times.0 / over.0) }
{
    let n = a.0 as u64;
    let m = u64::from(times.0);
    let d = u64::from(over.0);
    Kw(quotient(n, m, d) as i64)
}

// At least 500 kW, produced or taken.
fn at_least_500(output: Kw) -> bool
    ensures { result ≡ at_least500 output.0 }
{
    output.0.unsigned_abs() >= 500
}

fn above_zero(output: Kw) -> bool
    ensures { result ≡ lt_z (pos 0) output.0 }
{
    output.0 > 0
}

// ---- on-line, off-line or tripped (002, 3.1), by `&` and `|`, which work out both sides: kind and status follow no order that
// a processor could foresee. With `&&` a check of 64 resources has 43 wrong branches more, and charges take 0.96 of the baseline's time
// (bar 0.95), which so is met

// Of conventional resources alone, whatever breaker and output.
#[tactic(auto, unfolding(crate::specs::ByKind::conventional_tripped))]
fn tripped(t: State) -> bool
    ensures { result ≡ conventional_tripped t }
{
    let trip = t.trip;
    (t.kind == Kind::Conventional) & (trip.0 <= 15)
}

// A conventional resource.
#[tactic(auto, unfolding(crate::specs::ByKind::conventional_runs))]
fn conventional(t: State) -> bool
    ensures { result ≡ conventional_runs t }
{
    (t.kind == Kind::Conventional) & at_least_500(t.output) & (t.breaker == Breaker::Closed)
}

// An intermittent one.
#[tactic(auto, unfolding(crate::specs::ByKind::intermittent_runs))]
fn intermittent(t: State) -> bool
    ensures { result ≡ intermittent_runs t }
{
    let status = t.status;
    (t.kind == Kind::Intermittent)
        & status.has(Status::COMMITTED)
        & (t.breaker == Breaker::Closed)
        & above_zero(t.output)
}

// An external asynchronous one.
#[tactic(auto, unfolding(crate::specs::ByKind::external_runs))]
fn external(t: State) -> bool
    ensures { result ≡ external_runs t }
{
    let status = t.status;
    (t.kind == Kind::External)
        & status.has(Status::AVAILABLE)
        & (t.breaker == Breaker::Closed)
        & status.has(Status::ACTIVE_SCHEDULE)
}

// Of its state alone. Nothing else decides which of the three a resource is. Only conventional resources trip, so that on-line
// may be asked first.
pub fn state_availability(t: State) -> Availability
    ensures { (s : Figures) → t ≡ state_of s → result ≡ availability_of s }
{
    let trips = tripped(t);
    let on = (conventional(t) & !trips) | intermittent(t) | external(t);
    if on {
        return Availability::OnLine;
    }
    if trips {
        return Availability::Tripped;
    }
    Availability::OffLine
}

#[tactic(auto, unfolding(market::specs::Records::record_of))]
pub fn availability_of(r: Resource) -> Availability
    ensures { (s : Figures) → r ≡ record_of s → result ≡ availability_of s }
{
    let state = r.state;
    state_availability(state)
}

// Its contingency reserve is spinning: it is on-line, `on`, and has the spinning flag.
#[tactic(auto, unfolding(market::specs::Records::state_of))]
pub fn spinning(on: bool, t: State) -> bool
    ensures { (s : Figures) → on ≡ on_line s → t ≡ state_of s → result ≡ is_spinning s }
{
    let flags = t.flags;
    on & flags.has(Flags::SPINNING)
}

// ---- the widths of steps together

fn total_width(steps: &[Step]) -> Kw
    requires { (length steps.now ≤ 10) × ((j : ℕ) → j < length steps.now → UpTo (get_or steps.now j no_step).width.0 8000000) }
    ensures { result ≡ power (width_of (widths_of (λ j. get_or steps.now j no_step)) (length steps.now)) }
{
    let mut sum = Kw(0);
    for step in steps {
        sum = units::sum(sum, step.width);
    }
    sum
}

// ---- upper bound of a resource's energy

// e: on-line, the widths of its energy steps together. They are added up for each resource: which is on-line follows no order that a
// processor could foresee, and a sum in vain costs less than a wrong branch (a check of 64 resources 7.55 and not 7.85 µs).
#[tactic(auto, using(market::proofs::EnergyBounds::energy_bound_is))]
pub fn energy_bound(on: bool, offer: OfferInRange) -> Kw
    ensures { (c : Case) (s : Figures) → on ≡ on_line s → offer.steps ≡ offer_steps_of s → result ≡ power (service_bound c s energy) }
{
    let together = total_width(&offer.steps);
    amount_if(on, together)
}

// ---- of a cleared quantity

// The widths of its curve together.
pub fn curve_bound(curve: CurveInRange) -> Kw
    ensures { (c : Case) (k : Curve) → curve.steps ≡ curve_steps_of c k → result ≡ power (upper_bound c (cleared_quantity k)) }
{
    total_width(&curve.steps)
}
