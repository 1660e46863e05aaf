// What resources give to the four reserve rows, g+c, g+spin, g and s+o, and the sums of that market-wide and in each zone
// (01, 'Rows'). Spin is c of an on-line resource with flag 2.
#![tactic(auto)]

ghost use Rattle.std.specs.Prelude.{◌≡◌, cond, ◌<◌, ◌≤◌, pos, nat_abs};
ghost use Rattle.market.specs.Records.{kw, curve_amounts_of};
ghost use Rattle.reserves.specs.Given.{SumsRoom, given_by, zoned_amounts_of, added_amounts, market_total, zone_totals};
ghost use Rattle.prices.specs.PricedCase.{the_case, the_amounts, case_bytes, certificate_bytes};

use capabilities::KeptCase;
use market::{CurveAmounts, Kw, MOST_ZONES};
use prices::{BoundedAmounts, BoundedCase};

// ---- of one resource

// What of its contingency reserve is spinning.
fn spinning(spins: bool, contingency: Kw) -> Kw
    ensures { result ≡ kw (cond spins contingency.0 (pos 0)) }
{
    if spins {
        return contingency;
    }
    Kw(0)
}

// What amounts give to each row, `spin` being what is spinning.
#[tactic(auto, unfolding(crate::specs::Given::given_by))]
fn given(own: BoundedAmounts, spin: Kw) -> CurveAmounts
    requires { nat_abs spin.0 ≤ 2000000 }
    ensures { result ≡ given_by own.amounts spin }
{
    let a = own.amounts;
    let regulation = a.regulation;
    CurveAmounts {
        operating: units::sum(regulation, a.contingency),
        regulating_plus_spinning: units::sum(regulation, spin),
        regulating: regulation,
        short_term: units::sum(a.on_line_short_term, a.off_line_short_term),
    }
}

// A resource's zone, counted from 1, and what it gives.
#[derive(Clone, Copy, Drop)]
struct ZonedAmounts {
    zone: u8,
    amounts: CurveAmounts,
}

// Of resource i.
fn reserve_given(kept: &KeptCase<'_>, i: usize) -> ZonedAmounts
    requires { i < kept.now.bounded.priced.case.resources }
    ensures { result ≡ zoned_amounts_of (the_case kept.now.bounded.priced) (the_amounts kept.now.bounded.priced) i }
{
    let resource = kept.bounded.priced.case.resource(i);
    let own = kept.bounded.amounts(i);
    let spin = spinning(kept.spinning(i), own.amounts.contingency);
    let amounts = given(own, spin);
    ZonedAmounts {
        zone: resource.state.zone,
        amounts,
    }
}

fn nothing() -> CurveAmounts
    ensures { result ≡ curve_amounts_of (λ k. pos 0) }
{
    CurveAmounts {
        operating: Kw(0),
        regulating_plus_spinning: Kw(0),
        regulating: Kw(0),
        short_term: Kw(0),
    }
}

// ---- sums

#[tactic(auto, unfolding(crate::specs::Given::added_amounts))]
fn amounts_sum(a: CurveAmounts, b: CurveAmounts) -> CurveAmounts
    requires { SumsRoom a b }
    ensures { result ≡ added_amounts a b }
{
    CurveAmounts {
        operating: units::sum(a.operating, b.operating),
        regulating_plus_spinning: units::sum(
            a.regulating_plus_spinning,
            b.regulating_plus_spinning,
        ),
        regulating: units::sum(a.regulating, b.regulating),
        short_term: units::sum(a.short_term, b.short_term),
    }
}

// What all resources give to the market's rows, and those of each zone to its rows. Zones count from 0 here,
// from 1 in the file.
#[derive(Clone, Copy)]
pub struct ReserveTotals<'a> {
    pub bounded: BoundedCase<'a>,
    pub market: CurveAmounts,
    pub zones: [CurveAmounts; MOST_ZONES],
    pub ghost market_given: { market ≡ market_total (case_bytes bounded.priced) (certificate_bytes bounded.priced) bounded.priced.case.resources },
    pub ghost zones_given: { zones ≡ zone_totals (case_bytes bounded.priced) (certificate_bytes bounded.priced) bounded.priced.case.resources },
}

pub fn totals<'a>(kept: &KeptCase<'a>) -> ReserveTotals<'a>
    ensures { result.bounded ≡ kept.now.bounded }
{
    let mut market = nothing();
    let mut zones = [market; MOST_ZONES];
    for i in 0..kept.bounded.priced.case.resources {
        let one = reserve_given(kept, i);
        let own = one.amounts;
        market = amounts_sum(market, own);
        let zone = usize::from(one.zone) - 1;
        zones[zone] = amounts_sum(zones[zone], own);
    }
    ReserveTotals {
        bounded: kept.bounded,
        market,
        zones,
    }
}
