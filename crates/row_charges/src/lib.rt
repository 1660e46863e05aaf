// The charges of all rows of a standing certificate, written into a lent buffer: row 1, the market's four, each zone's four,
// each flowgate's, each resource's five (01, 'Rows', 'Certificate, cost, bound, charges'). A row's charge is its price times
// its slack. Each function writes from the front of what it is lent; what stands beyond stays as it was.
#![tactic(auto)]

ghost use Rattle.std.specs.Prelude.{◌≡◌, [], ◌∷◌, map, ◌++◌, ◌+◌, ◌*◌, ◌<◌, ◌≤◌, ◌-ℤ◌, ◌*ℤ◌, length, drop};
ghost use Rattle.market.specs.Case.{zoned_curves, curves};
ghost use Rattle.market.specs.Rows.{balance_row, zone_row, flowgate_row, limit_row, all_limits, limits, market_rows, zone_rows, flowgate_rows, limit_rows, rows, system_row_count, zone_row_count, resource_row_count, row_count_of};
ghost use Rattle.market.specs.Charges.{row_charge};
ghost use Rattle.market.specs.Records.{grains};
ghost use Rattle.row_charges.specs.Families.{RowChargeRoom, FourRoom, FiveRoom, row_charge_in, four_charges, five_charges};
ghost use Rattle.prices.specs.PricedCase.{the_case, the_prices, the_amounts, case_bytes, certificate_bytes};

use capabilities::KeptCase;
use flows::Energies;
use limits::ResourceLimits;
use market::{
    CurveAmounts, Grains, Kw, LimitPrices, MOST_RESOURCES, Millicents, ReservePrices, ZONE_ROWS,
};
use prices::{BoundedAmounts, BoundedCase};
use reserves::ReserveTotals;

// The price of a row times its slack, which is one side less the other.
fn charge(price: Millicents, more: Kw, less: Kw) -> Grains
    requires { RowChargeRoom price.0 more.0 less.0 }
    ensures { result ≡ grains (price.0 *ℤ (more.0 -ℤ less.0)) }
{
    let slack = units::difference(more, less);
    units::value(price, slack)
}

// ---- row 1 and the market's reserve rows

// Energy less demand.
fn write_balance(bounded: &BoundedCase<'_>, out: &mut [i64])
    requires { 1 ≤ length out.old }
    ensures { out.new ≡ map (row_charge_in (case_bytes bounded.now.priced) (certificate_bytes bounded.now.priced)) (balance_row ∷ []) ++ drop 1 out.old }
{
    let price = bounded.priced.certificate.balance_price();
    let total = rows::energy_total(&bounded.priced.certificate);
    let demand = bounded.priced.case.demand();
    let value = charge(price, total, demand);
    out[0] = value.0;
}

// Of four reserve rows: what they have less what they need.
fn write_four(prices: ReservePrices, have: CurveAmounts, need: CurveAmounts, out: &mut [i64])
    requires { FourRoom prices have need × (zone_row_count ≤ length out.old) }
    ensures { out.new ≡ four_charges prices have need ++ drop zone_row_count out.old }
{
    let operating = charge(prices.operating, have.operating, need.operating);
    let both = charge(
        prices.regulating_plus_spinning,
        have.regulating_plus_spinning,
        need.regulating_plus_spinning,
    );
    let regulating = charge(prices.regulating, have.regulating, need.regulating);
    let short_term = charge(prices.short_term, have.short_term, need.short_term);
    out[..ZONE_ROWS].copy_from_slice(&[operating.0, both.0, regulating.0, short_term.0]);
}

// Against the cleared quantities.
fn write_market(have: &ReserveTotals<'_>, out: &mut [i64])
    requires { length (curves (the_case have.now.bounded.priced).version) ≤ length out.old }
    ensures { out.new ≡ map (row_charge_in (case_bytes have.now.bounded.priced) (certificate_bytes have.now.bounded.priced)) (market_rows (the_case have.now.bounded.priced)) ++ drop (length (curves (the_case have.now.bounded.priced).version)) out.old }
{
    let prices = have.bounded.priced.certificate.market_prices();
    let need = have.bounded.priced.certificate.cleared();
    write_four(prices, have.market, need, out);
}

// Rows 1 to 5.
fn write_system(have: &ReserveTotals<'_>, out: &mut [i64])
    requires { system_row_count (the_case have.now.bounded.priced).version ≤ length out.old }
    ensures { out.new ≡ map (row_charge_in (case_bytes have.now.bounded.priced) (certificate_bytes have.now.bounded.priced)) (balance_row ∷ market_rows (the_case have.now.bounded.priced)) ++ drop (system_row_count (the_case have.now.bounded.priced).version) out.old }
{
    write_balance(&have.bounded, out);
    write_market(have, &mut out[1..]);
}

// ---- zones' reserve rows

// Against what the zone needs.
fn write_zone(have: &ReserveTotals<'_>, zone: usize, out: &mut [i64])
    requires { (zone < have.now.bounded.priced.case.zones) × (zone_row_count ≤ length out.old) }
    ensures { out.new ≡ map (row_charge_in (case_bytes have.now.bounded.priced) (certificate_bytes have.now.bounded.priced)) (map (zone_row zone) zoned_curves) ++ drop zone_row_count out.old }
{
    let prices = have.bounded.priced.certificate.zone_prices(zone);
    let need = have.bounded.priced.case.zone(zone);
    write_four(prices, have.zones[zone], need, out);
}

// Each zone's, from its own place on.
#[tactic(auto, using(case_records::proofs::Places::zones_is))]
fn write_zones(have: &ReserveTotals<'_>, out: &mut [i64])
    requires { have.now.bounded.priced.case.zones * zone_row_count ≤ length out.old }
    ensures { out.new ≡ map (row_charge_in (case_bytes have.now.bounded.priced) (certificate_bytes have.now.bounded.priced)) (zone_rows (the_case have.now.bounded.priced)) ++ drop (have.now.bounded.priced.case.zones * zone_row_count) out.old }
{
    for zone in 0..have.bounded.priced.case.zones {
        write_zone(have, zone, &mut out[zone * ZONE_ROWS..]);
    }
}

// ---- flowgates' rows

// The limit less the flow.
fn flowgate_charge(energies: &Energies<'_>, g: usize) -> Grains
    requires { g < energies.now.bounded.priced.case.flowgates }
    ensures { result ≡ grains (row_charge_in (case_bytes energies.now.bounded.priced) (certificate_bytes energies.now.bounded.priced) (flowgate_row g)) }
{
    let price = energies.bounded.priced.certificate.flowgate_price(g);
    let flows = flows::flow(energies, g);
    let limit = energies.bounded.priced.case.flowgate_limit(g);
    let most = units::in_watts(limit);
    let slack = units::difference(most, flows);
    units::flow_value(price, slack)
}

#[tactic(auto, using(case_records::proofs::Places::flowgates_is), unfolding(arith::specs::Sums::upto))]
fn write_flowgates(bounded: &BoundedCase<'_>, out: &mut [i64])
    requires { bounded.now.priced.case.flowgates ≤ length out.old }
    ensures { out.new ≡ map (row_charge_in (case_bytes bounded.now.priced) (certificate_bytes bounded.now.priced)) (flowgate_rows (the_case bounded.now.priced)) ++ drop bounded.now.priced.case.flowgates out.old }
{
    let mut parts = [flows::NO_ENERGY; MOST_RESOURCES];
    flows::write_energies(&bounded.priced.certificate, &mut parts);
    let energies = Energies::new(*bounded, &parts);
    for g in 0..bounded.priced.case.flowgates {
        let value = flowgate_charge(&energies, g);
        out[g] = value.0;
    }
}

// ---- each resource's own rows

// MAX - (e+g+c), MAX - (e+s), e-g - MIN, HI - e, e - LO.
fn write_five(prices: LimitPrices, own: BoundedAmounts, l: ResourceLimits, out: &mut [i64])
    requires { FiveRoom prices own.amounts l × (length all_limits ≤ length out.old) }
    ensures { out.new ≡ five_charges prices own.amounts l ++ drop (length all_limits) out.old }
{
    let a = own.amounts;
    let up = units::sum(a.energy, a.regulation);
    let with_reserve = units::sum(up, a.contingency);
    let with_short_term = units::sum(a.energy, a.on_line_short_term);
    let down = units::difference(a.energy, a.regulation);
    let reserve = charge(prices.max_with_reserve, l.max, with_reserve);
    let short_term = charge(prices.max_with_short_term, l.max, with_short_term);
    let minimum = charge(prices.minimum, down, l.min);
    let high = charge(prices.high, l.high, a.energy);
    let low = charge(prices.low, a.energy, l.low);
    let charges = [reserve.0, short_term.0, minimum.0, high.0, low.0];
    out[..charges.len()].copy_from_slice(&charges);
}

fn write_resource(kept: &KeptCase<'_>, i: usize, out: &mut [i64])
    requires { (i < kept.now.bounded.priced.case.resources) × (resource_row_count (the_case kept.now.bounded.priced).version ≤ length out.old) }
    ensures { out.new ≡ map (row_charge_in (case_bytes kept.now.bounded.priced) (certificate_bytes kept.now.bounded.priced)) (map (limit_row i) (limits (the_case kept.now.bounded.priced).version)) ++ drop (resource_row_count (the_case kept.now.bounded.priced).version) out.old }
{
    let prices = kept.bounded.priced.certificate.limit_prices(i);
    let held = kept.limits(i);
    let own = kept.bounded.amounts(i);
    write_five(prices, own, held, out);
}

// Each resource's, from its own place on.
#[tactic(auto, using(case_records::proofs::Places::resources_is), unfolding(arith::specs::Sums::upto, arith::specs::Sums::across))]
fn write_resources(kept: &KeptCase<'_>, out: &mut [i64])
    requires { kept.now.bounded.priced.case.resources * resource_row_count (the_case kept.now.bounded.priced).version ≤ length out.old }
    ensures { out.new ≡ map (row_charge_in (case_bytes kept.now.bounded.priced) (certificate_bytes kept.now.bounded.priced)) (limit_rows (the_case kept.now.bounded.priced)) ++ drop (kept.now.bounded.priced.case.resources * resource_row_count (the_case kept.now.bounded.priced).version) out.old }
{
    let numbers = kept.bounded.priced.case.version().resource_rows();
    for i in 0..kept.bounded.priced.case.resources {
        write_resource(kept, i, &mut out[i * numbers..]);
    }
}

// ---- all rows

// Flowgates' and resources'.
fn write_network(kept: &KeptCase<'_>, out: &mut [i64])
    requires { kept.now.bounded.priced.case.flowgates + kept.now.bounded.priced.case.resources * resource_row_count (the_case kept.now.bounded.priced).version ≤ length out.old }
    ensures { out.new ≡ map (row_charge_in (case_bytes kept.now.bounded.priced) (certificate_bytes kept.now.bounded.priced)) (flowgate_rows (the_case kept.now.bounded.priced) ++ limit_rows (the_case kept.now.bounded.priced)) ++ drop (kept.now.bounded.priced.case.flowgates + kept.now.bounded.priced.case.resources * resource_row_count (the_case kept.now.bounded.priced).version) out.old }
{
    write_flowgates(&kept.bounded, out);
    write_resources(kept, &mut out[kept.bounded.priced.case.flowgates..]);
}

pub fn write_row_charges(kept: &KeptCase<'_>, out: &mut [i64])
    requires { row_count_of (the_case kept.now.bounded.priced).version kept.now.bounded.priced.case.resources kept.now.bounded.priced.case.zones kept.now.bounded.priced.case.flowgates ≤ length out.old }
    ensures { out.new ≡ map (row_charge (the_case kept.now.bounded.priced) (the_amounts kept.now.bounded.priced) (the_prices kept.now.bounded.priced)) (rows (the_case kept.now.bounded.priced)) ++ drop (row_count_of (the_case kept.now.bounded.priced).version kept.now.bounded.priced.case.resources kept.now.bounded.priced.case.zones kept.now.bounded.priced.case.flowgates) out.old }
{
    let first = kept.bounded.priced.case.version().system_rows();
    let at = first + kept.bounded.priced.case.zones * ZONE_ROWS;
    let have = reserves::totals(kept);
    write_system(&have, out);
    write_zones(&have, &mut out[first..]);
    write_network(kept, &mut out[at..]);
}
