// The first broken row of a certificate, by families: row 1, the market's reserve rows, each zone's, the flowgates', each
// resource's own five (01, 'Rows', refusal 14). A family's function answers the number of its first broken row.
#![tactic(auto)]

ghost use Rattle.std.specs.Prelude.{◌≡◌, [], ◌∷◌, ◌++◌, map, ◌+◌, ◌*◌, ◌<◌, ◌≤◌};
ghost use Rattle.arith.specs.Sums.{sum_of, upto};
ghost use Rattle.market.specs.declared.Refusal.TheVariants.{RowBroken};
ghost use Rattle.market.specs.Case.{zoned_curves};
ghost use Rattle.market.specs.UpperBounds.{energy};
ghost use Rattle.market.specs.Rows.{balance_row, zone_row, flowgate_row, limit_row, limits, market_rows, zone_rows, flowgate_rows, limit_rows, rows, zone_row_count, resource_row_count};
ghost use Rattle.market.specs.InWords.{kw_of};
ghost use Rattle.market.specs.Records.{kw};
ghost use Rattle.market.specs.Refusals.{found_at, first_failing};
ghost use Rattle.market.specs.Outcome.{row_met};
ghost use Rattle.flows.specs.Parts.{EnergyBounded};
ghost use Rattle.units.specs.Search.{first_false};
ghost use Rattle.rows.specs.Tests.{limit_tests, broken_from, first_zone_row, first_flowgate_row, first_limit_row, most_row};
ghost use Rattle.prices.specs.PricedCase.{the_case, case_bytes, certificate_bytes};
ghost use Rattle.case_reader.specs.Reader.{case_in};
ghost use Rattle.certificate_records.specs.Reader.{certificate_in};

use capabilities::KeptCase;
use case_reader::SizedCase;
use certificate_records::SizedCertificate;
use flows::Energies;
use limits::ResourceLimits;
use market::{Kw, MOST_RESOURCES, ZONE_ROWS};
use prices::{BoundedAmounts, BoundedCase};
use reserves::ReserveTotals;

// ---- where each family's numbers begin

// Row numbers have 32 bits.
const NUMBERS_A_ZONE: u32 = ZONE_ROWS as u32;

// Behind row 1 and the market's.
fn first_zone_row(case: &SizedCase<'_>) -> u32
    ensures { result ≡ first_zone_row (case_in case.now).version }
{
    case.version().system_rows() as u32 + 1
}

fn first_flowgate_row(case: &SizedCase<'_>) -> u32
    ensures { result ≡ first_flowgate_row (case_in case.now).version case.now.zones }
{
    first_zone_row(case) + case.zones as u32 * NUMBERS_A_ZONE
}

// The first of the resources' own.
fn first_limit_row(case: &SizedCase<'_>) -> u32
    ensures { result ≡ first_limit_row (case_in case.now).version case.now.zones case.now.flowgates }
{
    first_flowgate_row(case) + case.flowgates as u32
}

// ---- row 1

// The energy of all resources.
pub fn energy_total(certificate: &SizedCertificate<'_>) -> Kw
    requires { EnergyBounded certificate.now.bytes.now certificate.now.resources }
    ensures { result ≡ kw (sum_of (λ i. kw_of (certificate_in certificate.now).amount i energy) (upto certificate.now.resources)) }
{
    let mut sum = Kw(0);
    for i in 0..certificate.resources {
        let a = certificate.amounts(i);
        sum = units::sum(sum, a.energy);
    }
    sum
}

// Energy is demand, neither less nor more.
fn balanced(bounded: &BoundedCase<'_>) -> bool
    ensures { result ≡ row_met (the_case bounded.now.priced) (certificate_in bounded.now.priced.certificate) balance_row }
{
    let total = energy_total(&bounded.priced.certificate);
    let demand = bounded.priced.case.demand();
    total == demand
}

// ---- reserve rows

// Market-wide against the cleared quantities: rows 2 to 5.
fn market_short(have: &ReserveTotals<'_>) -> Option<u32>
    ensures { found_at RowBroken result ≡ broken_from (case_bytes have.now.bounded.priced) (certificate_bytes have.now.bounded.priced) 2 (market_rows (the_case have.now.bounded.priced)) }
{
    let need = have.bounded.priced.certificate.cleared();
    units::first_short(have.market, need, 2)
}

// A zone's four rows.
fn zone_short(have: &ReserveTotals<'_>, zone: usize) -> Option<u32>
    requires { zone < have.now.bounded.priced.case.zones }
    ensures { found_at RowBroken result ≡ broken_from (case_bytes have.now.bounded.priced) (certificate_bytes have.now.bounded.priced) (first_zone_row (the_case have.now.bounded.priced).version + zone * zone_row_count) (map (zone_row zone) zoned_curves) }
{
    let need = have.bounded.priced.case.zone(zone);
    let first = first_zone_row(&have.bounded.priced.case) + zone as u32 * NUMBERS_A_ZONE;
    units::first_short(have.zones[zone], need, first)
}

// This loop and those over flowgates and resources are `for`, and no `find_map`: what a search has found so far is one law
// (units, proofs/Search) for the three and for 13's, and `find_map` would need another of what its closure answers.
fn zones_short(have: &ReserveTotals<'_>) -> Option<u32>
    ensures { found_at RowBroken result ≡ broken_from (case_bytes have.now.bounded.priced) (certificate_bytes have.now.bounded.priced) (first_zone_row (the_case have.now.bounded.priced).version) (zone_rows (the_case have.now.bounded.priced)) }
{
    for zone in 0..have.bounded.priced.case.zones {
        if let Some(row) = zone_short(have, zone) {
            return Some(row);
        }
    }
    None
}

// ---- flowgates' rows

// A flowgate's row: at most the limit flows.
fn flowgate_over(energies: &Energies<'_>, g: usize) -> Option<u32>
    requires { g < energies.now.bounded.priced.case.flowgates }
    ensures { found_at RowBroken result ≡ broken_from (case_bytes energies.now.bounded.priced) (certificate_bytes energies.now.bounded.priced) (first_flowgate_row (the_case energies.now.bounded.priced).version energies.now.bounded.priced.case.zones + g) (flowgate_row g ∷ []) }
{
    let flows = flows::flow(energies, g);
    let limit = energies.bounded.priced.case.flowgate_limit(g);
    let most = units::in_watts(limit);
    if units::at_least(most, flows) {
        return None;
    }
    Some(first_flowgate_row(&energies.bounded.priced.case) + g as u32)
}

fn flowgates_over(bounded: &BoundedCase<'_>) -> Option<u32>
    ensures { found_at RowBroken result ≡ broken_from (case_bytes bounded.now.priced) (certificate_bytes bounded.now.priced) (first_flowgate_row (the_case bounded.now.priced).version bounded.now.priced.case.zones) (flowgate_rows (the_case bounded.now.priced)) }
{
    let mut parts = [flows::NO_ENERGY; MOST_RESOURCES];
    flows::write_energies(&bounded.priced.certificate, &mut parts);
    let energies = Energies::new(*bounded, &parts);
    for g in 0..bounded.priced.case.flowgates {
        if let Some(row) = flowgate_over(&energies, g) {
            return Some(row);
        }
    }
    None
}

// ---- each resource's own rows

// The first of five rows, numbered from `first`, that amounts break: e+g+c ≤ MAX, e+s ≤ MAX, e-g ≥ MIN, e ≤ HI, e ≥ LO.
fn first_outside(own: BoundedAmounts, l: ResourceLimits, first: u32) -> Option<u32>
    requires { first ≤ most_row }
    ensures { result ≡ first_false first (limit_tests own.amounts l) }
{
    let a = own.amounts;
    let up = units::sum(a.energy, a.regulation);
    let with_reserve = units::sum(up, a.contingency);
    let with_short_term = units::sum(a.energy, a.on_line_short_term);
    let down = units::difference(a.energy, a.regulation);
    units::first_below(
        [
            (l.max, with_reserve),
            (l.max, with_short_term),
            (down, l.min),
            (l.high, a.energy),
            (a.energy, l.low),
        ],
        first,
    )
}

// The five rows of resource i.
fn resource_outside(kept: &KeptCase<'_>, i: usize) -> Option<u32>
    requires { i < kept.now.bounded.priced.case.resources }
    ensures { found_at RowBroken result ≡ broken_from (case_bytes kept.now.bounded.priced) (certificate_bytes kept.now.bounded.priced) (first_limit_row (the_case kept.now.bounded.priced).version kept.now.bounded.priced.case.zones kept.now.bounded.priced.case.flowgates + i * resource_row_count (the_case kept.now.bounded.priced).version) (map (limit_row i) (limits (the_case kept.now.bounded.priced).version)) }
{
    let held = kept.limits(i);
    let own = kept.bounded.amounts(i);
    let numbers = kept.bounded.priced.case.version().resource_rows() as u32;
    let first = first_limit_row(&kept.bounded.priced.case) + i as u32 * numbers;
    first_outside(own, held, first)
}

fn resources_outside(kept: &KeptCase<'_>) -> Option<u32>
    ensures { found_at RowBroken result ≡ broken_from (case_bytes kept.now.bounded.priced) (certificate_bytes kept.now.bounded.priced) (first_limit_row (the_case kept.now.bounded.priced).version kept.now.bounded.priced.case.zones kept.now.bounded.priced.case.flowgates) (limit_rows (the_case kept.now.bounded.priced)) }
{
    for i in 0..kept.bounded.priced.case.resources {
        if let Some(row) = resource_outside(kept, i) {
            return Some(row);
        }
    }
    None
}

// ---- all rows

// The first broken row of a flowgate or of a resource. `or_else` was tried: it promises of an empty answer what its closure ensures, and
// of a closure with no clause that is nothing, so that this one would have to say again what `resources_outside` says. So it is in
// `first_broken` and in `quantities::first_above`.
fn network_broken(kept: &KeptCase<'_>) -> Option<u32>
    ensures { found_at RowBroken result ≡ broken_from (case_bytes kept.now.bounded.priced) (certificate_bytes kept.now.bounded.priced) (first_flowgate_row (the_case kept.now.bounded.priced).version kept.now.bounded.priced.case.zones) (flowgate_rows (the_case kept.now.bounded.priced) ++ limit_rows (the_case kept.now.bounded.priced)) }
{
    if let Some(row) = flowgates_over(&kept.bounded) {
        return Some(row);
    }
    resources_outside(kept)
}

// The first broken row of all.
pub fn first_broken(kept: &KeptCase<'_>) -> Option<u32>
    ensures { found_at RowBroken result ≡ first_failing (row_met (the_case kept.now.bounded.priced) (certificate_in kept.now.bounded.priced.certificate)) RowBroken 1 (rows (the_case kept.now.bounded.priced)) }
{
    if !balanced(&kept.bounded) {
        return Some(1);
    }
    let have = reserves::totals(kept);
    if let Some(row) = market_short(&have) {
        return Some(row);
    }
    if let Some(row) = zones_short(&have) {
        return Some(row);
    }
    network_broken(kept)
}
