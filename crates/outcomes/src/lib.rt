// The certificate check, grounds 1 to 14, and the calls that write into a lent buffer once it has passed
// (01, 'How each operation refuses').
#![tactic(auto)]

ghost use Rattle.std.specs.Prelude.{◌≡◌, ◌≤◌, length, IfOk};
ghost use Rattle.market.specs.CaseCheck.{most_resources, CountsWithin};
ghost use Rattle.market.specs.CaseFile.{case_of};
ghost use Rattle.market.specs.Certificate.{certificate_of};
ghost use Rattle.market.specs.Charges.{charge_count_of};
ghost use Rattle.market.specs.Records.{counts_in};
ghost use Rattle.market.specs.Refusals.{first_of};
ghost use Rattle.market.specs.Outcome.{grounds, valuation, room, price_answer, price_buffer, charge_answer, charge_buffer};
ghost use Rattle.market.specs.Refusals.{answered};
ghost use Rattle.capabilities.specs.Kept.{Kept};
ghost use Rattle.quantities.specs.Filing.{Decided};
ghost use Rattle.prices.specs.Standing.{Standing};
ghost use Rattle.outcomes.specs.Checked.{Checked};
ghost use Rattle.prices.specs.PricedCase.{case_bytes, certificate_bytes};

use capabilities::{Capability, KeptCase, UNDECIDED};
use market::{Counts, Refusal, Valuation, ZONE_PRICES, ZONE_ROWS};
use prices::{BoundedCase, PricedCase};

// A case and a certificate of these counts that are past 13, with what is kept of the case's resources.
fn kept_case<'a>(b: &'a [u8], q: &'a [u8], n: Counts, kept: &'a [Capability]) -> KeptCase<'a>
    requires { Standing b.now q.now n.resources n.zones n.flowgates × Kept (case_of b.now) n.resources kept.now }
    ensures case { case_bytes result.bounded.priced ≡ b.now }
    ensures certificate { certificate_bytes result.bounded.priced ≡ q.now }
    ensures resources { result.bounded.priced.case.resources ≡ n.resources }
    ensures zones { result.bounded.priced.case.zones ≡ n.zones }
    ensures flowgates { result.bounded.priced.case.flowgates ≡ n.flowgates }
{
    let priced = PricedCase::new(b, q, n);
    KeptCase::new(BoundedCase::new(priced), kept)
}

// 1 to 14: the counts of a case and a certificate that have passed them, or the first ground that holds. Where they pass, what is
// decided of each resource is left in `kept`.
fn rows_stage(b: &[u8], q: &[u8], kept: &mut [Capability]) -> Result<Counts, Refusal>
    requires { most_resources ≤ length kept.old }
    ensures { (result ≡ answered (counts_in (case_of b.now)) (first_of (grounds b.now q.now))) × Decided b.now result kept.new }
{
    // a stage's answer is taken apart by let else, the refusal returned (01, 'Where each form belongs')
    let earlier = quantities::bounds_stage(b, q, kept);
    let Ok(n) = earlier else {
        return earlier;
    };
    if let Some(row) = rows::first_broken(&kept_case(b, q, n, kept)) {
        return Err(Refusal::RowBroken(row));
    }
    Ok(n)
}

// Cost, bound and gap of a certificate that stands.
#[tactic(auto, unfolding(market::specs::Outcome::valuation))]
fn valued(kept: &KeptCase<'_>) -> Valuation
    ensures { result ≡ valuation (case_of (case_bytes kept.now.bounded.priced)) (certificate_of (certificate_bytes kept.now.bounded.priced)) }
{
    let resources = valuations::resources_value(kept);
    let cost = costs::cost(&kept.bounded, resources.worth);
    let bound = bounds::bound(&kept.bounded, resources.least);
    let gap = units::difference(cost, bound);
    Valuation { cost, bound, gap }
}

// Checks a certificate against its case. What is refused has no values.
pub fn check_certificate(b: &[u8], q: &[u8]) -> Result<Valuation, Refusal>
    ensures { Checked b.now q.now result }
{
    let mut kept = UNDECIDED;
    let n = rows_stage(b, q, &mut kept)?;
    Ok(valued(&kept_case(b, q, n, &kept)))
}

// 15: a lent buffer of n numbers, where more are needed.
fn room(needed: usize, n: usize) -> Result<(), Refusal>
    ensures answer { result ≡ answered tt (room needed n) }
    ensures enough { IfOk result (λ done. needed ≤ n) }
{
    if n < needed {
        return Err(Refusal::BufferShort);
    }
    Ok(())
}

// Writes the LMPs and zone prices: 1 to 14, then 15. This and the next are the C interface's two calls; what they share is
// `rows_stage`, `room` and `kept_case`.
pub fn deliver_prices(b: &[u8], q: &[u8], out: &mut [i64]) -> Result<(), Refusal>
    ensures { (result ≡ price_answer b.now q.now (length out.old)) × (out.new ≡ price_buffer b.now q.now out.old) }
{
    let mut kept = UNDECIDED;
    let n = rows_stage(b, q, &mut kept)?;
    room(n.resources + ZONE_PRICES * n.zones, out.len())?;
    price_list::write_prices(&kept_case(b, q, n, &kept).bounded, out);
    Ok(())
}

// How many charges a case of these counts has: one for each row, and one for all that is priced.
fn charge_count(n: Counts) -> usize
    requires { CountsWithin n.resources n.zones n.flowgates }
    ensures { result ≡ charge_count_of n.version n.resources n.zones n.flowgates }
{
    let version = n.version;
    let rows = version.system_rows()
        + n.zones * ZONE_ROWS
        + n.flowgates
        + n.resources * version.resource_rows();
    rows + n.resources * version.resource_priced() + version.curve_priced()
}

// Writes the charges, in charge order: 1 to 14, then 15.
pub fn deliver_charges(b: &[u8], q: &[u8], out: &mut [i64]) -> Result<(), Refusal>
    ensures { (result ≡ charge_answer b.now q.now (length out.old)) × (out.new ≡ charge_buffer b.now q.now out.old) }
{
    let mut kept = UNDECIDED;
    let n = rows_stage(b, q, &mut kept)?;
    room(charge_count(n), out.len())?;
    charges::write_charges(&kept_case(b, q, n, &kept), out);
    Ok(())
}
