// A certificate's file for a case: its form, grounds 8 to 11, and the range of every price, ground 12
// (01, 'How each operation refuses'). Both hold for every case with the counts that are passed.
#![tactic(auto)]

ghost use Rattle.std.specs.Prelude.{◌≡◌, ◌+◌, ◌*◌, ◌<◌};
ghost use Rattle.arith.specs.Sums.{upto, all};
ghost use Rattle.market.specs.Version.{version_in};
ghost use Rattle.market.specs.Case.{Case};
ghost use Rattle.market.specs.CaseCheck.{CountsWithin};
ghost use Rattle.market.specs.Certificate.{certificate_head_size, zone_prices_size, certificate_of};
ghost use Rattle.market.specs.Records.{counts_in};
ghost use Rattle.market.specs.Refusals.{first_of};
ghost use Rattle.market.specs.Rows.{rows};
ghost use Rattle.market.specs.Outcome.{form_grounds, price_right};
ghost use Rattle.wire.specs.Within.{Within};
ghost use Rattle.market.specs.Refusals.{answered};
ghost use Rattle.certificate_records.specs.Reader.{counts_of, certificate_in};
ghost use Rattle.certificate_form.specs.Form.{counts_are, size_is};
ghost use Rattle.certificate_form.specs.PricePlaces.{zone_priced, limits_priced};

use certificate_records::SizedCertificate;
use market::{Counts, LEAST_CERTIFICATE_SIZE, Refusal, ZONE_PRICES_SIZE};

// ---- 8 to 11: the file's form
#[tactic(auto, unfolding(crate::specs::Form::counts_are, market::specs::CaseFile::case_as))]
fn same_counts(q: &[u8], n: Counts) -> bool
    requires { Within q.now 0 8 }
    ensures { result ≡ counts_are q.now n }
{
    case_check::counts_at(q) == n
}

// Beside the `size_right` of case_check: a line each, over the file's own size.
#[tactic(auto, unfolding(crate::specs::Form::size_is))]
pub fn size_right(q: &[u8], n: Counts) -> bool
    requires { CountsWithin n.resources n.zones n.flowgates }
    ensures { result ≡ size_is q.now n }
{
    q.len() == market::certificate_size(n)
}

#[tactic(auto, unfolding(market::specs::Refusals::first_of, market::specs::Outcome::form_grounds, market::specs::Outcome::same_counts))]
pub fn form(q: &[u8], n: Counts) -> Result<Counts, Refusal>
    requires { CountsWithin n.resources n.zones n.flowgates }
    ensures { (c : Case) → n ≡ counts_in c → result ≡ answered n (first_of (form_grounds c q.now (certificate_of q.now))) }
{
    if !case_check::length_right(q, LEAST_CERTIFICATE_SIZE) {
        return Err(Refusal::CertificateLength);
    }
    if !case_check::version_right(q) {
        return Err(Refusal::CertificateVersion);
    }
    if !same_counts(q, n) {
        return Err(Refusal::CountsDiffer);
    }
    if !size_right(q, n) {
        return Err(Refusal::CertificateSize);
    }
    Ok(n)
}

// ---- 12: every price within its range
// Zone by zone, as in `case_ranges::zones_in_range`.
fn zones_priced(q: &[u8], zones: usize) -> bool
    requires { Within q.now (certificate_head_size (version_in q.now)) (zones * zone_prices_size) }
    ensures { result ≡ all (zone_priced q.now) (upto zones) }
{
    let first = wire::version_at(q).certificate_head_size();
    (0..zones).all(|zone| {
        let at = first + zone * ZONE_PRICES_SIZE;
        case_ranges::all_at_most(q, at, 4, 400000000)
    })
}

fn limits_priced_of(certificate: &SizedCertificate<'_>, i: usize) -> bool
    requires { i < certificate.now.resources }
    ensures { result ≡ limits_priced certificate.now.bytes.now certificate.now.zones certificate.now.flowgates i }
{
    let version = certificate.version();
    let place = market::amounts_place(version, certificate.zones, certificate.flowgates, i);
    let at = place + version.services() * 4;
    case_ranges::all_at_most(certificate.bytes, at, version.resource_rows(), 400000000)
}

fn limits_priced(certificate: &SizedCertificate<'_>) -> bool
    ensures { result ≡ all (limits_priced certificate.now.bytes.now certificate.now.zones certificate.now.flowgates) (upto certificate.now.resources) }
{
    (0..certificate.resources).all(|i| limits_priced_of(certificate, i))
}

#[tactic(auto, using(crate::proofs::PriceFamilies::prices_by_place, crate::proofs::PricesWithin::market_prices_in, crate::proofs::PricesWithin::flowgate_prices_in), unfolding(market::specs::Certificate::certificate_as))]
pub fn prices_right(certificate: &SizedCertificate<'_>) -> bool
    ensures { (c : Case) → counts_of certificate.now ≡ counts_in c → result ≡ all (price_right (certificate_in certificate.now)) (rows c) }
{
    let q = certificate.bytes;
    let version = certificate.version();
    let market_prices = version.market_prices_place();
    let flowgate_prices = version.certificate_head_size() + certificate.zones * ZONE_PRICES_SIZE;
    // row 1, then the market's, the zones', the flowgates' and the resources' rows
    case_ranges::word_either_way(q, version.balance_price_place(), 400000000)
        && case_ranges::all_at_most(q, market_prices, version.curves(), 400000000)
        && zones_priced(q, certificate.zones)
        && case_ranges::all_at_most(q, flowgate_prices, certificate.flowgates, 400000)
        && limits_priced(certificate)
}
