// The entries of a certificate, read by value through one reader: amounts and row prices. The reader's type says that the file has
// the size that its counts need.
#![tactic(auto)]

ghost use Rattle.std.specs.Prelude.{◌≡◌, ◌<◌};
ghost use Rattle.market.specs.Rows.{balance_row, market_row, zone_row, flowgate_row};
ghost use Rattle.market.specs.Records.{cents, millicents, amounts_of, limit_prices_of, cleared_of, reserve_prices_of};
ghost use Rattle.certificate_records.specs.CertificateBytes.{CertificateBytes};

use market::{
    Amounts, Cents, Counts, CurveAmounts, FLOWGATE_PRICE_SIZE, LimitPrices, Millicents,
    ReservePrices, Version, ZONE_PRICES_SIZE,
};

// The lent bytes of a certificate with its three counts, fields of their own as in `SizedCase`.
#[derive(Clone, Copy)]
pub struct SizedCertificate<'a> {
    pub bytes: &'a [u8],
    pub resources: usize,
    pub zones: usize,
    pub flowgates: usize,
    pub ghost whole: { CertificateBytes bytes.now resources zones flowgates },
}

impl<'a> SizedCertificate<'a> {
    ghost use Rattle.certificate_records.specs.Reader.{certificate_in};

    pub fn new(bytes: &'a [u8], n: Counts) -> Self
        requires { CertificateBytes bytes.now n.resources n.zones n.flowgates }
        ensures bytes { result.bytes ≡ bytes.entry }
        ensures resources { result.resources ≡ n.resources }
        ensures zones { result.zones ≡ n.zones }
        ensures flowgates { result.flowgates ≡ n.flowgates }
    {
        SizedCertificate {
            bytes,
            resources: n.resources,
            zones: n.zones,
            flowgates: n.flowgates,
        }
    }

    // Of the file.
    #[tactic(auto, unfolding(market::specs::Certificate::certificate_as))]
    pub fn version(&self) -> Version
        ensures { result ≡ (certificate_in self.now).version }
    {
        wire::version_at(self.bytes)
    }

    // What resource i is given.
    #[tactic(auto, unfolding(market::specs::Records::amounts_of, market::specs::Certificate::certificate_as, market::specs::Certificate::amount_at))]
    pub fn amounts(&self, i: usize) -> Amounts
        requires { i < self.now.resources }
        ensures { result ≡ amounts_of (certificate_in self.now).amount i }
    {
        let at = market::amounts_place(self.version(), self.zones, self.flowgates, i);
        Amounts {
            energy: wire::figure_at(self.bytes, at),
            regulation: wire::figure_at(self.bytes, at + 4),
            contingency: wire::figure_at(self.bytes, at + 8),
            on_line_short_term: wire::figure_at(self.bytes, at + 12),
            off_line_short_term: wire::figure_at(self.bytes, at + 16),
        }
    }

    // The prices of resource i's own rows.
    #[tactic(auto, unfolding(market::specs::Records::limit_prices_of, market::specs::Certificate::certificate_as, market::specs::Certificate::price_at))]
    pub fn limit_prices(&self, i: usize) -> LimitPrices
        requires { i < self.now.resources }
        ensures { result ≡ limit_prices_of (certificate_in self.now).price i }
    {
        let version = self.version();
        let place = market::amounts_place(version, self.zones, self.flowgates, i);
        let at = place + 4 * version.services();
        LimitPrices {
            max_with_reserve: wire::figure_at(self.bytes, at),
            max_with_short_term: wire::figure_at(self.bytes, at + 4),
            minimum: wire::figure_at(self.bytes, at + 8),
            high: wire::figure_at(self.bytes, at + 12),
            low: wire::figure_at(self.bytes, at + 16),
        }
    }

    // The cleared quantities.
    #[tactic(auto, unfolding(market::specs::Records::cleared_of, market::specs::Certificate::certificate_as, market::specs::Certificate::amount_at))]
    pub fn cleared(&self) -> CurveAmounts
        ensures { result ≡ cleared_of (certificate_in self.now).amount }
    {
        wire::per_curve_at(self.bytes, 8)
    }

    // The prices of the market-wide reserve rows.
    #[tactic(auto, unfolding(market::specs::Records::reserve_prices_of, market::specs::Certificate::certificate_as, market::specs::Certificate::price_at))]
    pub fn market_prices(&self) -> ReservePrices
        ensures { result ≡ reserve_prices_of (certificate_in self.now).price market_row }
    {
        wire::per_curve_at(self.bytes, self.version().market_prices_place())
    }

    // The prices of a zone's reserve rows, zones counted from 0.
    #[tactic(auto, unfolding(market::specs::Records::reserve_prices_of, market::specs::Certificate::certificate_as, market::specs::Certificate::price_at))]
    pub fn zone_prices(&self, zone: usize) -> ReservePrices
        requires { zone < self.now.zones }
        ensures { result ≡ reserve_prices_of (certificate_in self.now).price (zone_row zone) }
    {
        let first = self.version().certificate_head_size();
        wire::per_curve_at(self.bytes, first + zone * ZONE_PRICES_SIZE)
    }

    // The price of row 1.
    #[tactic(auto, unfolding(market::specs::Certificate::certificate_as, market::specs::Certificate::price_at))]
    pub fn balance_price(&self) -> Millicents
        ensures { result ≡ millicents ((certificate_in self.now).price balance_row) }
    {
        wire::signed_figure_at(self.bytes, self.version().balance_price_place())
    }

    // The price of a flowgate's row, in cents, flowgates counted from 0.
    #[tactic(auto, unfolding(market::specs::Certificate::certificate_as, market::specs::Certificate::price_at))]
    pub fn flowgate_price(&self, flowgate: usize) -> Cents
        requires { flowgate < self.now.flowgates }
        ensures { result ≡ cents ((certificate_in self.now).price (flowgate_row flowgate)) }
    {
        let first = self.version().certificate_head_size() + self.zones * ZONE_PRICES_SIZE;
        wire::figure_at(self.bytes, first + flowgate * FLOWGATE_PRICE_SIZE)
    }
}
