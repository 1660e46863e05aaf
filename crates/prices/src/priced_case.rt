// A case with a certificate that is past 12: its prices are in range.
ghost use Rattle.std.specs.Prelude.{◌≡◌, map, ◌++◌, ◌<◌, ◌≤◌, length, drop, ◌*ℤ◌};
ghost use Rattle.prices.specs.Standing.{PricesStand};
ghost use Rattle.prices.specs.Unique.{unique};

use crate::ZonePrices;
use case_reader::SizedCase;
use certificate_records::SizedCertificate;
use limits::{CurveInRange, OfferInRange};
use market::{Cents, Counts, Curve, Millicents};

#[derive(Clone, Copy)]
pub struct PricedCase<'a> {
    pub case: SizedCase<'a>,
    pub certificate: SizedCertificate<'a>,
    pub ghost prices_stand: { PricesStand case.bytes.now certificate.bytes.now case.resources case.zones case.flowgates } by { Prim.hlevel unique },
}

impl<'a> PricedCase<'a> {
    ghost use Rattle.arith.specs.Sums.{sum_of, upto};
    ghost use Rattle.market.specs.Rows.{flowgate_row};
    ghost use Rattle.market.specs.Prices.{lmp_of};
    ghost use Rattle.market.specs.Records.{offer_steps_of, curve_steps_of, millicents};
    ghost use Rattle.prices.specs.ZonePrices.{zone_prices_of};
    ghost use Rattle.prices.specs.PricedCase.{the_case, the_prices};
    ghost use Rattle.prices.specs.Figures.{FlowgateRoom, less_flowgate};

    pub fn new(bytes: &'a [u8], entries: &'a [u8], n: Counts) -> Self
        requires { PricesStand bytes.now entries.now n.resources n.zones n.flowgates }
        ensures case { result.case.bytes ≡ bytes.entry }
        ensures certificate { result.certificate.bytes ≡ entries.entry }
        ensures resources { result.case.resources ≡ n.resources }
        ensures zones { result.case.zones ≡ n.zones }
        ensures flowgates { result.case.flowgates ≡ n.flowgates }
    {
        PricedCase {
            case: SizedCase::new(bytes, n),
            certificate: SizedCertificate::new(entries, n),
        }
    }

    // The energy steps that resource i offers.
    pub fn offer_steps(&self, i: usize) -> OfferInRange
        requires { i < self.now.case.resources }
        ensures { result.steps ≡ offer_steps_of ((the_case self.now).resource i) }
    {
        OfferInRange {
            steps: self.case.offer_steps(i),
        }
    }

    pub fn curve(&self, curve: Curve) -> CurveInRange
        ensures { result.steps ≡ curve_steps_of (the_case self.now) curve }
    {
        CurveInRange {
            steps: self.case.curve(curve),
        }
    }

    // Over the flowgates, price × shift factor of resource i.
    fn congestion(&self, i: usize) -> Millicents
        requires { i < self.now.case.resources }
        ensures { result ≡ millicents (sum_of (λ g. the_prices self.now (flowgate_row g) *ℤ (the_case self.now).shift_factor g i) (upto self.now.case.flowgates)) }
    {
        let mut sum = Millicents(0);
        for g in 0..self.case.flowgates {
            let p = self.certificate.flowgate_price(g);
            let x = self.case.shift_factor(g, i);
            let t = units::factored(p, x);
            sum = units::sum(sum, t);
        }
        sum
    }

    // The LMP of resource i.
    pub fn lmp(&self, i: usize) -> Millicents
        requires { i < self.now.case.resources }
        ensures { result ≡ millicents (lmp_of (the_case self.now) (the_prices self.now) i) }
    {
        let y = self.certificate.balance_price();
        let t = self.congestion(i);
        units::difference(y, t)
    }

    // ---- the LMPs of all resources, into a lent buffer: a pass a flowgate

    // Takes from each resource's figure what flowgate g, of such a price, makes of it.
    fn subtract_flowgate(&self, g: usize, price: Cents, out: &mut [i64])
        requires { FlowgateRoom self.now.case.bytes.now self.now.case.resources self.now.case.zones self.now.case.flowgates g price.0 out.old }
        ensures { out.new ≡ map (less_flowgate (the_case self.now) g price.0 out.old) (upto self.now.case.resources) ++ drop self.now.case.resources out.old }
    {
        for i in 0..self.case.resources {
            let factor = self.case.shift_factor(g, i);
            let part = units::factored(price, factor);
            let left = units::difference(Millicents(out[i]), part);
            out[i] = left.0;
        }
    }

    // The LMP of each resource, in order. A flowgate of price 0 is passed over: it takes nothing. They are numbers, not records of
    // `Millicents`, since `price_list` lends the C host's own buffer here, which holds signed 64-bit numbers.
    pub fn write_lmps(&self, out: &mut [i64])
        requires { self.now.case.resources ≤ length out.old }
        ensures { out.new ≡ map (lmp_of (the_case self.now) (the_prices self.now)) (upto self.now.case.resources) ++ drop self.now.case.resources out.old }
    {
        let balance = self.certificate.balance_price();
        out[..self.case.resources].fill(balance.0);
        for g in 0..self.case.flowgates {
            let price = self.certificate.flowgate_price(g);
            if price.0 != 0 {
                self.subtract_flowgate(g, price, out);
            }
        }
    }

    // ---- zone prices

    pub fn zone_prices(&self, zone: usize) -> ZonePrices
        requires { zone < self.now.case.zones }
        ensures { result ≡ zone_prices_of (the_prices self.now) zone }
    {
        let m = self.certificate.market_prices();
        let n = self.certificate.zone_prices(zone);
        crate::added(m, n)
    }
}
