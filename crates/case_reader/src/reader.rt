// The lent bytes of a case with its three counts, and nothing said of either: each method asks that the bytes that it reads are there
// (`case_records`, specs/Places.antt), so that a part of a case can be read before the whole of it is known.

ghost use Rattle.std.specs.Prelude.{◌≡◌, ◌<◌};
ghost use Rattle.market.specs.Version.{version_in};
ghost use Rattle.market.specs.CaseFile.{head_size, case_of};
ghost use Rattle.market.specs.Records.{kw, shift_factor, power, record_of, offer_steps_of, terms_of, curve_steps_of, zone_requirements_of};
ghost use Rattle.wire.specs.Within.{Within};
ghost use Rattle.case_records.specs.Places.{ZoneIn, ResourceIn, FlowgateIn};

use market::{
    Counts, Curve, CurveAmounts, CurveSteps, Kw, OfferSteps, Resource, ShiftFactor, Terms,
};
use wire::CaseHead;

#[derive(Clone, Copy)]
pub struct CaseReader<'a> {
    pub bytes: &'a [u8],
    pub resources: usize,
    pub zones: usize,
    pub flowgates: usize,
}

impl<'a> CaseReader<'a> {
    pub fn new(bytes: &'a [u8], n: Counts) -> Self
        ensures bytes { result.bytes ≡ bytes.entry }
        ensures resources { result.resources ≡ n.resources }
        ensures zones { result.zones ≡ n.zones }
        ensures flowgates { result.flowgates ≡ n.flowgates }
    {
        CaseReader {
            bytes,
            resources: n.resources,
            zones: n.zones,
            flowgates: n.flowgates,
        }
    }

    // ---- the head of a case, at places that no count moves: demand, reserve terms, demand curves

    pub fn demand(&self) -> Kw
        requires { Within self.now.bytes.now 0 (head_size (version_in self.now.bytes.now)) }
        ensures { result ≡ power (case_of self.now.bytes.now).demand }
    {
        case_records::demand(&CaseHead::new(self.bytes))
    }

    pub fn terms(&self) -> Terms
        requires { Within self.now.bytes.now 0 (head_size (version_in self.now.bytes.now)) }
        ensures { result ≡ terms_of (case_of self.now.bytes.now) }
    {
        case_records::terms(&CaseHead::new(self.bytes))
    }

    pub fn curve(&self, curve: Curve) -> CurveSteps
        requires { Within self.now.bytes.now 0 (head_size (version_in self.now.bytes.now)) }
        ensures { result ≡ curve_steps_of (case_of self.now.bytes.now) curve }
    {
        case_records::curve_at(&CaseHead::new(self.bytes), curve)
    }

    // ---- zones, counted from 0

    pub fn zone(&self, z: usize) -> CurveAmounts
        requires { ZoneIn self.now.bytes.now z }
        ensures { result ≡ zone_requirements_of (case_of self.now.bytes.now) z }
    {
        case_records::zone_at(self.bytes, z)
    }

    // ---- resources, counted from 0

    #[tactic(auto, unfolding(market::specs::CaseFile::case_as))]
    pub fn resource(&self, i: usize) -> Resource
        requires { ResourceIn self.now.bytes.now self.now.zones i }
        ensures { result ≡ record_of ((case_of self.now.bytes.now).resource i) }
    {
        case_records::record_of(&case_records::resource_bytes(self.bytes, self.zones, i))
    }

    // The energy steps of resource i.
    #[tactic(auto, unfolding(market::specs::CaseFile::case_as))]
    pub fn offer_steps(&self, i: usize) -> OfferSteps
        requires { ResourceIn self.now.bytes.now self.now.zones i }
        ensures { result ≡ offer_steps_of ((case_of self.now.bytes.now).resource i) }
    {
        case_records::offer_steps_of(&case_records::resource_bytes(self.bytes, self.zones, i))
    }

    // ---- flowgates, counted from 0

    #[tactic(auto, unfolding(market::specs::CaseFile::case_as))]
    pub fn flowgate_limit(&self, f: usize) -> Kw
        requires { FlowgateIn self.now.bytes.now self.now.resources self.now.zones f }
        ensures { result ≡ kw ((case_of self.now.bytes.now).flowgate_limit f) }
    {
        let flowgate = case_records::flowgate_bytes(self.bytes, self.resources, self.zones, f);
        Kw(flowgate.limit())
    }

    #[tactic(auto, unfolding(market::specs::CaseFile::case_as))]
    pub fn shift_factor(&self, f: usize, i: usize) -> ShiftFactor
        requires { FlowgateIn self.now.bytes.now self.now.resources self.now.zones f × (i < self.now.resources) }
        ensures { result ≡ shift_factor ((case_of self.now.bytes.now).shift_factor f i) }
    {
        let flowgate = case_records::flowgate_bytes(self.bytes, self.resources, self.zones, f);
        ShiftFactor(flowgate.factor(i))
    }
}
