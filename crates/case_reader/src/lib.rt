// The one reader that records are read out of a case through: the lent bytes of the case, with its three counts (`CaseReader`); and the
// same of a whole case of these counts (`SizedCase`), where each method asks nothing but an index in range. What a method reads of a part is
// read by `case_records`, or by the part's own methods. The counts are fields of their own, and not one `Counts`, since most contracts
// name one of them.
#![tactic(auto)]

ghost use Rattle.std.specs.Prelude.{◌≡◌, ◌<◌};
ghost use Rattle.market.specs.Version.{version_in};
ghost use Rattle.market.specs.CaseFile.{resource_place, flowgate_place};
ghost use Rattle.market.specs.Records.{kw, shift_factor, power, record_of, offer_steps_of, terms_of, curve_steps_of, zone_requirements_of};
ghost use Rattle.case_records.specs.Places.{CaseBytes};

use market::{
    Counts, Curve, CurveAmounts, CurveSteps, Kw, OfferSteps, Resource, ShiftFactor, Terms, Version,
};
use wire::{CaseHead, FlowgateBytes, ResourceBytes};

mod reader;

pub use reader::CaseReader;

#[derive(Clone, Copy)]
pub struct SizedCase<'a> {
    pub bytes: &'a [u8],
    pub resources: usize,
    pub zones: usize,
    pub flowgates: usize,
    pub ghost whole: { CaseBytes bytes.now resources zones flowgates },
}

impl<'a> SizedCase<'a> {
    ghost use Rattle.case_reader.specs.Reader.{case_in};

    // Beside `SizedCertificate::new`: each makes a type of its own, with another fact in its ghost field.
    pub fn new(bytes: &'a [u8], n: Counts) -> Self
        requires { CaseBytes bytes.now n.resources n.zones n.flowgates }
        ensures bytes { result.bytes ≡ bytes.entry }
        ensures resources { result.resources ≡ n.resources }
        ensures zones { result.zones ≡ n.zones }
        ensures flowgates { result.flowgates ≡ n.flowgates }
    {
        SizedCase {
            bytes,
            resources: n.resources,
            zones: n.zones,
            flowgates: n.flowgates,
        }
    }

    fn reader(&self) -> CaseReader<'a>
        ensures bytes { result.bytes ≡ self.now.bytes }
        ensures resources { result.resources ≡ self.now.resources }
        ensures zones { result.zones ≡ self.now.zones }
        ensures flowgates { result.flowgates ≡ self.now.flowgates }
    {
        CaseReader {
            bytes: self.bytes,
            resources: self.resources,
            zones: self.zones,
            flowgates: self.flowgates,
        }
    }

    // Of the file, which is a known one.
    #[tactic(auto, unfolding(market::specs::CaseFile::case_as))]
    pub fn version(&self) -> Version
        ensures { result ≡ (case_in self.now).version }
    {
        wire::version_at(self.bytes)
    }

    // ---- the head of a case, at places that no count moves: demand, reserve terms, demand curves

    pub fn head(&self) -> CaseHead<'a>
        ensures { result.bytes ≡ self.now.bytes }
    {
        CaseHead::new(self.bytes)
    }

    pub fn demand(&self) -> Kw
        ensures { result ≡ power (case_in self.now).demand }
    {
        self.reader().demand()
    }

    pub fn terms(&self) -> Terms
        ensures { result ≡ terms_of (case_in self.now) }
    {
        self.reader().terms()
    }

    pub fn curve(&self, curve: Curve) -> CurveSteps
        ensures { result ≡ curve_steps_of (case_in self.now) curve }
    {
        self.reader().curve(curve)
    }

    // ---- zones, counted from 0

    pub fn zone(&self, z: usize) -> CurveAmounts
        requires { z < self.now.zones }
        ensures { result ≡ zone_requirements_of (case_in self.now) z }
    {
        self.reader().zone(z)
    }

    // ---- resources, counted from 0

    // Where resource i stands, for what reads single figures of it.
    pub fn resource_bytes(&self, i: usize) -> ResourceBytes<'a>
        requires { i < self.now.resources }
        ensures bytes { result.bytes ≡ self.now.bytes }
        ensures at { result.at ≡ resource_place (version_in self.now.bytes.now) self.now.zones i }
    {
        case_records::resource_bytes(self.bytes, self.zones, i)
    }

    #[tactic(auto, unfolding(market::specs::CaseFile::case_as))]
    pub fn resource(&self, i: usize) -> Resource
        requires { i < self.now.resources }
        ensures { result ≡ record_of ((case_in self.now).resource i) }
    {
        self.reader().resource(i)
    }

    // The energy steps of resource i.
    #[tactic(auto, unfolding(market::specs::CaseFile::case_as))]
    pub fn offer_steps(&self, i: usize) -> OfferSteps
        requires { i < self.now.resources }
        ensures { result ≡ offer_steps_of ((case_in self.now).resource i) }
    {
        self.reader().offer_steps(i)
    }

    // ---- flowgates, counted from 0

    // Where flowgate f stands, for what reads single figures of it.
    pub fn flowgate_bytes(&self, f: usize) -> FlowgateBytes<'a>
        requires { f < self.now.flowgates }
        ensures bytes { result.bytes ≡ self.now.bytes }
        ensures at { result.at ≡ flowgate_place (version_in self.now.bytes.now) self.now.resources self.now.zones f }
        ensures resources { result.resources ≡ self.now.resources }
    {
        case_records::flowgate_bytes(self.bytes, self.resources, self.zones, f)
    }

    #[tactic(auto, unfolding(market::specs::CaseFile::case_as))]
    pub fn flowgate_limit(&self, f: usize) -> Kw
        requires { f < self.now.flowgates }
        ensures { result ≡ kw ((case_in self.now).flowgate_limit f) }
    {
        self.reader().flowgate_limit(f)
    }

    #[tactic(auto, unfolding(market::specs::CaseFile::case_as))]
    pub fn shift_factor(&self, f: usize, i: usize) -> ShiftFactor
        requires { (f < self.now.flowgates) × (i < self.now.resources) }
        ensures { result ≡ shift_factor ((case_in self.now).shift_factor f i) }
    {
        self.reader().shift_factor(f, i)
    }
}
