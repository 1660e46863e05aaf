// What is decided once of each resource and read by everything after it: whether it is on-line, whether its contingency reserve
// is spinning, its limits, the upper bounds of its reserves (01, 'Before the rows'). It is kept in one lent slice, a record for
// each resource.
#![tactic(auto)]

ghost use Rattle.std.specs.Prelude.{◌≡◌, ◌<◌, ◌≤◌, length};
ghost use Rattle.market.specs.Case.{Case, Resource as Figures};
ghost use Rattle.market.specs.Outcome.{Valid};
ghost use Rattle.market.specs.Records.{record_of, terms_of};
ghost use Rattle.case_reader.specs.Reader.{case_in};
ghost use Rattle.limits.specs.InRange.{terms_in};
ghost use Rattle.capabilities.specs.Kept.{capability_of, Kept};

use case_reader::SizedCase;
use limits::{ReserveBounds, ResourceInRange, ResourceLimits, TermsInRange};
use market::{Kw, MOST_RESOURCES};

mod kept_case;

pub use kept_case::KeptCase;

// What a resource can do in the interval.
#[derive(Clone, Copy, Drop)]
pub struct Capability {
    pub on_line: bool,
    pub spinning: bool,
    pub limits: ResourceLimits,
    pub bounds: ReserveBounds,
}

// Where nothing is decided yet: room for the most resources that a case can have.
pub const UNDECIDED: [Capability; MOST_RESOURCES] = [Capability {
    on_line: false,
    spinning: false,
    limits: ResourceLimits {
        max: Kw(0),
        min: Kw(0),
        high: Kw(0),
        low: Kw(0),
    },
    bounds: ReserveBounds {
        regulation: Kw(0),
        contingency: Kw(0),
        on_line_short_term: Kw(0),
        off_line_short_term: Kw(0),
    },
}; MOST_RESOURCES];

#[tactic(auto, using(limits::proofs::ByKind::on_line_is), unfolding(crate::specs::Kept::capability_of, limits::specs::Together::limits_of, market::specs::Records::record_of))]
fn capability_of(terms: TermsInRange, r: ResourceInRange) -> Capability
    ensures { (c : Case) (s : Figures) → terms_in terms ≡ terms_of c → r.resource ≡ record_of s → result ≡ capability_of c s }
{
    let availability = limits::availability_of(r.resource);
    let on = availability.on_line();
    let own = r.limits(on);
    let bounds = r.reserve_bounds(own.max, terms, availability);
    let state = r.resource.state;
    Capability {
        on_line: on,
        spinning: limits::spinning(on, state),
        limits: own,
        bounds: bounds,
    }
}

// Of every resource, each at its own place. Kept apart from the stages that call it, for its registers, as
// `case_soundness::resources_sound` is.
#[inline(never)]
pub fn write_capabilities(case: &SizedCase<'_>, out: &mut [Capability])
    requires { Valid case.now.bytes.now × (case.now.resources ≤ length out.old) }
    ensures { Kept (case_in case.now) case.now.resources out.new }
{
    let terms = limits::terms_in_range(case.terms());
    for i in 0..case.resources {
        let resource = ResourceInRange {
            resource: case.resource(i),
        };
        out[i] = capability_of(terms, resource);
    }
}
