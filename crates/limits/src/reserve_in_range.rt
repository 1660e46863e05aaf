// What a case says of one reserve, in the ranges of a valid case.
ghost use Rattle.std.specs.Prelude.{◌≡◌};
ghost use Rattle.market.specs.Case.{Case};
ghost use Rattle.market.specs.declared.Reserve.{Reserve};
ghost use Rattle.market.specs.UpperBounds.{share_of};
ghost use Rattle.market.specs.Records.{power, reserve_terms_of};
ghost use Rattle.case_records.specs.Ranged.{RangedTerms};

use crate::portion;
use market::{Kw, ReserveTerms, Thousandths};

#[derive(Clone, Copy, Drop)]
pub struct ReserveInRange {
    pub terms: ReserveTerms,
    pub ghost ranged: { RangedTerms terms },
}

impl ReserveInRange {
    // SHARE
    #[tactic(auto, using(crate::proofs::Factors::factors), unfolding(market::specs::UpperBounds::share_of, market::specs::Records::reserve_terms_of))]
    pub(crate) fn share(self) -> Kw
        ensures { (c : Case) (p : Reserve) → self.terms ≡ reserve_terms_of c p → result ≡ power (share_of c p) }
    {
        portion(self.terms.requirement, self.terms.share, Thousandths::ONE)
    }
}
