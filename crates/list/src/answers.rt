// What an event answers: refused, or accepted. Rests on nothing of this crate but its types.
ghost use Rattle.std.specs.Prelude.{◌≡◌};
ghost use Rattle.record.specs.Refusal.{number_of};
ghost use Rattle.record.specs.declared.Outcome.TheVariants.{Refused, Accepted};
ghost use Rattle.list.specs.Rows.{acted_as, turned};

use crate::Acted;
use crate::actor::Actor;
use record::{Outcome, Record, Refusal};
use words::Sizes;

// Nothing changed, and the refusal's number.
pub(crate) fn refused(sizes: Sizes, old: Record, refusal: Refusal) -> Acted
    ensures { result ≡ acted_as sizes old (Refused (number_of refusal)) }
{
    Acted {
        advanced: old,
        sizes,
        outcome: Outcome::Refused(u8::from(refusal)),
    }
}

impl Actor {
    // The record after an accepted step; or the one before, where the step is refused with 8.
    pub(crate) fn turned(self, after: Option<Record>) -> Acted
        ensures { result ≡ turned self.sizes self.before after }
    {
        match after {
            Some(after) => self.accepted(after),
            None => self.refused(Refusal::Broken),
        }
    }

    // Nothing changed, and the refusal's number.
    pub(crate) fn refused(self, refusal: Refusal) -> Acted
        ensures { result ≡ acted_as self.sizes self.before (Refused (number_of refusal)) }
    {
        refused(self.sizes, self.before, refusal)
    }

    // The record advanced, and nothing handed out.
    pub(crate) fn accepted(self, after: Record) -> Acted
        ensures { result ≡ acted_as self.sizes after Accepted }
    {
        Acted {
            advanced: after,
            sizes: self.sizes,
            outcome: Outcome::Accepted,
        }
    }
}
