// Rows 11 and 12: find. Rests on accesses.
ghost use Rattle.table.specs.Words.{addresses≔, links≔};
ghost use Rattle.list.specs.Rows.{RowTells};

use crate::access::Field;
use crate::actor::Actor;
use record::{FALSE, Record, TRUE, either};
use std::cmp::Ordering;

#[tactic(auto, unfolding(table::specs::Places::row, table::specs::Places::place_of, crate::specs::Rows::RowLeaves, words::specs::LentWords::compared_of))]
impl Actor {
    // Place 11: read curr's link; curr is the target: on to the next node, or the find ends.
    pub(crate) fn row_11(self, addresses: &[u32], links: &[u32]) -> Option<Record>
        ensures { RowTells 11 self.sizes self.process self.before (λ m. links≔ links.now (addresses≔ addresses.now m)) result }
    {
        let read = self.read_link(links, Field::Curr)?;
        match words::compare(addresses, read.target, self.before.kept.address) {
            Ordering::Less => Some(
                self.before
                    .walked(read.target, 11, self.before.lost.pending),
            ),
            Ordering::Equal => Some(
                self.before
                    .walked(read.target, 12, self.before.lost.pending),
            ),
            Ordering::Greater => Some(self.before.walked(read.target, 19, FALSE)),
        }
    }

    // Place 12: read curr's link.
    pub(crate) fn row_12(self, links: &[u32]) -> Option<Record>
        ensures { RowTells 12 self.sizes self.process self.before (links≔ links.now) result }
    {
        let read = self.read_link(links, Field::Curr)?;
        Some(self.before.goes_with(19, either(read.mark, FALSE, TRUE)))
    }
}
