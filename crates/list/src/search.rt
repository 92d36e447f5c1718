// Rows 0 to 2: search. Rests on accesses.
ghost use Rattle.std.specs.Prelude.{◌≡◌};
ghost use Rattle.table.specs.Words.{Memory, addresses≔, links≔, equal};
ghost use Rattle.table.specs.Places.{search_ends};
ghost use Rattle.words.specs.LentMemory.{sized};
ghost use Rattle.list.specs.Rows.{followed, RowLeaves, RowTells};
ghost use Rattle.record.specs.Record.{◌▸◌, succ≔};

use crate::access::Field;
use crate::actor::Actor;
use record::{FALSE, INSERTS, Node, Record, TRUE, either};
use std::cmp::Ordering;

#[tactic(auto, unfolding(table::specs::Places::row, table::specs::Places::place_of, crate::specs::Rows::RowLeaves, words::specs::LentWords::compared_of, table::specs::Places::search_ends))]
impl Actor {
    // Place 0: read head's link.
    pub(crate) fn row_0(self, links: &[u32]) -> Option<Record>
        ensures { RowTells 0 self.sizes self.process self.before (links≔ links.now) result }
    {
        let read = self.read_link(links, Field::Head)?;
        Some(self.before.from_head(read.target))
    }

    // The end of a search, at the address or past it; succ is the target.
    fn search_ends(self, links: &[u32], target: Node, same: bool) -> Option<Record>
        ensures { (m : Memory) → same ≡ equal m.addresses self.before.lost.curr self.before.kept.address →
            result ≡ followed (sized self.sizes (links≔ links.now m)) self.before (search_ends m.addresses (self.before ▸ succ≔ target)) }
    {
        if self.before.lost.recovering {
            self.usable(links, Field::Own)?;
            if self.before.lost.curr == self.before.kept.node {
                return Some(self.before.scans(target, false, 18, TRUE));
            }
            return Some(self.before.found(target, 14));
        }
        if self.before.kept.kind == INSERTS {
            if same {
                return Some(self.before.scans(target, false, 18, FALSE));
            }
            return Some(self.before.found(target, 3));
        }
        if same {
            return Some(self.before.found(target, 5));
        }
        Some(self.before.scans(target, false, 18, FALSE))
    }

    // Place 1: read curr's link; on to the next node, or the search ends.
    pub(crate) fn row_1(self, addresses: &[u32], links: &[u32]) -> Option<Record>
        ensures { RowTells 1 self.sizes self.process self.before (λ m. links≔ links.now (addresses≔ addresses.now m)) result }
    {
        let read = self.read_link(links, Field::Curr)?;
        if read.mark {
            return Some(self.before.found(read.target, 2));
        }
        match words::compare(addresses, self.before.lost.curr, self.before.kept.address) {
            Ordering::Less => Some(
                self.before
                    .scans(read.target, true, 1, self.before.lost.pending),
            ),
            Ordering::Equal => self.search_ends(links, read.target, true),
            Ordering::Greater => self.search_ends(links, read.target, false),
        }
    }

    // Place 2: swap pred's link from curr to succ.
    pub(crate) fn row_2(self, links: &mut [u32]) -> Option<Record>
        ensures { RowLeaves 2 self.sizes self.process self.before (links≔ links.old) (links≔ links.new) result }
    {
        let swap = self.swap_link(links, Field::Pred, Field::Curr, Field::Succ, false)?;
        Some(either(swap.wrote, self.before.unlinked(), self.before.goes(0)))
    }
}
