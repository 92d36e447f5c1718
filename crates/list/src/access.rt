// The accesses of the rows to the lent words, as the place table's `Access` has them: each tests the nodes that it uses, looks at its word only where
// they are usable, and tells what it met; nothing where it is refused. Rests on the crate words.
ghost use Rattle.std.specs.Prelude.{◌≡◌, cond, Some, None};
ghost use Rattle.table.specs.Words.{Memory, links≔, deleters≔, in_use, deleter_word};
ghost use Rattle.table.specs.Places.{unmarked};
ghost use Rattle.words.specs.LentMemory.{sized};
ghost use Rattle.list.specs.Accesses.{field_named, link_named, usable_node, link_read, deleter_read, access_left};
ghost use Rattle.list.specs.Accesses.{link_written, link_swap, deleter_swap};

use crate::actor::Actor;
use record::{HEAD, NO_NODE, Node};
use words::{LinkRead, Swapped};

// A node as a row names it: head, or a field of the record.
#[derive(Clone, Copy)]
pub(crate) enum Field {
    Head,
    Pred,
    Curr,
    Succ,
    Own,
}

impl Actor {
    // The deleter word of the process.
    fn deleter_word(self) -> u32
        ensures { result ≡ deleter_word self.process }
    {
        self.process.0 + 1
    }

    // A node, if it is in use.
    fn used(self, links: &[u32], n: Node) -> Option<Node>
        ensures { (m : Memory) → result ≡ cond (in_use (sized self.sizes (links≔ links.now m)) n) (Some n) None }
    {
        words::in_use(links, self.sizes, n).then_some(n)
    }

    // The node that a field names, if a row may use it: one in use, and for own one that is there.
    #[tactic(auto, unfolding(crate::specs::Accesses::usable_node))]
    pub(crate) fn usable(self, links: &[u32], field: Field) -> Option<Node>
        ensures { (m : Memory) → result ≡ usable_node (sized self.sizes (links≔ links.now m)) self.before (field_named field) }
    {
        match field {
            Field::Head => Some(HEAD),
            Field::Pred => self.used(links, self.before.lost.pred),
            Field::Curr => self.used(links, self.before.lost.curr),
            Field::Succ => self.used(links, self.before.lost.succ),
            Field::Own if self.before.kept.node == NO_NODE => None,
            Field::Own => self.used(links, self.before.kept.node),
        }
    }

    // Reads the link of a field's node.
    #[tactic(auto, unfolding(crate::specs::Accesses::link_read))]
    pub(crate) fn read_link(self, links: &[u32], field: Field) -> Option<LinkRead>
        ensures { (m : Memory) → result ≡ link_read (sized self.sizes (links≔ links.now m)) self.before (field_named field) }
    {
        let n = self.usable(links, field)?;
        words::link_met(links, self.sizes, n)
    }

    // Whether the deleter of a field's node is the process.
    #[tactic(auto, unfolding(crate::specs::Accesses::deleter_read, table::specs::Words::deleter_at))]
    pub(crate) fn read_deleter(self, links: &[u32], deleters: &[u32], field: Field) -> Option<bool>
        ensures { (m : Memory) → result ≡
            deleter_read (sized self.sizes (links≔ links.now (deleters≔ deleters.now m))) self.process self.before (field_named field) }
    {
        let n = self.usable(links, field)?;
        Some(words::word_at(deleters, n) == self.deleter_word())
    }

    // Writes the link of a field's node: another field's node, unmarked.
    #[tactic(auto, unfolding(crate::specs::Accesses::link_written))]
    pub(crate) fn write_link(self, links: &mut [u32], at: Field, to: Field) -> Option<()>
        ensures { (m : Memory) → access_left links.new result ≡
            link_written (sized self.sizes (links≔ links.old m)) self.before (field_named «at») (unmarked (field_named to)) }
    {
        let n = self.usable(links, at)?;
        let target = self.usable(links, to)?;
        words::write(links, n, words::link_word(target, false));
        Some(())
    }

    // Swaps the link of a field's node from another field's node, unmarked, to a third one's, with a mark.
    #[tactic(auto, unfolding(crate::specs::Accesses::link_swap))]
    pub(crate) fn swap_link(
        self,
        links: &mut [u32],
        at: Field,
        from: Field,
        to: Field,
        mark: bool,
    ) -> Option<Swapped>
        ensures { (m : Memory) → access_left links.new result ≡
            link_swap (sized self.sizes (links≔ links.old m)) self.before
            (field_named «at») (unmarked (field_named from)) (link_named (field_named to) mark) }
    {
        let n = self.usable(links, at)?;
        let from = self.usable(links, from)?;
        let to = self.usable(links, to)?;
        let expected = words::link_word(from, false);
        let new = words::link_word(to, mark);
        Some(words::swap(links, n, expected, new))
    }

    // Swaps the deleter of a field's node from none to the process.
    #[tactic(auto, unfolding(crate::specs::Accesses::deleter_swap))]
    pub(crate) fn swap_deleter(
        self,
        links: &[u32],
        deleters: &mut [u32],
        field: Field,
    ) -> Option<Swapped>
        ensures { (m : Memory) → access_left deleters.new result ≡
            deleter_swap (sized self.sizes (links≔ links.now (deleters≔ deleters.old m))) self.process self.before (field_named field) }
    {
        let n = self.usable(links, field)?;
        Some(words::swap(deleters, n, 0, self.deleter_word()))
    }
}
