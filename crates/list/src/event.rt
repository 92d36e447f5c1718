// One action: the status that it needs, and what each does. Rests on the step.
ghost use Rattle.std.specs.Prelude.{◌≡◌, false, set};
ghost use Rattle.record.specs.Record.{tail_node};
ghost use Rattle.record.specs.declared.Action.TheVariants as of;
ghost use Rattle.table.specs.Words.{link_word, no_deleter};
ghost use Rattle.table.specs.Events.{does, status_needed};
ghost use Rattle.words.specs.LentMemory.{memory_in, SameTables};
ghost use Rattle.list.specs.Acting.{left};
ghost use Rattle.list.specs.Rows.{one_more};

use crate::Acted;
use crate::actor::Actor;
use record::{
    Action, Address, DELETES, DOWN, FINDS, IDLE, INSERTS, NO_NODE, Node, Outcome, RUNNING, Refusal,
    TAIL,
};
use words::{Sizes, Tables};

// The status that an action needs.
pub(crate) fn status_needed(action: Action) -> u8
    ensures { result ≡ status_needed action }
{
    match action {
        Action::Insert(_) | Action::Delete(_) | Action::Find(_) => IDLE,
        Action::Step | Action::Stop => RUNNING,
        Action::Restart => DOWN,
    }
}

// The words of the next node: its address, its link unmarked to tail, deleter none.
fn give_out(tables: &mut Tables, taken: Node, address: Address)
    ensures same { SameTables tables.old tables.new }
    ensures address { tables.new.addresses.now ≡ set tables.old.addresses.now taken.0 address.0 }
    ensures link { tables.new.links.now ≡ set tables.old.links.now taken.0 (link_word tail_node false) }
    ensures deleter { tables.new.deleters.now ≡ set tables.old.deleters.now taken.0 no_deleter }
{
    words::write(tables.addresses, taken, address.0);
    words::write(tables.links, taken, words::link_word(TAIL, false));
    words::write(tables.deleters, taken, 0);
}

impl Actor {
    // One node more given out.
    fn one_more(self) -> Sizes
        ensures { result ≡ one_more self.sizes }
    {
        Sizes {
            count: self.sizes.count + 1,
            ..self.sizes
        }
    }

    // Insert: takes the next node, sets its address, links it unmarked to tail, deleter none.
    #[tactic(auto, unfolding(table::specs::Events::does, table::specs::Words::given_out))]
    fn insert(self, tables: &mut Tables, address: Address) -> Acted
        ensures same { SameTables tables.old tables.new }
        ensures left { left (memory_in tables.new result.sizes) result ≡
            does (memory_in tables.old self.sizes) self.process self.before (of.Insert address) }
    {
        if self.sizes.count == self.sizes.nodes {
            return self.refused(Refusal::NoNodeLeft);
        }
        let taken = Node(self.sizes.count);
        give_out(tables, taken, address);
        Acted {
            advanced: self.before.request(0, INSERTS, address, taken),
            sizes: self.one_more(),
            outcome: Outcome::Accepted,
        }
    }

    // The action of a process that is there and has the status it needs.
    #[tactic(auto, unfolding(table::specs::Events::does))]
    pub(crate) fn does(self, tables: &mut Tables, action: Action) -> Acted
        ensures same { SameTables tables.old tables.new }
        ensures left { left (memory_in tables.new result.sizes) result ≡
            does (memory_in tables.old self.sizes) self.process self.before action }
    {
        match action {
            Action::Insert(address) => self.insert(tables, address),
            Action::Delete(address) => self.accepted(
                self.before.request(0, DELETES, address, NO_NODE),
            ),
            Action::Find(address) => self.accepted(
                self.before.request(11, FINDS, address, NO_NODE),
            ),
            Action::Step => self.step(tables),
            Action::Stop => self.accepted(self.before.goes_down()),
            Action::Restart => self.accepted(self.before.restarts()),
        }
    }
}
