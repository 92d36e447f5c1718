// The list over lent tables: one event on one record by value. Rests on the place table.
#![tactic(auto)]

ghost use Rattle.std.specs.Prelude.{◌≡◌};
ghost use Rattle.table.specs.Events.{act};
ghost use Rattle.words.specs.LentMemory.{memory_in, SameTables};
ghost use Rattle.list.specs.Acting.{left};

mod access;
mod actor;
mod answers;
mod delete;
mod event;
mod find;
mod insert;
mod recovery;
mod search;
mod step;

use actor::Actor;
use record::{Action, Outcome, Process, Record, Refusal};
use words::{Sizes, Tables};

// What an event leaves of the record and of the sizes, and its outcome.
#[derive(Clone, Copy)]
pub struct Acted {
    pub advanced: Record,
    pub sizes: Sizes,
    pub outcome: Outcome,
}

// One event on the lent tables and one record, that of its process: refusals 7, 1, 2, 3, 8 in this order. It is taken into its callers' code: with
// a call for each event a run takes more than half as many instructions again.
#[tactic(auto, unfolding(table::specs::Events::act, table::specs::Events::refusal_in))]
#[inline(always)]
pub fn act(
    tables: &mut Tables,
    sizes: Sizes,
    process: Process,
    record: Record,
    action: Action,
) -> Acted
    ensures same { SameTables tables.old tables.new }
    ensures left { left (memory_in tables.new result.sizes) result ≡
        act (memory_in tables.old sizes) process «record» action }
{
    let addresses = &mut *tables.addresses;
    let links = &mut *tables.links;
    let deleters = &mut *tables.deleters;
    if !words::tables_fit(addresses, links, deleters, sizes) {
        return answers::refused(sizes, record, Refusal::BadSizes);
    }
    if sizes.processes <= process.0 {
        return answers::refused(sizes, record, Refusal::NoSuchProcess);
    }
    if record.kept.status != event::status_needed(action) {
        return answers::refused(sizes, record, Refusal::WrongStatus);
    }
    let actor = Actor {
        sizes,
        process,
        before: record,
    };
    actor.does(tables, action)
}
