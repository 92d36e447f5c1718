// The lent forms of an event: on a lent record, and in a lent row of records. Rests on the list.
#![tactic(auto)]

ghost use Rattle.std.specs.Prelude.{◌≡◌};
ghost use Rattle.table.specs.Events.{act, state_of, leaves_in, event as event_in};
ghost use Rattle.words.specs.LentMemory.{memory_in, SameTables};
ghost use Rattle.list.specs.Acting.{left};
ghost use Rattle.lent.specs.Lent.{acted_of};

use list::Acted;
use record::{Action, Event, Outcome, Process, Record, Refusal};
use words::{Sizes, Tables};

// What an event says to whoever lent the record or the row: the sizes after it, and its outcome.
#[derive(Clone, Copy)]
pub struct Said {
    pub sizes: Sizes,
    pub outcome: Outcome,
}

impl From<Acted> for Said {
    ghost use Rattle.lent.specs.Lent.{said_of};

    ghost from_gives = { λ acted said. said ≡ said_of acted };

    fn from(acted: Acted) -> Said {
        Said {
            sizes: acted.sizes,
            outcome: acted.outcome,
        }
    }
}

// One event on a lent record, which is left advanced. A refused event changes nothing, so that nothing is stored for it.
pub fn act_on(
    tables: &mut Tables,
    sizes: Sizes,
    process: Process,
    record: &mut Record,
    action: Action,
) -> Said
    ensures same { SameTables tables.old tables.new }
    ensures left { left (memory_in tables.new result.sizes) (acted_of «record».new result) ≡
        act (memory_in tables.old sizes) process «record».old action }
{
    let acted = list::act(tables, sizes, process, *record, action);
    if !matches!(acted.outcome, Outcome::Refused(_)) {
        *record = acted.advanced;
    }
    Said::from(acted)
}

// One event in a lent row: the record of its process is replaced, the others stay. A process past the process count is refused, and no record is
// read or stored for it.
pub fn act_in(tables: &mut Tables, sizes: Sizes, row: &mut [Record], event: Event) -> Said
    ensures same { SameTables tables.old tables.new }
    ensures left { leaves_in (state_of (memory_in tables.new result.sizes) row.new) result.outcome ≡
        event_in (state_of (memory_in tables.old sizes) row.old) event }
{
    let process = event.process;
    if row.len() < sizes.processes as usize {
        return Said {
            sizes,
            outcome: Outcome::Refused(u8::from(Refusal::BadSizes)),
        };
    }
    if sizes.processes <= process.0 {
        let unread = Record::fresh();
        return Said::from(list::act(tables, sizes, process, unread, event.action));
    }
    let record = &mut row[process.0 as usize];
    act_on(tables, sizes, process, record, event.action)
}
