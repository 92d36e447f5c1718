// Single events on lent, possibly damaged tables: cases from standard input, a line for each. The format of a case stands in reading, that of
// its line in writing.
#![tactic(auto)]

mod reading;
mod writing;

ghost use Rattle.std.specs.Prelude.{◌≡◌, drop};
ghost use Rattle.table.specs.Events.{state_of, leaves_in, event as event_in};
ghost use Rattle.words.specs.LentMemory.{lent_memory};
ghost use Rattle.cases.specs.Lent.{lent_state};

use lent::Said;
use reading::{Case, Numbers};
use record::{Event, Record};
use std::io::{Read, Write};
use streams::{ReadFailed, WriteFailed};
use words::{Sizes, Tables};
use writing::Block;

// What keeps the program from reading its input or writing its output.
#[derive(Clone, Copy, Debug)]
enum Trouble {
    Unread,
    CutOff,
}

impl From<ReadFailed> for Trouble {
    fn from(_failed: ReadFailed) -> Trouble {
        Trouble::Unread
    }
}

impl From<WriteFailed> for Trouble {
    fn from(_failed: WriteFailed) -> Trouble {
        Trouble::CutOff
    }
}

impl Trouble {
    // What standard error is told.
    fn words(self) -> &'static [u8] {
        match self {
            Trouble::Unread => b"cases: standard input can't be read\n",
            Trouble::CutOff => b"cases: standard output takes no more\n",
        }
    }
}

// Works an event on lent words and records.
fn act_in_row(
    addresses: &mut [u32],
    links: &mut [u32],
    deleters: &mut [u32],
    sizes: Sizes,
    row: &mut [Record],
    event: Event,
) -> Said
    ensures { leaves_in (state_of (lent_memory addresses.new links.new deleters.new result.sizes) row.new) result.outcome ≡
        event_in (state_of (lent_memory addresses.old links.old deleters.old sizes) row.old) event }
{
    let mut tables = Tables {
        addresses,
        links,
        deleters,
    };
    lent::act_in(&mut tables, sizes, row, event)
}

// Works the event of a case on what it lends; the records past those that it lends stay.
fn act(case: &mut Case) -> Said
    ensures acted { leaves_in (lent_state case.new result.sizes) result.outcome ≡ event_in (lent_state case.old case.old.sizes) case.old.event }
    ensures rest { drop case.old.row.count case.new.row.items ≡ drop case.old.row.count case.old.row.items }
{
    let addresses = &mut case.addresses;
    let links = &mut case.links;
    let deleters = &mut case.deleters;
    let row = &mut case.row;
    // `[0..n]`, since the check has no rule for `[..n]` of a field beside a ghost field
    act_in_row(
        &mut addresses.items[0..addresses.count],
        &mut links.items[0..links.count],
        &mut deleters.items[0..deleters.count],
        case.sizes,
        &mut row.items[0..row.count],
        case.event,
    )
}

// Answers every case of the input; a case takes at least a byte. A bad case ends the output.
fn answer_all<W: Write>(to: &mut W, input: &[u8]) -> Result<(), WriteFailed> {
    let mut block = Block::new();
    let mut numbers = Numbers::new(input);
    for _ in 0..input.len() {
        if numbers.is_at_end() {
            break;
        }
        block.make_room(to)?;
        let Some(mut case) = numbers.take_case() else {
            block.write_out(to)?;
            return streams::write_all(to, b"bad case\n");
        };
        let said = act(&mut case);
        block.gather_line(said, &case);
    }
    block.write_out(to)
}

// Reads the input and answers its cases.
fn answer_input<R: Read, W: Write>(from: &mut R, to: &mut W) -> Result<(), Trouble> {
    let mut bytes = [0u8; 262144];
    let length = streams::read_in(from, &mut bytes)?;
    answer_all(to, &bytes[..length])?;
    Ok(())
}

fn main(rt: HostRuntime) {
    if let Err(trouble) = answer_input(&mut rt.stdin(), &mut rt.stdout()) {
        streams::complain(&mut rt.stderr(), trouble.words());
    }
}
