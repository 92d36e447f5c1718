// The reader: a header, and one event after another.
ghost use Rattle.std.specs.Prelude.{◌≡◌, ◌-◌, ◌≤◌, ◌<◌, length};
ghost use Rattle.record.specs.Event.{event_of};
ghost use Rattle.record.specs.declared.Action.TheVariants.{Step};
ghost use Rattle.schedule.specs.Reading.{request_of_kind};
ghost use Rattle.schedule.specs.HeaderRead.{header_told};
ghost use Rattle.schedule.specs.EventRead.{event_told};
ghost use Rattle.schedule.specs.Cursors.{cursor_in, cursor_at, header_at, event_at};
ghost use Rattle.schedule.specs.Inside.Kinds.{number_of_kind};
ghost use Rattle.schedule.specs.Inside.Continuing.{item_told, burst_at, rest_at, item_at};

use crate::kind::Kind;
use crate::{Cursor, Header};
use numbers::read_number;
use record::{Action, Address, Event, Process, Refusal};

// The header at the cursor, and the cursor after it.
#[tactic(auto, using(crate::proofs::WaysOut::header_laws))]
pub fn read_header(bytes: &[u8], cursor: Cursor) -> Result<(Header, Cursor), Refusal>
    ensures { header_told result ≡ header_at bytes.now cursor }
{
    if 65536 < bytes.len() {
        return Err(Refusal::BadSizes);
    }
    let (nodes, at) = read_number(bytes, cursor.at)?;
    let (processes, next) = read_number(bytes, at)?;
    if !words::sizes_fit(nodes, processes) {
        return Err(Refusal::BadSizes);
    }
    let header = Header { nodes, processes };
    Ok((header, Cursor::outside_burst(next)))
}

// The request of a kind from 0 to 2.
fn request_of_kind(kind: Kind, claimed: Address) -> Action
    ensures { result ≡ request_of_kind (number_of_kind kind) claimed }
{
    match kind {
        Kind::Insert => Action::Insert(claimed),
        Kind::Delete => Action::Delete(claimed),
        _ => Action::Find(claimed),
    }
}

// An event that is no burst, and the cursor after it.
fn single(process: Process, action: Action, next: usize) -> (Event, Cursor)
    ensures event { result.0 ≡ event_of process action }
    ensures after { result.1 ≡ cursor_at next }
{
    (Event { process, action }, Cursor::outside_burst(next))
}

// A step of a burst of which so many are left, and the cursor after it.
fn step_of_burst(process: Process, left: u32, at: usize) -> (Event, Cursor)
    requires { 0 < left }
    ensures event { result.0 ≡ event_of process Step }
    ensures after { result.1 ≡ cursor_in at process (left - 1) }
{
    let event = Event {
        process,
        action: Action::Step,
    };
    let after = Cursor {
        at,
        process,
        left: left - 1,
    };
    (event, after)
}

// The first step of a burst, its process read.
#[tactic(auto, using(crate::proofs::WaysOut::burst_laws))]
fn read_burst(bytes: &[u8], process: Process, at: usize) -> Result<(Event, Cursor), Refusal>
    ensures { item_told result ≡ burst_at bytes.now process at }
{
    let (count, next) = read_number(bytes, at)?;
    if !(1..=255).contains(&count) {
        return Err(Refusal::BadEvent);
    }
    Ok(step_of_burst(process, count, next))
}

// An event, its kind and process read: the kind says what follows.
#[tactic(auto, using(crate::proofs::WaysOut::rest_laws))]
fn read_rest(
    bytes: &[u8],
    kind: Kind,
    process: Process,
    at: usize,
) -> Result<(Event, Cursor), Refusal>
    requires { at ≤ length bytes.now }
    ensures { item_told result ≡ rest_at bytes.now (number_of_kind kind) process at }
{
    match kind {
        Kind::Insert | Kind::Delete | Kind::Find => {
            let (claimed, next) = read_number(bytes, at)?;
            let action = request_of_kind(kind, Address(claimed));
            Ok(single(process, action, next))
        }
        Kind::Step => Ok(single(process, Action::Step, at)),
        Kind::Stop => Ok(single(process, Action::Stop, at)),
        Kind::Restart => Ok(single(process, Action::Restart, at)),
        Kind::Burst => read_burst(bytes, process, at),
    }
}

// An event that stands at a place: its kind is judged before its process is read.
#[tactic(auto, using(crate::proofs::WaysOut::item_laws))]
fn read_item(bytes: &[u8], at: usize) -> Result<(Event, Cursor), Refusal>
    ensures { item_told result ≡ item_at bytes.now at }
{
    let (number, at) = read_number(bytes, at)?;
    let kind = Kind::try_from(number)?;
    let (process, next) = read_number(bytes, at)?;
    read_rest(bytes, kind, Process(process), next)
}

// The event at the cursor, and the cursor after it: a step left of a burst, or what stands in the file, which may have ended.
#[tactic(auto, using(crate::proofs::WaysOut::event_laws))]
pub fn read_event(bytes: &[u8], cursor: Cursor) -> Result<Option<(Event, Cursor)>, Refusal>
    ensures { event_told result ≡ event_at bytes.now cursor }
{
    if 0 < cursor.left {
        return Ok(Some(step_of_burst(cursor.process, cursor.left, cursor.at)));
    }
    if bytes.len() <= cursor.at {
        return Ok(None);
    }
    let item = read_item(bytes, cursor.at)?;
    Ok(Some(item))
}
