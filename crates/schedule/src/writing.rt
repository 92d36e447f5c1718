// The writer: a header or an event into the rest of the output. Room is judged before anything is written.
ghost use Rattle.std.specs.Prelude.{◌≡◌, ◌-◌, ◌≤◌, min, length};
ghost use Rattle.record.specs.Event.{address_of};
ghost use Rattle.numbers.specs.Numbers.{number_bytes};
ghost use Rattle.schedule.specs.Encoding.{address_bytes, event_bytes};
ghost use Rattle.schedule.specs.Writing.{put_at, answered, written_header, written_event};
ghost use Rattle.schedule.specs.Inside.Laying.{third_bytes, tail_bytes, bytes_of, fitted, put_in_rest};

use crate::Header;
use crate::kind::Kind;
use record::{Action, Event, Refusal};

// The numbers that a header or an event is written as: two, or three.
#[derive(Clone, Copy)]
struct Numbers {
    first: u32,
    second: u32,
    third: Option<u32>,
}

// How many bytes a number takes.
#[tactic(auto, using(numbers::proofs::Sizes::sizes))]
fn number_size(number: u32) -> usize
    ensures value { result ≡ length (number_bytes number) }
    ensures upper_bound { result ≤ 5 }
{
    let mut rest = number;
    for size in 1..5 {
        if rest < 128 {
            return size;
        }
        rest /= 128;
    }
    5
}

// How many bytes they all take.
#[tactic(auto, using(crate::proofs::BytesNeeded::size_laws))]
fn size(numbers: Numbers) -> usize
    ensures { result ≡ length (bytes_of numbers) }
{
    let first = number_size(numbers.first);
    let second = number_size(numbers.second);
    match numbers.third {
        Some(third) => first + second + number_size(third),
        None => first + second,
    }
}

// The bytes of the rest of the output that count from a place on: none past 65,536.
fn room(rest: usize, at: usize) -> usize
    ensures { result ≡ min rest (65536 - at) }
{
    let limit = 65536usize.saturating_sub(at);
    rest.min(limit)
}

// The number writer: puts a number at the start of what it is lent, as far as that goes, and answers how many bytes.
#[tactic(auto, using(crate::proofs::PutNumber::putting))]
fn put_number(out: &mut [u8], number: u32) -> usize
    ensures out_after { out.new ≡ fitted (number_bytes number) out.old }
    ensures value { result ≡ min (length (number_bytes number)) (length out.old) }
{
    let mut rest = number;
    for (at, slot) in out.iter_mut().enumerate() {
        if rest < 128 {
            *slot = rest as u8;
            return at + 1;
        }
        *slot = (128 + rest % 128) as u8;
        rest /= 128;
    }
    out.len()
}

// The second number, and the third where there is one.
#[tactic(auto, using(crate::proofs::Lays::two_laid, crate::proofs::Lays::three_laid))]
fn put_tail(out: &mut [u8], numbers: Numbers)
    ensures { out.new ≡ fitted (tail_bytes numbers) out.old }
{
    let at = put_number(out, numbers.second);
    if let Some(third) = numbers.third {
        put_number(&mut out[at..], third);
    }
}

// The numbers at the start of what is lent, as far as that goes.
#[tactic(auto, using(crate::proofs::Lays::fitted_then))]
fn put_numbers(out: &mut [u8], numbers: Numbers)
    ensures { out.new ≡ fitted (bytes_of numbers) out.old }
{
    let at = put_number(out, numbers.first);
    put_tail(&mut out[at..], numbers);
}

// The event writer: puts the numbers at the start of the rest of the output, all or none of their bytes.
#[tactic(auto, using(crate::proofs::Lays::none_put, crate::proofs::Lays::all_put))]
fn put_event(rest: &mut [u8], at: usize, numbers: Numbers) -> Result<usize, Refusal>
    ensures { answered rest.new at result ≡ put_in_rest (bytes_of numbers) rest.old at }
{
    let needed = size(numbers);
    let left = room(rest.len(), at);
    if left < needed {
        return Err(Refusal::NoRoom);
    }
    put_numbers(&mut rest[..needed], numbers);
    Ok(at + needed)
}

// Writes the numbers into the rest of the output: a start past the output leaves none.
#[tactic(auto, using(crate::proofs::Lays::put_past, crate::proofs::Lays::put_in_rest_lem, crate::proofs::BytesNeeded::all_some))]
fn write_numbers(out: &mut [u8], at: usize, numbers: Numbers) -> Result<usize, Refusal>
    ensures { answered out.new at result ≡ put_at (bytes_of numbers) out.old at }
{
    if out.len() < at {
        return Err(Refusal::NoRoom);
    }
    put_event(&mut out[at..], at, numbers)
}

// The address of a request.
#[tactic(auto, unfolding(crate::specs::Encoding::address_bytes))]
fn claimed(action: Action) -> Option<u32>
    ensures { third_bytes result ≡ address_bytes (address_of action) }
{
    match action {
        Action::Insert(address) | Action::Delete(address) | Action::Find(address) => Some(
            address.0,
        ),
        Action::Step | Action::Stop | Action::Restart => None,
    }
}

// An event's kind, process and address.
#[tactic(auto, unfolding(crate::specs::Encoding::event_bytes))]
fn numbers_of(event: Event) -> Numbers
    ensures { bytes_of result ≡ event_bytes event }
{
    let kind = Kind::from(event.action);
    let third = claimed(event.action);
    Numbers {
        first: u32::from(kind),
        second: event.process.0,
        third,
    }
}

// Writes a header at a place of the output, and answers the next place.
#[tactic(auto, using(crate::proofs::Lays::header_refused, crate::proofs::Lays::header_put))]
pub fn write_header(out: &mut [u8], at: usize, header: Header) -> Result<usize, Refusal>
    ensures { answered out.new at result ≡ written_header header out.old at }
{
    if !words::sizes_fit(header.nodes, header.processes) {
        return Err(Refusal::BadSizes);
    }
    let numbers = Numbers {
        first: header.nodes,
        second: header.processes,
        third: None,
    };
    write_numbers(out, at, numbers)
}

// Writes an event at a place of the output, and answers the next place.
#[tactic(auto, using(crate::proofs::Lays::event_put))]
pub fn write_event(out: &mut [u8], at: usize, event: Event) -> Result<usize, Refusal>
    ensures { answered out.new at result ≡ written_event event out.old at }
{
    let numbers = numbers_of(event);
    write_numbers(out, at, numbers)
}
