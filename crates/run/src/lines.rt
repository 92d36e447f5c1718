// Lines: each event read, acted on and told; then what follows the last event.
ghost use Rattle.std.specs.Prelude.{◌≡◌, ◌≤◌, ◌-◌, length};
ghost use Rattle.record.specs.Refusal.{number_of};
ghost use Rattle.words.specs.LentMemory.{memory_in, SameTables};
ghost use Rattle.schedule.specs.EventRead.{event_told};
ghost use Rattle.text.specs.Put.{put, puts};
ghost use Rattle.run.specs.declared.Phase.TheVariants.{Acting};
ghost use Rattle.run.specs.Pieces.{world, next_number};
ghost use Rattle.run.specs.PrivatePromises.{LeftOff, Ready, stopped_text, last_text};

use crate::{Filled, Phase, Run};
use lent::act_in;
use record::{Event, HEAD, Refusal};
use schedule::{Cursor, read_event};
use text::{put_keys, put_line, put_refusal};
use words::Tables;

// The number of the next line.
#[tactic(auto, unfolding(crate::specs::Pieces::next_number))]
fn number_after(number: u32) -> u32
    ensures { result ≡ next_number number }
{
    number.saturating_add(1)
}

// The line of a refusal that stops the run, and the first word of the last line.
fn put_stopped(part: &mut [u8], number: u32, refusal: Refusal) -> usize
    requires { 64 ≤ length part.old }
    ensures result_after { put part.new result ≡ puts (stopped_text number (number_of refusal)) part.old }
    ensures upper_bound { result ≤ 34 }
{
    let k = put_refusal(part, number, u8::from(refusal));
    let m = put_keys(&mut part[k..]);
    k + m
}

// What follows the last event.
#[tactic(auto, using(crate::proofs::LastTexts::last_got, crate::proofs::LastTexts::last_end, crate::proofs::LastTexts::last_refused))]
fn put_last(part: &mut [u8], number: u32, read: Result<Option<(Event, Cursor)>, Refusal>) -> usize
    requires { 64 ≤ length part.old }
    ensures result_after { put part.new result ≡ puts (last_text number (event_told read)) part.old }
    ensures upper_bound { result ≤ 34 }
{
    match read {
        Ok(Some(_)) => 0,
        Ok(None) => put_keys(part),
        Err(refusal) => put_stopped(part, number, refusal),
    }
}

// Lines, until the block has no room for one more or the events are over.
pub(crate) fn fill_lines(file: &[u8], tables: &mut Tables, block: &mut [u8], mut run: Run) -> Filled
    requires { run.phase ≡ Acting }
    ensures same { SameTables tables.old tables.new }
    ensures left_off { LeftOff file.now (world (memory_in tables.old run.sizes) run) block.old
        (world (memory_in tables.new result.run.sizes) result.run) block.new result.count }
    ensures count_in_bounds { result.count ≤ length block.new }
    ensures ready { Ready result.run.phase (length block.new - result.count) }
{
    let mut at: usize = 0;
    loop {
        if block.len() - at < 64 {
            return Filled { count: at, run };
        }
        let read = read_event(file, run.cursor);
        let Ok(Some((event, next))) = read else {
            let m = put_last(&mut block[at..], run.number, read);
            let run = run.in_phase(Phase::Walking(HEAD));
            return Filled { count: at + m, run };
        };
        let said = act_in(tables, run.sizes, &mut run.row, event);
        run.cursor = next;
        run.sizes = said.sizes;
        at += put_line(&mut block[at..], run.number, said.outcome);
        run.number = number_after(run.number);
    }
}
