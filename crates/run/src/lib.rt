// 01's run program: from the bytes of a schedule file to lines of text, block after block. Rests on the reader, the event in a lent row, the walk
// along the chain and the text.
#![tactic(auto)]

mod lines;
mod rest;

ghost use Rattle.std.specs.Prelude.{◌≡◌, ◌≤◌, ◌-◌, length};
ghost use Rattle.record.specs.Refusal.{number_of};
ghost use Rattle.words.specs.LentMemory.{memory_in, SameTables};
ghost use Rattle.run.specs.Filling.{stop};
ghost use Rattle.run.specs.Pieces.{world, phase≔, fills, unstated, refusing, begins};
ghost use Rattle.run.specs.PrivatePromises.{LeftOff, Ready, begun};

use fresh::fresh_tables;
use lines::fill_lines;
use record::{Node, Record, Refusal};
use rest::fill_rest;
use schedule::{Cursor, read_header};
use words::{Sizes, Tables};

// What a run does next: it says why its header was refused, acts on events, walks on along the chain from a node, or is over.
#[derive(Clone, Copy)]
pub enum Phase {
    Refusing(u8),
    Acting,
    Walking(Node),
    Over,
}

// A run that stands somewhere: its phase, its reading, the stated sizes, the number of its next line, and its records.
#[derive(Clone, Copy)]
pub struct Run {
    pub phase: Phase,
    pub cursor: Cursor,
    pub sizes: Sizes,
    pub number: u32,
    pub row: [Record; 64],
}

// How many bytes of the block are filled, and the run to go on with.
#[derive(Clone, Copy)]
pub struct Filled {
    pub count: usize,
    pub run: Run,
}

impl Run {
    // The same but for its phase.
    pub fn in_phase(self, phase: Phase) -> Run
        ensures { result ≡ phase≔ phase self }
    {
        Run { phase, ..self }
    }
}

// A run that has only to say why its header was refused.
fn refusing(refusal: Refusal) -> Run
    ensures { result ≡ refusing (number_of refusal) }
{
    Run {
        phase: Phase::Refusing(u8::from(refusal)),
        cursor: Cursor::start(),
        sizes: Sizes {
            nodes: 0,
            processes: 0,
            count: 0,
        },
        number: 0,
        row: [Record::fresh(); 64],
    }
}

// A run after its header, and the lent tables made fresh, where it is accepted.
fn begun(file: &[u8], tables: &mut Tables) -> Result<Run, Refusal>
    ensures same { SameTables tables.old tables.new }
    ensures left { world (memory_in tables.new (begun result).sizes) (begun result) ≡
        begins file.now (memory_in tables.old unstated) }
{
    let (header, cursor) = read_header(file, Cursor::start())?;
    let sizes = fresh_tables(tables, header.nodes, header.processes)?;
    Ok(Run {
        phase: Phase::Acting,
        cursor,
        sizes,
        number: 0,
        row: [Record::fresh(); 64],
    })
}

// A run at the start of a file: its header read, and the lent tables made fresh where it is accepted.
pub fn begin(file: &[u8], tables: &mut Tables) -> Run
    ensures same { SameTables tables.old tables.new }
    ensures left { world (memory_in tables.new result.sizes) result ≡ begins file.now (memory_in tables.old unstated) }
{
    match begun(file, tables) {
        Ok(run) => run,
        Err(refusal) => refusing(refusal),
    }
}

// The lines of events, where the run has come to them.
fn fill_first(file: &[u8], tables: &mut Tables, block: &mut [u8], run: Run) -> Filled
    ensures same { SameTables tables.old tables.new }
    ensures left_off { LeftOff file.now (world (memory_in tables.old run.sizes) run) block.old
        (world (memory_in tables.new result.run.sizes) result.run) block.new result.count }
    ensures count_in_bounds { result.count ≤ length block.new }
    ensures ready { Ready result.run.phase (length block.new - result.count) }
{
    match run.phase {
        Phase::Acting => fill_lines(file, tables, block, run),
        Phase::Refusing(_) | Phase::Walking(_) | Phase::Over => Filled { count: 0, run },
    }
}

// Fills a block with whole lines, and with whole addresses of the last line, from where the run stands. A block of fewer than 64 bytes is too
// short: nothing is put into it, and the run stays.
pub fn fill(file: &[u8], tables: &mut Tables, block: &mut [u8], run: Run) -> Filled
    ensures same { SameTables tables.old tables.new }
    ensures count_after { stop (world (memory_in tables.new result.run.sizes) result.run) block.new result.count ≡
        fills file.now (world (memory_in tables.old run.sizes) run) block.old }
    ensures count_in_bounds { result.count ≤ length block.new }
{
    let first = fill_first(file, tables, block, run);
    let addresses = &mut *tables.addresses;
    let links = &mut *tables.links;
    fill_rest(addresses, links, block, first.count, first.run)
}
