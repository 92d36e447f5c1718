// Prints a run: the blocks of its output, one after the other, to a writer. Rests on the run.
#![tactic(auto)]

ghost use Rattle.std.specs.Prelude.{◌≤◌, is_ok, length};
ghost use Rattle.words.specs.LentMemory.{memory_in, SameTables};
ghost use Rattle.run.specs.Pieces.{unstated, begins};
ghost use Rattle.blocks.specs.ToCome.{to_come};
ghost use Rattle.streams.specs.Written.{Written};
ghost use Rattle.printer.specs.Printing.{Printed, PrintedAs, WrittenAs};

use run::{begin, fill};
use std::io::Write;
use streams::WriteFailed;
use words::Tables;

// Why not all was written: the writer took no more; or the block is too short for any piece of the output, and nothing was touched.
#[derive(Clone, Copy, Debug, PartialEq, Eq)]
pub enum PrintError {
    CutOff,
    TooShort,
}

impl From<WriteFailed> for PrintError {
    ghost use Rattle.std.specs.Prelude.{◌≡◌};
    ghost use Rattle.printer.specs.declared.PrintError.TheVariants.{CutOff};

    ghost from_gives = { λ _ error. error ≡ CutOff };

    fn from(_failed: WriteFailed) -> PrintError {
        PrintError::CutOff
    }
}

// Block after block, until nothing is left to come or the writer takes no more.
fn print_blocks<W: Write>(
    to: &mut W,
    file: &[u8],
    tables: &mut Tables,
    block: &mut [u8],
) -> Result<(), WriteFailed>
    ensures same { SameTables tables.old tables.new }
    ensures printed { Printed file.now
        (begins file.now (memory_in tables.old unstated))
        (length block.old) (memory_in tables.new unstated)
        block.new (is_ok result) }
    ensures written { 64 ≤ length block.old → Written (W.contents to.old) (W.contents to.new)
        (to_come file.now (begins file.now (memory_in tables.old unstated)))
        (is_ok result) }
{
    let mut run = begin(file, tables);
    loop {
        let filled = fill(file, tables, block, run);
        if filled.count == 0 {
            return Ok(());
        }
        run = filled.run;
        streams::write_all(to, &block[..filled.count])?;
    }
}

// Runs a schedule file and writes its output. It stops at the first block that can't be written.
pub fn print_output<W: Write>(
    to: &mut W,
    file: &[u8],
    tables: &mut Tables,
    block: &mut [u8],
) -> Result<(), PrintError>
    ensures same { SameTables tables.old tables.new }
    ensures printed { PrintedAs file.now
        (memory_in tables.old unstated) block.old
        (memory_in tables.new unstated) block.new result }
    ensures written { WrittenAs (W.contents to.old) (W.contents to.new)
        (to_come file.now (begins file.now (memory_in tables.old unstated)))
        result }
{
    if block.len() < 64 {
        return Err(PrintError::TooShort);
    }
    print_blocks(to, file, tables, block)?;
    Ok(())
}
