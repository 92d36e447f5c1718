// The line of a case: what the event came to, the count, the words of the three tables and the fields of every record, as they are afterwards.
// Output is gathered in a block through the writers of text. A line starts in the first half of the block and ends within it: specs/Block says how
// many bytes each part of it takes at most. A block more than half full is written out before the next line.
ghost use Rattle.std.specs.Prelude.{[], ◌∷◌, ◌≡◌, ◌+◌, ◌≤◌, OnOk, is_ok, length, take};
ghost use Rattle.streams.specs.Written.{Written};
ghost use Rattle.cases.specs.Block.{block_bytes, half_block, last_end, outcome_room, number_room, said_room, words_room, record_room, row_room, line_room};
ghost use Rattle.text.specs.Text.{decimal, newline, outcome_text, space};

use crate::reading::{Case, Lent};
use lent::Said;
use record::{Outcome, Record};
use std::io::Write;
use streams::WriteFailed;

// The length of the block; its first half, in which every line starts.
const BLOCK_BYTES: usize = 65536;

const HALF_BLOCK: usize = 32768;

// The block that lines are gathered in, and how much of it is used.
#[derive(Drop)]
pub(crate) struct Block {
    bytes: [u8; BLOCK_BYTES],
    used: usize,
    ghost long: { length bytes ≡ block_bytes },
    ghost used_bound: { used ≤ last_end },
}

impl Block {
    pub(crate) fn new() -> Block
        ensures { result.used ≡ 0 }
    {
        Block {
            bytes: [0; BLOCK_BYTES],
            used: 0,
        }
    }

    // Writes out what was gathered; where that is taken, nothing is left.
    pub(crate) fn write_out<W: Write>(&mut self, to: &mut W) -> Result<(), WriteFailed>
        ensures written { Written (W.contents to.old) (W.contents to.new) (take self.old.used self.old.bytes) (is_ok result) }
        ensures emptied { OnOk result (self.new.used ≡ 0) }
    {
        streams::write_all(to, &self.bytes[..self.used])?;
        self.used = 0;
        Ok(())
    }

    // Writes it out where it is more than half full.
    pub(crate) fn make_room<W: Write>(&mut self, to: &mut W) -> Result<(), WriteFailed>
        ensures { OnOk result (self.new.used ≤ half_block) }
    {
        if HALF_BLOCK < self.used {
            self.write_out(to)?;
        }
        Ok(())
    }

    // What an event came to.
    #[tactic(auto, using(crate::proofs::Pieces::put_whole))]
    fn gather_outcome(&mut self, outcome: Outcome)
        requires { self.old.used + outcome_room ≤ last_end }
        ensures value { self.new.used ≡ self.old.used + length (outcome_text outcome) }
        ensures upper_bound { self.new.used ≤ self.old.used + outcome_room }
    {
        self.used += text::put_outcome(&mut self.bytes[self.used..], outcome);
    }

    // A number after a space.
    #[tactic(auto, using(crate::proofs::Pieces::put_whole))]
    fn gather_number(&mut self, number: u32)
        requires { self.old.used + number_room ≤ last_end }
        ensures value { self.new.used ≡ self.old.used + length (space ∷ decimal number) }
        ensures upper_bound { self.new.used ≤ self.old.used + number_room }
    {
        self.used += text::put_number(&mut self.bytes[self.used..], number);
    }

    // The end of the line.
    #[tactic(auto, using(crate::proofs::Pieces::put_whole))]
    fn gather_newline(&mut self)
        requires { self.old.used + 1 ≤ last_end }
        ensures { self.new.used ≡ self.old.used + length (newline ∷ []) }
    {
        self.used += text::put_newline(&mut self.bytes[self.used..]);
    }

    // What an event came to, and the count after it.
    fn gather_said(&mut self, said: Said)
        requires { self.old.used + said_room ≤ last_end }
        ensures { self.new.used ≤ self.old.used + said_room }
    {
        self.gather_outcome(said.outcome);
        self.gather_number(said.sizes.count);
    }

    // Words, each as a number.
    fn gather_words(&mut self, words: &[u32])
        requires { self.old.used + words_room (length words.now) ≤ last_end }
        ensures { self.new.used ≤ self.old.used + words_room (length words.now) }
    {
        for &word in words {
            self.gather_number(word);
        }
    }

    // The words that are lent of a table.
    fn gather_table(&mut self, table: &Lent<u32>)
        requires { self.old.used + words_room 64 ≤ last_end }
        ensures { self.new.used ≤ self.old.used + words_room 64 }
    {
        self.gather_words(&table.items[..table.count]);
    }

    // The fields of a record, those of its lost part first.
    fn gather_record(&mut self, record: Record)
        requires { self.old.used + record_room ≤ last_end }
        ensures { self.new.used ≤ self.old.used + record_room }
    {
        let Record { lost, kept } = record;
        self.gather_words(&[
            u32::from(lost.place),
            lost.pred.0,
            lost.curr.0,
            lost.succ.0,
            u32::from(lost.pending),
            u32::from(lost.recovering),
            u32::from(kept.status),
            u32::from(kept.kind),
            kept.address.0,
            kept.node.0,
            u32::from(kept.result),
        ]);
    }

    // The records that are lent.
    fn gather_row(&mut self, row: &Lent<Record>)
        requires { self.old.used + row_room ≤ last_end }
        ensures { self.new.used ≤ self.old.used + row_room }
    {
        for &record in &row.items[..row.count] {
            self.gather_record(record);
        }
    }

    // The whole line.
    pub(crate) fn gather_line(&mut self, said: Said, case: &Case)
        requires { self.old.used ≤ half_block }
        ensures { self.new.used ≤ self.old.used + line_room }
    {
        self.gather_said(said);
        self.gather_table(&case.addresses);
        self.gather_table(&case.links);
        self.gather_table(&case.deleters);
        self.gather_row(&case.row);
        self.gather_newline();
    }
}
