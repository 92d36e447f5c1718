// What the programs do with their streams: input read so that a failed read is told from the end of the input, bytes written whole, and words
// to standard error. A stream is any reader or writer. Rests on std's io.
#![tactic(auto)]

ghost use Rattle.std.specs.Prelude.{◌<◌, IfOk, is_ok, length, take};
ghost use Rattle.std.specs.Counts.{IsPrefixLen};
ghost use Rattle.std.specs.Io.KnownBytes.{Consumes, IsAtEnd};
ghost use Rattle.streams.specs.Reading.{count_read};
ghost use Rattle.streams.specs.Written.{Written};

use std::io::{Read, Write};

// A read failed; so many bytes came before, and stand at the start of the space.
#[derive(Clone, Copy, Debug, PartialEq, Eq)]
pub struct ReadFailed {
    pub count: usize,
}

// A write failed or took nothing.
#[derive(Clone, Copy, Debug, PartialEq, Eq)]
pub struct WriteFailed;

// Reads until the space is full, the input ends or a read fails. What stands at the start of the space is what the reader gave, also where a read
// failed.
#[tactic(auto, using(crate::proofs::Reading::read_on))]
pub fn read_in<R: Read>(from: &mut R, space: &mut [u8]) -> Result<usize, ReadFailed>
    ensures counted { IsPrefixLen (count_read result) space.new }
    ensures bytes { Consumes (R.remaining from.old) (R.remaining from.new) (take (count_read result) space.new) }
    ensures end { IfOk result (λ count. count < length space.new → IsAtEnd (R.remaining from.new)) }
{
    let mut done: usize = 0;
    while done < space.len() {
        match from.read(&mut space[done..]) {
            Ok(0) => return Ok(done),
            Ok(more) => done += more,
            Err(_) => return Err(ReadFailed { count: done }),
        }
    }
    Ok(done)
}

// Writes all of the bytes, until a write takes none or fails.
#[tactic(auto, using(crate::proofs::Writes::taken_on, crate::proofs::Writes::stopped, crate::proofs::Writes::failed))]
pub fn write_all<W: Write>(to: &mut W, bytes: &[u8]) -> Result<(), WriteFailed>
    ensures { Written (W.contents to.old) (W.contents to.new) bytes.now (is_ok result) }
{
    let mut taken: usize = 0;
    while taken < bytes.len() {
        match to.write(&bytes[taken..]) {
            Ok(0) => return Err(WriteFailed),
            Ok(next) => taken += next,
            Err(_) => return Err(WriteFailed),
        }
    }
    Ok(())
}

// Words to standard error, as far as it takes them: there is nowhere else to say that it took no more.
pub fn complain<W: Write>(to: &mut W, words: &[u8]) {
    let _ = write_all(to, words);
}
