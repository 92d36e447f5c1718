// Many schedule files in one stream: standard input packs each as its length, a number in 01's form, and that many bytes. Each is run in turn
// by the same library as the run program's, and its lines written. It ends where the input ends between two files. Where the input can't be read
// or is no row of packed files, or the output can't be written, it says so on standard error and stops; a file that did not come whole is not run.
#![tactic(auto)]

ghost use Rattle.std.specs.Prelude.{◌<◌, ◌≤◌, IfOk, IfSome, length};

use numbers::read_number;
use printer::{PrintError, print_output};
use std::io::{Read, Write};
use streams::ReadFailed;
use words::Tables;

// What keeps the program from going on: the input can't be read; a length is no number, or the input ends inside a length or a file; the output
// takes no more.
#[derive(Clone, Copy, Debug)]
enum Trouble {
    Unread,
    NotPacked,
    CutOff,
}

impl From<ReadFailed> for Trouble {
    fn from(_failed: ReadFailed) -> Trouble {
        Trouble::Unread
    }
}

// The block that the program lends is never too short.
impl From<PrintError> for Trouble {
    fn from(_error: PrintError) -> Trouble {
        Trouble::CutOff
    }
}

impl Trouble {
    // What standard error is told.
    fn words(self) -> &'static [u8] {
        match self {
            Trouble::Unread => b"corpus: standard input can't be read\n",
            Trouble::NotPacked => b"corpus: standard input is not a row of packed files\n",
            Trouble::CutOff => b"corpus: standard output takes no more\n",
        }
    }
}

// Fills the space.
fn read_whole<R: Read>(from: &mut R, space: &mut [u8]) -> Result<(), Trouble> {
    if streams::read_in(from, space)? < space.len() {
        return Err(Trouble::NotPacked);
    }
    Ok(())
}

// Reads so many bytes and drops them.
fn drop_bytes<R: Read>(from: &mut R, space: &mut [u8], count: usize) -> Result<(), Trouble>
    requires { 0 < length space.old }
{
    let mut left = count;
    while 0 < left {
        let part = left.min(space.len());
        read_whole(from, &mut space[..part])?;
        left -= part;
    }
    Ok(())
}

// The next length, whose bytes go up to the first without its top bit; none where the input ends before them.
fn next_length<R: Read>(from: &mut R) -> Result<Option<u32>, Trouble> {
    let mut groups = [0u8; 5];
    for at in 0..5 {
        if streams::read_in(from, &mut groups[at..at + 1])? == 0 {
            return if at == 0 {
                Ok(None)
            } else {
                Err(Trouble::NotPacked)
            };
        }
        if groups[at] < 128 {
            break;
        }
    }
    let (length, _) = read_number(&groups, 0).map_err(|_| Trouble::NotPacked)?;
    Ok(Some(length))
}

// The bytes of the next file, as many as there is room for, to the start of the space; the rest are dropped. Answers how many stand there; none
// where the input ends before the file.
fn next_file<R: Read>(
    from: &mut R,
    space: &mut [u8],
    spare: &mut [u8],
) -> Result<Option<usize>, Trouble>
    requires { 0 < length spare.old }
    ensures { IfOk result (λ file. IfSome file (λ kept. kept ≤ length space.new)) }
{
    let Some(size) = next_length(from)? else {
        return Ok(None);
    };
    let size = size as usize;
    let kept = size.min(space.len());
    read_whole(from, &mut space[..kept])?;
    drop_bytes(from, spare, size - kept)?;
    Ok(Some(kept))
}

// Runs the files in turn, and writes their lines.
fn run_files<R: Read, W: Write>(from: &mut R, to: &mut W) -> Result<(), Trouble> {
    let mut space = [0u8; 65537];
    let mut addresses = [0u32; 4096];
    let mut links = [0u32; 4096];
    let mut deleters = [0u32; 4096];
    let mut tables = Tables {
        addresses: &mut addresses,
        links: &mut links,
        deleters: &mut deleters,
    };
    let mut block = [0u8; 65536];
    // more files than an input can hold
    let mut left = u64::MAX;
    while 0 < left {
        left -= 1;
        let Some(length) = next_file(from, &mut space, &mut block)? else {
            return Ok(());
        };
        print_output(to, &space[..length], &mut tables, &mut block)?;
    }
    Ok(())
}

fn main(rt: HostRuntime) {
    if let Err(trouble) = run_files(&mut rt.stdin(), &mut rt.stdout()) {
        streams::complain(&mut rt.stderr(), trouble.words());
    }
}
