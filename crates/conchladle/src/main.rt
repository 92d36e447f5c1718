// The run program of 01: a schedule file from standard input, its lines to standard output. What keeps it from either is said on standard error.
#![tactic(auto)]

use printer::{PrintError, print_output};
use std::io::{Read, Write};
use streams::ReadFailed;
use words::Tables;

// What keeps the program from reading its input or writing its output.
#[derive(Clone, Copy, Debug)]
enum Trouble {
    Unread,
    CutOff,
}

impl From<ReadFailed> for Trouble {
    fn from(_failed: ReadFailed) -> Trouble {
        Trouble::Unread
    }
}

// The block that the program lends is never too short.
impl From<PrintError> for Trouble {
    fn from(_error: PrintError) -> Trouble {
        Trouble::CutOff
    }
}

impl Trouble {
    // What standard error is told.
    fn words(self) -> &'static [u8] {
        match self {
            Trouble::Unread => b"conchladle: standard input can't be read\n",
            Trouble::CutOff => b"conchladle: standard output takes no more\n",
        }
    }
}

// Runs the schedule file that is read, and writes its lines.
fn run_file<R: Read, W: Write>(from: &mut R, to: &mut W) -> Result<(), Trouble> {
    let mut file = [0u8; 65537];
    let length = streams::read_in(from, &mut file)?;
    let mut addresses = [0u32; 4096];
    let mut links = [0u32; 4096];
    let mut deleters = [0u32; 4096];
    let mut tables = Tables {
        addresses: &mut addresses,
        links: &mut links,
        deleters: &mut deleters,
    };
    let mut block = [0u8; 65536];
    print_output(to, &file[..length], &mut tables, &mut block)?;
    Ok(())
}

fn main(rt: HostRuntime) {
    if let Err(trouble) = run_file(&mut rt.stdin(), &mut rt.stdout()) {
        streams::complain(&mut rt.stderr(), trouble.words());
    }
}
