// Schedule files of 01. The definitions of the bytes are in specs/.
#![tactic(auto)]

mod kind;
mod reading;
mod writing;

ghost use Rattle.std.specs.Prelude.{◌≡◌};
ghost use Rattle.schedule.specs.Cursors.{cursor_at, start};

pub use reading::{read_event, read_header};
use record::Process;
pub use writing::{write_event, write_header};

// The sizes that a schedule asks for.
#[derive(Clone, Copy)]
pub struct Header {
    pub nodes: u32,
    pub processes: u32,
}

// Where reading stands: the next byte, and of a burst being handed out its process and how many steps are left.
#[derive(Clone, Copy)]
pub struct Cursor {
    pub at: usize,
    pub process: Process,
    pub left: u32,
}

impl Cursor {
    // Before the header.
    pub fn start() -> Cursor
        ensures { result ≡ start }
    {
        Cursor::outside_burst(0)
    }

    // At a place, outside a burst.
    fn outside_burst(at: usize) -> Cursor
        ensures { result ≡ cursor_at at }
    {
        Cursor {
            at,
            process: Process(0),
            left: 0,
        }
    }
}
