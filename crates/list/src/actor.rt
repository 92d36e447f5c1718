// Who acts in an event that is not refused for its sizes, its process or its status. Rests on Rows.
ghost use Rattle.std.specs.Prelude.{◌<◌};
ghost use Rattle.list.specs.Rows.{Within};

use record::{Process, Record};
use words::Sizes;

// The process that acts, its record as it was, and the sizes of the list.
#[derive(Clone, Copy)]
pub(crate) struct Actor {
    pub(crate) sizes: Sizes,
    pub(crate) process: Process,
    pub(crate) before: Record,
    ghost within: { Within sizes },
    ghost process_bound: { process.0 < 64 },
}
