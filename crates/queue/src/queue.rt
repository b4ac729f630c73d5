ghost use Rattle.std.specs.Prelude.{◌≤◌, length};

use arrayvec::ArrayVec;
use protocol::Event;

// At most 32 events wait: each of eight ports has four tags, and a tag has at most one event.
#[derive(Debug, Drop, PartialEq, Eq)]
pub struct Queue {
    events: ArrayVec<Event, 32>,
    pub ghost size: { length events.items ≤ 32 },
}

mod calls;
