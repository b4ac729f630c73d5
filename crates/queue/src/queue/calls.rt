ghost use Rattle.std.specs.Prelude.{◌≡◌, ◌<◌, ◌↔◌, false, [], ◌∷◌, ◌++◌, length, MatchOption, IsOk, OnOk, OnErr};
ghost use Rattle.std.specs.List.{All};
ghost use Rattle.protocol.specs.Rules.{due_before};
ghost use Rattle.queue.specs.Waiting.{held, permitted, Taken};

use super::Queue;
use crate::full::Full;
use arrayvec::ArrayVec;
use protocol::{Event, EventKind};

impl Queue {
    // No event waits.
    pub fn new() -> Queue
        ensures { held result ≡ [] }
    {
        Queue {
            events: ArrayVec::new(),
        }
    }

    // Queues the event if there is room for it.
    pub fn push(&mut self, event: Event) -> Result<(), Full>
        ensures room { IsOk result ↔ (length (held self.old) < 32) }
        ensures ok { OnOk result (held self.new ≡ held self.old ++ event ∷ []) }
        ensures err { OnErr result (self.new ≡ self.old) }
    {
        self.events.try_push(event).map_err(|_| Full)
    }

    // Takes out the event of least due time among those that may be delivered, and of these the first queued.
    pub fn take_foremost(&mut self, busy: &[bool; 8]) -> Option<Event>
        ensures { MatchOption result (All (λ e. permitted busy.now e ≡ false) (held self.old) × (self.new ≡ self.old)) (λ e. Taken (permitted busy.now) (held self.old) e (held self.new)) }
    {
        let (place, _) = self
            .events
            .iter()
            .enumerate()
            .filter(|(_, event)| may_deliver(busy, event))
            .min_by_key(|(place, event)| (event.due, *place))?;
        Some(self.events.remove(place))
    }

    // Whether an event that may be delivered is due before the time.
    pub fn due_before(&self, busy: &[bool; 8], time: u64) -> bool
        ensures { result ≡ due_before (permitted busy.now) time (held self.now) }
    {
        self.events
            .iter()
            .any(|event| may_deliver(busy, event) && event.due < time)
    }
}

// Whether the event may be delivered. A port past the eighth has no open response. Which ports are busy is the platform's to
// know and changes from call to call, so it is a parameter.
fn may_deliver(busy: &[bool; 8], event: &Event) -> bool
    ensures { result ≡ permitted busy.now event.now }
{
    match event.kind {
        EventKind::EndRequest => true,
        EventKind::BeginResponse => !busy.get(event.port as usize).copied().unwrap_or(false),
    }
}
