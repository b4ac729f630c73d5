// What a step delivers: the end of a request, or the begin of a response.
#[derive(Clone, Copy, Debug, Default, PartialEq, Eq)]
pub enum EventKind {
    #[default]
    EndRequest,
    BeginResponse,
}

// An event that waits for its time. Times count in nanoseconds.
#[derive(Clone, Copy, Debug, Default, PartialEq, Eq)]
pub struct Event {
    pub kind: EventKind,
    pub port: u64,
    pub tag: u64,
    pub due: u64,
}

// What an accepted call of the base protocol returns: a begin is accepted, an end completes its transaction.
#[derive(Clone, Copy, Debug, PartialEq, Eq)]
pub enum Progress {
    Accepted,
    Completed,
}
