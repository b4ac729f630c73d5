// What a payload asks of a target.
#[derive(Clone, Copy, Debug, PartialEq, Eq)]
pub enum Command {
    Read,
    Write,
    Ignore,
}

// Why a target does not serve an access: a byte of the span is not there, a byte gives no right to the command, or
// the buffer or the data is not of the span's length.
#[derive(Clone, Copy, Debug, PartialEq, Eq)]
pub enum AccessError {
    AbsentByte,
    MissingRight,
    WrongLength,
}

// Why a call is refused. A refused call moves nothing.
#[derive(Clone, Copy, Debug, PartialEq, Eq)]
pub enum Refusal {
    UnknownPort,
    UnknownTag,
    BadCommand,
    BadLength,
    BadWidth,
    BadEnables,
    WrongDataLength,
    TagInUse,
    RequestOpen,
    TooLate,
    PastSyncPoint,
    NoOpenResponse,
    ShortBuffer,
    EventBeforeSync,
    BadSettings,
    PhaseNotReached,
}
