//! Faults of trace lines, with their positions.

use pmp_match::Kind;

/// The kind of an event.
#[derive(Clone, Copy, Debug, PartialEq, Eq)]
pub enum EventKind {
    /// An instruction fetch.
    Fetch,
    /// A read of memory.
    Load,
    /// A write to memory.
    Store,
    /// A setting of a register.
    Reg,
    /// A call to the monitor.
    Ecall,
    /// An interrupt of the timer.
    Irq,
}

/// The meaning of a word of an event.
#[derive(Clone, Copy, Debug, PartialEq, Eq)]
pub enum Slot {
    /// The mode of an access.
    Mode,
    /// The number of bytes of an access of this kind.
    Size(Kind),
    /// The address of an access.
    Address,
    /// The value of a store or of a register setting.
    Value,
    /// The register that is set.
    Register,
    /// A word of a call.
    Argument,
}

/// The reason why a line is rejected.
#[derive(Clone, Copy, Debug, PartialEq, Eq)]
pub enum Reason {
    /// The line has more than 1023 bytes.
    LongLine,
    /// The line begins with a byte order mark.
    ByteOrderMark,
    /// There is a byte outside the comment that is not allowed.
    NoText,
    /// The first word begins with `@` but names no hart.
    NoHart,
    /// No word follows the hart.
    NoEvent,
    /// The word is not a keyword of an event.
    UnknownEvent,
    /// The word does not fit its slot.
    Misfit(Slot),
    /// A word of the event is missing.
    Missing(EventKind, Slot),
    /// The event has no further words.
    Extra(EventKind),
    /// The word names a hart, which is allowed for `run` but not for `judge`.
    HartOfRun,
    /// The word begins an event that is not an access, which is allowed for `run` but not for `judge`.
    EventOfRun,
}

/// A reason, the word at fault, if there is one, and its position in the line. For a byte that is not allowed, the word
/// is the rest of the line from that byte on.
#[derive(Clone, Copy, Debug, PartialEq, Eq)]
pub struct LineFault<'a> {
    /// The number of bytes of the line before the word.
    pub before: usize,
    /// The word at fault, or an empty one.
    pub word: &'a [u8],
    /// The reason for the fault.
    pub reason: Reason,
}
