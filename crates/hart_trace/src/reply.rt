//! The replies to events.

ghost use Rattle.std.specs.Prelude.{◌≡◌, ◌≢◌, true, false};
ghost use Rattle.hart_trace.specs.declared.reply.Reply.TheVariants.{NoMemory};

use pmp_match::Cause;

/// The reply to an event.
#[derive(Clone, Copy, PartialEq, Eq)]
pub enum Reply {
    /// A fetch, a store or a setting of a register succeeded.
    Done,
    /// The value of a load: the little-endian number of its bytes.
    Loaded(u64),
    /// An access failed.
    Fault(Cause),
    /// A call was answered. The world, 0 for the host, and the number of loaded entries are those after the call.
    Call {
        status: i64,
        value: u64,
        world: u64,
        used: u64,
    },
    /// An interrupt happened.
    Irq {
        world: u64,
        used: u64,
    },
    /// A store needed memory, the allocation failed, and nothing changed.
    NoMemory,
}

impl Reply {
    /// Returns whether the reply is out of memory.
    pub fn wants_memory(&self) -> bool
        ensures yes { result ≡ true → self.now ≡ NoMemory }
        ensures no { result ≡ false → self.now ≢ NoMemory }
    {
        matches!(self, Reply::NoMemory)
    }
}
