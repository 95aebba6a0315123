//! The states of the harts.

ghost use Rattle.std.specs.Prelude.{◌≡◌, ℕ, ◌<◌};
ghost use Rattle.sbi_calls.specs.Harts.{begun, hart_count, state_number, state_of, with_state};
ghost use Rattle.sbi_calls.specs.declared.harts.HartState.TheVariants.{StartPending, Stopped};

use crate::bits::{has_bit, with_bit, without_bit};

/// The states of a hart that occur here (SBI, chapter 9).
#[derive(Clone, Copy, PartialEq, Eq)]
pub enum HartState {
    /// The hart runs a world.
    Started,
    /// The hart waits to be started.
    Stopped,
    /// The hart was started but has not begun yet.
    StartPending,
}

impl HartState {
    /// Returns the number of the state, as the status function reports it.
    pub fn number(self) -> u64
        ensures { result ≡ state_number self }
    {
        match self {
            HartState::Started => 0,
            HartState::Stopped => 1,
            HartState::StartPending => 2,
        }
    }
}

/// The states of the board's harts. Hart h is bit h of a word, and a hart in neither word is stopped.
#[repr(C)]
#[derive(Clone, Copy)]
pub struct Harts {
    /// The number of harts, which are numbered from 0 to at most 63.
    pub count: u64,
    /// The harts that are started.
    pub started: u64,
    /// The harts started by a call since they last stopped. A hart in both words has begun.
    pub pending: u64,
}

impl Harts {
    /// Returns the number of harts, at most 64.
    pub fn number(&self) -> u64
        ensures { result ≡ hart_count self.now }
    {
        self.count.min(64)
    }

    /// Returns the state of a hart.
    pub fn state_of(&self, hart: u64) -> HartState
        requires { hart < 64 }
        ensures { result ≡ state_of self.now hart }
    {
        if has_bit(self.started, hart) {
            HartState::Started
        } else if has_bit(self.pending, hart) {
            HartState::StartPending
        } else {
            HartState::Stopped
        }
    }

    /// Starts a stopped hart, which has yet to begin.
    pub fn start(&mut self, hart: u64)
        requires there { hart < 64 }
        requires stopped { state_of self.old hart ≡ Stopped }
        ensures states { (other : ℕ) → state_of self.new other
            ≡ with_state self.old hart StartPending other }
        ensures count { self.new.count ≡ self.old.count }
    {
        self.pending = with_bit(self.pending, hart);
    }

    /// Stops a hart.
    pub fn stop(&mut self, hart: u64)
        requires there { hart < 64 }
        ensures states { (other : ℕ) → state_of self.new other
            ≡ with_state self.old hart Stopped other }
        ensures count { self.new.count ≡ self.old.count }
    {
        self.started = without_bit(self.started, hart);
        self.pending = without_bit(self.pending, hart);
    }

    /// Lets a hart begin if it was started; otherwise nothing changes.
    pub fn begin(&mut self, hart: u64)
        requires there { hart < 64 }
        ensures states { (other : ℕ) → state_of self.new other
            ≡ with_state self.old hart (begun (state_of self.old hart)) other }
        ensures count { self.new.count ≡ self.old.count }
    {
        if self.state_of(hart) == HartState::StartPending {
            self.started = with_bit(self.started, hart);
        }
    }
}
