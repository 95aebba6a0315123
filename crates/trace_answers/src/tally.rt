//! The counts of what happened in a run, for its summary.

use crate::asked::{Asked, Deed};
use crate::outcome::below_zero;
use arrayvec::ArrayVec;
use hart_sim::Reply;
use sbi_decode::Call;

/// A subject of counting.
#[derive(Clone, Copy)]
pub(crate) enum Subject {
    /// Events, by kind.
    Events,
    /// Faults, by cause.
    Faults,
    /// Calls to the monitor, by function.
    Calls,
    /// Refused calls, by the refusal's number.
    Refusals,
}

/// The count of one kind.
#[derive(Clone, Copy, Default)]
pub(crate) struct Count {
    pub(crate) kind: u64,
    pub(crate) number: u64,
}

/// The counts of a subject, in total and by kind.
#[derive(Drop)]
pub(crate) struct Group {
    pub(crate) subject: Subject,
    pub(crate) total: u64,
    pub(crate) counts: ArrayVec<Count, 16>,
}

/// Returns the kinds that are counted for a subject.
fn kinds_of(subject: Subject) -> &'static [u64] {
    match subject {
        Subject::Events => &[0, 1, 2, 3],
        Subject::Faults => &[0, 1, 4, 5, 6, 7],
        Subject::Calls => &[0, 1, 2, 3, 4, 5, 6, 7],
        Subject::Refusals => &[
            2, 101, 102, 103, 104, 105, 106, 107, 108, 109, 110, 111, 112,
        ],
    }
}

impl Group {
    /// Returns a group in which nothing was counted.
    fn new(subject: Subject) -> Group {
        let mut counts = ArrayVec::new();
        for kind in kinds_of(subject) {
            let _ = counts.try_push(Count {
                kind: *kind,
                number: 0,
            });
        }
        Group {
            subject,
            total: 0,
            counts,
        }
    }

    /// Counts one more of this kind, if any.
    fn count(&mut self, kind: Option<u64>) {
        let Some(kind) = kind else {
            return;
        };
        self.total = self.total.saturating_add(1);
        for count in self.counts.as_mut_slice() {
            if count.kind == kind {
                count.number = count.number.saturating_add(1);
            }
        }
    }
}

/// The counts of what happened in a run.
#[derive(Drop)]
pub struct Tally {
    pub(crate) events: Group,
    pub(crate) faults: Group,
    pub(crate) calls: Group,
    pub(crate) refusals: Group,
    /// The most entries that any reply reported as loaded.
    pub(crate) most: u64,
}

/// Returns the kind of an event.
fn event_kind(deed: &Deed) -> u64 {
    match deed {
        Deed::Access(_, _) => 0,
        Deed::Setting(_, _) => 1,
        Deed::Call(_) => 2,
        Deed::Interrupt => 3,
    }
}

/// Returns the kind of a call: its function's number, or 7 if it names none.
fn call_kind(deed: &Deed) -> Option<u64> {
    let Deed::Call(call) = deed else {
        return None;
    };
    Some(match call {
        Some(Call::Create { .. }) => 0,
        Some(Call::Destroy { .. }) => 1,
        Some(Call::Run { .. }) => 2,
        Some(Call::Stop) => 3,
        Some(Call::Resume { .. }) => 4,
        Some(Call::Exit { .. }) => 5,
        Some(Call::Measure { .. }) => 6,
        None => 7,
    })
}

impl Tally {
    /// Returns an empty tally.
    pub fn new() -> Tally {
        Tally {
            events: Group::new(Subject::Events),
            faults: Group::new(Subject::Faults),
            calls: Group::new(Subject::Calls),
            refusals: Group::new(Subject::Refusals),
            most: 0,
        }
    }

    /// Counts an event and its reply.
    pub fn add(&mut self, asked: &Asked, reply: &Reply) {
        self.events.count(Some(event_kind(&asked.deed)));
        self.calls.count(call_kind(&asked.deed));
        match reply {
            Reply::Fault(cause) => self.faults.count(Some(u64::from(cause.number()))),
            Reply::Call { status, used, .. } => {
                self.refusals.count(below_zero(*status));
                self.most = self.most.max(*used);
            }
            Reply::Irq { used, .. } => self.most = self.most.max(*used),
            _ => {}
        }
    }
}
