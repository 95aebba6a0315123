//! The comment on an event: its hart and world, its request, and its outcome.

use crate::asked::{Asked, Deed};
use crate::explained::Comment;
use crate::outcome::{Outcome, outcome_of};
use crate::refusals::refusal_text;
use enclave_table::Table;
use hart_sim::Reply;
use pmp_match::{Access, Kind};
use sbi_decode::{Call, World};
use std::fmt;
use std::fmt::Write;

/// A world, such as `host` or `enclave 1`.
#[derive(Drop)]
struct WorldName(World);

impl fmt::Display for WorldName {
    fn fmt<W: fmt::Write>(&self, f: &mut fmt::Formatter<W>) -> fmt::Result {
        match self.0 {
            World::Host => write!(f, "host"),
            World::Enclave(id) => write!(f, "enclave {id}"),
        }
    }
}

/// Returns the keyword of a kind of access.
fn keyword(kind: Kind) -> &'static str {
    match kind {
        Kind::Fetch => "fetch",
        Kind::Load => "load",
        Kind::Store => "store",
    }
}

/// The kind and the address of an access, such as `load 0x80200000`.
#[derive(Drop)]
struct AccessName<'a>(&'a Access);

impl fmt::Display for AccessName<'_> {
    fn fmt<W: fmt::Write>(&self, f: &mut fmt::Formatter<W>) -> fmt::Result {
        let kind = keyword(self.0.kind());
        let address = self.0.addr();
        write!(f, "{kind} {address:#x}")
    }
}

/// A call and the arguments that distinguish it.
#[derive(Drop)]
struct CallName<'a>(&'a Call);

impl fmt::Display for CallName<'_> {
    fn fmt<W: fmt::Write>(&self, f: &mut fmt::Formatter<W>) -> fmt::Result {
        match self.0 {
            Call::Create {
                base,
                text_pages,
                data_pages,
                ..
            } => {
                let pages = text_pages.saturating_add(*data_pages);
                let plural = if pages == 1 { "" } else { "s" };
                write!(f, "create {base:#x}, {pages} page{plural}")
            }
            Call::Destroy { id } => write!(f, "destroy {id}"),
            Call::Run { id } => write!(f, "run {id}"),
            Call::Stop => write!(f, "stop"),
            Call::Resume { id } => write!(f, "resume {id}"),
            Call::Exit { value } => write!(f, "exit {value:#x}"),
            Call::Measure { id, k } => write!(f, "measure {id}, word {k}"),
        }
    }
}

/// Writes a call and its outcome: the id of the new enclave, or the reason for a refusal.
fn write_call(comment: &mut Comment, call: &Call, outcome: Outcome) -> fmt::Result {
    let name = CallName(call);
    write!(comment, "{name}")?;
    match outcome {
        Outcome::Done(id) => match call {
            Call::Create { .. } => write!(comment, ": id {id}"),
            _ => Ok(()),
        },
        Outcome::Refused(number) => {
            let reason = refusal_text(call, number);
            write!(comment, ": refused, {reason}")
        }
        Outcome::HostNeeds(n) => write!(comment, ": refused, the host's view needs {n} entries"),
        Outcome::EnclaveNeeds(n) => {
            write!(comment, ": refused, the enclave's view needs {n} entries")
        }
    }
}

/// Writes the request of an event in a world, and its outcome.
fn write_deed(comment: &mut Comment, asked: &Asked, outcome: Outcome) -> fmt::Result {
    match &asked.deed {
        Deed::Access(access, reason) => {
            let name = AccessName(access);
            write!(comment, "{name}: {reason}")
        }
        Deed::Setting(0, _) => write!(comment, "x0 stays 0"),
        Deed::Setting(n, value) => write!(comment, "x{n} = {value:#x}"),
        Deed::Call(None) => write!(comment, "call: not supported"),
        Deed::Call(Some(call)) => write_call(comment, call, outcome),
        Deed::Interrupt => match asked.world {
            World::Host => write!(comment, "interrupt"),
            World::Enclave(_) => write!(comment, "interrupt: stopped"),
        },
    }
}

/// Writes the comment on an event and its reply. The table is the one after the event.
pub(crate) fn comment_on(asked: &Asked, reply: &Reply, table: &Table) -> Comment {
    let outcome = outcome_of(table, asked, reply);
    let hart = asked.hart;
    let world = WorldName(asked.world);
    let mut comment = Comment::new();
    let _ = write!(comment, "hart {hart}, {world}: ");
    let _ = write_deed(&mut comment, asked, outcome);
    comment
}
