//! The result of a command: the exit status and its notes.

ghost use Rattle.std.specs.Prelude.{◌≡◌};
ghost use Rattle.monitor_cli.specs.Answered.{answer_status, judged, status_in};

use arrayvec::ArrayVec;
use program_files::Trouble;
use register_audit::ListingNotes;
use trace_answers::CommentNote;

/// The notes beside a status, for standard error: whole lines, each of which begins with `# `.
pub type Notes = ArrayVec<u8, 640>;

/// The result of a command: the exit status and its notes.
#[derive(Drop)]
pub struct Answered {
    /// The exit status.
    pub status: u8,
    /// The notes for standard error.
    pub notes: Notes,
}

/// Returns the status of a decision: 0 for a yes, and 1 for a no.
pub(crate) fn answer_status(yes: bool) -> u8
    ensures { result ≡ answer_status yes }
{
    if yes { 0 } else { 1 }
}

/// Returns this status, with the notes on a listing of registers and on the comments of a trace.
pub(crate) fn noted(status: u8, listing: &ListingNotes, comments: &CommentNote) -> Answered
    ensures { result.status ≡ status }
{
    let mut notes = ArrayVec::new();
    let _ = notes.try_extend_from_slice(listing.as_slice());
    let _ = notes.try_extend_from_slice(comments.as_str().as_bytes());
    Answered { status, notes }
}

/// Returns the result of a command with this status or failure, and the notes on a listing of registers.
pub(crate) fn with_notes<'a>(
    listing: &ListingNotes,
    done: Result<u8, Trouble<'a>>,
) -> Result<Answered, Trouble<'a>>
    ensures { status_in result ≡ done.entry }
{
    match done {
        Ok(status) => Ok(noted(status, listing, &CommentNote::new())),
        Err(trouble) => Err(trouble),
    }
}

/// Returns the result of a command with this status or failure, without notes.
pub(crate) fn quiet<'a>(done: Result<u8, Trouble<'a>>) -> Result<Answered, Trouble<'a>>
    ensures { status_in result ≡ done.entry }
{
    with_notes(&ArrayVec::new(), done)
}

/// Returns the result of a command that decides yes or no.
pub(crate) fn yes_or_no<'a>(done: Result<bool, Trouble<'a>>) -> Result<Answered, Trouble<'a>>
    ensures { status_in result ≡ judged done.entry }
{
    match done {
        Ok(yes) => quiet(Ok(answer_status(yes))),
        Err(trouble) => Err(trouble),
    }
}
