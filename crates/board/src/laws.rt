//! The laws of a board that the firmware runs on.

ghost use Rattle.std.specs.Prelude.{ℕ, List};
ghost use Rattle.platforms.specs.Platform.{IsLayout, PlatformLayout};
ghost use Rattle.trap_server.specs.Boot.{IsFirstAnswer};
ghost use Rattle.board.specs.Answers.{AnswersWell};
ghost use Rattle.board.specs.Board.{Board, BoardEvent, BoardRun};
ghost use Rattle.board.specs.Headline.{BoardHeadline};
ghost use Rattle.board.specs.Held.{CanConfine};
ghost use Rattle.board.specs.Model.{ModelRunsOnBoard};
ghost use Rattle.board.specs.Stays.{FreshPagesStay, NewPagesStay};
ghost use Rattle.board.specs.Timed.{TimeIsUnseen};

use hart_sim::step_law;
use trap_server::firmware_law;

/// After any events on a board, from boot on with any memory, on every platform that obeys its rules, and on harts that
/// can confine an enclave: the traps among the events are a run of the loop, so `firmware_law` applies to them.
///
/// - The entries that each hart has loaded mean the view of its world, with the fewest entries possible, and each
///   access was allowed exactly as that view allows it. No world reached the monitor's pages. Only their enclave read
///   private pages, and only its own stores changed their bytes.
/// - Memory is RAM outside the monitor's pages. After a trap that destroyed an enclave, its private pages were zero,
///   and no trap changed any other byte of memory. A created enclave has the digest of its private pages as they were
///   in memory, and as they remain until it is entered.
/// - Across each trap that the loop serves, the integer registers of each suspended world are unchanged, those of the
///   world that trapped are saved, past its call and with its answer, and the world that resumes gets its own: the host
///   except a0 and a1, and a new enclave zeros except its number and entry point. Across any other trap a host may get
///   an answer in a0 and a1 or resume in its handler, and an enclave resumes with all of its registers.
/// - Each host and each enclave finds its own values in the floating-point registers, on whichever hart it resumes. A
///   new enclave finds zeros, as does a host whose hart was started. An enclave that exited or was destroyed leaves
///   zeros in its set and in these registers.
/// - Each host has the control words that it wrote last, whatever ran on its hart meanwhile. An enclave has words of
///   its own, derived from two of its host's, as far as the hart can hold them: it runs in user mode, without address
///   translation, and none of its exceptions and enabled interrupts goes to its host.
pub fn board_law()
    ensures { (layout : PlatformLayout) (opened : List ℕ) (events : List BoardEvent)
        (board : Board) (run : BoardRun layout opened events board)
        → IsLayout layout → IsFirstAnswer layout opened
        → ((hart : ℕ) → CanConfine (board.csrs hart))
        → BoardHeadline layout opened events board run }
{
    firmware_law();
    step_law();
}

/// Each run of the model, from the opening state of a platform on, is a run of a board: each access that the model
/// allows or denies is an access that the board allows or denies; each call and each interrupt is a computation that
/// leaves the same registers, followed by a trap whose answer contains the model's reply; and at the end the table, the
/// worlds, memory and the registers of the suspended worlds are equal. So the statements of [`board_law`] about every
/// board apply to the model.
pub fn model_law()
    ensures { ModelRunsOnBoard }
{
    board_law();
}

/// Between two traps the private pages of an enclave that has not been entered do not change, whatever the worlds of
/// all harts do. A trap is one event of a board, including the pages that were read. This law allows the code around
/// the monitor to read the pages of a new enclave later: after its creation was answered, one by one, at any moment
/// until the next trap, while other harts run. It then reads the bytes that [`board_law`] relates to that trap.
pub fn pages_law()
    ensures fresh { FreshPagesStay }
    ensures made { NewPagesStay }
{
    board_law();
}

/// Facts about the bytes of each answer on which the code around the loop relies, after any served traps. The size, the
/// hart, the world, the number of entries, an enclave's id and the kinds of changes are within their bounds. An answer
/// without lists zeroes no page and wakes no hart. It has control words iff a host enters an enclave.
pub fn answers_law()
    ensures { AnswersWell }
{
    firmware_law();
}

/// A board whose traps take time. The hart that traps holds the lock. It zeroes the pages of an enclave that ends,
/// piece by piece. Then it stores the new lists, and each hart whose list changes makes no event before it has loaded
/// its own. Then it reads the pages of a new enclave, one by one, and the trap is answered. Between these steps other
/// harts make accesses, compute, write control words and serve traps without the loop. Each run of such a board has the
/// same events, accesses and verdicts as a run of a board whose traps take no time, to which [`board_law`] applies.
pub fn time_law()
    ensures { TimeIsUnseen }
{
    board_law();
    firmware_law();
    step_law();
}
