//! The law of the control words in answers.

ghost use Rattle.trap_server.specs.Laws.{GivesEachItsOwn};

/// At a trap, an enclave that a host enters gets the words of a table. These depend on the host only through the
/// interrupts that it enables and whether it lets user mode read the time; and the enclave runs in user mode. A host
/// gets no words: it goes on with those that its hart kept for it.
pub fn control_words_law()
    ensures { GivesEachItsOwn }
{}
