//! Laws of words and lines: a text determines both.

ghost use Rattle.text_lines.specs.Words.{SplitsIntoWords};
ghost use Rattle.text_lines.specs.Lines.{AreItsLines, OneListOfLines};

/// The words of a text are the runs of bytes between its blanks, and only they are.
pub fn words_law()
    ensures { SplitsIntoWords }
{}

/// An input has exactly one list of lines, the one computed from its bytes.
pub fn lines_law()
    ensures one { OneListOfLines }
    ensures these { AreItsLines }
{}
