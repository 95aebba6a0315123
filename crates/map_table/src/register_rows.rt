//! Writes the rows of a text one after another.

ghost use Rattle.std.specs.Prelude.{◌≡◌, ◌<◌, ◌≤◌, ◌++◌, List, ℕ, map};
ghost use Rattle.std.specs.List.{concat};
ghost use Rattle.text_lines.specs.Writings.{writing, Prints};
ghost use Rattle.map_table.specs.RegisterRows.{rows_text};

use text_lines::{DeviceFault, Line, Sink, write_whole};

/// A row, in two pieces.
#[derive(Drop)]
pub(crate) struct Row {
    pub(crate) front: Line,
    pub(crate) back: Line,
}

/// A source of rows.
pub(crate) trait Rows {
    /// The text of row i.
    ghost row_text: { Self → ℕ → List ℕ };

    /// The maximum number of rows.
    ghost most: { Self → ℕ };

    /// Returns row i.
    fn row(&self, i: usize) -> Row
        requires { i < most self.now }
        ensures { result.front ++ result.back ≡ row_text self.now i };
}

/// Writes a row.
fn print_row<W: Sink>(row: &Row, out: &mut W) -> Result<(), DeviceFault>
    ensures { Prints (row.now.front ++ row.now.back)
        (writing W.contents W.failures W.stalls out.old out.new) result }
{
    write_whole(out, row.front.as_slice())?;
    write_whole(out, row.back.as_slice())?;
    Ok(())
}

/// Writes rows from the first on.
fn print_rows<R: Rows, W: Sink>(rows: &R, count: usize, out: &mut W) -> Result<(), DeviceFault>
    requires most { count ≤ R.most rows.now }
    ensures { Prints (rows_text (R.row_text rows.now) 0 count)
        (writing W.contents W.failures W.stalls out.old out.new) result }
{
    for i in 0..count {
        let row = rows.row(i);
        print_row(&row, out)?;
    }
    Ok(())
}

/// Writes a text, followed by rows.
pub(crate) fn print_section<R: Rows, W: Sink>(
    text: &[u8],
    rows: &R,
    count: usize,
    out: &mut W,
) -> Result<(), DeviceFault>
    requires most { count ≤ R.most rows.now }
    ensures { Prints (text.now ++ rows_text (R.row_text rows.now) 0 count)
        (writing W.contents W.failures W.stalls out.old out.new) result }
{
    write_whole(out, text)?;
    print_rows(rows, count, out)?;
    Ok(())
}

/// Writes texts one after another.
pub(crate) fn print_texts<W: Sink>(texts: &[&[u8]], out: &mut W) -> Result<(), DeviceFault>
    ensures { Prints (concat (map (λ s. s.now) texts.now))
        (writing W.contents W.failures W.stalls out.old out.new) result }
{
    for &text in texts {
        write_whole(out, text)?;
    }
    Ok(())
}

/// Writes texts one after another, followed by rows.
pub(crate) fn print_titled<R: Rows, W: Sink>(
    texts: &[&[u8]],
    rows: &R,
    count: usize,
    out: &mut W,
) -> Result<(), DeviceFault>
    requires most { count ≤ R.most rows.now }
    ensures { Prints (concat (map (λ s. s.now) texts.now)
        ++ rows_text (R.row_text rows.now) 0 count)
        (writing W.contents W.failures W.stalls out.old out.new) result }
{
    print_texts(texts, out)?;
    print_rows(rows, count, out)?;
    Ok(())
}

/// Writes rows, followed by other rows.
pub(crate) fn print_both<A: Rows, B: Rows, W: Sink>(
    rows: &A,
    count: usize,
    others: &B,
    other_count: usize,
    out: &mut W,
) -> Result<(), DeviceFault>
    requires most { count ≤ A.most rows.now }
    requires others { other_count ≤ B.most others.now }
    ensures { Prints (rows_text (A.row_text rows.now) 0 count
        ++ rows_text (B.row_text others.now) 0 other_count)
        (writing W.contents W.failures W.stalls out.old out.new) result }
{
    print_rows(rows, count, out)?;
    print_rows(others, other_count, out)?;
    Ok(())
}
