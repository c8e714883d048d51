// The lines of a column file one after the other, and row 1.
ghost use Rattle.std.specs.Prelude.{◌≡◌, ◌+◌, ◌%◌, cond, eqb, length, Ok};
ghost use Rattle.words.specs.declared.row.Row.TheVariants.{BadLine};
ghost use Rattle.tree.specs.Check.{refused};
ghost use Rattle.column_lines.specs.Form.{line_length};
ghost use Rattle.words.specs.Areas.{cleared_from};
ghost use Rattle.column_files.specs.Files.{row_one, lines_in, line_in};

use column_lines::line::{LINE_LENGTH, read_line};
use words::node::Record;
use words::row::{Refused, Row};

// The record that line i of a file spells; none where it spells none, and where the file has no such line. Not one function with `line_at` of
// `constant_tables`: over the length and the reader of a line, it would ask that the reader answers `line_in` or `table_line`.
pub fn line_at(file: &[u8], i: usize) -> Option<Record>
    ensures { result ≡ line_in i file.now }
{
    if i >= file.len() / LINE_LENGTH {
        return None;
    }
    let at = i * LINE_LENGTH;
    read_line(&file[at..at + LINE_LENGTH])
}

// Row 1: the first line off its form, from 1. Not one loop with `write_lines`, which writes each line as it is read: here there is no room for the words.
pub fn check_lines(file: &[u8]) -> Result<(), Refused>
    ensures { result ≡ row_one file.now }
{
    let lines = file.len() / LINE_LENGTH;
    for i in 0..lines {
        if line_at(file, i).is_none() {
            return Err(Row::BadLine.at(i + 1));
        }
    }
    check_end(file)
}

// Row 1 where all whole lines are of their form: a rest of a line is off it.
pub(crate) fn check_end(file: &[u8]) -> Result<(), Refused>
    ensures { result ≡ cond (eqb (length file.now % line_length) 0) (Ok tt) (refused BadLine (lines_in file.now + 1)) }
{
    if file.len() % LINE_LENGTH == 0 {
        return Ok(());
    }
    Err(Row::BadLine.at(file.len() / LINE_LENGTH + 1))
}

// Zeros from a byte on. Not one function with `words::areas::clear_from` over the element: `fill` asks of a generic element that its clone cannot fail, and a
// public function here asks nothing (tried: `fill-requires` is open for `T: Copy`).
pub fn clear_bytes(out: &mut [u8], from: usize)
    ensures { out.new ≡ cleared_from from out.old }
{
    let from = from.min(out.len());
    out[from..].fill(0);
}
