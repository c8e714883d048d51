// The two converters between column files and records (01, 'The tree' and 'Replies of the compiler'). Where the output has room, `columns_to_records`
// writes the words of the whole file there, which is row 1, and checks them there; where it has none, rows 1 to 4 are answered from the bytes.
#![tactic(auto)]

pub mod bytes;
pub mod file;

ghost use Rattle.std.specs.Prelude.{◌≡◌, ◌++◌, ◌+◌, ◌*◌, ◌≤◌, length, drop};
ghost use Rattle.column_lines.specs.Form.{line_length};
ghost use Rattle.column_files.specs.Files.{Lent, lines_in, lines_by, LinesRead};
ghost use Rattle.column_files.specs.Convert.{columns_to_records, records_to_columns, reply_of, Stands, Converts};

use crate::bytes::check_file;
use crate::file::{check_end, check_lines, clear_bytes, line_at};
use column_lines::line::{LINE_LENGTH, write_line};
use tree::check;
use words::areas::{clear_from, write_entry};
use words::node::Record;
use words::record::{POSITION, RECORD_WORDS, SPAN, VALUE};
use words::row::{Refused, Row};

// What a converter answers: the number of a refusal's row and its place, or 0 and 0, and how many records it converted.
#[repr(C)]
#[derive(Clone, Copy)]
pub struct Converted {
    pub number: u64,
    pub place: usize,
    pub total: usize,
}

impl From<Result<usize, Refused>> for Converted {
    ghost from_gives = { λ converted reply. reply ≡ reply_of converted };

    fn from(converted: Result<usize, Refused>) -> Converted {
        match converted {
            Ok(total) => Converted {
                number: 0,
                place: 0,
                total,
            },
            Err(refused) => Converted {
                number: refused.row.number(),
                place: refused.place,
                total: 0,
            },
        }
    }
}

// Writes a record's line at a place.
fn write_record(tree: &[u64], at: usize, out: &mut [u8])
    requires at_in_bounds { (at + 1) * 4 ≤ length tree.now }
    requires line_length_in_bounds { (at + 1) * line_length ≤ length out.old }
    ensures { Lent (lines_by 1 (drop (at * 4) tree.now)) (at * line_length) (at * line_length + line_length) out.old
        out.new }
{
    let i = at * RECORD_WORDS;
    let from = at * LINE_LENGTH;
    let fields = Record {
        kind: tree[i],
        span: tree[i + SPAN],
        position: tree[i + POSITION],
        value: tree[i + VALUE],
    };
    write_line(&mut out[from..from + LINE_LENGTH], fields);
}

// Writes the lines of a number of records.
fn write_records(tree: &[u64], records: usize, out: &mut [u8])
    requires records_in_bounds { records * 4 ≤ length tree.now }
    requires line_length_in_bounds { records * line_length ≤ length out.old }
    ensures { out.new ≡ lines_by records tree.now ++ drop (records * line_length) out.old }
{
    for i in 0..records {
        write_record(tree, i, out);
    }
}

// Writes the words of a file's lines, up to a bad one, and answers row 1 as `check_lines` does, which is not called before, so that each line is read once.
fn write_lines(file: &[u8], out: &mut [u64]) -> Result<(), Refused>
    requires { lines_in file.now * 4 ≤ length out.old }
    ensures { LinesRead file.now out.old out.new result }
{
    let lines = file.len() / LINE_LENGTH;
    for i in 0..lines {
        let Some(record) = line_at(file, i) else {
            return Err(Row::BadLine.at(i + 1));
        };
        let Record {
            kind,
            span,
            position,
            value,
        } = record;
        write_entry(out, i, [kind, span, position, value]);
    }
    check_end(file)
}

// Rows 2 to 4, then 9, and the lines of the records.
fn write_columns(tree: &[u64], out: &mut [u8]) -> Result<usize, Refused>
    ensures { Stands line_length (records_to_columns tree.now (length out.old)) out.new result }
{
    check(tree)?;
    let records = tree.len() / RECORD_WORDS;
    if out.len() / LINE_LENGTH < records {
        return Err(Row::AreaFull.at(0));
    }
    write_records(tree, records, out);
    Ok(records)
}

// Rows 1 to 4, then 9, and the words of the lines.
fn write_words(file: &[u8], out: &mut [u64]) -> Result<usize, Refused>
    ensures { Stands 4 (columns_to_records file.now (length out.old)) out.new result }
{
    let lines = file.len() / LINE_LENGTH;
    if out.len() / RECORD_WORDS < lines {
        check_lines(file)?;
        check_file(file)?;
        return Err(Row::AreaFull.at(0));
    }
    write_lines(file, out)?;
    check(&out[..lines * RECORD_WORDS])?;
    Ok(lines)
}

// Records to a column file: its bytes, zeros after them, and how many records; a refusal leaves zeros.
pub fn records_to_columns(tree: &[u64], out: &mut [u8]) -> Converted
    ensures { Converts (records_to_columns tree.now (length out.old)) out.new result }
{
    let written = write_columns(tree, out);
    let kept = match written {
        Ok(records) => records * LINE_LENGTH,
        Err(_) => 0, // no line stands
    };
    clear_bytes(out, kept);
    Converted::from(written)
}

// A column file to records: their words, zeros after them, and how many records; a refusal leaves zeros.
pub fn columns_to_records(file: &[u8], out: &mut [u64]) -> Converted
    ensures { Converts (columns_to_records file.now (length out.old)) out.new result }
{
    let written = write_words(file, out);
    let kept = match written {
        Ok(records) => records * RECORD_WORDS,
        Err(_) => 0, // no word stands
    };
    clear_from(out, kept);
    Converted::from(written)
}
