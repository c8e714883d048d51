// A line of a constant table (02, 2026-02): text number in 8, kind in 4 (2 integer, 3 float), value in 21, then a newline. Its numbers are those of
// `column_lines`.
ghost use Rattle.std.specs.Prelude.{◌≡◌, length};
ghost use Rattle.constant_tables.specs.Entry.{is_text, is_table_kind, read_entry, entry_line, record_kind, table_kind};

use column_lines::line::NEWLINE;
use column_lines::number::{read_number, write_number};
use words::record::{FLOAT, INTEGER, MOST_TEXT};

const TEXT_END: usize = 8;

const KIND_END: usize = TEXT_END + 4;

const VALUE_END: usize = KIND_END + 21;

pub const TABLE_LINE_LENGTH: usize = VALUE_END + 1;

// The kinds of a table. They stay numbers: `Entry` of specs/ has its kind as one, and `record_kind` and `table_kind` answer for every number.
const TABLE_INTEGER: u64 = 2;

const TABLE_FLOAT: u64 = 3;

// What a line spells: a constant's text, kind and value.
#[derive(Clone, Copy, PartialEq, Eq)]
pub struct Entry {
    pub text: u64,
    pub kind: u64,
    pub value: u64,
}

// A number is a text's.
#[tactic(auto, unfolding(crate::specs::Entry::is_text))]
pub(crate) fn is_text(number: u64) -> bool
    ensures { result ≡ is_text number }
{
    number != 0 && number <= MOST_TEXT
}

#[tactic(auto, unfolding(crate::specs::Entry::is_table_kind))]
fn is_table_kind(kind: u64) -> bool
    ensures { result ≡ is_table_kind kind }
{
    kind == TABLE_INTEGER || kind == TABLE_FLOAT
}

// The kind of the record that a table's kind becomes.
#[tactic(auto, unfolding(crate::specs::Entry::record_kind))]
pub(crate) fn record_kind(kind: u64) -> u64
    ensures { result ≡ record_kind kind }
{
    if kind == TABLE_INTEGER {
        INTEGER
    } else {
        FLOAT
    }
}

// The table's kind of a value's record.
#[tactic(auto, unfolding(crate::specs::Entry::table_kind))]
pub(crate) fn table_kind(kind: u64) -> u64
    ensures { result ≡ table_kind kind }
{
    if kind == INTEGER {
        TABLE_INTEGER
    } else {
        TABLE_FLOAT
    }
}

// Reads a line.
pub(crate) fn read_entry(line: &[u8]) -> Option<Entry>
    ensures { result ≡ read_entry line.now }
{
    if line.len() != TABLE_LINE_LENGTH || line[VALUE_END] != NEWLINE {
        return None;
    }
    let text = read_number(&line[..TEXT_END], false)?;
    let kind = read_number(&line[TEXT_END..KIND_END], false)?;
    let value = read_number(&line[KIND_END..VALUE_END], kind == TABLE_INTEGER)?;
    if !is_text(text) {
        return None;
    }
    is_table_kind(kind).then_some(Entry { text, kind, value })
}

// Writes a constant's line.
pub(crate) fn write_entry(out: &mut [u8], entry: Entry)
    requires { length out.old ≡ 34 }
    ensures { out.new ≡ entry_line entry }
{
    write_number(&mut out[..TEXT_END], entry.text, false);
    write_number(&mut out[TEXT_END..KIND_END], entry.kind, false);
    let signed = entry.kind == TABLE_INTEGER;
    write_number(&mut out[KIND_END..VALUE_END], entry.value, signed);
    out[VALUE_END] = NEWLINE;
}
