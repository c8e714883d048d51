// The two ways between constant tables of the span calculator and the records of their document (02, 2026-02).
#![tactic(auto)]

mod line;

ghost use Rattle.std.specs.Prelude.{◌≡◌, ◌++◌, ◌+◌, ◌*◌, ◌≤◌, length, drop};
ghost use Rattle.words.specs.Record.{value_at};
ghost use Rattle.column_files.specs.Convert.{Stands, Converts};
ghost use Rattle.constant_tables.specs.Entry.{table_bytes};
ghost use Rattle.constant_tables.specs.Table.{count_in, line_count, table_line, head_is, agrees_at, entry_at, list_from};
ghost use Rattle.constant_tables.specs.Table.{DefinitionPut, DefinitionsPut, ConstantPut};
ghost use Rattle.constant_tables.specs.Convert.{table_to_records, records_to_table, document_rows, TableStands, Tables};

use crate::line::{
    Entry, TABLE_LINE_LENGTH, is_text, read_entry, record_kind, table_kind, write_entry,
};
use column_files::Converted;
use column_files::file::clear_bytes;
use tree::check;
use words::areas::{self, clear_from};
use words::record::{
    DOCUMENT, FLOAT, INTEGER, KIND, LOCAL_DEFINITION, MOST_RECORDS, NAME, POSITION, RECORD_WORDS,
    SPAN, VALUE, field,
};
use words::row::{Refused, Row};

// 02, 2026-02, 'not a table': the row after those of 01.
pub const NOT_A_TABLE: u64 = Row::NotATable as u64;

// The records of a local definition, and their words.
const DEFINITION_RECORDS: usize = 3;

const DEFINITION_WORDS: usize = DEFINITION_RECORDS * RECORD_WORDS;

// The most lines whose document passes row 2.
const MOST_LINES: usize = (MOST_RECORDS - 1) / DEFINITION_RECORDS;

// What the way back answers: the number of a refusal's row and its place, or 0 and 0, how many lines were written, and the document's file number.
#[repr(C)]
#[derive(Clone, Copy)]
pub struct Tabled {
    pub number: u64,
    pub place: usize,
    pub total: usize,
    pub file: u64,
}

// The lines of a table of so many bytes; a rest of one is one.
fn line_count(bytes: usize) -> usize
    ensures { result ≡ count_in bytes }
{
    bytes.div_ceil(TABLE_LINE_LENGTH)
}

// Line i of a table; none where it spells no constant, and where the table has no whole line there. `column_files::file::line_at` has why it is a function of
// its own.
fn line_at(table: &[u8], i: usize) -> Option<Entry>
    ensures { result ≡ table_line table.now i }
{
    if i >= table.len() / TABLE_LINE_LENGTH {
        return None;
    }
    let at = i * TABLE_LINE_LENGTH;
    read_entry(&table[at..at + TABLE_LINE_LENGTH])
}

// Writes the local definition of line i, where there is room.
fn write_definition(out: &mut [u64], i: usize, entry: Entry)
    ensures { DefinitionPut i entry out.old out.new }
{
    if i >= out.len() / DEFINITION_WORDS {
        return;
    }
    let at = i * DEFINITION_RECORDS + 1;
    let of = record_kind(entry.kind);
    areas::write_entry(out, at, [LOCAL_DEFINITION, DEFINITION_RECORDS as u64, 0, 0]);
    areas::write_entry(out, at + 1, [NAME, 1, 0, entry.text]);
    areas::write_entry(out, at + 2, [of, 1, 0, entry.value]);
}

// Writes the definitions of a table's lines, up to a bad one, which is row 1.
fn write_definitions(table: &[u8], lines: usize, out: &mut [u64]) -> Result<(), Refused>
    requires { lines ≡ line_count table.now }
    ensures { DefinitionsPut table.now out.old out.new result }
{
    for i in 0..lines {
        let Some(entry) = line_at(table, i) else {
            return Err(Row::BadLine.at(i + 1));
        };
        write_definition(out, i, entry);
    }
    Ok(())
}

// Rows 1 to 3, then 9, and the words of a table's document.
fn write_document(table: &[u8], file: u64, out: &mut [u64]) -> Result<usize, Refused>
    ensures { Stands 4 (table_to_records table.now file (length out.old)) out.new result }
{
    let lines = line_count(table.len());
    let records = lines * DEFINITION_RECORDS + 1;
    areas::write_entry(out, 0, [DOCUMENT, records as u64, 0, file]);
    write_definitions(table, lines, out)?;
    if lines > MOST_LINES {
        return Err(Row::BadLength.at(0));
    }
    if !is_text(file) {
        return Err(Row::BadShape.at(0));
    }
    if out.len() / RECORD_WORDS < records {
        return Err(Row::AreaFull.at(0));
    }
    Ok(records)
}

// A table and a file number to the records of its document: their words, zeros after them, and how many records; a refusal leaves zeros.
pub fn table_to_records(table: &[u8], file: u64, out: &mut [u64]) -> Converted
    ensures { Converts (table_to_records table.now file (length out.old)) out.new result }
{
    let written = write_document(table, file, out);
    let kept = match written {
        Ok(records) => records * RECORD_WORDS,
        Err(_) => 0,
    };
    clear_from(out, kept);
    Converted::from(written)
}

// Record i has a kind and a span, and position 0.
#[tactic(auto, unfolding(crate::specs::Table::head_is))]
fn is_head(tree: &[u64], i: usize, kind: u64, span: u64) -> bool
    ensures { result ≡ head_is tree.now i kind span }
{
    field(tree, i, KIND) == kind && field(tree, i, SPAN) == span && field(tree, i, POSITION) == 0
}

// Record i is as in a table, by its place among the records of its definition. The document has its span alone left to agree with: rows 2 to 4 have passed.
#[tactic(auto, using(crate::proofs::Converting::agrees_document, crate::proofs::Converting::agrees_behind))]
fn agrees(tree: &[u64], i: usize) -> bool
    ensures { result ≡ agrees_at tree.now i }
{
    let span = field(tree, 0, SPAN);
    if i == 0 {
        return span % 3 == 1;
    }
    if i as u64 >= span {
        return false;
    }
    match (i - 1) % DEFINITION_RECORDS {
        0 => {
            is_head(tree, i, LOCAL_DEFINITION, DEFINITION_RECORDS as u64)
                && field(tree, i, VALUE) == 0
        }
        1 => is_head(tree, i, NAME, 1),
        _ => is_head(tree, i, INTEGER, 1) || is_head(tree, i, FLOAT, 1),
    }
}

// Rows 2 to 4, then 10 at the first record up to which no table agrees.
fn check_document(tree: &[u64]) -> Result<(), Refused>
    ensures { result ≡ document_rows tree.now }
{
    check(tree)?;
    for i in 0..tree.len() / RECORD_WORDS {
        if !agrees(tree, i) {
            return Err(Row::NotATable.at(i));
        }
    }
    Ok(())
}

// Writes the line of definition i.
fn write_constant(tree: &[u64], i: usize, out: &mut [u8])
    requires { (i + 1) * 34 ≤ length out.old }
    ensures { ConstantPut tree.now i out.old out.new }
{
    let name = i * DEFINITION_RECORDS + 2;
    let from = i * TABLE_LINE_LENGTH;
    let entry = Entry {
        text: field(tree, name, VALUE),
        kind: table_kind(field(tree, name + 1, KIND)),
        value: field(tree, name + 1, VALUE),
    };
    write_entry(&mut out[from..from + TABLE_LINE_LENGTH], entry);
}

// Writes the lines of a number of definitions. Not one loop with `write_records` of `column_files` over the step, which would have to ask of the step what it
// writes: `ConstantPut` here, `Lent` there.
fn write_constants(tree: &[u64], lines: usize, out: &mut [u8])
    requires { lines * 34 ≤ length out.old }
    ensures { out.new ≡ table_bytes (list_from (entry_at tree.now) 0 lines) ++ drop (lines * 34) out.old }
{
    for i in 0..lines {
        write_constant(tree, i, out);
    }
}

// Rows 2 to 4 and 10, then 9, and the lines of the table of a document: `write_columns` of `column_files` with other rows, limits and promise (`TableStands`).
fn write_table(tree: &[u64], out: &mut [u8]) -> Result<usize, Refused>
    ensures { TableStands (value_at tree.now 0) (records_to_table tree.now (length out.old)) out.new result }
{
    check_document(tree)?;
    let lines = tree.len() / DEFINITION_WORDS;
    if out.len() / TABLE_LINE_LENGTH < lines {
        return Err(Row::AreaFull.at(0));
    }
    write_constants(tree, lines, out);
    Ok(lines)
}

// The records of a table's document back to the table: its bytes, zeros after them, how many lines and the file number; a refusal leaves zeros.
pub fn records_to_table(tree: &[u64], out: &mut [u8]) -> Tabled
    ensures { Tables (records_to_table tree.now (length out.old)) out.new result }
{
    match write_table(tree, out) {
        Ok(lines) => {
            clear_bytes(out, lines * TABLE_LINE_LENGTH);
            Tabled {
                number: 0,
                place: 0,
                total: lines,
                file: field(tree, 0, VALUE),
            }
        }
        Err(refused) => {
            clear_bytes(out, 0);
            Tabled {
                number: refused.row.number(),
                place: refused.place,
                total: 0,
                file: 0,
            }
        }
    }
}
