// A line of a column file and the record that it spells (01, 'Column file'). The form is here in one place: the order and the widths of the fields,
// and so their places.
ghost use Rattle.std.specs.Prelude.{◌≡◌};
ghost use Rattle.column_lines.specs.Line.{read_line, LineWrote};

use crate::number::{read_number, write_number};
use words::node::Record;
use words::record::{INTEGER, POSITION_BASE, column_of, line_of};

const KIND_WIDTH: usize = 4;

const SPAN_WIDTH: usize = 8;

const LINE_WIDTH: usize = 9;

const COLUMN_WIDTH: usize = 9;

const VALUE_WIDTH: usize = 21;

const KIND_END: usize = KIND_WIDTH;

const SPAN_END: usize = KIND_END + SPAN_WIDTH;

const LINE_END: usize = SPAN_END + LINE_WIDTH;

const COLUMN_END: usize = LINE_END + COLUMN_WIDTH;

const VALUE_END: usize = COLUMN_END + VALUE_WIDTH;

pub const LINE_LENGTH: usize = VALUE_END + 1;

pub const NEWLINE: u8 = b'\n';

// Reads a line. A position above the limit is a number too, and no fault of the line.
pub fn read_line(line: &[u8]) -> Option<Record>
    ensures { result ≡ read_line line.now }
{
    if line.len() != LINE_LENGTH || line[VALUE_END] != NEWLINE {
        return None;
    }
    let kind = read_number(&line[..KIND_END], false)?;
    let span = read_number(&line[KIND_END..SPAN_END], false)?;
    let row = read_number(&line[SPAN_END..LINE_END], false)?;
    let column = read_number(&line[LINE_END..COLUMN_END], false)?;
    let value = read_number(&line[COLUMN_END..VALUE_END], kind == INTEGER)?;
    Some(Record {
        kind,
        span,
        position: row * POSITION_BASE + column,
        value,
    })
}

// Writes a record's line; false, and nothing is written, unless there are as many bytes as a line has. A `bool` as `write_number`'s.
pub fn write_line(out: &mut [u8], fields: Record) -> bool
    ensures { LineWrote fields.kind fields.span fields.position fields.value out.old out.new result }
{
    if out.len() != LINE_LENGTH {
        return false;
    }
    write_number(&mut out[..KIND_END], fields.kind, false);
    write_number(&mut out[KIND_END..SPAN_END], fields.span, false);
    write_number(
        &mut out[SPAN_END..LINE_END],
        line_of(fields.position),
        false,
    );
    write_number(
        &mut out[LINE_END..COLUMN_END],
        column_of(fields.position),
        false,
    );
    write_number(
        &mut out[COLUMN_END..VALUE_END],
        fields.value,
        fields.kind == INTEGER,
    );
    out[VALUE_END] = NEWLINE;
    true
}
