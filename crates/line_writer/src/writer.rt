// The writer that carries the buffer it fills. Each step is thin: it calls the column writer of `place` on the writer's buffer. After a refusal the steps
// write nothing.
ghost use Rattle.std.specs.Prelude.{◌≡◌};
ghost use Rattle.line_writer.specs.Placed.{placed, number_at, byte_at};
ghost use Rattle.line_writer.specs.Written.{begun, held, onto, start_at, line_at};

use crate::place::{Place, byte_at, number_at};
use column_lines::line::NEWLINE;

// A line of 01's listing: widths 4, six of 8, and 21.
pub const SECTION_WIDTH: usize = 4;

pub const FIELD_WIDTH: usize = 8;

pub const LAST_WIDTH: usize = 21;

// The buffer, and where the next byte goes, if all before it fits.
#[derive(Drop)]
pub struct Writer<'a> {
    pub buffer: &'a mut [u8],
    pub place: Place,
}

// What a line says. The last field alone may be signed.
#[derive(Clone, Copy, Default)]
pub struct Fields {
    pub section: u64,
    pub first: u64,
    pub second: u64,
    pub third: u64,
    pub fourth: u64,
    pub fifth: u64,
    pub sixth: u64,
    pub last: u64,
    pub signed: bool,
}

impl<'a> Writer<'a> {
    // The borrow goes into the writer.
    pub fn new(buffer: &'a mut [u8], offset: usize) -> Writer<'a>
        ensures { result ≡ begun buffer.entry offset }
    {
        Writer {
            buffer,
            place: Ok(offset),
        }
    }

    // A number, right-justified in a width.
    pub fn number(&mut self, width: usize, word: u64, signed: bool)
        ensures { self.new ≡ onto self.old (number_at width signed word (held self.old)) }
    {
        self.place = number_at(&mut *self.buffer, self.place, width, word, signed);
    }

    // One byte.
    pub fn byte(&mut self, b: u8)
        ensures { self.new ≡ onto self.old (byte_at b (held self.old)) }
    {
        self.place = byte_at(&mut *self.buffer, self.place, b);
    }

    // The borrow ends: where the next byte goes, if all fits.
    pub fn end(self) -> Place
        ensures { placed result self.exit.0.now ≡ held self.entry }
    {
        self.place
    }
}

// Writes a line at an offset of a buffer.
pub fn write_line(buffer: &mut [u8], offset: usize, line: Fields) -> Place
    ensures { placed result buffer.new ≡ line_at line (start_at offset buffer.old) }
{
    let mut w = Writer::new(buffer, offset);
    w.number(SECTION_WIDTH, line.section, false);
    w.number(FIELD_WIDTH, line.first, false);
    w.number(FIELD_WIDTH, line.second, false);
    w.number(FIELD_WIDTH, line.third, false);
    w.number(FIELD_WIDTH, line.fourth, false);
    w.number(FIELD_WIDTH, line.fifth, false);
    w.number(FIELD_WIDTH, line.sixth, false);
    w.number(LAST_WIDTH, line.last, line.signed);
    w.byte(NEWLINE);
    w.end()
}
