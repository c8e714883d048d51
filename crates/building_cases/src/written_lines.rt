// Lines of the listing's form through the writer that carries its buffer and through the column writer on slice and offset, on the same cases.
// Each case writes, once for each form, its name, the offset and whether all fits; then the buffer, which was all dots.
ghost use Rattle.std.specs.Prelude.{◌≡◌, ◌≤◌};
ghost use Rattle.line_writer.specs.Placed.{placed};
ghost use Rattle.line_writer.specs.Written.{start_at, line_at};

use crate::lines;
use column_lines::line::NEWLINE;
use line_writer::place::{Place, byte_at, number_at};
use line_writer::writer;
use line_writer::writer::{FIELD_WIDTH, Fields, LAST_WIDTH, SECTION_WIDTH};
use std::io;

const DOT: u8 = b'.';

// `writer::write_line` over slice and offset: the same promise.
fn write_line(buffer: &mut [u8], offset: usize, line: Fields) -> Place
    ensures { placed result buffer.new ≡ line_at line (start_at offset buffer.old) }
{
    let section = number_at(buffer, Ok(offset), SECTION_WIDTH, line.section, false);
    let first = number_at(buffer, section, FIELD_WIDTH, line.first, false);
    let second = number_at(buffer, first, FIELD_WIDTH, line.second, false);
    let third = number_at(buffer, second, FIELD_WIDTH, line.third, false);
    let fourth = number_at(buffer, third, FIELD_WIDTH, line.fourth, false);
    let fifth = number_at(buffer, fourth, FIELD_WIDTH, line.fifth, false);
    let sixth = number_at(buffer, fifth, FIELD_WIDTH, line.sixth, false);
    let last = number_at(buffer, sixth, LAST_WIDTH, line.last, line.signed);
    byte_at(buffer, last, NEWLINE)
}

fn show(rt: &impl Print, name: &str, form: &str, buffer: &[u8], place: Place) -> io::Result<()> {
    print!(rt; "{name}, {form}: offset ")?;
    match place {
        Ok(offset) => println!(rt; "{offset}, fits")?,
        Err(refused) => println!(rt; "{}, refused", refused.offset)?,
    }
    rt.write_all(buffer)?;
    println!(rt; "")
}

// Both forms over buffers of N bytes.
fn both<const N: usize>(rt: &impl Print, name: &str, offset: usize, line: Fields) -> io::Result<()>
    requires { N ≤ 80 }
{
    let mut buffer = [DOT; N];
    let place = writer::write_line(&mut buffer, offset, line);
    show(rt, name, "the writer with its buffer", &buffer, place)?;
    let mut buffer = [DOT; N];
    let place = write_line(&mut buffer, offset, line);
    show(rt, name, "on slice and offset", &buffer, place)
}

// A line of a section with the same number in each of the six fields. They are written out: `Fields` names each, and a list to take apart is no plainer.
fn line_of(section: u64, each: u64, last: u64, signed: bool) -> Fields {
    Fields {
        section,
        first: each,
        second: each,
        third: each,
        fourth: each,
        fifth: each,
        sixth: each,
        last,
        signed,
    }
}

pub(crate) fn cases(rt: &impl Print) -> io::Result<()> {
    // In a buffer of the line's own length.
    both::<74>(
        rt,
        "an instruction",
        0,
        Fields {
            section: 3,
            first: 1,
            second: 20,
            third: 300,
            fourth: 4000,
            fifth: 50000,
            sixth: 0,
            last: 72057594037927935,
            signed: false,
        },
    )?;
    both::<74>(
        rt,
        "the smallest integer",
        0,
        line_of(4, 0, 9223372036854775808, true),
    )?;
    both::<74>(
        rt,
        "minus one",
        0,
        line_of(4, 0, 18446744073709551615, true),
    )?;
    both::<74>(
        rt,
        "the widest numbers",
        0,
        line_of(4, 99999999, 18446744073709551615, false),
    )?;
    // The newline has no room.
    both::<73>(rt, "a byte short", 0, line_of(9999, 7, 7, true))?;
    // In the midst of a longer buffer, and beyond its end.
    both::<80>(rt, "in the midst", 3, line_of(10, 7, 42, false))?;
    both::<80>(rt, "up to the end", 6, line_of(11, 7, 42, false))?;
    both::<80>(rt, "a byte past the end", 7, line_of(11, 7, 42, false))?;
    both::<80>(rt, "from beyond the end", 81, line_of(11, 7, 42, false))?;
    both::<74>(rt, "a section too wide", 0, line_of(12345, 7, 42, false))?;
    both::<74>(rt, "a field too wide", 0, line_of(1, 100000000, 42, false))
}
