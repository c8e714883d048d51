// Errors in words (02, 2026-10): each error of area 11 as an English line.
#![tactic(auto)]

pub mod buffer;
pub mod known;
pub mod lines;
pub mod texts;

ghost use Rattle.std.specs.Prelude.{◌≡◌, length};
ghost use Rattle.column_files.specs.Convert.{Converts};
ghost use Rattle.error_lines.specs.Puts.{Finishes};
ghost use Rattle.error_lines.specs.Words.{in_words};

use crate::buffer::Sink;
use crate::known::first_unknown;
use crate::texts::Texts;
use column_files::Converted;
use column_files::file::clear_bytes;
use words::reply::{AREA_FULL, BAD_SHAPE};

// The place that row 9 gives for the line buffer.
const LINE_BUFFER: usize = 13;

impl<'a> Sink<'a> {
    // The reply, and zeros after the lines; where something did not fit, row 9 and zeros.
    fn finish(self) -> Converted
        ensures { Finishes self.entry.place self.entry.out.now self.exit.0.now result }
    {
        let end = self.place;
        if end <= self.out.len() {
            clear_bytes(self.out, end);
            Converted {
                number: 0,
                place: 0,
                total: end,
            }
        } else {
            clear_bytes(self.out, 0);
            Converted {
                number: AREA_FULL,
                place: LINE_BUFFER,
                total: 0,
            }
        }
    }
}

// The errors of an area in words: the bytes of their lines, zeros after them, and how many bytes. `file` is the caller's file number; text n is `table[2n - 1]`
// bytes of `bytes` from `table[2n - 2]` on. Row 3 and an index for an error that 01 does not know, row 9 and place 13 for a short buffer: zeros after either.
pub fn errors_in_words(
    errors: &[u64],
    file: u64,
    table: &[u64],
    bytes: &[u8],
    out: &mut [u8],
) -> Converted
    ensures { Converts (in_words errors.now file table.now bytes.now (length out.old)) out.new result }
{
    if let Some(i) = first_unknown(errors) {
        clear_bytes(out, 0);
        return Converted {
            number: BAD_SHAPE,
            place: i,
            total: 0,
        };
    }
    let mut sink = Sink { out, place: 0 };
    sink.put_lines(errors, file, Texts { table, bytes });
    sink.finish()
}
