// Numbers and bytes at an offset of a lent buffer. What does not fit is refused as a value, and nothing is written after it.
ghost use Rattle.std.specs.Prelude.{◌≡◌};
ghost use Rattle.line_writer.specs.Placed.{placed, number_at, byte_at};

use column_lines::number::write_number;

// Something had no room or was wider than its field. Where the next byte would go stays as the offset.
#[derive(Clone, Copy, Debug, PartialEq, Eq)]
pub struct Refused {
    pub offset: usize,
}

// Where the next byte goes, if all before it had room and was no wider than its field.
pub type Place = Result<usize, Refused>;

// A number, right-justified in a width. One that is wider leaves its last bytes and is refused; where the buffer is too short nothing is written.
#[tactic(auto, using(crate::proofs::Placing::number_short, crate::proofs::Placing::number_gone))]
pub fn number_at(buffer: &mut [u8], place: Place, width: usize, word: u64, signed: bool) -> Place
    ensures { placed result buffer.new ≡ number_at width signed word (placed place buffer.old) }
{
    let at = place?;
    if at <= buffer.len() && width <= buffer.len() - at {
        let end = at + width;
        if write_number(&mut buffer[at..end], word, signed) {
            return Ok(end);
        }
        return Err(Refused { offset: end });
    }
    Err(Refused { offset: at })
}

// One byte.
#[tactic(auto, using(crate::proofs::Placing::byte_done, crate::proofs::Placing::byte_short, crate::proofs::Placing::byte_gone))]
pub fn byte_at(buffer: &mut [u8], place: Place, byte: u8) -> Place
    ensures { placed result buffer.new ≡ byte_at byte (placed place buffer.old) }
{
    let at = place?;
    if at < buffer.len() {
        buffer[at] = byte;
        return Ok(at + 1);
    }
    Err(Refused { offset: at })
}
