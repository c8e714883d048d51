// Writes bytes into the line buffer, one after the other. Where something does not fit the place is behind the end, and nothing more is written.
ghost use Rattle.std.specs.Prelude.{◌≡◌, [], ◌∷◌};
ghost use Rattle.error_lines.specs.Puts.{Writes};
ghost use Rattle.error_lines.specs.Lines.{between};
ghost use Rattle.error_lines.specs.Texts.{after_blanks, plain};

use column_lines::number::{BLANK, write_number};

// The digits of a word, with its sign.
const NUMBER_WIDTH: usize = 21;

// The line buffer, and the place of the next byte. The place is a number also where something did not fit: each step's promise (`Puts`) speaks of one behind
// the end.
#[derive(Drop)]
pub struct Sink<'a> {
    pub out: &'a mut [u8],
    pub place: usize,
}

// The bytes after the blanks.
fn without_blanks(field: &[u8]) -> &[u8]
    ensures { result.now ≡ after_blanks field.now }
{
    let first = field
        .iter()
        .position(|byte| *byte != BLANK)
        .unwrap_or(field.len());
    &field[first..]
}

impl<'a> Sink<'a> {
    pub fn put(&mut self, byte: u8)
        ensures { Writes (byte ∷ []) self.old self.new }
    {
        if self.place < self.out.len() {
            self.out[self.place] = byte;
            self.place += 1;
        } else {
            self.place = self.out.len() + 1;
        }
    }

    pub fn put_bytes(&mut self, bytes: &[u8])
        ensures { Writes bytes.now self.old self.new }
    {
        for byte in bytes {
            self.put(*byte);
        }
    }

    // A comma and a blank.
    pub fn put_between(&mut self)
        ensures { Writes between self.old self.new }
    {
        self.put_bytes(b", ");
    }

    // A plain number.
    pub fn put_number(&mut self, word: u64, signed: bool)
        ensures { Writes (plain signed word) self.old self.new }
    {
        let mut field = [BLANK; NUMBER_WIDTH];
        write_number(&mut field, word, signed);
        self.put_bytes(without_blanks(&field));
    }
}
