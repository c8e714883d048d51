// Texts from a lent table, between quotation marks and escaped.
ghost use Rattle.std.specs.Prelude.{◌≡◌, [], ◌∷◌, ◌/◌};
ghost use Rattle.std.specs.Option.{option_copied};
ghost use Rattle.error_lines.specs.Puts.{Writes};
ghost use Rattle.error_lines.specs.Texts.{backslash, escape, escaped, quoted, text_at, text_field};
ghost use Rattle.column_lines.specs.Numeral.{digit_of};

use crate::buffer::Sink;

const QUOTATION_MARK: u8 = b'"';

const BACKSLASH: u8 = b'\\';

const ZERO: u8 = b'0';

// Bytes that stand as they are, but for the two above.
const FIRST_PRINTED: u8 = 32;

const LAST_PRINTED: u8 = 126;

// Lent texts: text n is `table[2n - 1]` bytes of `bytes` from `table[2n - 2]` on.
#[derive(Clone, Copy)]
pub struct Texts<'a> {
    pub table: &'a [u64],
    pub bytes: &'a [u8],
}

impl<'a> Texts<'a> {
    // A text by its number; none where the table lacks it or it ends past the bytes.
    fn text(self, n: u64) -> Option<&'a [u8]>
        ensures { option_copied result ≡ text_at self.entry.table.now self.entry.bytes.now n }
    {
        let i = n.checked_sub(1)? as usize;
        if i >= self.table.len() / 2 {
            return None;
        }
        let start = self.table[i * 2] as usize;
        let size = self.table[i * 2 + 1] as usize;
        let rest = self.bytes.get(start..)?;
        rest.get(..size)
    }
}

impl<'a> Sink<'a> {
    // A byte that is not printed: a backslash and three decimal digits.
    fn put_digits(&mut self, byte: u8)
        ensures { Writes (backslash ∷ digit_of (byte / 100) ∷ digit_of (byte / 10) ∷ digit_of byte ∷ []) self.old self.new }
    {
        self.put(BACKSLASH);
        self.put(ZERO + byte / 100 % 10);
        self.put(ZERO + byte / 10 % 10);
        self.put(ZERO + byte % 10);
    }

    // A byte of a text.
    #[tactic(auto, unfolding(crate::specs::Texts::escape))]
    fn put_escape(&mut self, byte: u8)
        ensures { Writes (escape byte) self.old self.new }
    {
        if byte == QUOTATION_MARK || byte == BACKSLASH {
            self.put(BACKSLASH);
            self.put(byte);
        } else if (FIRST_PRINTED..=LAST_PRINTED).contains(&byte) {
            self.put(byte);
        } else {
            self.put_digits(byte);
        }
    }

    // Not one function with `put_bytes` over the step: the step's promise (`Writes`, of each byte) would be a `requires`, longer than this loop.
    fn put_escaped(&mut self, text: &[u8])
        ensures { Writes (escaped text.now) self.old self.new }
    {
        for byte in text {
            self.put_escape(*byte);
        }
    }

    // A text between quotation marks.
    #[tactic(auto, unfolding(crate::specs::Texts::quoted))]
    fn put_quoted(&mut self, text: &[u8])
        ensures { Writes (quoted text.now) self.old self.new }
    {
        self.put(QUOTATION_MARK);
        self.put_escaped(text);
        self.put(QUOTATION_MARK);
    }

    // A text by its number; the number itself where the table lacks it or it ends past the bytes.
    #[tactic(auto, unfolding(crate::specs::Texts::text_field))]
    pub fn put_text(&mut self, texts: Texts<'_>, n: u64)
        ensures { Writes (text_field texts.entry.table.now texts.entry.bytes.now n) self.old self.new }
    {
        match texts.text(n) {
            Some(text) => self.put_quoted(text),
            None => self.put_number(n, false),
        }
    }
}
