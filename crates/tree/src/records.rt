// Records of 01, 'The tree', however they are stored: as words here, as the lines of a column file in `column_files`.
ghost use Rattle.std.specs.Prelude.{ℕ, ◌≡◌, ◌%◌, ◌<◌, ◌==◌, List, length};
ghost use Rattle.tree.specs.Check.{records_of};
ghost use Rattle.words.specs.Node.{record_at};

use words::node::Record;
use words::record::{POSITION, RECORD_WORDS, SPAN, VALUE};

pub trait Records: Copy {
    // The words that the records are, four each.
    ghost words: { Self → List ℕ };

    // Whether the words are whole records.
    fn is_whole(self) -> bool
        ensures { result ≡ (length (words self) % 4 == 0) };

    // How many whole records there are.
    fn count(self) -> usize
        ensures { result ≡ records_of (words self) };

    // The record at a place.
    fn read(self, at: usize) -> Record
        requires { at < records_of (words self) }
        ensures { result ≡ record_at (words self) at };
}

// Records as words.
#[derive(Clone, Copy)]
pub struct Words<'a>(pub &'a [u64]);

impl<'a> Records for Words<'a> {
    ghost words = { λ w. w.0.now };

    fn is_whole(self) -> bool {
        self.0.len() % RECORD_WORDS == 0
    }

    fn count(self) -> usize {
        self.0.len() / RECORD_WORDS
    }

    fn read(self, at: usize) -> Record {
        let i = at * RECORD_WORDS;
        Record {
            kind: self.0[i],
            span: self.0[i + SPAN],
            position: self.0[i + POSITION],
            value: self.0[i + VALUE],
        }
    }
}
