// Rows 2 to 4 on the words that a column file spells, read from its bytes: the shape check of `tree`, for an output that has no room for the words.
ghost use Rattle.std.specs.Prelude.{◌≡◌};
ghost use Rattle.tree.specs.Check.{shape_of};
ghost use Rattle.column_files.specs.Files.{words_of};

use crate::file::line_at;
use column_lines::line::LINE_LENGTH;
use tree::check_records;
use tree::records::Records;
use words::node::Record;
use words::row::Refused;

// The records that the lines of a file spell.
#[derive(Clone, Copy)]
struct ColumnFile<'a>(&'a [u8]);

impl<'a> Records for ColumnFile<'a> {
    ghost words = { λ file. words_of file.0.now };

    // Each line is a record.
    #[tactic(auto, using(crate::proofs::Files::words_whole))]
    fn is_whole(self) -> bool {
        true
    }

    fn count(self) -> usize {
        self.0.len() / LINE_LENGTH
    }

    // A line that is bad spells zeros.
    fn read(self, at: usize) -> Record {
        line_at(self.0, at).unwrap_or(Record {
            kind: 0,
            span: 0,
            position: 0,
            value: 0,
        })
    }
}

// Rows 2 to 4 on the words that a file spells: the first refusal and its place, or that there is none.
pub fn check_file(file: &[u8]) -> Result<(), Refused>
    ensures { result ≡ shape_of (words_of file.now) }
{
    check_records(ColumnFile(file))
}
