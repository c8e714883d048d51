// Which errors 01 knows: number, position and token, each by itself.
ghost use Rattle.std.specs.Prelude.{◌≡◌};
ghost use Rattle.error_lines.specs.Known.{is_kind, known_token, holds_text, known_ring, known_other, known};
ghost use Rattle.error_lines.specs.Listed.{listed};
ghost use Rattle.error_lines.specs.Words.{first_unknown};
ghost use Rattle.error_lines.specs.Lines.{error_at, is_zeros, errors_in, file_of, shown_value};

use tree::{in_range, may_stand};
use words::areas::{ERROR_WORDS, entry_word};
use words::record::{MOST_TEXT, in_place};
use words::reply::ERROR_RING;

// The words of an error's entry.
const NUMBER: usize = 0;

const POSITION: usize = 1;

const KIND: usize = 2;

const VALUE: usize = 3;

// The places among the children of a record that the tree rules have.
const SLOTS: usize = 24;

// An error: its number, and its token's position, kind and value.
#[derive(Clone, Copy, Default, PartialEq, Eq)]
pub struct ListedError {
    pub number: u64,
    pub position: u64,
    pub kind: u64,
    pub value: u64,
}

// A record's kind: one that may stand at some place.
fn is_kind(kind: u64) -> bool
    ensures { result ≡ is_kind kind }
{
    (0..SLOTS).any(|slot| may_stand(slot, kind))
}

// Texts are numbered from 1; the value of any other kind may be 0.
#[tactic(auto, unfolding(crate::specs::Known::holds_text))]
pub fn holds_text(kind: u64) -> bool
    ensures { result ≡ holds_text kind }
{
    !in_range(kind, 0, 0)
}

#[tactic(auto, unfolding(crate::specs::Known::known_token))]
fn known_token(kind: u64, value: u64) -> bool
    ensures { result ≡ known_token kind value }
{
    is_kind(kind) && in_range(kind, 0, value)
}

impl ListedError {
    // Entry i of area 11.
    #[tactic(auto, unfolding(words::specs::Areas::entry_field))]
    pub fn at(errors: &[u64], i: usize) -> ListedError
        ensures { listed result ≡ error_at errors.now i }
    {
        ListedError {
            number: entry_word(errors, ERROR_WORDS, i, NUMBER),
            position: entry_word(errors, ERROR_WORDS, i, POSITION),
            kind: entry_word(errors, ERROR_WORDS, i, KIND),
            value: entry_word(errors, ERROR_WORDS, i, VALUE),
        }
    }

    // The entry that ends the list.
    pub fn is_zeros(self) -> bool
        ensures { result ≡ is_zeros (listed self) }
    {
        self == ListedError::default()
    }

    // Error 11 has zeros and a text.
    fn known_ring(self) -> bool
        ensures { result ≡ known_ring (listed self) }
    {
        self.position == 0 && self.kind == 0 && (1..=MOST_TEXT).contains(&self.value)
    }

    // Errors 1 to 10.
    fn known_other(self) -> bool
        ensures { result ≡ known_other (listed self) }
    {
        (1..ERROR_RING).contains(&self.number)
            && in_place(self.position)
            && known_token(self.kind, self.value)
    }

    #[tactic(auto, unfolding(crate::specs::Known::known))]
    pub fn is_known(self) -> bool
        ensures { result ≡ known (listed self) }
    {
        if self.number == ERROR_RING {
            self.known_ring()
        } else {
            self.known_other()
        }
    }

    // The caller's file, for error 11 its own.
    pub fn file(self, file: u64) -> u64
        ensures { result ≡ file_of file (listed self) }
    {
        if self.number == ERROR_RING {
            self.value
        } else {
            file
        }
    }

    // A token's value; 0 for error 11.
    pub fn shown_value(self) -> u64
        ensures { result ≡ shown_value (listed self) }
    {
        if self.number == ERROR_RING {
            0
        } else {
            self.value
        }
    }
}

// The index of the first error of the list that 01 does not know.
pub fn first_unknown(errors: &[u64]) -> Option<usize>
    ensures { result ≡ first_unknown 0 (errors_in errors.now) }
{
    for i in 0..errors.len() / ERROR_WORDS {
        let error = ListedError::at(errors, i);
        if error.is_zeros() {
            return None;
        }
        if !error.is_known() {
            return Some(i);
        }
    }
    None
}
