// The twelve areas of 01, 'Replies of the compiler': their numbers and widths, readers and writers of an entry. docs/FORMAT.md has the words.
ghost use Rattle.std.specs.Prelude.{◌≡◌, length, take};
ghost use Rattle.words.specs.Numbers.{ReadAs};
ghost use Rattle.words.specs.Areas.{number_of_area, width_of, entries_in, entry_field, word_place, cleared_from, Written, Patched};

use crate::UnknownNumber;

// The areas; each number is the place that row 9 gives.
#[derive(Clone, Copy, PartialEq, Eq)]
pub enum Area {
    Code = 1,
    Constants = 2,
    Functions = 3,
    Models = 4,
    Properties = 5,
    Methods = 6,
    ContextLocals = 7,
    PublicNames = 8,
    ScopeNames = 9,
    Breaks = 10,
    Errors = 11,
    Books = 12,
}

impl Area {
    pub fn number(self) -> u64
        ensures { result ≡ number_of_area self }
    {
        self as u64
    }

    // Words of an entry.
    pub fn width(self) -> usize
        ensures { result ≡ width_of (number_of_area self) }
    {
        match self {
            Area::Code => CODE_WORDS,
            Area::Constants => CONSTANT_WORDS,
            Area::Functions => FUNCTION_WORDS,
            Area::Models => MODEL_WORDS,
            Area::Properties => PROPERTY_WORDS,
            Area::Methods => METHOD_WORDS,
            Area::ContextLocals => CONTEXT_LOCAL_WORDS,
            Area::PublicNames => PUBLIC_NAME_WORDS,
            Area::ScopeNames => SCOPE_NAME_WORDS,
            Area::Breaks => BREAK_WORDS,
            Area::Errors => ERROR_WORDS,
            Area::Books => BOOK_WORDS,
        }
    }
}

impl TryFrom<u64> for Area {
    type Error = UnknownNumber;

    ghost try_from_gives = { ReadAs number_of_area };

    fn try_from(number: u64) -> Result<Self, UnknownNumber> {
        match number {
            CODE => Ok(Area::Code),
            CONSTANTS => Ok(Area::Constants),
            FUNCTIONS => Ok(Area::Functions),
            MODELS => Ok(Area::Models),
            PROPERTIES => Ok(Area::Properties),
            METHODS => Ok(Area::Methods),
            CONTEXT_LOCALS => Ok(Area::ContextLocals),
            PUBLIC_NAMES => Ok(Area::PublicNames),
            SCOPE_NAMES => Ok(Area::ScopeNames),
            BREAKS => Ok(Area::Breaks),
            ERRORS => Ok(Area::Errors),
            BOOKS => Ok(Area::Books),
            _ => Err(UnknownNumber(number)),
        }
    }
}

// The same as numbers, for the clauses and the code that take any number as an area's.
pub const CODE: u64 = Area::Code as u64;

pub const CONSTANTS: u64 = Area::Constants as u64;

pub const FUNCTIONS: u64 = Area::Functions as u64;

pub const MODELS: u64 = Area::Models as u64;

pub const PROPERTIES: u64 = Area::Properties as u64;

pub const METHODS: u64 = Area::Methods as u64;

pub const CONTEXT_LOCALS: u64 = Area::ContextLocals as u64;

pub const PUBLIC_NAMES: u64 = Area::PublicNames as u64;

pub const SCOPE_NAMES: u64 = Area::ScopeNames as u64;

pub const BREAKS: u64 = Area::Breaks as u64;

pub const ERRORS: u64 = Area::Errors as u64;

pub const BOOKS: u64 = Area::Books as u64;

// Words of an entry.
pub const CODE_WORDS: usize = 2;

pub const CONSTANT_WORDS: usize = 3;

pub const FUNCTION_WORDS: usize = 8;

pub const MODEL_WORDS: usize = 2;

pub const PROPERTY_WORDS: usize = 2;

pub const METHOD_WORDS: usize = 3;

pub const CONTEXT_LOCAL_WORDS: usize = 4;

pub const PUBLIC_NAME_WORDS: usize = 3;

pub const SCOPE_NAME_WORDS: usize = 2;

pub const BREAK_WORDS: usize = 1;

pub const ERROR_WORDS: usize = 4;

pub const BOOK_WORDS: usize = 1;

// No entry has more words.
pub const MOST_WIDTH: usize = 8;

// An area that is longer counts as this long, so that every number fits its operand: 2^56 - 1.
pub const MOST_ENTRIES: usize = 72057594037927935;

// Words of an entry of an area, by its number; 0 for a number that no area has.
pub fn width_of(area: u64) -> usize
    ensures { result ≡ width_of area }
{
    match Area::try_from(area) {
        Ok(area) => area.width(),
        Err(UnknownNumber(_)) => 0,
    }
}

// The entries that an area of so many words has; none where no area has the number.
pub fn entries_in(area: u64, words: usize) -> usize
    ensures { result ≡ entries_in (width_of area) words }
{
    words
        .checked_div(width_of(area))
        .unwrap_or(0)
        .min(MOST_ENTRIES)
}

// Where word k of entry i lies; none outside.
fn place_of(area: &[u64], width: usize, i: usize, k: usize) -> Option<usize>
    ensures { result ≡ word_place width i k (length area.now) }
{
    if width <= MOST_WIDTH && k < width && i < area.len() && i * width + k < area.len() {
        return Some(i * width + k);
    }
    None
}

// Word k of entry i; 0 outside. The width is no const parameter, since some callers have it from an argument of their own (`program_check`, its keys).
#[tactic(auto, unfolding(crate::specs::Areas::entry_field))]
pub fn entry_word(area: &[u64], width: usize, i: usize, k: usize) -> u64
    ensures { result ≡ entry_field width i k area.now }
{
    match place_of(area, width, i, k) {
        Some(at) => area[at],
        None => 0,
    }
}

// Writes word k of entry i; false, and nothing is written, outside.
pub fn write_word(area: &mut [u64], width: usize, i: usize, k: usize, value: u64) -> bool
    ensures { Patched width i k value area.old area.new result }
{
    let Some(at) = place_of(area, width, i, k) else {
        return false
    };
    area[at] = value;
    true
}

// Writes entry i, of N words; false, and nothing is written, where it does not fit.
pub fn write_entry<const N: usize>(area: &mut [u64], i: usize, words: [u64; N]) -> bool
    ensures { Written N i words.entry area.old area.new result }
{
    if 0 < N && N <= MOST_WIDTH && i < area.len() && i * N + N <= area.len() {
        let at = i * N;
        area[at..at + N].copy_from_slice(&words);
        return true;
    }
    false
}

// The same of a width that is known when it runs, by the first words. It stands beside `write_entry` since it has promised this of every width.
pub fn write_first_words(area: &mut [u64], width: usize, i: usize, words: [u64; 8]) -> bool
    ensures { Written width i (take width words) area.old area.new result }
{
    if 0 < width && width <= MOST_WIDTH && i < area.len() && i * width + width <= area.len() {
        let at = i * width;
        area[at..at + width].copy_from_slice(&words[..width]);
        return true;
    }
    false
}

// Zeros from a word on.
pub fn clear_from(area: &mut [u64], from: usize)
    ensures { area.new ≡ cleared_from from area.old }
{
    let from = from.min(area.len());
    area[from..].fill(0);
}
