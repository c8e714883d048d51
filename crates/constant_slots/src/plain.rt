// The plain search of the pool: the first of the constants in use that is the same.
ghost use Rattle.std.specs.Prelude.{◌≡◌};
ghost use Rattle.words.specs.Object.{constant_of};
ghost use Rattle.constant_slots.specs.Plain as plain;
ghost use Rattle.constant_slots.specs.Plain.{is_constant, find_plain, found_of};

use words::areas;
use words::areas::CONSTANT_WORDS;
use words::object::{CONSTANT_KIND, CONSTANT_VALUE};
use words::search::find_word;

// A constant as the pool keeps it. Floats are the same where all 64 bits of their values are.
#[derive(Clone, Copy, PartialEq, Eq)]
pub struct ConstantWords {
    pub kind: u64,
    pub value: u64,
}

// Constant i of the pool; a word outside the area reads as 0.
pub(crate) fn constant_at(constants: &[u64], i: usize) -> ConstantWords
    ensures { constant_of result.kind result.value ≡ plain.constant_at constants.now i }
{
    ConstantWords {
        kind: areas::entry_word(constants, CONSTANT_WORDS, i, CONSTANT_KIND),
        value: areas::entry_word(constants, CONSTANT_WORDS, i, CONSTANT_VALUE),
    }
}

// Whether constant i is the one that is looked for.
pub(crate) fn same_constant(constants: &[u64], i: usize, wanted: ConstantWords) -> bool
    ensures { result ≡ is_constant (constant_of wanted.kind wanted.value) constants.now i }
{
    constant_at(constants, i) == wanted
}

// The first of the constants in use that is the same. Values differ more often than kinds, so the search is by the values.
pub fn find(constants: &[u64], count: usize, wanted: ConstantWords) -> Option<u64>
    ensures { result ≡ found_of (find_plain count (constant_of wanted.kind wanted.value) constants.now) }
{
    // No `for`: the search begins again behind a value of another kind.
    let mut from = 0;
    while let Some(there) = find_word::<CONSTANT_WORDS, CONSTANT_VALUE>(
        constants,
        from,
        count,
        wanted.value,
    ) {
        if areas::entry_word(constants, CONSTANT_WORDS, there, CONSTANT_KIND) == wanted.kind {
            return Some(there as u64);
        }
        from = there + 1;
    }
    None
}
