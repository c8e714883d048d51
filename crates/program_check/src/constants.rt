// Area 2 as a whole: the first three constants, and how many are marked.
ghost use Rattle.std.specs.Prelude.{ℕ, ◌<◌, ◌≡◌, true, ◌&&◌, [], ◌∷◌, eqb};
ghost use Rattle.words.specs.Areas.{entry_field, constants_area};
ghost use Rattle.definition.specs.Within.{marked};
ghost use Rattle.definition.specs.ProgramCheck.{whole_known};
ghost use Rattle.program_check.specs.Parts.{alone, entries_fine};

use words::areas::{CONSTANT_WORDS, entry_word};
use words::object::{BOOLEAN, CONSTANT_KIND, CONSTANT_VALUE, NULL};
use words::reply::Totals;

// The word of a constant's entry that is its mark.
const MARK: usize = 2;

#[tactic(auto, using(crate::proofs::ConstantTests::constant_is))]
fn is_constant(constants: &[u64], i: usize, kind: u64, value: u64) -> bool
    ensures { result ≡ (eqb (entry_field 3 i 0 constants.now) kind && eqb (entry_field 3 i 1 constants.now) value) }
{
    let its_kind = entry_word(constants, CONSTANT_WORDS, i, CONSTANT_KIND);
    let its_value = entry_word(constants, CONSTANT_WORDS, i, CONSTANT_VALUE);
    (its_kind == kind) & (its_value == value)
}

// The marks up to a total, each 0 or 1.
#[tactic(auto, using(crate::proofs::ConstantTests::marked_turn, crate::proofs::ConstantTests::marked_done))]
fn count_marked(constants: &[u64], total: u64) -> u64
    requires { (i : ℕ) → i < total → entry_field 3 i 2 constants.now < 2 }
    ensures { result ≡ marked ([] ∷ [] ∷ constants.now ∷ []) total }
{
    let mut count: u64 = 0;
    for i in 0..total as usize {
        let mark = entry_word(constants, CONSTANT_WORDS, i, MARK);
        count += mark;
    }
    count
}

pub(crate) fn constants_whole(constants: &[u64], totals: Totals) -> bool
    requires { entries_fine (alone constants_area constants.now totals) constants_area ≡ true }
    ensures { result ≡ whole_known (alone constants_area constants.now totals) constants_area }
{
    let null = is_constant(constants, 0, NULL, 0);
    let yes = is_constant(constants, 1, BOOLEAN, 1);
    let no = is_constant(constants, 2, BOOLEAN, 0);
    let count = count_marked(constants, totals.constants);
    ((3 <= totals.constants) & null & yes & no) & (count == totals.global_dependencies)
}
