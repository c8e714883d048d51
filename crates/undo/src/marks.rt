// Area 2: the marks of the constants that stood before a bundle. A mark is 0 or 1; one that stood is noted as 2, which no bundle sets.
ghost use Rattle.std.specs.Prelude.{◌≡◌, ◌/◌, min};
ghost use Rattle.undo.specs.Notes.{noted_marks, settled_marks, restored_marks, entries_anew};
ghost use Rattle.undo.specs.Turns.{mark_after, mark_anew};

use words::areas;

// The word of a constant's entry that is its mark.
const MARK: usize = 2;

// A mark that is set, and one that stood: words of the area, beside 0 and any other word that it may hold, and so numbers and no cases of an enum.
const MARKED: u64 = 1;

const STOOD: u64 = 2;

// The steps: at the start of a bundle, at a refusal, at a delivery.
#[derive(Clone, Copy, PartialEq, Eq)]
pub(crate) enum Step {
    Note,
    Restore,
    Settle,
}

// How many of the first entries there are whole, in an area of three words to an entry.
pub(crate) fn entries_whole(count: usize, words: usize) -> usize
    ensures { result ≡ min count (words / 3) }
{
    count.min(words / areas::CONSTANT_WORDS)
}

// A mark after a step.
fn mark_after(step: Step, mark: u64) -> u64
    ensures { result ≡ mark_after step mark }
{
    match step {
        Step::Note if mark == MARKED => STOOD,
        Step::Note => mark,
        Step::Restore if mark == STOOD => MARKED,
        Step::Restore => 0,
        Step::Settle => mark.min(MARKED),
    }
}

// The marks of the first constants after a step.
#[tactic(auto, using(crate::proofs::LoopTurns::marks_end))]
fn marks_anew(constants: &mut [u64], count: usize, step: Step)
    ensures { constants.new ≡ entries_anew (mark_anew step count) 0 constants.old }
{
    for i in 0..entries_whole(count, constants.len()) {
        let at = i * areas::CONSTANT_WORDS + MARK;
        constants[at] = mark_after(step, constants[at]);
    }
}

// The three steps by name, since each promises a definition of its own (`noted_marks`, `settled_marks`, `restored_marks`). Notes the marks of the first
// constants.
pub fn note_marks(constants: &mut [u64], count: usize)
    ensures { constants.new ≡ noted_marks count constants.old }
{
    marks_anew(constants, count, Step::Note);
}

// The first constants as a delivery leaves them: every mark is 1, whether it stood or not.
pub fn settle_marks(constants: &mut [u64], count: usize)
    ensures { constants.new ≡ settled_marks count constants.old }
{
    marks_anew(constants, count, Step::Settle);
}

// The first constants as a refusal leaves them: the marks that stood, and no other.
pub fn restore_marks(constants: &mut [u64], count: usize)
    ensures { constants.new ≡ restored_marks count constants.old }
{
    marks_anew(constants, count, Step::Restore);
}
