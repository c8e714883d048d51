// Laying on over one memory (2026-01): a program that stands is made ready for a bundle, and given back where the bundle is refused. Private: their promise is
// relational. Part i has the words from starts[i] up to starts[i + 1].
ghost use Rattle.std.specs.Prelude.{◌≡◌, ◌*◌};
ghost use Rattle.words.specs.Areas.{constants_area, methods_area, errors_area, width_of, cleared_from};
ghost use Rattle.undo.specs.Notes.{noted_marks, noted_methods};
ghost use Rattle.book_compiler.specs.BookOrder.{LentPart, LentButErrors};
ghost use Rattle.book_compiler.specs.Onto.{MakesReady, GivesBack};
ghost use Rattle.book_compiler.specs.OntoParts.{given_back};

use crate::ending::PART_COUNT;
use crate::lent::lend;
use crate::{lent, slots};
use words::areas;
use words::reply::Totals;

// No errors.
pub(crate) fn clear_errors(starts: &[usize; 15], memory: &mut [u64])
    ensures { LentPart errors_area (λ e e'. e' ≡ cleared_from 0 e) starts.now memory.old memory.new }
{
    lend(starts, memory, areas::ERRORS, |errors| {
        areas::clear_from(errors, 0)
    });
}

// The marks of the constants that stand are noted.
fn note_constants(count: usize, starts: &[usize; 15], memory: &mut [u64])
    ensures { LentPart constants_area (λ k k'. k' ≡ noted_marks count k) starts.now memory.old memory.new }
{
    lend(starts, memory, areas::CONSTANTS, |constants| {
        undo::marks::note_marks(constants, count)
    });
}

// The functions of the methods that stand are noted.
fn note_methods(count: usize, starts: &[usize; 15], memory: &mut [u64])
    ensures { LentPart methods_area (λ t t'. t' ≡ noted_methods count t) starts.now memory.old memory.new }
{
    lend(starts, memory, areas::METHODS, |methods| {
        undo::methods::note_methods(methods, count)
    });
}

// A program that stands, of these totals, is ready for a bundle: no errors, the marks and the methods noted, the slots filled with its constants.
pub(crate) fn make_ready(standing: Totals, starts: &[usize; 15], memory: &mut [u64])
    ensures { MakesReady standing starts.now memory.old memory.new }
{
    let constants = standing.constants as usize;
    let methods = standing.methods as usize;
    clear_errors(starts, memory);
    note_constants(constants, starts, memory);
    note_methods(methods, starts, memory);
    slots::fill_slots(starts, memory, constants);
}

// Zeros behind the first entries of an area.
fn clear_entries(area: u64, count: usize, words: &mut [u64])
    ensures { words.new ≡ cleared_from (count * width_of area) words.old }
{
    let width = areas::width_of(area);
    if width == 0 {
        areas::clear_from(words, 0);
    } else if count <= words.len() / width {
        areas::clear_from(words, count * width);
    }
}

// The words of area i as they were, where so many entries stood.
fn give_back_words(i: u64, count: usize, words: &mut [u64])
    ensures { words.new ≡ given_back i count words.old }
{
    clear_entries(i, count, words);
    match i {
        areas::CONSTANTS => undo::marks::restore_marks(words, count),
        areas::METHODS => undo::methods::restore_methods(words, count),
        _ => (),
    }
}

// Part i; the errors of rows 7 and 8 stay.
fn give_back_part(i: u64, count: usize, starts: &[usize; 15], memory: &mut [u64])
    ensures { LentButErrors i (λ l l'. l' ≡ given_back i count l) starts.now memory.old memory.new }
{
    if i != areas::ERRORS && i < PART_COUNT {
        lend(starts, memory, i, |words| {
            give_back_words(i, count, words)
        });
    }
}

// A program of these totals as it stood before a bundle: zeros behind it, its marks and methods as they were, no slots. The errors in area 11 stay.
pub(crate) fn give_back(standing: Totals, starts: &[usize; 15], memory: &mut [u64])
    ensures { GivesBack standing starts.now memory.old memory.new }
{
    for i in 1..lent::SLOTS {
        let total = standing.total_of(i);
        give_back_part(i, total as usize, starts, memory);
    }
    slots::clear_slots(starts, memory);
}
