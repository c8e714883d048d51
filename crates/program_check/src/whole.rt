// Areas as a whole: the entries, and what is asked of them together.
ghost use Rattle.std.specs.Prelude.{◌*◌, ◌<◌, ◌≡◌, ◌&&◌, length, drop, leb, eqb};
ghost use Rattle.words.specs.Areas.{width_of, entries_in, code_area, constants_area, functions_area};
ghost use Rattle.words.specs.Reply.{total_of};
ghost use Rattle.memory.specs.Layout.{part};
ghost use Rattle.definition.specs.ProgramCheck.{area_fine, zeros};
ghost use Rattle.program_check.specs.HasEntries.{HasEntries, IsChecked};
ghost use Rattle.program_check.specs.Keys.{keys_by};
ghost use Rattle.program_check.specs.OneMemory.{parts_of};
ghost use Rattle.program_check.specs.Parts.{lent, alone, entries_fine};
ghost use Rattle.program_check.specs.Functions.{code_and};

use crate::areas::{entries_fine, lies_in};
use crate::constants::constants_whole;
use crate::entries::{BOOK_NUMBER, METHOD_MODEL, METHOD_NAME};
use crate::functions::functions_keep;
use crate::keys::Keys;
use words::areas::{
    BOOK_WORDS, BOOKS, BREAKS, CODE, CONSTANTS, FUNCTIONS, METHOD_WORDS, METHODS, PUBLIC_NAMES,
    SCOPE_NAMES,
};
use words::reply::Totals;

// About so many entries have their keys looked at in one pass.
const SHARE: u64 = 8192;

fn code_area(code: &[u64], functions: &[u64], totals: Totals) -> bool
    ensures { result ≡ area_fine (code_and code.now functions.now totals) code_area }
{
    entries_fine(CODE, code, totals) && functions_keep(code, functions, totals)
}

fn constants_area(constants: &[u64], totals: Totals) -> bool
    ensures { result ≡ area_fine (alone constants_area constants.now totals) constants_area }
{
    entries_fine(CONSTANTS, constants, totals) && constants_whole(constants, totals)
}

// The entry point counts with area 3: a function's number, or 0 where there is no function.
fn functions_area(functions: &[u64], totals: Totals) -> bool
    ensures { result ≡ area_fine (alone functions_area functions.now totals) functions_area }
{
    let entered = (totals.entry_point < totals.functions)
        | ((totals.entry_point == 0) & (totals.functions == 0));
    entries_fine(FUNCTIONS, functions, totals) && entered
}

// An area of which no two entries have the same key.
fn keyed_area(area: u64, keys: &Keys, totals: Totals, shares: u64) -> bool
    requires has_entries { HasEntries area }
    requires shares_nonzero { 0 < shares }
    ensures { result ≡ (entries_fine (alone area keys.now.words.now totals) area
        && keys_by keys.now.width keys.now.group keys.now.name keys.now.words.now (total_of totals area)) }
{
    entries_fine(area, keys.words, totals) && keys.differ(totals.total_of(area), shares)
}

// Areas 9 and 10 have no entries.
fn empty_area(area: u64, words: &[u64], total: u64) -> bool
    ensures { result ≡ (leb total (entries_in (width_of area) (length words.now)) && zeros (drop (total * width_of area) words.now)
        && eqb total 0) }
{
    let zero = lies_in(area, words, total);
    zero & (total == 0)
}

// The words of an area by its number: those of the memory from its start on up to the next one's, as far as there are any.
#[tactic(auto, using(crate::proofs::OneMemory::part_none, crate::proofs::OneMemory::part_cut))]
fn part_of<'a>(memory: &'a [u64], starts: &[usize; 15], area: u64) -> &'a [u64]
    requires { area < 14 }
    ensures { result.now ≡ part starts.now area memory.now }
{
    let start = starts[area as usize];
    let end = starts[area as usize + 1].min(memory.len());
    if start < end {
        &memory[start..end]
    } else {
        &memory[0..0]
    }
}

// Whether an area of a program passes. Methods are one per model and name, public names one per file and name, which stand at the same places.
// No book's number stands twice: a book has no word 1, which reads as 0, and numbers are texts, so no two have one place.
pub(crate) fn area_passes(memory: &[u64], starts: &[usize; 15], area: u64, totals: Totals) -> bool
    requires { IsChecked area }
    ensures { result ≡ area_fine (lent (parts_of starts.now memory.now) totals) area }
{
    let words = part_of(memory, starts, area);
    match area {
        CODE => code_area(words, part_of(memory, starts, FUNCTIONS), totals),
        CONSTANTS => constants_area(words, totals),
        FUNCTIONS => functions_area(words, totals),
        METHODS | PUBLIC_NAMES => {
            let keys = Keys {
                words,
                width: METHOD_WORDS,
                group: METHOD_MODEL,
                name: METHOD_NAME,
            };
            keyed_area(area, &keys, totals, totals.total_of(area) / SHARE + 1)
        }
        BOOKS => {
            let keys = Keys {
                words,
                width: BOOK_WORDS,
                group: 1,
                name: BOOK_NUMBER,
            };
            keyed_area(BOOKS, &keys, totals, 1)
        }
        SCOPE_NAMES => empty_area(SCOPE_NAMES, words, totals.scope_names),
        BREAKS => empty_area(BREAKS, words, totals.breaks),
        _ => entries_fine(area, words, totals),
    }
}
