// The entries of an area up to its total, each by itself, and zeros behind them.
ghost use Rattle.std.specs.Prelude.{◌*◌, ◌≡◌, ◌&&◌, length, drop, leb, nat_eq};
ghost use Rattle.std.specs.List.{list_all};
ghost use Rattle.words.specs.Areas.{width_of, entries_in};
ghost use Rattle.definition.specs.ProgramCheck.{zeros};
ghost use Rattle.program_check.specs.HasEntries.{HasEntries};
ghost use Rattle.program_check.specs.Parts.{alone, entry_fine, entries_fine};

use crate::entries::{
    book_fine, constant_fine, context_local_fine, function_fine, method_fine, model_fine,
    property_fine, public_name_fine,
};
use crate::instructions::code_fine;
use words::areas::{
    CODE, CONSTANTS, CONTEXT_LOCALS, FUNCTIONS, METHODS, MODELS, PROPERTIES, PUBLIC_NAMES,
    entries_in, width_of,
};
use words::reply::Totals;

fn are_zeros(words: &[u64]) -> bool
    ensures { result ≡ list_all (λ word. nat_eq word 0) words.now }
{
    words.iter().all(|word| *word == 0)
}

// Behind the end there are no words. Not one chain with `skip`, of which the check does not find that it is `list_all` of the rest.
#[tactic(auto, using(crate::proofs::AreaTests::zeros_past))]
pub(crate) fn zeros_from(words: &[u64], from: usize) -> bool
    ensures { result ≡ zeros (drop from words.now) }
{
    let Some(rest) = words.get(from..) else {
        return true;
    };
    are_zeros(rest)
}

// Whether the entries up to a total lie in the area, and zeros follow.
#[tactic(auto, using(crate::proofs::AreaTests::fit_no, crate::proofs::AreaTests::fit_zeros, crate::proofs::AreaTests::fit_room))]
pub(crate) fn lies_in(area: u64, words: &[u64], total: u64) -> bool
    ensures { result ≡ (leb total (entries_in (width_of area) (length words.now)) && zeros (drop (total * width_of area) words.now)) }
{
    let entries = entries_in(area, words.len());
    let held = total as usize;
    if entries < held {
        return false;
    }
    let width = width_of(area);
    zeros_from(words, held * width)
}

// By the area's number, which a caller counts up to (`check_program`): of an `Area` the arms of scope names, breaks and errors would need a body here.
#[tactic(auto, using(crate::proofs::AreaTests::dispatch, crate::proofs::AreaTests::books_left))]
fn entry_fine(area: u64, words: &[u64], i: usize, totals: Totals) -> bool
    requires { HasEntries area }
    ensures { result ≡ entry_fine (alone area words.now totals) area i }
{
    match area {
        CODE => code_fine(words, i, totals),
        CONSTANTS => constant_fine(words, i, totals),
        FUNCTIONS => function_fine(words, i, totals),
        MODELS => model_fine(words, i, totals),
        PROPERTIES => property_fine(words, i, totals),
        METHODS => method_fine(words, i, totals),
        CONTEXT_LOCALS => context_local_fine(words, i, totals),
        PUBLIC_NAMES => public_name_fine(words, i, totals),
        _ => book_fine(words, i, totals),
    }
}

pub(crate) fn entries_fine(area: u64, words: &[u64], totals: Totals) -> bool
    requires { HasEntries area }
    ensures { result ≡ entries_fine (alone area words.now totals) area }
{
    let total = totals.total_of(area);
    if !lies_in(area, words, total) {
        return false;
    }
    for i in 0..total as usize {
        if !entry_fine(area, words, i, totals) {
            return false;
        }
    }
    true
}
