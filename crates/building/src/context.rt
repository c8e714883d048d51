// `backend/compiler.rs`: context locals, and the functions' records.
ghost use Rattle.std.specs.Prelude.{◌≡◌};
ghost use Rattle.words.specs.Areas.{functions_area};
ghost use Rattle.building.specs.Found.{found_of, find_context_local_c};
ghost use Rattle.building.specs.Taking.{Took, taken};
ghost use Rattle.building.specs.Context.{localing, define_context_c, set_value_c, function_state_words};

use crate::function_state::FunctionState;
use crate::taking;
use words::areas;
use words::areas::CONTEXT_LOCAL_WORDS;
use words::search::find_word;

// The words of a context local's entry.
const NAME: usize = 1;

const VALUE_MARK: usize = 2;

const CONSTANT: usize = 3;

// The first of this book's context locals, from `start` on, with a name: `locals.get`.
pub fn find_context_local(locals: &[u64], start: usize, count: usize, name: u64) -> Option<u64>
    ensures { result ≡ found_of (find_context_local_c start count name locals.now) }
{
    let there = find_word::<CONTEXT_LOCAL_WORDS, NAME>(locals, start, count, name)?;
    Some(there as u64)
}

// `define_local` of `CompilerState`: the local, if it is new; a name that is there keeps its local. None with the mark set.
#[tactic(auto, unfolding(crate::specs::Context::define_context_c))]
pub fn define_context_local(
    locals: &mut [u64],
    full: &mut u64,
    start: usize,
    count: &mut usize,
    file: u64,
    name: u64,
) -> Option<u64>
    ensures { localing result (taken full.new count.new) locals.new ≡ define_context_c full.old start count.old file name locals.old }
{
    let local = *count;
    if *full != 0 || find_context_local(locals, start, local, name).is_some() {
        return None;
    }
    taking::take(
        locals,
        areas::CONTEXT_LOCALS,
        full,
        count,
        [file, name, 0, 0],
    );
    Some(local as u64)
}

// `local_values.insert`: the value of a context local in use.
#[tactic(auto, unfolding(crate::specs::Context::set_value_c))]
pub fn set_value(locals: &mut [u64], full: u64, count: usize, index: u64, constant: u64)
    ensures { locals.new ≡ set_value_c full count index constant locals.old }
{
    let i = index as usize;
    if full == 0 && i < count {
        areas::write_word(locals, CONTEXT_LOCAL_WORDS, i, VALUE_MARK, 1);
        areas::write_word(locals, CONTEXT_LOCAL_WORDS, i, CONSTANT, constant);
    }
}

// `add_function`: the function's entry in area 3.
pub fn add_function(
    functions: &mut [u64],
    full: &mut u64,
    count: &mut usize,
    state: &FunctionState,
    file: u64,
    name: u64,
)
    ensures { Took functions_area full.old count.old (function_state_words state.now file name) functions.old
        (taken full.new count.new) functions.new }
{
    let words = [
        state.parameter_count as u64,
        state.local_count,
        state.rescue_position as u64,
        u64::from(state.is_instance),
        state.base as u64,
        state.get_next_instruction_index() as u64,
        file,
        name,
    ];
    taking::take(functions, areas::FUNCTIONS, full, count, words);
}
