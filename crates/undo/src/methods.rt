// Area 6: the functions of the methods that stood before a bundle, noted in the upper bits of the methods' own words. A model and a function have 56 bits and a
// name has 20; the 56 bits of the note are 4 above the model, 8 above the function and 44 above the name.
ghost use Rattle.std.specs.Prelude.{◌≡◌, ◌*◌, ◌/◌, ◌≤◌, ◌&&◌, length, ltb};
ghost use Rattle.words.specs.Areas.{entry_field};
ghost use Rattle.building.specs.Found.{found_of};
ghost use Rattle.compiler_laws.specs.IncludeSteps.{is_pair, find_pair_c};
ghost use Rattle.undo.specs.Notes.{noted_methods, restored_methods, plain_methods, with_function_word};
ghost use Rattle.undo.specs.Turns.{method_anew, method_of, Done};

use crate::marks::{Step, entries_whole};
use words::areas;

// The words of a method's entry.
const MODEL: usize = 0;

const NAME: usize = 1;

const FUNCTION: usize = 2;

// The first number that does not fit: a model or a function, 2^56; a name, 2^20.
const NUMBERS: u64 = 72057594037927936;

const NAMES: u64 = 1048576;

// The parts of a note: the lowest 44 bits stand above the name, the 8 before them above the function, the others above the model. 2^44, 2^52 and 2^8.
const LOW_PART: u64 = 17592186044416;

const HIGH_PART: u64 = 4503599627370496;

const MIDDLES: u64 = 256;

// The words of a method.
#[derive(Clone, Copy)]
struct Method {
    model: u64,
    name: u64,
    function: u64,
}

// A method of number i after a step, where the first ones stood.
fn method_after(step: Step, stood: usize, i: usize, method: Method) -> Method
    ensures { result ≡ method_of (method_anew step stood i method.model method.name method.function) }
{
    let plain = Method {
        model: method.model % NUMBERS,
        name: method.name % NAMES,
        function: method.function % NUMBERS,
    };
    match step {
        Step::Note if i < stood => Method {
            model: plain.model + NUMBERS * (plain.function / HIGH_PART),
            name: plain.name + NAMES * (plain.function % LOW_PART),
            function: plain.function + NUMBERS * (plain.function / LOW_PART % MIDDLES),
        },
        Step::Restore if i < stood => Method {
            function: method.model / NUMBERS * HIGH_PART
                + method.function / NUMBERS * LOW_PART
                + method.name / NAMES,
            ..plain
        },
        Step::Settle if i < stood => plain,
        Step::Settle => Method {
            function: plain.function,
            ..method
        },
        Step::Note | Step::Restore => method,
    }
}

// The first methods after a step, up to the end. Not one loop with `marks::marks_anew`, which writes one word of an entry where this writes three.
fn methods_anew(methods: &mut [u64], stood: usize, end: usize, step: Step)
    requires { end * 3 ≤ length methods.old }
    ensures { Done (method_anew step stood) end methods.old methods.new }
{
    for i in 0..end {
        let at = i * areas::METHOD_WORDS;
        let before = Method {
            model: methods[at + MODEL],
            name: methods[at + NAME],
            function: methods[at + FUNCTION],
        };
        let method = method_after(step, stood, i, before);
        methods[at + MODEL] = method.model;
        methods[at + NAME] = method.name;
        methods[at + FUNCTION] = method.function;
    }
}

// The steps by name, since each promises a definition of its own (`noted_methods`, `restored_methods`, `plain_methods`). Notes the functions of the first
// methods.
#[tactic(auto, using(crate::proofs::LoopTurns::methods_noted))]
pub fn note_methods(methods: &mut [u64], count: usize)
    ensures { methods.new ≡ noted_methods count methods.old }
{
    let end = entries_whole(count, methods.len());
    methods_anew(methods, count, end, Step::Note);
}

// The first methods as a refusal leaves them: with the functions that were noted.
#[tactic(auto, using(crate::proofs::LoopTurns::methods_restored))]
pub fn restore_methods(methods: &mut [u64], count: usize)
    ensures { methods.new ≡ restored_methods count methods.old }
{
    let end = entries_whole(count, methods.len());
    methods_anew(methods, count, end, Step::Restore);
}

// The methods as a delivery leaves them: without notes.
#[tactic(auto, using(crate::proofs::LoopTurns::methods_settled, crate::proofs::PlainMethods::plain_methods_none))]
pub fn settle_methods(methods: &mut [u64], stood: usize)
    ensures { methods.new ≡ plain_methods stood methods.old }
{
    if stood == 0 {
        return;
    }
    let end = methods.len() / areas::METHOD_WORDS;
    methods_anew(methods, stood, end, Step::Settle);
}

// Whether method i is one of those that stood, and all its words are there.
fn is_noted(methods: &[u64], stood: usize, i: usize) -> bool
    ensures { result ≡ (ltb i stood && ltb i (length methods.now / 3)) }
{
    i < stood && i < methods.len() / areas::METHOD_WORDS
}

// The model of method i, whatever is noted. Not one function with `method_name` over a word's place and its limit: it would ask that the two agree.
#[tactic(auto, using(crate::proofs::MethodWords::model_plain, crate::proofs::MethodWords::model_noted))]
pub fn method_model(methods: &[u64], stood: usize, i: usize) -> u64
    ensures { result ≡ entry_field 3 i 0 (plain_methods stood methods.now) }
{
    let word = areas::entry_word(methods, areas::METHOD_WORDS, i, MODEL);
    if is_noted(methods, stood, i) {
        word % NUMBERS
    } else {
        word
    }
}

// The name of method i, whatever is noted.
#[tactic(auto, using(crate::proofs::MethodWords::name_plain, crate::proofs::MethodWords::name_noted))]
pub fn method_name(methods: &[u64], stood: usize, i: usize) -> u64
    ensures { result ≡ entry_field 3 i 1 (plain_methods stood methods.now) }
{
    let word = areas::entry_word(methods, areas::METHOD_WORDS, i, NAME);
    if is_noted(methods, stood, i) {
        word % NAMES
    } else {
        word
    }
}

// The function of method i, whatever is noted.
#[tactic(auto, using(crate::proofs::MethodWords::function_none, crate::proofs::MethodWords::function_some))]
pub fn method_function(methods: &[u64], stood: usize, i: usize) -> u64
    ensures { result ≡ entry_field 3 i 2 (plain_methods stood methods.now) }
{
    let word = areas::entry_word(methods, areas::METHOD_WORDS, i, FUNCTION);
    if stood == 0 {
        return word;
    }
    word % NUMBERS
}

// Whether method i is of a model and a name.
fn is_method(methods: &[u64], stood: usize, i: usize, model: u64, name: u64) -> bool
    ensures { result ≡ is_pair 3 model name (plain_methods stood methods.now) i }
{
    method_model(methods, stood, i) == model && method_name(methods, stood, i) == name
}

// The first method of a model and a name, up to the count.
#[tactic(auto, using(words::proofs::Firsts::first_steps))]
pub fn find_method(
    methods: &[u64],
    stood: usize,
    count: usize,
    model: u64,
    name: u64,
) -> Option<u64>
    ensures { result ≡ found_of (find_pair_c 3 0 count model name (plain_methods stood methods.now)) }
{
    for i in 0..count {
        if is_method(methods, stood, i, model, name) {
            return Some(i as u64);
        }
    }
    None
}

// Another function for method i: the note in its word stays.
pub fn set_function(methods: &mut [u64], stood: usize, i: usize, function: u64)
    ensures { methods.new ≡ with_function_word stood i function methods.old }
{
    if stood == 0 {
        areas::write_word(methods, areas::METHOD_WORDS, i, FUNCTION, function);
        return;
    }
    let old = areas::entry_word(methods, areas::METHOD_WORDS, i, FUNCTION);
    let word = old / NUMBERS * NUMBERS + function % NUMBERS;
    areas::write_word(methods, areas::METHOD_WORDS, i, FUNCTION, word);
}
