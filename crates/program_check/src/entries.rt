// An entry of an area by itself: its words against the totals, and what else 01 says of a word.
ghost use Rattle.std.specs.Prelude.{◌+◌, ◌≡◌, ◌||◌, ltb, leb};
ghost use Rattle.words.specs.Areas.{constants_area, functions_area, models_area, properties_area, methods_area, context_locals_area, public_names_area};
ghost use Rattle.words.specs.Areas.{books_area};
ghost use Rattle.definition.specs.Within.{where'};
ghost use Rattle.definition.specs.ProgramCheck.{is_text};
ghost use Rattle.program_check.specs.Parts.{alone, entry_fine};

use words::areas::{
    BOOK_WORDS, CONSTANT_WORDS, CONTEXT_LOCAL_WORDS, FUNCTION_WORDS, METHOD_WORDS, MODEL_WORDS,
    PROPERTY_WORDS, PUBLIC_NAME_WORDS, entry_word,
};
use words::object::{BOOLEAN, CONSTANT_KIND, CONSTANT_VALUE, FUNCTION, MODEL, NULL, TEXT};
use words::program::{FILE, INSTANCE, LENGTH, NAME, RESCUE, START};
use words::record::MOST_TEXT;
use words::reply::Totals;

// The words of an entry that `words` has no name for.
const GLOBAL_MARK: usize = 2;

const MODEL_FILE: usize = 0;

const MODEL_NAME: usize = 1;

const PROPERTY_MODEL: usize = 0;

const PROPERTY_NAME: usize = 1;

pub(crate) const METHOD_MODEL: usize = 0;

pub(crate) const METHOD_NAME: usize = 1;

const METHOD_FUNCTION: usize = 2;

const LOCAL_FILE: usize = 0;

const LOCAL_NAME: usize = 1;

const LOCAL_MARK: usize = 2;

const LOCAL_CONSTANT: usize = 3;

const PUBLIC_FILE: usize = 0;

const PUBLIC_NAME: usize = 1;

const PUBLIC_CONSTANT: usize = 2;

pub(crate) const BOOK_NUMBER: usize = 0;

// Where the first holds, the second too.
pub(crate) fn implies(a: bool, b: bool) -> bool
    ensures { result ≡ where' a b }
{
    if a {
        return b;
    }
    true
}

pub(crate) fn is_text(n: u64) -> bool
    ensures { result ≡ is_text n }
{
    (0 < n) & (n <= MOST_TEXT)
}

// Whether so many entries from a start on lie below a total; none do wherever they start. Nothing is added, so nothing wraps.
#[tactic(auto, using(crate::proofs::EntryTests::below_none, crate::proofs::EntryTests::below_start, crate::proofs::EntryTests::below_rest))]
fn lies_below(start: u64, length: u64, total: u64) -> bool
    ensures { result ≡ where' (ltb 0 length) (leb (start + length) total) }
{
    if length == 0 {
        return true;
    }
    if total < start {
        return false;
    }
    length <= total - start
}

#[tactic(auto, using(crate::proofs::EntryTests::constant_fine))]
pub(crate) fn constant_fine(constants: &[u64], i: usize, totals: Totals) -> bool
    ensures { result ≡ entry_fine (alone constants_area constants.now totals) constants_area i }
{
    let kind = entry_word(constants, CONSTANT_WORDS, i, CONSTANT_KIND);
    let value = entry_word(constants, CONSTANT_WORDS, i, CONSTANT_VALUE);
    let mark = entry_word(constants, CONSTANT_WORDS, i, GLOBAL_MARK);
    let model = implies(kind == MODEL, value < totals.models);
    let function = implies(kind == FUNCTION, value < totals.functions);
    let null = implies(kind == NULL, value == 0);
    let boolean = implies(kind == BOOLEAN, value < 2);
    let text = implies(kind == TEXT, is_text(value));
    (model & function & (mark < 2)) & ((kind <= FUNCTION) & null & boolean & text)
}

#[tactic(auto, using(crate::proofs::EntryTests::function_fine))]
pub(crate) fn function_fine(functions: &[u64], i: usize, totals: Totals) -> bool
    ensures { result ≡ entry_fine (alone functions_area functions.now totals) functions_area i }
{
    let rescue = entry_word(functions, FUNCTION_WORDS, i, RESCUE);
    let instance = entry_word(functions, FUNCTION_WORDS, i, INSTANCE);
    let start = entry_word(functions, FUNCTION_WORDS, i, START);
    let length = entry_word(functions, FUNCTION_WORDS, i, LENGTH);
    let file = entry_word(functions, FUNCTION_WORDS, i, FILE);
    let name = entry_word(functions, FUNCTION_WORDS, i, NAME);
    let inside = lies_below(start, length, totals.code);
    (inside & (rescue <= length) & (file < totals.books)) & ((instance < 2) & is_text(name))
}

// Models, properties, methods and public names are no rows of one table: which total bounds which word differs, and a row that said so would name the same
// words and totals in four places beside the loop that reads it.
#[tactic(auto, using(crate::proofs::EntryTests::model_fine))]
pub(crate) fn model_fine(models: &[u64], i: usize, totals: Totals) -> bool
    ensures { result ≡ entry_fine (alone models_area models.now totals) models_area i }
{
    let file = entry_word(models, MODEL_WORDS, i, MODEL_FILE);
    let name = entry_word(models, MODEL_WORDS, i, MODEL_NAME);
    (file < totals.books) & is_text(name)
}

#[tactic(auto, using(crate::proofs::EntryTests::property_fine))]
pub(crate) fn property_fine(properties: &[u64], i: usize, totals: Totals) -> bool
    ensures { result ≡ entry_fine (alone properties_area properties.now totals) properties_area i }
{
    let model = entry_word(properties, PROPERTY_WORDS, i, PROPERTY_MODEL);
    let name = entry_word(properties, PROPERTY_WORDS, i, PROPERTY_NAME);
    (model < totals.models) & is_text(name)
}

#[tactic(auto, using(crate::proofs::EntryTests::method_fine))]
pub(crate) fn method_fine(methods: &[u64], i: usize, totals: Totals) -> bool
    ensures { result ≡ entry_fine (alone methods_area methods.now totals) methods_area i }
{
    let model = entry_word(methods, METHOD_WORDS, i, METHOD_MODEL);
    let name = entry_word(methods, METHOD_WORDS, i, METHOD_NAME);
    let function = entry_word(methods, METHOD_WORDS, i, METHOD_FUNCTION);
    ((model < totals.models) & (function < totals.functions)) & is_text(name)
}

#[tactic(auto, using(crate::proofs::EntryTests::local_fine))]
pub(crate) fn context_local_fine(locals: &[u64], i: usize, totals: Totals) -> bool
    ensures { result ≡ entry_fine (alone context_locals_area locals.now totals) context_locals_area i }
{
    let file = entry_word(locals, CONTEXT_LOCAL_WORDS, i, LOCAL_FILE);
    let name = entry_word(locals, CONTEXT_LOCAL_WORDS, i, LOCAL_NAME);
    let mark = entry_word(locals, CONTEXT_LOCAL_WORDS, i, LOCAL_MARK);
    let constant = entry_word(locals, CONTEXT_LOCAL_WORDS, i, LOCAL_CONSTANT);
    let there = implies(mark == 1, constant < totals.constants);
    let none = implies(mark == 0, constant == 0);
    ((file < totals.books) & (mark < 2) & there) & (is_text(name) & none)
}

#[tactic(auto, using(crate::proofs::EntryTests::public_fine))]
pub(crate) fn public_name_fine(publics: &[u64], i: usize, totals: Totals) -> bool
    ensures { result ≡ entry_fine (alone public_names_area publics.now totals) public_names_area i }
{
    let file = entry_word(publics, PUBLIC_NAME_WORDS, i, PUBLIC_FILE);
    let name = entry_word(publics, PUBLIC_NAME_WORDS, i, PUBLIC_NAME);
    let constant = entry_word(publics, PUBLIC_NAME_WORDS, i, PUBLIC_CONSTANT);
    ((file < totals.books) & (constant < totals.constants)) & is_text(name)
}

pub(crate) fn book_fine(books: &[u64], i: usize, totals: Totals) -> bool
    ensures { result ≡ entry_fine (alone books_area books.now totals) books_area i }
{
    let number = entry_word(books, BOOK_WORDS, i, BOOK_NUMBER);
    is_text(number)
}
