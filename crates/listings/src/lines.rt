// The lines of 01's listing: what each entry of an area says.
ghost use Rattle.std.specs.Prelude.{◌≡◌};
ghost use Rattle.words.specs.Codes.{opcode_of};
ghost use Rattle.words.specs.Opcode.{unword};
ghost use Rattle.line_writer.specs.Placed.{placed};
ghost use Rattle.listings.specs.Cases.{case_line};
ghost use Rattle.listings.specs.Lines.{lines_at};
ghost use Rattle.listings.specs.Sections.{number_of, line, function_line, instruction_line, constant_line, model_line, property_index, property_line};
ghost use Rattle.listings.specs.Sections.{method_line};
ghost use Rattle.listings.specs.Sections.{context_value_line, file_line, error_line, entry_line, is_listed, entry_lines};

use line_writer::place::Place;
use line_writer::writer::{Fields, write_line};
use words::areas::{
    BOOK_WORDS, CODE_WORDS, CONSTANT_WORDS, CONTEXT_LOCAL_WORDS, ERROR_WORDS, METHOD_WORDS,
    MODEL_WORDS, PROPERTY_WORDS, entry_word,
};
use words::object::{CONSTANT_KIND, CONSTANT_VALUE, Constant, constant_at};
use words::opcode::{OPCODE_UNIT, OpCode};
use words::program::{function_record, instruction_at, position_at};
use words::record::{column_of, line_of};
use words::{program, record};

// The words of an entry that `words` has no name for.
const GLOBAL_MARK: usize = 2;

const MODEL_FILE: usize = 0;

const MODEL_NAME: usize = 1;

const PROPERTY_MODEL: usize = 0;

const PROPERTY_NAME: usize = 1;

pub(crate) const METHOD_MODEL: usize = 0;

pub(crate) const METHOD_NAME: usize = 1;

const METHOD_FUNCTION: usize = 2;

const LOCAL_MARK: usize = 2;

const LOCAL_CONSTANT: usize = 3;

const BOOK_NUMBER: usize = 0;

pub(crate) const ERROR_NUMBER: usize = 0;

const ERROR_POSITION: usize = 1;

const ERROR_KIND: usize = 2;

const ERROR_VALUE: usize = 3;

// The numbers of 01's sections. The first two list no area: `entry_line` and `is_listed` of `Sections.antt` have no case for them.
pub const REFUSAL: u64 = 0;

pub const TOTALS: u64 = 1;

pub const FUNCTION: u64 = 2;

pub const INSTRUCTION: u64 = 3;

pub const CONSTANT: u64 = 4;

pub const MODEL: u64 = 5;

pub const PROPERTY: u64 = 6;

pub const METHOD: u64 = 7;

pub const CONTEXT_VALUE: u64 = 8;

pub const GLOBAL: u64 = 9;

pub const FILE: u64 = 10;

pub const ERROR: u64 = 11;

// The sections that list the entries of one area; of instructions, those of one function. No closure stands for one, since the promise of `write_section`
// names the section.
#[derive(Clone, Copy)]
pub enum Section {
    Functions,
    Instructions(u64),
    Constants,
    Models,
    Properties,
    Methods,
    ContextValues,
    Globals,
    Files,
    Errors,
}

impl Section {
    // The number of 01.
    pub fn number(self) -> u64
        ensures { result ≡ number_of self }
    {
        match self {
            Section::Functions => FUNCTION,
            Section::Instructions(_) => INSTRUCTION,
            Section::Constants => CONSTANT,
            Section::Models => MODEL,
            Section::Properties => PROPERTY,
            Section::Methods => METHOD,
            Section::ContextValues => CONTEXT_VALUE,
            Section::Globals => GLOBAL,
            Section::Files => FILE,
            Section::Errors => ERROR,
        }
    }
}

// A line of a section, two numbers and a last one.
fn short_line(section: Section, first: u64, second: u64, last: u64, signed: bool) -> Fields
    ensures { result ≡ line (number_of section) first second 0 0 0 0 last signed }
{
    Fields {
        section: section.number(),
        first,
        second,
        last,
        signed,
        ..Fields::default()
    }
}

#[tactic(auto, unfolding(words::specs::Areas::entry_field))]
fn function_line(functions: &[u64], i: usize) -> Fields
    ensures { result ≡ function_line functions.now i }
{
    let f = function_record(functions, i);
    Fields {
        section: Section::Functions.number(),
        first: i as u64,
        second: f.parameters,
        third: f.locals,
        fourth: f.rescue,
        fifth: f.instance,
        sixth: f.file,
        last: f.name,
        signed: false,
    }
}

// The number of a word's opcode; of one that is none of `opcode.rs`, as it stands in the word.
#[tactic(auto, unfolding(words::specs::Opcode::unword), using(words::proofs::Codes::number_back))]
fn opcode_number(opcode: OpCode, word: u64) -> u64
    requires { opcode ≡ opcode_of (unword word).opcode }
    ensures { result ≡ (unword word).opcode }
{
    match opcode {
        OpCode::Unknown => word / OPCODE_UNIT,
        _ => opcode.number(),
    }
}

fn instruction_line(function: u64, part: &[u64], i: usize) -> Fields
    ensures { result ≡ instruction_line function part.now i }
{
    let word = entry_word(part, CODE_WORDS, i, program::INSTRUCTION);
    let instruction = instruction_at(part, i);
    let position = position_at(part, i);
    let opcode = instruction.opcode();
    Fields {
        section: Section::Instructions(function).number(),
        first: function,
        second: i as u64,
        third: line_of(position),
        fourth: column_of(position),
        fifth: opcode_number(opcode, word),
        last: instruction.operand(),
        ..Fields::default()
    }
}

// A constant by its case: integers are signed. A float's bits stay as they stand in the pool, since a NaN has lost its own (docs/DECISIONS.md, 10).
#[tactic(auto, unfolding(crate::specs::Cases::case_line))]
fn case_line(i: u64, constant: Constant, bits: u64) -> Fields
    ensures { result ≡ case_line i constant bits }
{
    let value = match constant {
        Constant::Float(_) => bits,
        _ => constant.value(),
    };
    let signed = matches!(constant, Constant::Integer(_));
    let kind = constant.kind().number();
    short_line(Section::Constants, i, kind, value, signed)
}

// Words that are no constant are listed as they stand.
fn constant_line(constants: &[u64], i: usize) -> Fields
    ensures { result ≡ constant_line constants.now i }
{
    let kind = entry_word(constants, CONSTANT_WORDS, i, CONSTANT_KIND);
    let value = entry_word(constants, CONSTANT_WORDS, i, CONSTANT_VALUE);
    match constant_at(constants, i) {
        Some(constant) => case_line(i as u64, constant, value),
        None => short_line(Section::Constants, i as u64, kind, value, false),
    }
}

#[tactic(auto, unfolding(words::specs::Areas::entry_field))]
fn model_line(models: &[u64], i: usize) -> Fields
    ensures { result ≡ model_line models.now i }
{
    let file = entry_word(models, MODEL_WORDS, i, MODEL_FILE);
    let name = entry_word(models, MODEL_WORDS, i, MODEL_NAME);
    short_line(Section::Models, i as u64, file, name, false)
}

// A property's index in its model: the earlier entries of the model, which need not stand together.
fn property_index(properties: &[u64], i: usize) -> u64
    ensures { result ≡ property_index properties.now i }
{
    let model = entry_word(properties, PROPERTY_WORDS, i, PROPERTY_MODEL);
    let mut index: u64 = 0;
    for j in 0..i {
        if entry_word(properties, PROPERTY_WORDS, j, PROPERTY_MODEL) == model {
            index += 1;
        }
    }
    index
}

#[tactic(auto, unfolding(words::specs::Areas::entry_field))]
fn property_line(properties: &[u64], i: usize) -> Fields
    ensures { result ≡ property_line properties.now i }
{
    let model = entry_word(properties, PROPERTY_WORDS, i, PROPERTY_MODEL);
    let index = property_index(properties, i);
    let name = entry_word(properties, PROPERTY_WORDS, i, PROPERTY_NAME);
    short_line(Section::Properties, model, index, name, false)
}

#[tactic(auto, unfolding(words::specs::Areas::entry_field))]
fn method_line(methods: &[u64], i: usize) -> Fields
    ensures { result ≡ method_line methods.now i }
{
    let model = entry_word(methods, METHOD_WORDS, i, METHOD_MODEL);
    let name = entry_word(methods, METHOD_WORDS, i, METHOD_NAME);
    let function = entry_word(methods, METHOD_WORDS, i, METHOD_FUNCTION);
    short_line(Section::Methods, model, function, name, false)
}

// Not one function with `file_line`: the word that is listed stands in another of the line's fields.
#[tactic(auto, unfolding(words::specs::Areas::entry_field))]
fn context_value_line(locals: &[u64], i: usize) -> Fields
    ensures { result ≡ context_value_line locals.now i }
{
    let constant = entry_word(locals, CONTEXT_LOCAL_WORDS, i, LOCAL_CONSTANT);
    short_line(Section::ContextValues, i as u64, constant, 0, false)
}

#[tactic(auto, unfolding(words::specs::Areas::entry_field))]
fn file_line(books: &[u64], i: usize) -> Fields
    ensures { result ≡ file_line books.now i }
{
    let number = entry_word(books, BOOK_WORDS, i, BOOK_NUMBER);
    short_line(Section::Files, i as u64, 0, number, false)
}

#[tactic(auto, unfolding(words::specs::Areas::entry_field))]
fn error_line(errors: &[u64], i: usize) -> Fields
    ensures { result ≡ error_line errors.now i }
{
    let number = entry_word(errors, ERROR_WORDS, i, ERROR_NUMBER);
    let position = entry_word(errors, ERROR_WORDS, i, ERROR_POSITION);
    let kind = entry_word(errors, ERROR_WORDS, i, ERROR_KIND);
    let value = entry_word(errors, ERROR_WORDS, i, ERROR_VALUE);
    Fields {
        section: Section::Errors.number(),
        first: i as u64,
        second: number,
        third: line_of(position),
        fourth: column_of(position),
        fifth: kind,
        last: value,
        signed: kind == record::INTEGER,
        ..Fields::default()
    }
}

// The line of entry i of a section's area.
#[tactic(auto, unfolding(crate::specs::Sections::entry_line))]
fn entry_line(section: Section, area: &[u64], i: usize) -> Fields
    ensures { result ≡ entry_line section area.now i }
{
    match section {
        Section::Functions => function_line(area, i),
        Section::Instructions(function) => instruction_line(function, area, i),
        Section::Constants => constant_line(area, i),
        Section::Models => model_line(area, i),
        Section::Properties => property_line(area, i),
        Section::Methods => method_line(area, i),
        Section::ContextValues => context_value_line(area, i),
        Section::Globals => short_line(Section::Globals, i as u64, 0, 0, false),
        Section::Files => file_line(area, i),
        Section::Errors => error_line(area, i),
    }
}

// A context local without a value and a constant that is no global have no line.
#[tactic(auto, unfolding(words::specs::Areas::entry_field, crate::specs::Sections::is_listed))]
fn is_listed(section: Section, area: &[u64], i: usize) -> bool
    ensures { result ≡ is_listed section area.now i }
{
    match section {
        Section::ContextValues => entry_word(area, CONTEXT_LOCAL_WORDS, i, LOCAL_MARK) == 1,
        Section::Globals => entry_word(area, CONSTANT_WORDS, i, GLOBAL_MARK) == 1,
        _ => true,
    }
}

// Writes the line of entry i, if it has one, unless something before it did not fit.
pub fn write_entry(section: Section, area: &[u64], i: usize, out: &mut [u8], place: Place) -> Place
    ensures { placed result out.new ≡ lines_at (entry_lines section area.now i) (placed place out.old) }
{
    let at = place?;
    if is_listed(section, area, i) {
        let line = entry_line(section, area, i);
        return write_line(out, at, line);
    }
    Ok(at)
}
