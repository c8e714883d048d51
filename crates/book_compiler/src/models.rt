// `backend/compiler.rs`: models, their properties and public names, `compile_model_definition` and `compile_apply_definition` over one memory.
ghost use Rattle.std.specs.Prelude.{◌≡◌};
ghost use Rattle.building.specs.Found.{found_of};
ghost use Rattle.compiler_laws.specs.ModelSteps.{Publishes, model_at_c};
ghost use Rattle.book_compiler.specs.RepresentsBook.{book_laid};
ghost use Rattle.book_compiler.specs.BookLeaves.{SameCounts, PublishesName, SparesPublics, FindsProperty, FindsBookLocal, FindsLocalModel};
ghost use Rattle.book_compiler.specs.DefinitionSteps.{TakesProperty, TakesModel, AddsModelProperty, AddsModelProperties, AddsModel};
ghost use Rattle.book_compiler.specs.DefinitionSteps.{CompilesModelDefinition, FindsModelIndex, CompilesApplyDefinition};

use crate::lent::{lend_with, part};
use crate::{book, locals, methods, pairs};
use building::{context, taking};
use compiler_laws::book::Book;
use words::record::field;
use words::reply::CompileError;
use words::{areas, object, record};

// The word of a public name's entry that is its constant.
const CONSTANT: usize = 2;

// The words of a context local's entry that are the mark of a value and its constant.
const VALUE_MARK: usize = 2;

const VALUE: usize = 3;

// `public_indices.insert` on area 8.
fn publish_entry(publics: &mut [u64], book: &mut Book, place: u64, name: u64)
    ensures { (Publishes place name book.old publics.old book.new publics.new
        × SparesPublics book.old publics.old publics.new) × SameCounts book.old book.new }
{
    if book.full != 0 {
        return;
    }
    let found = pairs::find_pair(
        publics,
        areas::PUBLIC_NAME_WORDS,
        book.first_public,
        book.publics,
        book.file,
        name,
    );
    if let Some(i) = found {
        areas::write_word(
            publics,
            areas::PUBLIC_NAME_WORDS,
            i as usize,
            CONSTANT,
            place,
        );
        return;
    }
    taking::take(
        publics,
        areas::PUBLIC_NAMES,
        &mut book.full,
        &mut book.publics,
        [book.file, name, place],
    );
}

pub(crate) fn publish(
    starts: &[usize; 15],
    memory: &mut [u64],
    book: &mut Book,
    place: u64,
    name: u64,
)
    ensures { PublishesName place name (book_laid book.old starts.now memory.old)
        (book_laid book.new starts.now memory.new) }
{
    lend_with(starts, memory, areas::PUBLIC_NAMES, book, |publics, book| {
        publish_entry(publics, book, place, name)
    })
}

// A property of the model that is not there yet, whose properties start at entry `first` of area 5.
fn find_property(
    starts: &[usize; 15],
    memory: &[u64],
    book: &Book,
    first: usize,
    name: u64,
) -> Option<u64>
    ensures { FindsProperty first name result (book_laid book.now starts.now memory.now) }
{
    pairs::find_pair(
        part(starts, memory, areas::PROPERTIES),
        areas::PROPERTY_WORDS,
        first,
        book.properties,
        book.models as u64,
        name,
    )
}

// An entry of area 5 more.
fn take_property(starts: &[usize; 15], memory: &mut [u64], book: &mut Book, name: u64)
    ensures { TakesProperty name (book_laid book.old starts.now memory.old)
        (book_laid book.new starts.now memory.new) }
{
    let model = book.models as u64;
    lend_with(
        starts,
        memory,
        areas::PROPERTIES,
        book,
        |properties, book| {
            taking::take(
                properties,
                areas::PROPERTIES,
                &mut book.full,
                &mut book.properties,
                [model, name],
            )
        },
    );
}

// A name that is there already is an error and takes no entry.
fn add_property(
    tree: &[u64],
    at: usize,
    starts: &[usize; 15],
    memory: &mut [u64],
    first: usize,
    book: &mut Book,
)
    ensures { AddsModelProperty tree.now at first (book_laid book.old starts.now memory.old)
        (book_laid book.new starts.now memory.new) }
{
    if book.full != 0 {
        return;
    }
    let name = field(tree, at, record::VALUE);
    let found = find_property(starts, memory, book, first, name);
    if let Some(_) = found {
        book::push_error(starts, memory, tree, at, book, CompileError::PropertyExists);
        return;
    }
    take_property(starts, memory, book, name);
}

// The properties of a model that is not there yet.
fn add_properties(
    tree: &[u64],
    at: usize,
    end: usize,
    starts: &[usize; 15],
    memory: &mut [u64],
    book: &mut Book,
)
    ensures { AddsModelProperties tree.now at end (book_laid book.old starts.now memory.old)
        (book_laid book.new starts.now memory.new) }
{
    let first = book.properties;
    for i in at..end {
        add_property(tree, i, starts, memory, first, book);
    }
}

// The context local of a name.
fn find_context_local(starts: &[usize; 15], memory: &[u64], book: &Book, name: u64) -> Option<u64>
    ensures { FindsBookLocal name result (book_laid book.now starts.now memory.now) }
{
    context::find_context_local(
        part(starts, memory, areas::CONTEXT_LOCALS),
        book.first_local,
        book.locals,
        name,
    )
}

// The model that a context local is, by areas 7 and 2.
fn model_of(locals: &[u64], constants: &[u64], i: usize) -> Option<u64>
    ensures { result ≡ found_of (model_at_c i locals.now constants.now) }
{
    let mark = areas::entry_word(locals, areas::CONTEXT_LOCAL_WORDS, i, VALUE_MARK);
    if mark != 1 {
        return None;
    }
    let constant = areas::entry_word(locals, areas::CONTEXT_LOCAL_WORDS, i, VALUE) as usize;
    let kind = areas::entry_word(constants, areas::CONSTANT_WORDS, constant, 0);
    if kind != object::MODEL {
        return None;
    }
    Some(areas::entry_word(constants, areas::CONSTANT_WORDS, constant, 1))
}

fn find_local_model(starts: &[usize; 15], memory: &[u64], book: &Book, i: usize) -> Option<u64>
    ensures { FindsLocalModel i result (book_laid book.now starts.now memory.now) }
{
    model_of(
        part(starts, memory, areas::CONTEXT_LOCALS),
        part(starts, memory, areas::CONSTANTS),
        i,
    )
}

pub(crate) fn find_model_index_by_local_name(
    tree: &[u64],
    at: usize,
    starts: &[usize; 15],
    memory: &mut [u64],
    book: &mut Book,
) -> Option<u64>
    ensures { FindsModelIndex tree.now at result (book_laid book.old starts.now memory.old)
        (book_laid book.new starts.now memory.new) }
{
    if book.full != 0 {
        return None;
    }
    let name = field(tree, at, record::VALUE);
    let local = find_context_local(starts, memory, book, name);
    if let Some(i) = local {
        let model = find_local_model(starts, memory, book, i as usize);
        if let Some(_) = model {
            return model;
        }
        book::push_error(starts, memory, tree, at, book, CompileError::NotAModel);
        return None;
    }
    book::push_error(starts, memory, tree, at, book, CompileError::ModelNotFound);
    None
}

// With an unknown source the target is still looked at.
pub(crate) fn compile_apply_definition(
    tree: &[u64],
    at: usize,
    end: usize,
    starts: &[usize; 15],
    memory: &mut [u64],
    book: &mut Book,
)
    ensures { CompilesApplyDefinition tree.now at end (book_laid book.old starts.now memory.old)
        (book_laid book.new starts.now memory.new) }
{
    if end <= at {
        return;
    }
    if end - at < 3 {
        return;
    }
    let from = find_model_index_by_local_name(tree, at + 1, starts, memory, book);
    let to = find_model_index_by_local_name(tree, at + 2, starts, memory, book);
    if let Some(source) = from {
        if let Some(target) = to {
            methods::copy_methods(starts, memory, book, source, target);
        }
    }
}

// An entry of area 4 more.
fn take_model(starts: &[usize; 15], memory: &mut [u64], book: &mut Book, name: u64)
    ensures { TakesModel name (book_laid book.old starts.now memory.old)
        (book_laid book.new starts.now memory.new) }
{
    lend_with(starts, memory, areas::MODELS, book, |models, book| {
        taking::take(
            models,
            areas::MODELS,
            &mut book.full,
            &mut book.models,
            [book.file, name],
        )
    });
}

// A model's entry, its constant and its context local.
fn place_model(starts: &[usize; 15], memory: &mut [u64], book: &mut Book, name: u64) -> u64
    ensures { AddsModel name result (book_laid book.old starts.now memory.old)
        (book_laid book.new starts.now memory.new) }
{
    if book.full != 0 {
        return 0;
    }
    let index = book.models as u64;
    take_model(starts, memory, book, name);
    let place = book::add_constant(starts, memory, book, object::MODEL, index);
    let found = locals::define_local(starts, memory, book, name);
    locals::set_value(starts, memory, book, found, place);
    place
}

pub(crate) fn compile_model_definition(
    tree: &[u64],
    at: usize,
    end: usize,
    starts: &[usize; 15],
    memory: &mut [u64],
    book: &mut Book,
) -> u64
    ensures { CompilesModelDefinition tree.now at end result (book_laid book.old starts.now memory.old)
        (book_laid book.new starts.now memory.new) }
{
    if end <= at {
        return 0;
    }
    let name = field(tree, at, record::VALUE);
    add_properties(tree, at + 1, end, starts, memory, book);
    place_model(starts, memory, book, name)
}
