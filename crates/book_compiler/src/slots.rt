// The table of slots over the constants' pool (02, 2026-12): part 13 of the memory, which is what its areas leave over. Constants and slots are lent one
// after the other, or both to be read.
ghost use Rattle.std.specs.Prelude.{◌≡◌};
ghost use Rattle.book_compiler.specs.Represents.{laid};
ghost use Rattle.book_compiler.specs.Leaves.{FindsConstant, AddsNoCheck, AddsNewConstant, PutsSlot, FillsSlots, ClearsSlots, ConstantWord};

use crate::lent::{SLOTS, lend, lend_with, part};
use building::function_state::FunctionState;
use constant_slots::plain::ConstantWords;
use constant_slots::slots;
use words::areas;
use words::object::{CONSTANT_KIND, CONSTANT_VALUE};

// The search through the slots; the plain one where there are no more slots than constants.
pub(crate) fn find_constant(
    starts: &[usize; 15],
    memory: &[u64],
    state: &FunctionState,
    kind: u64,
    value: u64,
) -> Option<u64>
    ensures { FindsConstant kind value result (laid state.now starts.now memory.now) }
{
    let looked = slots::find(
        part(starts, memory, areas::CONSTANTS),
        state.constants,
        part(starts, memory, SLOTS),
        ConstantWords { kind, value },
    );
    looked.found
}

// A constant more, without its slot.
fn add_no_check(
    starts: &[usize; 15],
    memory: &mut [u64],
    state: &mut FunctionState,
    kind: u64,
    value: u64,
) -> u64
    ensures { AddsNoCheck kind value result (laid state.old starts.now memory.old)
        (laid state.new starts.now memory.new) }
{
    lend_with(
        starts,
        memory,
        areas::CONSTANTS,
        state,
        |constants, state| state.add_constant_no_check(constants, kind, value),
    )
}

// A constant of a number takes its slot; none where all are taken.
fn put_slot(starts: &[usize; 15], memory: &mut [u64], number: u64, kind: u64, value: u64)
    ensures { PutsSlot number kind value starts.now memory.old memory.new }
{
    lend(
        starts,
        memory,
        SLOTS,
        |table| slots::put(table, number, ConstantWords { kind, value }),
    );
}

// A constant more with its slot, where there is room for it.
pub(crate) fn add_new_constant(
    starts: &[usize; 15],
    memory: &mut [u64],
    state: &mut FunctionState,
    kind: u64,
    value: u64,
) -> u64
    ensures { AddsNewConstant kind value result (laid state.old starts.now memory.old)
        (laid state.new starts.now memory.new) }
{
    let before = state.constants;
    let index = add_no_check(starts, memory, state, kind, value);
    if before < state.constants {
        put_slot(starts, memory, index, kind, value);
    }
    index
}

// Every slot empty.
pub(crate) fn clear_slots(starts: &[usize; 15], memory: &mut [u64])
    ensures { ClearsSlots starts.now memory.old memory.new }
{
    lend(starts, memory, SLOTS, |table| slots::clear(table));
}

// A word of constant i.
fn constant_word(starts: &[usize; 15], memory: &[u64], i: usize, word: usize) -> u64
    ensures { ConstantWord i word result starts.now memory.now }
{
    areas::entry_word(
        part(starts, memory, areas::CONSTANTS),
        areas::CONSTANT_WORDS,
        i,
        word,
    )
}

// The slots filled anew with the first constants, in order, whatever the slots held. Once every slot is taken no constant takes one.
pub(crate) fn fill_slots(starts: &[usize; 15], memory: &mut [u64], count: usize)
    ensures { FillsSlots count starts.now memory.old memory.new }
{
    clear_slots(starts, memory);
    let size = part(starts, memory, SLOTS).len();
    for i in 0..count.min(size) {
        let kind = constant_word(starts, memory, i, CONSTANT_KIND);
        let value = constant_word(starts, memory, i, CONSTANT_VALUE);
        put_slot(starts, memory, i as u64, kind, value);
    }
}
