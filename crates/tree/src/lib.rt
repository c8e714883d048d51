// Rows 2, 3 and 4 of 01 on any words: `check` goes once over the records, in their order. At each it looks at the record by itself
// (`stands`: row 3), at its level (row 4), and then at its children, one level down. That a child is lacking, which is row 3 at the parent, shows after the
// last child; where one of them is at fault, `blame` goes on over the others to see it.
#![tactic(auto)]

pub mod records;

ghost use Rattle.std.specs.Prelude.{◌≡◌, cond, ◌&&◌, ◌+◌, ◌*◌, ◌%◌, ◌≤◌, ◌<◌, length, leb};
ghost use Rattle.words.specs.Record.{most_levels};
ghost use Rattle.words.specs.Kinds.{number_of_record};
ghost use Rattle.tree.specs.Rules.{slot_of, rule_of, may_stand, goes_on, slot_after, is_due, first_slot, may_be_at, in_range, unused};
ghost use Rattle.tree.specs.Rows.{slot_row, rule_row, holds_in, range_in, least_in, most_in};
ghost use Rattle.tree.specs.Check.{within_of, lacks_of, walk_of, same_this, this_after, shape_of, refused, records_of};
ghost use Rattle.words.specs.declared.row.Row.TheVariants.{TooDeep};
ghost use Rattle.tree.specs.Children.{blamed, settled};

use crate::records::{Records, Words};
use words::UnknownNumber;
use words::node::Record;
use words::record::{
    MOST_LEVELS, MOST_RECORDS, MOST_TEXT, NAME, RECORD_WORDS, RecordKind, THIS_PARAMETER, in_place,
};
use words::row::{Refused, Row};

// The first number above the kinds.
const KINDS_END: u64 = 50;

// Sets of kinds, a bit for each.
const DOCUMENT: u64 = 1 << RecordKind::Document as u64;

const DEFINITIONS: u64 = 0xFF << RecordKind::LocalDefinition as u64;

const FUNCTION: u64 = 1 << RecordKind::FunctionDefinition as u64;

const STATEMENTS: u64 = 0x3F << RecordKind::LocalStatement as u64;

const EXPRESSIONS: u64 = (0x3FF << RecordKind::Identifier as u64)
    + (1 << RecordKind::If as u64)
    + (7 << RecordKind::Call as u64);

const CONSTANTS: u64 = (1 << RecordKind::Identifier as u64)
    + (0x1F << RecordKind::Null as u64)
    + (1 << RecordKind::OtherToken as u64)
    + ABSENT;

const NAMES: u64 = 1 << RecordKind::Name as u64;

const PARAMETERS: u64 = 3 << RecordKind::Name as u64;

const BLOCK: u64 = 1 << RecordKind::Block as u64;

const ABSENT: u64 = 1 << RecordKind::Absent as u64;

// Whether a child is due at a slot, and whether a kind has a position.
const DUE: bool = true;

const OPTIONAL: bool = false;

const PLACED: bool = true;

const UNPLACED: bool = false;

// The slot of a function's children.
const FUNCTION_PARTS: usize = 8;

// A slot, a place among the children of a record: the kinds that may stand there, the slot after it, and whether a child is due.
#[derive(Clone, Copy)]
struct SlotRule {
    kinds: u64,
    next: usize,
    due: bool,
}

// The values of a kind.
#[derive(Clone, Copy)]
enum Values {
    // 1 to the greatest text.
    Text,
    // Any 64 bits.
    Word,
    // 0 to this.
    UpTo(u64),
}

// What a kind may have: the slot of its first child, whether it has a position, and its values.
#[derive(Clone, Copy)]
struct KindRule {
    first: usize,
    placed: bool,
    values: Values,
}

impl SlotRule {
    fn new(kinds: u64, next: usize, due: bool) -> SlotRule
        ensures { result ≡ record { kinds = kinds; next = next; due = due } }
    {
        SlotRule { kinds, next, due }
    }
}

impl KindRule {
    fn new(first: usize, placed: bool, values: Values) -> KindRule
        ensures { result ≡ record { first = first; placed = placed; values = values } }
    {
        KindRule {
            first,
            placed,
            values,
        }
    }

    // No children, no position and no value.
    fn none() -> KindRule
        ensures { result ≡ rule_row unused }
    {
        KindRule::new(0, UNPLACED, Values::UpTo(0))
    }
}

// A slot stays a number with its comment: the public functions answer for every number, and an enum of the slots would name the 24 of them in its cases and in
// its `TryFrom` to be read here alone.
fn slot_row(slot: usize) -> SlotRule
    ensures { result ≡ slot_row (slot_of slot) }
{
    match slot {
        1 => SlotRule::new(DOCUMENT, 1, OPTIONAL), // documents
        2 => SlotRule::new(DEFINITIONS, 2, OPTIONAL), // definitions
        3 => SlotRule::new(NAMES, 4, OPTIONAL), // local definition: a name, or no more
        4 => SlotRule::new(CONSTANTS, 3, DUE), // its value
        5 => SlotRule::new(NAMES, 6, OPTIONAL), // include: a public name, or no more
        6 => SlotRule::new(NAMES, 5, DUE), // its alias
        7 => SlotRule::new(NAMES, 7, OPTIONAL), // names
        8 => SlotRule::new(PARAMETERS + STATEMENTS, 9, OPTIONAL), // parameters, then statements
        9 => SlotRule::new(STATEMENTS, 9, OPTIONAL), // statements
        10 => SlotRule::new(FUNCTION, 10, OPTIONAL), // functions
        11 => SlotRule::new(NAMES, 12, DUE), // apply: the source
        12 => SlotRule::new(NAMES, 0, DUE), // the target
        13 => SlotRule::new(NAMES, 14, OPTIONAL), // local statement: a name, or no more
        14 => SlotRule::new(ABSENT + EXPRESSIONS, 13, DUE), // its value
        15 => SlotRule::new(NAMES, 16, DUE), // for: the name
        16 => SlotRule::new(EXPRESSIONS, 9, DUE), // the enumerable
        17 => SlotRule::new(EXPRESSIONS, 0, DUE), // one expression
        18 => SlotRule::new(EXPRESSIONS, 18, OPTIONAL), // expressions
        19 => SlotRule::new(EXPRESSIONS, 17, DUE), // the first of two expressions
        20 => SlotRule::new(EXPRESSIONS, 21, DUE), // if: the condition
        21 => SlotRule::new(BLOCK, 22, DUE), // the true part
        22 => SlotRule::new(BLOCK, 0, OPTIONAL), // the false part, or no more
        23 => SlotRule::new(EXPRESSIONS, 18, DUE), // call: the function
        _ => SlotRule::new(0, 0, OPTIONAL), // nothing more
    }
}

fn rule_of_kind(kind: RecordKind) -> KindRule
    ensures { result ≡ rule_row (rule_of (number_of_record kind)) }
{
    match kind {
        RecordKind::Document => KindRule::new(2, UNPLACED, Values::Text),
        RecordKind::LocalDefinition => KindRule::new(3, UNPLACED, Values::UpTo(0)),
        RecordKind::IncludeDefinition => KindRule::new(5, PLACED, Values::Text),
        RecordKind::ModelDefinition => KindRule::new(7, PLACED, Values::Text),
        RecordKind::PublicModelDefinition => KindRule::new(7, PLACED, Values::Text),
        RecordKind::FunctionDefinition => KindRule::new(8, PLACED, Values::Text),
        RecordKind::PublicFunctionDefinition => KindRule::new(8, PLACED, Values::Text),
        RecordKind::ImplementDefinition => KindRule::new(10, PLACED, Values::Text),
        RecordKind::ApplyDefinition => KindRule::new(11, UNPLACED, Values::UpTo(0)),
        RecordKind::LocalStatement => KindRule::new(13, UNPLACED, Values::UpTo(0)),
        RecordKind::ReturnStatement => KindRule::new(0, PLACED, Values::UpTo(0)),
        RecordKind::BreakStatement => KindRule::new(0, PLACED, Values::UpTo(0)),
        RecordKind::RescueStatement => KindRule::new(0, PLACED, Values::UpTo(0)),
        RecordKind::ForStatement => KindRule::new(15, PLACED, Values::UpTo(0)),
        RecordKind::ExpressionStatement => KindRule::new(17, UNPLACED, Values::UpTo(0)),
        RecordKind::Identifier => KindRule::new(0, PLACED, Values::Text),
        RecordKind::This => KindRule::new(0, PLACED, Values::UpTo(0)),
        RecordKind::Null => KindRule::new(0, PLACED, Values::UpTo(0)),
        RecordKind::Integer => KindRule::new(0, PLACED, Values::Word),
        RecordKind::Float => KindRule::new(0, PLACED, Values::Word),
        RecordKind::String => KindRule::new(0, PLACED, Values::Text),
        RecordKind::Boolean => KindRule::new(0, PLACED, Values::UpTo(1)),
        RecordKind::Array => KindRule::new(18, PLACED, Values::UpTo(0)),
        RecordKind::Prefix => KindRule::new(17, PLACED, Values::UpTo(2)),
        RecordKind::Infix => KindRule::new(19, PLACED, Values::UpTo(19)),
        RecordKind::Name => KindRule::new(0, PLACED, Values::Text),
        RecordKind::ThisParameter => KindRule::new(0, PLACED, Values::Text),
        RecordKind::If => KindRule::new(20, UNPLACED, Values::UpTo(0)),
        RecordKind::Block => KindRule::new(9, UNPLACED, Values::UpTo(0)),
        RecordKind::Call => KindRule::new(23, PLACED, Values::UpTo(0)),
        RecordKind::InstanceGet => KindRule::new(19, PLACED, Values::UpTo(0)),
        RecordKind::IndexGet => KindRule::new(19, PLACED, Values::UpTo(0)),
        RecordKind::OtherToken => KindRule::new(0, PLACED, Values::UpTo(0)),
        RecordKind::Absent => KindRule::none(),
    }
}

// The rule of a number that may be no kind's.
#[tactic(auto, using(crate::proofs::Tables::no_kind))]
fn rule_row(kind: u64) -> KindRule
    ensures { result ≡ rule_row (rule_of kind) }
{
    match RecordKind::try_from(kind) {
        Ok(kind) => rule_of_kind(kind),
        Err(UnknownNumber(_)) => KindRule::none(),
    }
}

// Whether a kind is one of a set.
#[tactic(auto, unfolding(crate::specs::Rows::holds_in))]
fn row_holds(kinds: u64, kind: u64) -> bool
    ensures { result ≡ holds_in kinds kind }
{
    kind < KINDS_END && (kinds >> kind) % 2 == 1
}

#[tactic(auto, using(crate::proofs::Tables::hold_row))]
pub fn may_stand(slot: usize, kind: u64) -> bool
    ensures { result ≡ may_stand slot kind }
{
    let rule = slot_row(slot);
    row_holds(rule.kinds, kind)
}

// After a parameter parameters go on.
#[tactic(auto, unfolding(crate::specs::Rules::goes_on))]
fn goes_on(slot: usize, kind: u64) -> bool
    ensures { result ≡ goes_on slot kind }
{
    slot == FUNCTION_PARTS && (kind == NAME || kind == THIS_PARAMETER)
}

// The slot after a child, where the slot's row is known.
#[tactic(auto, unfolding(crate::specs::Rules::slot_after))]
fn row_after(slot: usize, row: SlotRule, kind: u64) -> usize
    requires { row ≡ slot_row (slot_of slot) }
    ensures { result ≡ slot_after slot kind }
{
    if goes_on(slot, kind) {
        return slot;
    }
    row.next
}

pub fn slot_after(slot: usize, kind: u64) -> usize
    ensures { result ≡ slot_after slot kind }
{
    let row = slot_row(slot);
    row_after(slot, row, kind)
}

#[tactic(auto, unfolding(crate::specs::Rules::is_due))]
pub fn is_due(slot: usize) -> bool
    ensures { result ≡ is_due slot }
{
    slot_row(slot).due
}

#[tactic(auto, using(crate::proofs::Tables::first_row))]
pub fn first_slot(kind: u64) -> usize
    ensures { result ≡ first_slot kind }
{
    rule_row(kind).first
}

// Whether a position is one of a kind that has one, or has none.
#[tactic(auto, unfolding(crate::specs::Rules::may_be_at))]
fn position_fits(placed: bool, position: u64) -> bool
    ensures { result ≡ may_be_at placed position }
{
    if placed {
        in_place(position)
    } else {
        position == 0
    }
}

impl Values {
    fn least(self) -> u64
        ensures { result ≡ least_in self }
    {
        match self {
            Values::Text => 1,
            Values::Word => 0,
            Values::UpTo(_) => 0,
        }
    }

    fn most(self) -> u64
        ensures { result ≡ most_in self }
    {
        match self {
            Values::Text => MOST_TEXT,
            Values::Word => u64::MAX,
            Values::UpTo(most) => most,
        }
    }
}

// Whether a position and a value are in the range that a kind's rule says.
#[tactic(auto, unfolding(crate::specs::Rows::range_in))]
fn row_range(rule: KindRule, position: u64, value: u64) -> bool
    ensures { result ≡ range_in rule position value }
{
    position_fits(rule.placed, position)
        && (rule.values.least()..=rule.values.most()).contains(&value)
}

#[tactic(auto, using(crate::proofs::Tables::range_row))]
pub fn in_range(kind: u64, position: u64, value: u64) -> bool
    ensures { result ≡ in_range kind position value }
{
    row_range(rule_row(kind), position, value)
}

// The span of the record at a place is not 0 and does not pass the end.
#[tactic(auto, using(crate::proofs::Spans::within_zero, crate::proofs::Spans::within_span, crate::proofs::Spans::within_past))]
pub fn within(at: usize, span: usize, end: usize) -> bool
    ensures { result ≡ within_of at span end }
{
    span != 0 && at <= end && span <= end - at
}

// The children from a place to the end, span after span, fill it exactly while another is due.
fn lacks<R: Records>(records: R, slot: usize, at: usize, end: usize) -> bool
    requires { end ≤ records_of (R.words records) }
    ensures { result ≡ lacks_of (R.words records) slot at end }
{
    let mut s = slot;
    let mut j = at;
    // No `for`: the step is a record's span, which is read at the record, and the loop ends early where it does not fit.
    while j < end {
        let child = records.read(j);
        let span = child.span as usize;
        if !within(j, span, end) {
            return false;
        }
        s = slot_after(s, child.kind);
        j += span;
    }
    is_due(s)
}

#[tactic(auto, unfolding(crate::specs::Check::same_this))]
pub fn same_this(kind: u64, value: u64, this: u64) -> bool
    ensures { result ≡ same_this kind value this }
{
    kind != THIS_PARAMETER || this == 0 || this == value
}

#[tactic(auto, unfolding(crate::specs::Check::this_after))]
pub fn this_after(kind: u64, value: u64, this: u64) -> u64
    ensures { result ≡ this_after kind value this }
{
    if kind == THIS_PARAMETER { value } else { this }
}

// Row 3 at a record by itself, whatever its children are, from the rows of its slot and of its kind.
fn stands(row: SlotRule, rule: KindRule, child: Record, this: u64, at: usize, end: usize) -> bool
    ensures { result ≡ (holds_in row.kinds child.kind && (within_of at child.span end
        && (range_in rule child.position child.value && same_this child.kind child.value this))) }
{
    row_holds(row.kinds, child.kind)
        && within(at, child.span as usize, end)
        && row_range(rule, child.position, child.value)
        && same_this(child.kind, child.value, this)
}

// A fault found at a child, or row 3 at its parent where a child is lacking: the parent comes first.
fn blame<R: Records>(
    records: R,
    slot: usize,
    parent: usize,
    at: usize,
    end: usize,
    found: Refused,
) -> Result<u64, Refused>
    requires { end ≤ records_of (R.words records) }
    ensures { result ≡ blamed (R.words records) slot parent at end (Err found) }
{
    if lacks(records, slot, at, end) {
        Err(Row::BadShape.at(parent))
    } else {
        Err(found)
    }
}

// After the last child: row 3 at the parent where another is due, else the number of 41.
#[tactic(auto, unfolding(crate::specs::Children::settled))]
fn settle(slot: usize, this: u64, parent: usize) -> Result<u64, Refused>
    ensures { result ≡ settled slot this parent }
{
    if is_due(slot) {
        Err(Row::BadShape.at(parent))
    } else {
        Ok(this)
    }
}

// The record at a place, which stands, by its children: whether one is lacking, then its level, then each of them.
#[cycle(inside_walk)]
fn inside<R: Records>(
    records: R,
    slot: usize,
    level: usize,
    this: u64,
    at: usize,
    end: usize,
) -> Result<u64, Refused>
    requires at_lt_end { at < end }
    requires end_in_bounds { end ≤ records_of (R.words records) }
    ensures { result ≡ blamed (R.words records) slot at (at + 1) end
        (cond (leb level most_levels) (walk_of (R.words records) slot (level + 1) this (at + 1) end) (refused TooDeep at)) }
{
    let from = at + 1;
    if level > MOST_LEVELS {
        let found = Row::TooDeep.at(at);
        return blame(records, slot, at, from, end, found);
    }
    if from == end {
        return settle(slot, this, at);
    }
    walk(records, slot, level + 1, this, at, from, end)
}

// The records from a place to the end, which are children of one record, the parent, from a slot on: the number of kind 41 met so far (0: none), or the
// first refusal. That none is lacking is known after the last.
#[cycle(inside_walk)]
fn walk<R: Records>(
    records: R,
    slot: usize,
    level: usize,
    this: u64,
    parent: usize,
    at: usize,
    end: usize,
) -> Result<u64, Refused>
    requires { end ≤ records_of (R.words records) }
    ensures { result ≡ blamed (R.words records) slot parent at end (walk_of (R.words records) slot level this at end) }
{
    let mut s = slot;
    let mut t = this;
    let mut i = at;
    // No `for`: the step is a record's span, which is read at the record.
    while i < end {
        let child = records.read(i);
        let span = child.span as usize;
        let row = slot_row(s);
        let rule = rule_row(child.kind);
        if !stands(row, rule, child, t, i, end) {
            let found = Row::BadShape.at(i);
            return blame(records, s, parent, i, end, found);
        }
        let met = this_after(child.kind, child.value, t);
        let inner = inside(records, rule.first, level, met, i, i + span);
        match inner {
            Ok(u) => {
                t = u;
            }
            Err(found) => {
                return blame(records, s, parent, i, end, found);
            }
        }
        s = row_after(s, row, child.kind);
        i += span;
    }
    settle(s, t, parent)
}

// Rows 2 to 4 on records, however they are stored: the first refusal and its place, or that there is none.
pub fn check_records<R: Records>(records: R) -> Result<(), Refused>
    ensures { result ≡ shape_of (R.words records) }
{
    if !records.is_whole() {
        return Err(Row::BadLength.at(0));
    }
    let count = records.count();
    if count > MOST_RECORDS {
        return Err(Row::BadLength.at(0));
    }
    if count == 0 {
        return Err(Row::BadShape.at(0));
    }
    walk(records, 1, 1, 0, 0, 0, count)?;
    Ok(())
}

// Rows 2 to 4 on any words: the first refusal and its place, or that there is none.
pub fn check(tree: &[u64]) -> Result<(), Refused>
    ensures { result ≡ shape_of tree.now }
{
    check_records(Words(tree))
}
