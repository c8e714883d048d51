// Records of 01, 'The tree': four words each, their kinds, positions and limits.
ghost use Rattle.std.specs.Prelude.{◌≡◌};
ghost use Rattle.words.specs.Record.{field_of, line_of, column_of, in_place};
ghost use Rattle.words.specs.Numbers.{ReadAs};
ghost use Rattle.words.specs.Kinds.{number_of_record, number_of_prefix, number_of_infix};

use crate::UnknownNumber;

// The words of a record.
pub const RECORD_WORDS: usize = 4;

pub const KIND: usize = 0;

pub const SPAN: usize = 1;

pub const POSITION: usize = 2;

pub const VALUE: usize = 3;

// The kinds of records.
#[derive(Clone, Copy, PartialEq, Eq)]
pub enum RecordKind {
    Document = 1,
    LocalDefinition = 10,
    IncludeDefinition = 11,
    ModelDefinition = 12,
    PublicModelDefinition = 13,
    FunctionDefinition = 14,
    PublicFunctionDefinition = 15,
    ImplementDefinition = 16,
    ApplyDefinition = 17,
    LocalStatement = 20,
    ReturnStatement = 21,
    BreakStatement = 22,
    RescueStatement = 23,
    ForStatement = 24,
    ExpressionStatement = 25,
    Identifier = 30,
    This = 31,
    Null = 32,
    Integer = 33,
    Float = 34,
    String = 35,
    Boolean = 36,
    Array = 37,
    Prefix = 38,
    Infix = 39,
    Name = 40,
    ThisParameter = 41,
    If = 42,
    Block = 43,
    Call = 44,
    InstanceGet = 45,
    IndexGet = 46,
    OtherToken = 47,
    Absent = 49,
}

impl RecordKind {
    pub fn number(self) -> u64
        ensures { result ≡ number_of_record self }
    {
        self as u64
    }
}

impl TryFrom<u64> for RecordKind {
    type Error = UnknownNumber;

    ghost try_from_gives = { ReadAs number_of_record };

    fn try_from(number: u64) -> Result<Self, UnknownNumber> {
        match number {
            DOCUMENT => Ok(RecordKind::Document),
            LOCAL_DEFINITION => Ok(RecordKind::LocalDefinition),
            INCLUDE_DEFINITION => Ok(RecordKind::IncludeDefinition),
            MODEL_DEFINITION => Ok(RecordKind::ModelDefinition),
            PUBLIC_MODEL_DEFINITION => Ok(RecordKind::PublicModelDefinition),
            FUNCTION_DEFINITION => Ok(RecordKind::FunctionDefinition),
            PUBLIC_FUNCTION_DEFINITION => Ok(RecordKind::PublicFunctionDefinition),
            IMPLEMENT_DEFINITION => Ok(RecordKind::ImplementDefinition),
            APPLY_DEFINITION => Ok(RecordKind::ApplyDefinition),
            LOCAL_STATEMENT => Ok(RecordKind::LocalStatement),
            RETURN_STATEMENT => Ok(RecordKind::ReturnStatement),
            BREAK_STATEMENT => Ok(RecordKind::BreakStatement),
            RESCUE_STATEMENT => Ok(RecordKind::RescueStatement),
            FOR_STATEMENT => Ok(RecordKind::ForStatement),
            EXPRESSION_STATEMENT => Ok(RecordKind::ExpressionStatement),
            IDENTIFIER => Ok(RecordKind::Identifier),
            THIS => Ok(RecordKind::This),
            NULL => Ok(RecordKind::Null),
            INTEGER => Ok(RecordKind::Integer),
            FLOAT => Ok(RecordKind::Float),
            STRING => Ok(RecordKind::String),
            BOOLEAN => Ok(RecordKind::Boolean),
            ARRAY => Ok(RecordKind::Array),
            PREFIX => Ok(RecordKind::Prefix),
            INFIX => Ok(RecordKind::Infix),
            NAME => Ok(RecordKind::Name),
            THIS_PARAMETER => Ok(RecordKind::ThisParameter),
            IF => Ok(RecordKind::If),
            BLOCK => Ok(RecordKind::Block),
            CALL => Ok(RecordKind::Call),
            INSTANCE_GET => Ok(RecordKind::InstanceGet),
            INDEX_GET => Ok(RecordKind::IndexGet),
            OTHER_TOKEN => Ok(RecordKind::OtherToken),
            ABSENT => Ok(RecordKind::Absent),
            _ => Err(UnknownNumber(number)),
        }
    }
}

// The same as numbers, for the clauses and the code that take any number as a kind: documents and definitions.
pub const DOCUMENT: u64 = RecordKind::Document as u64;

pub const LOCAL_DEFINITION: u64 = RecordKind::LocalDefinition as u64;

pub const INCLUDE_DEFINITION: u64 = RecordKind::IncludeDefinition as u64;

pub const MODEL_DEFINITION: u64 = RecordKind::ModelDefinition as u64;

pub const PUBLIC_MODEL_DEFINITION: u64 = RecordKind::PublicModelDefinition as u64;

pub const FUNCTION_DEFINITION: u64 = RecordKind::FunctionDefinition as u64;

pub const PUBLIC_FUNCTION_DEFINITION: u64 = RecordKind::PublicFunctionDefinition as u64;

pub const IMPLEMENT_DEFINITION: u64 = RecordKind::ImplementDefinition as u64;

pub const APPLY_DEFINITION: u64 = RecordKind::ApplyDefinition as u64;

// Statements.
pub const LOCAL_STATEMENT: u64 = RecordKind::LocalStatement as u64;

pub const RETURN_STATEMENT: u64 = RecordKind::ReturnStatement as u64;

pub const BREAK_STATEMENT: u64 = RecordKind::BreakStatement as u64;

pub const RESCUE_STATEMENT: u64 = RecordKind::RescueStatement as u64;

pub const FOR_STATEMENT: u64 = RecordKind::ForStatement as u64;

pub const EXPRESSION_STATEMENT: u64 = RecordKind::ExpressionStatement as u64;

// Expressions, names and the rest.
pub const IDENTIFIER: u64 = RecordKind::Identifier as u64;

pub const THIS: u64 = RecordKind::This as u64;

pub const NULL: u64 = RecordKind::Null as u64;

pub const INTEGER: u64 = RecordKind::Integer as u64;

pub const FLOAT: u64 = RecordKind::Float as u64;

pub const STRING: u64 = RecordKind::String as u64;

pub const BOOLEAN: u64 = RecordKind::Boolean as u64;

pub const ARRAY: u64 = RecordKind::Array as u64;

pub const PREFIX: u64 = RecordKind::Prefix as u64;

pub const INFIX: u64 = RecordKind::Infix as u64;

pub const NAME: u64 = RecordKind::Name as u64;

pub const THIS_PARAMETER: u64 = RecordKind::ThisParameter as u64;

pub const IF: u64 = RecordKind::If as u64;

pub const BLOCK: u64 = RecordKind::Block as u64;

pub const CALL: u64 = RecordKind::Call as u64;

pub const INSTANCE_GET: u64 = RecordKind::InstanceGet as u64;

pub const INDEX_GET: u64 = RecordKind::IndexGet as u64;

pub const OTHER_TOKEN: u64 = RecordKind::OtherToken as u64;

pub const ABSENT: u64 = RecordKind::Absent as u64;

// What the value of a prefix stands for.
#[derive(Clone, Copy, PartialEq, Eq)]
pub enum PrefixOperator {
    Minus = 0,
    Not = 1,
    Other = 2,
}

impl TryFrom<u64> for PrefixOperator {
    type Error = UnknownNumber;

    ghost try_from_gives = { ReadAs number_of_prefix };

    fn try_from(number: u64) -> Result<Self, UnknownNumber> {
        match number {
            PREFIX_MINUS => Ok(PrefixOperator::Minus),
            PREFIX_NOT => Ok(PrefixOperator::Not),
            PREFIX_OTHER => Ok(PrefixOperator::Other),
            _ => Err(UnknownNumber(number)),
        }
    }
}

// The same as numbers.
pub const PREFIX_MINUS: u64 = PrefixOperator::Minus as u64;

pub const PREFIX_NOT: u64 = PrefixOperator::Not as u64;

pub const PREFIX_OTHER: u64 = PrefixOperator::Other as u64;

// What the value of an infix stands for.
#[derive(Clone, Copy, PartialEq, Eq)]
pub enum InfixOperator {
    Assign = 0,
    Plus = 1,
    Minus = 2,
    Star = 3,
    Slash = 4,
    Percent = 5,
    PlusAssign = 6,
    MinusAssign = 7,
    StarAssign = 8,
    SlashAssign = 9,
    PercentAssign = 10,
    Equal = 11,
    NotEqual = 12,
    Greater = 13,
    Less = 14,
    GreaterEqual = 15,
    LessEqual = 16,
    And = 17,
    Or = 18,
    Other = 19,
}

impl TryFrom<u64> for InfixOperator {
    type Error = UnknownNumber;

    ghost try_from_gives = { ReadAs number_of_infix };

    fn try_from(number: u64) -> Result<Self, UnknownNumber> {
        match number {
            INFIX_ASSIGN => Ok(InfixOperator::Assign),
            INFIX_PLUS => Ok(InfixOperator::Plus),
            INFIX_MINUS => Ok(InfixOperator::Minus),
            INFIX_STAR => Ok(InfixOperator::Star),
            INFIX_SLASH => Ok(InfixOperator::Slash),
            INFIX_PERCENT => Ok(InfixOperator::Percent),
            INFIX_PLUS_ASSIGN => Ok(InfixOperator::PlusAssign),
            INFIX_MINUS_ASSIGN => Ok(InfixOperator::MinusAssign),
            INFIX_STAR_ASSIGN => Ok(InfixOperator::StarAssign),
            INFIX_SLASH_ASSIGN => Ok(InfixOperator::SlashAssign),
            INFIX_PERCENT_ASSIGN => Ok(InfixOperator::PercentAssign),
            INFIX_EQUAL => Ok(InfixOperator::Equal),
            INFIX_NOT_EQUAL => Ok(InfixOperator::NotEqual),
            INFIX_GREATER => Ok(InfixOperator::Greater),
            INFIX_LESS => Ok(InfixOperator::Less),
            INFIX_GREATER_EQUAL => Ok(InfixOperator::GreaterEqual),
            INFIX_LESS_EQUAL => Ok(InfixOperator::LessEqual),
            INFIX_AND => Ok(InfixOperator::And),
            INFIX_OR => Ok(InfixOperator::Or),
            INFIX_OTHER => Ok(InfixOperator::Other),
            _ => Err(UnknownNumber(number)),
        }
    }
}

// The same as numbers.
pub const INFIX_ASSIGN: u64 = InfixOperator::Assign as u64;

pub const INFIX_PLUS: u64 = InfixOperator::Plus as u64;

pub const INFIX_MINUS: u64 = InfixOperator::Minus as u64;

pub const INFIX_STAR: u64 = InfixOperator::Star as u64;

pub const INFIX_SLASH: u64 = InfixOperator::Slash as u64;

pub const INFIX_PERCENT: u64 = InfixOperator::Percent as u64;

pub const INFIX_PLUS_ASSIGN: u64 = InfixOperator::PlusAssign as u64;

pub const INFIX_MINUS_ASSIGN: u64 = InfixOperator::MinusAssign as u64;

pub const INFIX_STAR_ASSIGN: u64 = InfixOperator::StarAssign as u64;

pub const INFIX_SLASH_ASSIGN: u64 = InfixOperator::SlashAssign as u64;

pub const INFIX_PERCENT_ASSIGN: u64 = InfixOperator::PercentAssign as u64;

pub const INFIX_EQUAL: u64 = InfixOperator::Equal as u64;

pub const INFIX_NOT_EQUAL: u64 = InfixOperator::NotEqual as u64;

pub const INFIX_GREATER: u64 = InfixOperator::Greater as u64;

pub const INFIX_LESS: u64 = InfixOperator::Less as u64;

pub const INFIX_GREATER_EQUAL: u64 = InfixOperator::GreaterEqual as u64;

pub const INFIX_LESS_EQUAL: u64 = InfixOperator::LessEqual as u64;

pub const INFIX_AND: u64 = InfixOperator::And as u64;

pub const INFIX_OR: u64 = InfixOperator::Or as u64;

pub const INFIX_OTHER: u64 = InfixOperator::Other as u64;

// Limits of rows 2 and 4, and the greatest number of a text.
pub const MOST_RECORDS: usize = 1048576;

pub const MOST_LEVELS: usize = 64;

pub const MOST_TEXT: u64 = 1048575;

// A position is line × POSITION_BASE + column, each at most MOST_PLACE.
pub const POSITION_BASE: u64 = 4294967296;

pub const MOST_PLACE: u64 = 99999999;

// The first record index whose words no index reaches: 2^62.
const RECORDS_END: usize = 4611686018427387904;

// Word k of the record at a place: KIND, SPAN, POSITION or VALUE; 0 outside.
#[tactic(auto, unfolding(crate::specs::Record::field_of))]
pub fn field(tree: &[u64], at: usize, k: usize) -> u64
    ensures { result ≡ field_of tree.now at k }
{
    if at < RECORDS_END && k < RECORD_WORDS {
        return tree.get(at * RECORD_WORDS + k).copied().unwrap_or(0);
    }
    0
}

// The line of a position's word; of any other word, its quotient by POSITION_BASE.
pub fn line_of(position: u64) -> u64
    ensures { result ≡ line_of position }
{
    position / POSITION_BASE
}

// The column of a position's word; of any other word, its remainder by POSITION_BASE.
pub fn column_of(position: u64) -> u64
    ensures { result ≡ column_of position }
{
    position % POSITION_BASE
}

// Whether a word is a position: its line and its column in range, each by itself.
#[tactic(auto, unfolding(crate::specs::Record::in_place))]
pub fn in_place(position: u64) -> bool
    ensures { result ≡ in_place position }
{
    line_of(position) <= MOST_PLACE && column_of(position) <= MOST_PLACE
}
