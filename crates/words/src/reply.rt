// The reply of the compile call (01, 'Replies of the compiler').
ghost use Rattle.std.specs.Prelude.{◌≡◌};
ghost use Rattle.words.specs.Numbers.{ReadAs};
ghost use Rattle.words.specs.Reply.{number_of_error, no_totals, refusal, delivery, total_of};

use crate::UnknownNumber;
use crate::areas::Area;
use crate::row::Row;

// The rows of refusals as numbers, for the clauses and the code that take any number as a row.
pub const BAD_LINE: u64 = Row::BadLine as u64;

pub const BAD_LENGTH: u64 = Row::BadLength as u64;

pub const BAD_SHAPE: u64 = Row::BadShape as u64;

pub const TOO_DEEP: u64 = Row::TooDeep as u64;

pub const BOOK_TWICE: u64 = Row::BookTwice as u64;

pub const BOOK_MISSING: u64 = Row::BookMissing as u64;

pub const BOOK_FAULTY: u64 = Row::BookFaulty as u64;

pub const RING: u64 = Row::Ring as u64;

pub const AREA_FULL: u64 = Row::AreaFull as u64;

pub const NAME_NOT_PUBLIC: u64 = Row::NameNotPublic as u64;

pub const STALE_TRIAL: u64 = Row::StaleTrial as u64;

pub const TOTALS_DIFFER: u64 = Row::TotalsDiffer as u64;

// What a book's mark of a full area holds where row 11 was met: this number and the include's index on, which no area has.
pub const FIRST_NOT_PUBLIC: u64 = 16;

// The errors, in the order of 01's list of the Rust's messages.
#[derive(Clone, Copy, PartialEq, Eq)]
pub enum CompileError {
    VariableExists = 1,
    CanNotAssign = 2,
    UnknownOperation = 3,
    RescueInLayer = 4,
    ConstantOnly = 5,
    PropertyExists = 6,
    ParameterExists = 7,
    InstanceFunction = 8,
    NotAModel = 9,
    ModelNotFound = 10,
    Ring = 11,
}

impl CompileError {
    pub fn number(self) -> u64
        ensures { result ≡ number_of_error self }
    {
        self as u64
    }
}

impl TryFrom<u64> for CompileError {
    type Error = UnknownNumber;

    ghost try_from_gives = { ReadAs number_of_error };

    fn try_from(number: u64) -> Result<Self, UnknownNumber> {
        match number {
            ERROR_VARIABLE_EXISTS => Ok(CompileError::VariableExists),
            ERROR_CAN_NOT_ASSIGN => Ok(CompileError::CanNotAssign),
            ERROR_UNKNOWN_OPERATION => Ok(CompileError::UnknownOperation),
            ERROR_RESCUE_IN_LAYER => Ok(CompileError::RescueInLayer),
            ERROR_CONSTANT_ONLY => Ok(CompileError::ConstantOnly),
            ERROR_PROPERTY_EXISTS => Ok(CompileError::PropertyExists),
            ERROR_PARAMETER_EXISTS => Ok(CompileError::ParameterExists),
            ERROR_INSTANCE_FUNCTION => Ok(CompileError::InstanceFunction),
            ERROR_NOT_A_MODEL => Ok(CompileError::NotAModel),
            ERROR_MODEL_NOT_FOUND => Ok(CompileError::ModelNotFound),
            ERROR_RING => Ok(CompileError::Ring),
            _ => Err(UnknownNumber(number)),
        }
    }
}

// The same as numbers, for the clauses and the code that take any number as an error's.
pub const ERROR_VARIABLE_EXISTS: u64 = CompileError::VariableExists as u64;

pub const ERROR_CAN_NOT_ASSIGN: u64 = CompileError::CanNotAssign as u64;

pub const ERROR_UNKNOWN_OPERATION: u64 = CompileError::UnknownOperation as u64;

pub const ERROR_RESCUE_IN_LAYER: u64 = CompileError::RescueInLayer as u64;

pub const ERROR_CONSTANT_ONLY: u64 = CompileError::ConstantOnly as u64;

pub const ERROR_PROPERTY_EXISTS: u64 = CompileError::PropertyExists as u64;

pub const ERROR_PARAMETER_EXISTS: u64 = CompileError::ParameterExists as u64;

pub const ERROR_INSTANCE_FUNCTION: u64 = CompileError::InstanceFunction as u64;

pub const ERROR_NOT_A_MODEL: u64 = CompileError::NotAModel as u64;

pub const ERROR_MODEL_NOT_FOUND: u64 = CompileError::ModelNotFound as u64;

pub const ERROR_RING: u64 = CompileError::Ring as u64;

// How many entries each area holds, the function that is the entry point, how many constants are global dependencies, and how many bundles were delivered
// into the program (2026-08).
#[repr(C)]
#[derive(Clone, Copy, Debug, Default, PartialEq, Eq)]
pub struct Totals {
    pub code: u64,
    pub constants: u64,
    pub functions: u64,
    pub models: u64,
    pub properties: u64,
    pub methods: u64,
    pub context_locals: u64,
    pub public_names: u64,
    pub scope_names: u64,
    pub breaks: u64,
    pub errors: u64,
    pub books: u64,
    pub entry_point: u64,
    pub global_dependencies: u64,
    pub bundles: u64,
}

// The number of a refusal's row, or 0, with its place, and the totals.
#[repr(C)]
#[derive(Clone, Copy, Debug, PartialEq, Eq)]
pub struct Reply {
    pub number: u64,
    pub place: u64,
    pub totals: Totals,
}

impl Totals {
    // Every total 0.
    pub fn none() -> Totals
        ensures { result ≡ no_totals }
    {
        Totals::default()
    }

    // The total of an area by its number; 0 for a number that no area has.
    pub fn total_of(self, area: u64) -> u64
        ensures { result ≡ total_of self area }
    {
        match Area::try_from(area) {
            Ok(Area::Code) => self.code,
            Ok(Area::Constants) => self.constants,
            Ok(Area::Functions) => self.functions,
            Ok(Area::Models) => self.models,
            Ok(Area::Properties) => self.properties,
            Ok(Area::Methods) => self.methods,
            Ok(Area::ContextLocals) => self.context_locals,
            Ok(Area::PublicNames) => self.public_names,
            Ok(Area::ScopeNames) => self.scope_names,
            Ok(Area::Breaks) => self.breaks,
            Ok(Area::Errors) => self.errors,
            Ok(Area::Books) => self.books,
            Err(UnknownNumber(_)) => 0,
        }
    }
}

impl Reply {
    // A refusal: its number and place, every total 0.
    pub fn refused(number: u64, place: u64) -> Reply
        ensures { result ≡ refusal number place }
    {
        Reply {
            number,
            place,
            totals: Totals::none(),
        }
    }

    // No refusal.
    pub fn delivered(totals: Totals) -> Reply
        ensures { result ≡ delivery totals }
    {
        Reply {
            number: 0,
            place: 0,
            totals,
        }
    }
}
