// `runtime/object.rs`: a constant, decoded from the pool's words. 01's kinds are numbers from 0 in the order of the cases.
ghost use Rattle.std.specs.Prelude.{◌≡◌};
ghost use Rattle.std.specs.Float.{binary64};
ghost use Rattle.std.specs.Float.Ieee.{of_bits, to_bits};
ghost use Rattle.words.specs.Numbers.{ReadAs};
ghost use Rattle.words.specs.Constants.{number_of_kind, word_of_integer, integer_of_word, decode_of, constant_at, kind_of, value_of};

use crate::UnknownNumber;
use crate::areas::{CONSTANT_WORDS, entry_word};
use std::num::{f64_from_bits_with_nan, f64_to_bits_with_nan};

// The words of an entry of constants, but for its global mark.
pub const CONSTANT_KIND: usize = 0;

pub const CONSTANT_VALUE: usize = 1;

// Kinds of constants, for the clauses and the code that take any number as a kind.
pub const NULL: u64 = Kind::Null as u64;

pub const BOOLEAN: u64 = Kind::Boolean as u64;

pub const INTEGER: u64 = Kind::Integer as u64;

pub const FLOAT: u64 = Kind::Float as u64;

pub const TEXT: u64 = Kind::Text as u64;

pub const MODEL: u64 = Kind::Model as u64;

pub const FUNCTION: u64 = Kind::Function as u64;

// `Program::NULL_CONSTANT_INDEX` and its neighbours: the first constants of every pool.
pub const NULL_CONSTANT: u64 = 0;

pub const TRUE_CONSTANT: u64 = 1;

pub const FALSE_CONSTANT: u64 = 2;

// `Object`, of which a pool has these cases.
#[derive(Clone, Copy)]
pub enum Constant {
    Null,
    Boolean(bool),
    Integer(i64),
    Float(f64),
    Text(u32),
    Model(u32),
    Function(u32),
}

// The case of a constant, numbered from 0 in the order of the cases.
#[derive(Clone, Copy, PartialEq, Eq)]
pub enum Kind {
    Null = 0,
    Boolean = 1,
    Integer = 2,
    Float = 3,
    Text = 4,
    Model = 5,
    Function = 6,
}

impl Kind {
    pub fn number(self) -> u64
        ensures { result ≡ number_of_kind self }
    {
        self as u64
    }
}

impl TryFrom<u64> for Kind {
    type Error = UnknownNumber;

    ghost try_from_gives = { ReadAs number_of_kind };

    fn try_from(number: u64) -> Result<Self, UnknownNumber> {
        match number {
            NULL => Ok(Kind::Null),
            BOOLEAN => Ok(Kind::Boolean),
            INTEGER => Ok(Kind::Integer),
            FLOAT => Ok(Kind::Float),
            TEXT => Ok(Kind::Text),
            MODEL => Ok(Kind::Model),
            FUNCTION => Ok(Kind::Function),
            _ => Err(UnknownNumber(number)),
        }
    }
}

// Two's complement.
pub fn integer_of_word(word: u64) -> i64
    ensures { result ≡ integer_of_word word }
{
    word.cast_signed()
}

pub fn word_of_integer(integer: i64) -> u64
    ensures { result ≡ word_of_integer integer }
{
    integer.cast_unsigned()
}

// Every NaN pattern is the one NaN.
pub fn float_of_word(word: u64) -> f64
    ensures { result ≡ of_bits binary64 word }
{
    f64_from_bits_with_nan(word)
}

// The NaN has one pattern of its own.
pub fn word_of_float(float: f64) -> u64
    ensures { result ≡ to_bits binary64 float }
{
    f64_to_bits_with_nan(float)
}

// Constant i of area 2; outside it, null.
#[tactic(auto, unfolding(crate::specs::Areas::entry_field))]
pub fn constant_at(constants: &[u64], i: usize) -> Option<Constant>
    ensures { result ≡ constant_at constants.now i }
{
    let kind = entry_word(constants, CONSTANT_WORDS, i, CONSTANT_KIND);
    let value = entry_word(constants, CONSTANT_WORDS, i, CONSTANT_VALUE);
    decode(kind, value)
}

// What a kind and a value of the pool are. A value that its kind has not is no constant, nor is another kind.
#[tactic(auto, unfolding(crate::specs::Constants::decode_of, crate::specs::Constants::numbered_of))]
fn decode(kind: u64, value: u64) -> Option<Constant>
    ensures { result ≡ decode_of kind value }
{
    let number = u32::try_from(value).ok();
    match Kind::try_from(kind) {
        Ok(Kind::Null) => (value == 0).then_some(Constant::Null),
        Ok(Kind::Boolean) => match value {
            0 => Some(Constant::Boolean(false)),
            1 => Some(Constant::Boolean(true)),
            _ => None,
        },
        Ok(Kind::Integer) => Some(Constant::Integer(integer_of_word(value))),
        Ok(Kind::Float) => Some(Constant::Float(float_of_word(value))),
        Ok(Kind::Text) => Some(Constant::Text(number?)),
        Ok(Kind::Model) => Some(Constant::Model(number?)),
        Ok(Kind::Function) => Some(Constant::Function(number?)),
        Err(UnknownNumber(_)) => None,
    }
}

impl Constant {
    pub fn kind(self) -> Kind
        ensures { number_of_kind result ≡ kind_of self }
    {
        match self {
            Constant::Null => Kind::Null,
            Constant::Boolean(_) => Kind::Boolean,
            Constant::Integer(_) => Kind::Integer,
            Constant::Float(_) => Kind::Float,
            Constant::Text(_) => Kind::Text,
            Constant::Model(_) => Kind::Model,
            Constant::Function(_) => Kind::Function,
        }
    }

    // The word that stands for it beside its kind.
    pub fn value(self) -> u64
        ensures { result ≡ value_of self }
    {
        match self {
            Constant::Null => 0,
            Constant::Boolean(truth) => u64::from(truth),
            Constant::Integer(integer) => word_of_integer(integer),
            Constant::Float(float) => word_of_float(float),
            Constant::Text(text) => u64::from(text),
            Constant::Model(model) => u64::from(model),
            Constant::Function(function) => u64::from(function),
        }
    }
}
