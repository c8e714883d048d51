// `runtime/opcode.rs`: opcodes, operations and the instruction word (01, 'Emission': opcode × 2^56 + operand).
ghost use Rattle.std.specs.Prelude.{◌≡◌};
ghost use Rattle.words.specs.Opcode.{word, unword, to_instruction};
ghost use Rattle.words.specs.Codes.{number_of, number_of_operation, opcode_of, code_word, read_word};

// The numbers of the operations, for code that takes any number as an operand of `OpCode::Operation`.
pub const OPERATION_ADD: u64 = Operation::Add as u64;

pub const OPERATION_SUB: u64 = Operation::Sub as u64;

pub const OPERATION_MULTIPLY: u64 = Operation::Multiply as u64;

pub const OPERATION_DIVIDE: u64 = Operation::Divide as u64;

pub const OPERATION_MOD: u64 = Operation::Mod as u64;

pub const OPERATION_EQUAL: u64 = Operation::Equal as u64;

pub const OPERATION_GREATER: u64 = Operation::Greater as u64;

pub const OPERATION_LESS: u64 = Operation::Less as u64;

pub const OPERATION_GREATER_EQUAL: u64 = Operation::GreaterEqual as u64;

pub const OPERATION_LESS_EQUAL: u64 = Operation::LessEqual as u64;

pub const OPERATION_AND: u64 = Operation::And as u64;

pub const OPERATION_OR: u64 = Operation::Or as u64;

// What an opcode of one is worth in an instruction's word: 2^56.
pub const OPCODE_UNIT: u64 = 72057594037927936;

// A word of code. Only `OpCode::to_instruction` makes one, so that it is not confused with an operand or an index.
#[derive(Clone, Copy, PartialEq, Eq)]
pub struct Instruction(u64);

#[derive(Clone, Copy, PartialEq, Eq)]
pub enum OpCode {
    Pop = 0x01,
    PushConstant = 0x02,
    Return = 0x05,
    LocalSet = 0x06,
    LocalGet = 0x07,
    LocalInit = 0x08,
    ContextSet = 0x0C,
    ContextGet = 0x0D,
    GlobalSet = 0x11,
    GlobalGet = 0x12,
    InstanceSet = 0x13,
    InstanceGet = 0x14,
    IndexSet = 0x15,
    IndexGet = 0x16,
    Operation = 0x21,
    Not = 0x22,
    Negative = 0x23,
    Closure = 0x31,
    Call = 0x32,
    Array = 0x36,
    PushNewMap = 0x41,
    Jump = 0x51,
    JumpIf = 0x52,
    ForNext = 0x56,
    Iterate = 0x57,
    Unknown = 0xFF,
}

// The operands of `OpCode::Operation`.
#[derive(Clone, Copy, PartialEq, Eq)]
pub enum Operation {
    Add = 0,
    Sub = 1,
    Multiply = 2,
    Divide = 3,
    Mod = 4,
    Equal = 5,
    Greater = 6,
    Less = 7,
    GreaterEqual = 8,
    LessEqual = 9,
    And = 257,
    Or = 258,
}

impl OpCode {
    // The opcode's number in an instruction's word.
    pub fn number(self) -> u64
        ensures { result ≡ number_of self }
    {
        self as u64
    }

    // The Rust ors an operand of 2^56 or more into the opcode; here it is its low 56 bits (docs/DIFFERENCES.md).
    #[tactic(auto, unfolding(crate::specs::Opcode::word))]
    pub fn to_instruction(self, operand: u64) -> Instruction
        ensures { code_word result ≡ word (to_instruction (number_of self) operand) }
    {
        Instruction(self.number() * OPCODE_UNIT + operand % OPCODE_UNIT)
    }
}

// Of a number that no opcode has, `Unknown`.
impl From<u64> for OpCode {
    ghost from_gives = { λ number code. code ≡ opcode_of number };

    #[tactic(auto, unfolding(crate::specs::Codes::opcode_of))]
    fn from(number: u64) -> OpCode {
        match number {
            0x01 => OpCode::Pop,
            0x02 => OpCode::PushConstant,
            0x05 => OpCode::Return,
            0x06 => OpCode::LocalSet,
            0x07 => OpCode::LocalGet,
            0x08 => OpCode::LocalInit,
            0x0C => OpCode::ContextSet,
            0x0D => OpCode::ContextGet,
            0x11 => OpCode::GlobalSet,
            0x12 => OpCode::GlobalGet,
            0x13 => OpCode::InstanceSet,
            0x14 => OpCode::InstanceGet,
            0x15 => OpCode::IndexSet,
            0x16 => OpCode::IndexGet,
            0x21 => OpCode::Operation,
            0x22 => OpCode::Not,
            0x23 => OpCode::Negative,
            0x31 => OpCode::Closure,
            0x32 => OpCode::Call,
            0x36 => OpCode::Array,
            0x41 => OpCode::PushNewMap,
            0x51 => OpCode::Jump,
            0x52 => OpCode::JumpIf,
            0x56 => OpCode::ForNext,
            0x57 => OpCode::Iterate,
            _ => OpCode::Unknown,
        }
    }
}

impl Operation {
    pub fn number(self) -> u64
        ensures { result ≡ number_of_operation self }
    {
        self as u64
    }
}

impl Instruction {
    #[tactic(auto, unfolding(crate::specs::Opcode::unword))]
    pub fn opcode(self) -> OpCode
        ensures { result ≡ opcode_of (unword (code_word self)).opcode }
    {
        OpCode::from(self.0 / OPCODE_UNIT)
    }

    #[tactic(auto, unfolding(crate::specs::Opcode::unword))]
    pub fn operand(self) -> u64
        ensures { result ≡ (unword (code_word self)).operand }
    {
        self.0 % OPCODE_UNIT
    }
}

// Of a word of code memory: through `to_instruction`, so that an opcode that is none becomes `Unknown`.
impl From<u64> for Instruction {
    ghost from_gives = { λ n instruction. code_word instruction ≡ read_word n };

    #[tactic(auto, unfolding(crate::specs::Codes::read_word))]
    fn from(word: u64) -> Instruction {
        OpCode::from(word / OPCODE_UNIT).to_instruction(word % OPCODE_UNIT)
    }
}

// The word as the code area has it.
impl From<Instruction> for u64 {
    ghost from_gives = { λ instruction n. n ≡ code_word instruction };

    fn from(instruction: Instruction) -> u64 {
        instruction.0
    }
}
