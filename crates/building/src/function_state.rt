// `backend/function_state.rs`: the state of the function under compilation, and its emission into area 1.
ghost use Rattle.std.specs.Prelude.{◌≡◌, ◌-◌, ◌<◌};
ghost use Rattle.words.specs.Codes.{code_word};
ghost use Rattle.building.specs.State.{begun};
ghost use Rattle.words.specs.Codes.{number_of};
ghost use Rattle.words.specs.Opcode.{word, to_instruction, Jump};
ghost use Rattle.building.specs.Emission.{coded, next_c, last_position_c, last_opcode_c, emit_c, emit_last_c, emit_null_c, pop_c, remove_pop_c};
ghost use Rattle.building.specs.Emission.{emit_return_c, replace_c, drop_c};
ghost use Rattle.building.specs.Emission.{breaking, emit_break_c, enter_break_c, patch_c, exit_break_c, deeper_c, depth_c, rescue_c, parameters_c};

use crate::taking;
use words::areas;
use words::object::NULL_CONSTANT;
use words::opcode::{Instruction, OPCODE_UNIT, OpCode};

// The numbers of the opcodes that emission looks for.
const POP: u64 = OpCode::Pop as u64;

const RETURN: u64 = OpCode::Return as u64;

// The Rust's `FunctionState`. Scopes and break scopes are flat: `names` and `breaks` count the live entries of areas 9 and 10, of which those from
// `scope_base` and `break_base` on are the innermost's. `code`, `constants` and `errors` count areas 1, 2 and 11; the function's own code starts at
// entry `base`. `full` is the first area that a step needed an entry beyond, 0 for none. `local_count` wraps at 2^64, which no book reaches.
// Counts beside lent areas, and no `Vec`: what a library crate works in is lent, and it takes no heap. `full` stays a number, and `break_base` a number beside
// `in_loop`: the definitions of specs/ (`Took`, `begun`, `exit_break_c`) name each by itself, and row 11's mark is no area's number.
#[derive(Clone, Copy)]
pub struct FunctionState {
    pub full: u64,
    pub code: usize,
    pub constants: usize,
    pub names: usize,
    pub breaks: usize,
    pub errors: usize,
    pub base: usize,
    pub scope_base: usize,
    pub break_base: usize,
    pub in_loop: bool,
    pub depth: usize,
    pub rescue_position: usize,
    pub is_instance: bool,
    pub parameter_count: usize,
    pub local_count: u64,
}

impl FunctionState {
    // Behind the code, the constants and the errors that stand.
    pub fn new(full: u64, code: usize, constants: usize, errors: usize) -> FunctionState
        ensures { result ≡ begun full code constants errors }
    {
        FunctionState {
            full,
            code,
            constants,
            names: 0,
            breaks: 0,
            errors,
            base: code,
            scope_base: 0,
            break_base: 0,
            in_loop: false,
            depth: 0,
            rescue_position: 0,
            is_instance: false,
            parameter_count: 0,
            local_count: 0,
        }
    }

    // 0 where the function has no instruction yet.
    pub fn get_last_position(&self, code: &[u64]) -> u64
        ensures { result ≡ last_position_c (coded self.now code.now) }
    {
        if self.base < self.code {
            return areas::entry_word(code, areas::CODE_WORDS, self.code - 1, 1);
        }
        0
    }

    // The opcode's number of the function's last instruction; 0 where it has none.
    fn last_opcode(&self, code: &[u64]) -> u64
        ensures { result ≡ last_opcode_c (coded self.now code.now) }
    {
        if self.base < self.code {
            let word = areas::entry_word(code, areas::CODE_WORDS, self.code - 1, 0);
            return word / OPCODE_UNIT;
        }
        0
    }

    pub fn get_next_instruction_index(&self) -> usize
        ensures { result ≡ next_c self.now }
    {
        self.code.saturating_sub(self.base)
    }

    #[tactic(auto, unfolding(crate::specs::Emission::emit_c))]
    pub fn emit(&mut self, code: &mut [u64], instruction: Instruction, position: u64)
        ensures { coded self.new code.new ≡ emit_c (code_word instruction) position (coded self.old code.old) }
    {
        let words = [u64::from(instruction), position];
        taking::take(code, areas::CODE, &mut self.full, &mut self.code, words);
    }

    pub fn emit_opcode(&mut self, code: &mut [u64], opcode: OpCode, position: u64)
        ensures { coded self.new code.new ≡ emit_c (word (to_instruction (number_of opcode) 0)) position (coded self.old code.old) }
    {
        self.emit(code, opcode.to_instruction(0), position);
    }

    // At the last instruction's position.
    pub fn emit_opcode_without_position(&mut self, code: &mut [u64], opcode: OpCode)
        ensures { coded self.new code.new ≡ emit_last_c (word (to_instruction (number_of opcode) 0)) (coded self.old code.old) }
    {
        let position = self.get_last_position(code);
        self.emit_opcode(code, opcode, position);
    }

    // Null at the last position, as three places of the Rust emit it.
    pub fn emit_null(&mut self, code: &mut [u64])
        ensures { coded self.new code.new ≡ emit_null_c (coded self.old code.old) }
    {
        let last = self.get_last_position(code);
        let instruction = OpCode::PushConstant.to_instruction(NULL_CONSTANT);
        self.emit(code, instruction, last);
    }

    // The last instruction given up.
    fn pop_last(&mut self, code: &mut [u64])
        requires { 0 < self.old.code }
        ensures { coded self.new code.new ≡ pop_c (coded self.old code.old) }
    {
        let last = self.code - 1;
        areas::write_entry(code, last, [0, 0]);
        self.code = last;
    }

    #[tactic(auto, using(crate::proofs::Emitting::has_last), unfolding(crate::specs::Emission::remove_pop_c))]
    pub fn remove_pop_or_push_null(&mut self, code: &mut [u64])
        ensures { coded self.new code.new ≡ remove_pop_c (coded self.old code.old) }
    {
        if self.full != 0 {
            return;
        }
        let last = self.last_opcode(code);
        if last == POP {
            self.pop_last(code);
        } else if last != RETURN {
            self.emit_null(code);
        }
    }

    #[tactic(auto, unfolding(crate::specs::Emission::emit_return_c))]
    pub fn emit_return(&mut self, code: &mut [u64], position: u64)
        ensures { coded self.new code.new ≡ emit_return_c position (coded self.old code.old) }
    {
        self.remove_pop_or_push_null(code);
        if self.last_opcode(code) != RETURN {
            self.emit_opcode(code, OpCode::Return, position);
        }
    }

    // An instruction of the function's own code.
    #[tactic(auto, unfolding(crate::specs::Emission::replace_c))]
    pub fn replace_instruction(&self, code: &mut [u64], index: usize, instruction: Instruction)
        ensures { coded self.now code.new ≡ replace_c index (code_word instruction) (coded self.now code.old) }
    {
        if self.full == 0 && index < self.get_next_instruction_index() {
            let word = u64::from(instruction);
            areas::write_word(code, areas::CODE_WORDS, self.base + index, 0, word);
        }
    }

    // A function that is dropped gives its code back (error 8).
    #[tactic(auto, unfolding(crate::specs::Emission::drop_c))]
    pub fn drop_function(&mut self, code: &mut [u64])
        ensures { coded self.new code.new ≡ drop_c (coded self.old code.old) }
    {
        if self.full == 0 {
            taking::give_up(code, areas::CODE_WORDS, self.base, self.code);
            self.code = self.base;
        }
    }

    // Outside of a loop nothing.
    #[tactic(auto, unfolding(crate::specs::Emission::emit_break_c))]
    pub fn emit_break(&mut self, code: &mut [u64], breaks: &mut [u64], position: u64)
        ensures { breaking self.new code.new breaks.new
            ≡ emit_break_c position (breaking self.old code.old breaks.old) }
    {
        if self.in_loop {
            let index = self.get_next_instruction_index();
            self.emit_opcode(code, OpCode::Jump, position);
            let words = [index as u64];
            taking::take(
                breaks,
                areas::BREAKS,
                &mut self.full,
                &mut self.breaks,
                words,
            );
        }
    }

    pub fn enter_break_scope(&mut self)
        ensures { self.new ≡ enter_break_c self.old }
    {
        if self.full == 0 {
            self.break_base = self.breaks;
            self.in_loop = true;
        }
    }

    // The innermost loop's breaks jump to the next instruction.
    fn patch_breaks(&self, code: &mut [u64], breaks: &[u64])
        ensures { code.new
            ≡ patch_c (self.now.breaks - self.now.break_base) self.now.break_base (word (to_instruction Jump (next_c self.now))) self.now
            breaks.now code.old }
    {
        let next = self.get_next_instruction_index();
        let instruction = OpCode::Jump.to_instruction(next as u64);
        for i in self.break_base..self.breaks {
            let index = areas::entry_word(breaks, areas::BREAK_WORDS, i, 0);
            self.replace_instruction(code, index as usize, instruction);
        }
    }

    // `start` and `inside` are those of the loop around.
    #[tactic(auto, unfolding(crate::specs::Emission::exit_break_c))]
    pub fn exit_break_scope(
        &mut self,
        code: &mut [u64],
        breaks: &mut [u64],
        start: usize,
        inside: bool,
    )
        ensures { breaking self.new code.new breaks.new
            ≡ exit_break_c start inside (breaking self.old code.old breaks.old) }
    {
        if self.full == 0 {
            self.patch_breaks(code, breaks);
            taking::give_up(breaks, areas::BREAK_WORDS, self.break_base, self.breaks);
            self.breaks = self.breaks.min(self.break_base);
            self.break_base = start;
            self.in_loop = inside;
        }
    }

    // A statement deeper. A tree is not deeper than its area has words: 2^64 - 1.
    pub fn deeper(&mut self)
        ensures { self.new ≡ deeper_c self.old }
    {
        if self.full == 0 {
            self.depth = self.depth.saturating_add(1);
        }
    }

    // Back to a depth.
    pub fn set_depth(&mut self, depth: usize)
        ensures { self.new ≡ depth_c depth self.old }
    {
        if self.full == 0 {
            self.depth = depth;
        }
    }

    // The rescue part starts at the next instruction.
    pub fn set_rescue(&mut self)
        ensures { self.new ≡ rescue_c self.old }
    {
        if self.full == 0 {
            self.rescue_position = self.get_next_instruction_index();
        }
    }

    pub fn set_parameters(&mut self, is_instance: bool, count: usize)
        ensures { self.new ≡ parameters_c is_instance count self.old }
    {
        if self.full == 0 {
            self.is_instance = is_instance;
            self.parameter_count = count;
        }
    }
}
