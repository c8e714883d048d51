// `backend/compiler.rs`: the constants' pool with its global marks, and the errors.
ghost use Rattle.std.specs.Prelude.{◌≡◌};
ghost use Rattle.words.specs.Object.{is_shared};
ghost use Rattle.building.specs.Pool.{pooling, add_no_check_c, add_constant_c, mark_global_c, erring, push_error_c};

use crate::function_state::FunctionState;
use crate::taking;
use constant_slots::plain;
use constant_slots::plain::ConstantWords;
use words::{areas, object};

// The word of a constant's entry that is its global mark.
const GLOBAL_MARK: usize = 2;

// Which kinds `add_constant` looks for before it adds.
pub fn is_shared(kind: u64) -> bool
    ensures { result ≡ is_shared kind }
{
    matches!(kind, object::INTEGER | object::FLOAT | object::TEXT)
}

impl FunctionState {
    // The number of a constant that is added.
    pub fn add_constant_no_check(&mut self, constants: &mut [u64], kind: u64, value: u64) -> u64
        ensures { pooling result self.new constants.new ≡ add_no_check_c kind value self.old constants.old }
    {
        let index = self.constants as u64;
        let words = [kind, value, 0];
        taking::take(
            constants,
            areas::CONSTANTS,
            &mut self.full,
            &mut self.constants,
            words,
        );
        index
    }

    // The number of a constant, which is added where none is the same or its kind is not shared; 0 with the mark set.
    #[tactic(auto, unfolding(crate::specs::Pool::add_constant_c))]
    pub fn add_constant(&mut self, constants: &mut [u64], kind: u64, value: u64) -> u64
        ensures { pooling result self.new constants.new ≡ add_constant_c kind value self.old constants.old }
    {
        if self.full != 0 {
            return 0;
        }
        if is_shared(kind) {
            let wanted = ConstantWords { kind, value };
            if let Some(index) = plain::find(constants, self.constants, wanted) {
                return index;
            }
        }
        self.add_constant_no_check(constants, kind, value)
    }

    // `global_dependencies.insert`: the mark of a constant in use.
    #[tactic(auto, unfolding(crate::specs::Pool::mark_global_c))]
    pub fn mark_global(&self, constants: &mut [u64], index: u64)
        ensures { constants.new ≡ mark_global_c index self.now constants.old }
    {
        let i = index as usize;
        if self.full == 0 && i < self.constants {
            areas::write_word(constants, areas::CONSTANT_WORDS, i, GLOBAL_MARK, 1);
        }
    }

    // An error's number, and its token's position, kind and value.
    #[tactic(auto, unfolding(crate::specs::Pool::push_error_c))]
    pub fn push_error(
        &mut self,
        errors: &mut [u64],
        number: u64,
        position: u64,
        kind: u64,
        value: u64,
    )
        ensures { erring self.new errors.new ≡ push_error_c number position kind value self.old errors.old }
    {
        let words = [number, position, kind, value];
        taking::take(
            errors,
            areas::ERRORS,
            &mut self.full,
            &mut self.errors,
            words,
        );
    }
}
