// The program check. `1 number number ..` has a program: fifteen totals (the last three are the entry point and the numbers of global dependencies and of
// bundles), the twelve lengths, the words of one memory. `2 place number ..` has the last such program with other numbers at some places of that case, counted
// from 0 behind the 1. Row and place, or 0 and 0.
use crate::MOST_NUMBERS;
use crate::shapes::print_shape;
use case_numbers::totals_of;
use program_check::check_program;
use std::io;

fn answer(rt: &impl Print, program: &[u64]) -> io::Result<()> {
    if let Some((totals, rest)) = program.split_first_chunk::<15>() {
        if let Some((lengths, memory)) = rest.split_first_chunk::<12>() {
            let lengths = lengths.map(|length| length as usize);
            return print_shape(rt, check_program(memory, lengths, totals_of(totals)));
        }
    }
    Ok(())
}

// The last program of a `1`. An array and a count, and no Vec: a case that allocated could fail after output has gone out.
#[derive(Clone, Copy)]
pub(crate) struct Program {
    numbers: [u64; MOST_NUMBERS],
    count: usize,
}

impl Program {
    // No program yet, so no numbers.
    pub(crate) fn none() -> Program {
        Program {
            numbers: [0; MOST_NUMBERS],
            count: 0,
        }
    }

    fn of(given: &[u64]) -> Program {
        let mut program = Program::none();
        for (word, number) in program.numbers.iter_mut().zip(given) {
            *word = *number;
        }
        program.count = given.len();
        program
    }

    fn numbers(&self) -> &[u64] {
        self.numbers.get(..self.count).unwrap_or(&[])
    }
}

// A case, and the last program of a `1`.
pub(crate) fn case(rt: &impl Print, numbers: &[u64], program: &mut Program) -> io::Result<()> {
    match numbers {
        [] => Ok(()),
        [1, given @ ..] => {
            *program = Program::of(given);
            answer(rt, given)
        }
        [_, edits @ ..] => {
            let mut edited = *program;
            for [place, number] in edits.as_chunks::<2>().0 {
                if let Some(at) = edited.numbers.get_mut(*place as usize) {
                    *at = *number;
                }
            }
            answer(rt, edited.numbers())
        }
    }
}
