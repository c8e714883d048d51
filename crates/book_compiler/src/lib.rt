// `backend/compiler.rs` and `backend/dependency_solver.rs` over one lent memory: parts by number, the state of a function is lent beside them.
#![tactic(auto)]

ghost use Rattle.book_compiler.specs.Promise.{CompilesInto, LaysOnInto, TriesInto, CommitsInto};

mod book;
mod definitions;
mod driver;
mod ending;
mod expressions;
mod function_state;
mod functions;
mod grown;
mod implements;
mod includes;
mod lent;
mod locals;
mod methods;
mod models;
mod onto;
mod operations;
mod order;
mod pairs;
mod slots;
mod solver;
mod statements;
mod subtree;

use crate::grown::Order;
use memory::starts_of;
use words::areas;
use words::reply::{Reply, Totals};

// Compiles the books that the words of a tree spell, whatever the words are, into the areas of a memory, which follow each other by number: `lengths` has
// the words of each, and a length that passes the memory's end is cut there. What is left over is the table of slots through which constants are searched
// (2026-12): the answer is the same whatever its length and its words, and after the call it is zeros. In strict mode an include with a name that is not
// public in its file refuses the bundle (2026-07).
pub fn compile(tree: &[u64], strict: bool, lengths: [usize; 12], memory: &mut [u64]) -> Reply
    ensures { CompilesInto strict tree.now lengths memory.old memory.new result }
{
    let starts = starts_of(lengths, memory.len());
    areas::clear_from(memory, 0);
    driver::run(tree, strict, &starts, memory)
}

// Lays the books that the words of a tree spell onto a program that stands in the areas of a memory (2026-01), whatever the words, the memory and the totals
// are. First of all the program is checked: where an area fails, the memory and the totals stay as lent. Books that stand are passed over, and so are their
// includes. A refused bundle leaves the program as it stood; a delivered one adds to it.
pub fn lay_on(
    tree: &[u64],
    strict: bool,
    standing: Totals,
    lengths: [usize; 12],
    memory: &mut [u64],
) -> Reply
    ensures { LaysOnInto strict tree.now standing lengths memory.old memory.new result }
{
    grown::answer_onto(tree, strict, Order::Lay, standing, lengths, memory)
}

// `lay_on`, `trial` and `commit` stay three calls over one routine: the C interface has the three.

// What laying the books on would answer (2026-08), the totals that the program would have among it; the number of bundles is as lent. The program stays as it
// stands, and after rows 7 and 8 the errors are listed.
pub fn trial(
    tree: &[u64],
    strict: bool,
    standing: Totals,
    lengths: [usize; 12],
    memory: &mut [u64],
) -> Reply
    ensures { TriesInto strict tree.now standing lengths memory.old memory.new result }
{
    grown::answer_onto(tree, strict, Order::Trial, standing, lengths, memory)
}

// Lays on what a trial was answered `tried` for (2026-08): row 12 where the program has another number of bundles since, row 13 where the totals of the
// listing's
// line 1 are others; the program then stays as it stands.
pub fn commit(
    tree: &[u64],
    strict: bool,
    standing: Totals,
    tried: Totals,
    lengths: [usize; 12],
    memory: &mut [u64],
) -> Reply
    ensures { CommitsInto tried strict tree.now standing lengths memory.old memory.new result }
{
    grown::answer_onto(
        tree,
        strict,
        Order::Commit(tried),
        standing,
        lengths,
        memory,
    )
}
