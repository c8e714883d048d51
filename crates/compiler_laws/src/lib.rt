// The relations between memory and the definition of a book under compilation, and the laws of the steps. There is no routine here: `book_compiler` cites it.
#![tactic(auto)]

pub mod book;
