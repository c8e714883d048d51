// The shape check of `tree`: the words of a case. Row and place, or 0 and 0. The program check answers in this form too.
use std::io;
use words::row::Refused;

pub(crate) fn print_shape(rt: &impl Print, shape: Result<(), Refused>) -> io::Result<()> {
    match shape {
        Ok(()) => print!(rt; " 0 0"),
        Err(refused) => print!(rt; " {} {}", refused.row.number(), refused.place),
    }
}

pub(crate) fn case(rt: &impl Print, words: &[u64]) -> io::Result<()> {
    print_shape(rt, tree::check(words))
}
