// What goes out element by element, and a case's numbers as bytes.
use std::fmt::Display;
use std::io;

pub(crate) fn print_all<T: Display>(rt: &impl Print, elements: &[T]) -> io::Result<()> {
    for element in elements {
        print!(rt; " {element}")?;
    }
    Ok(())
}

// The numbers' lowest bytes, as many as there is room for.
pub(crate) fn copy_bytes(from: &[u64], to: &mut [u8]) {
    for (to, from) in to.iter_mut().zip(from) {
        *to = (*from % 256) as u8;
    }
}
