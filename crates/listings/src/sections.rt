// The sections of 01's listing, each written from a place on.
ghost use Rattle.std.specs.Prelude.{◌≡◌};
ghost use Rattle.line_writer.specs.Placed.{placed};
ghost use Rattle.listings.specs.Lines.{lines_at};
ghost use Rattle.listings.specs.Sections.{section, each, function_code, errors_in, lists_errors};
ghost use Rattle.listings.specs.Selecting.{method_lines, selected};

use crate::lines::{ERROR_NUMBER, Section, write_entry};
use crate::methods::{least_above, method_after};
use line_writer::place::Place;
use words::areas::{CODE_WORDS, ERROR_WORDS, entry_word};
use words::program::{code_of, function_record};
use words::reply::{BOOK_FAULTY, RING};

// The lines of the first n entries of an area.
pub fn write_section(kind: Section, area: &[u64], n: u64, out: &mut [u8], place: Place) -> Place
    ensures { placed result out.new ≡ lines_at (section kind area.now n) (placed place out.old) }
{
    let mut at = place?;
    for i in 0..n as usize {
        at = write_entry(kind, area, i, out, Ok(at))?;
    }
    Ok(at)
}

// Each function's instructions.
pub fn write_code(functions: &[u64], code: &[u64], n: u64, out: &mut [u8], place: Place) -> Place
    ensures { placed result out.new
        ≡ lines_at (each (λ i. function_code functions.now code.now i) n) (placed place out.old) }
{
    let mut at = place?;
    for i in 0..n as usize {
        let f = function_record(functions, i);
        let part = code_of(code, f);
        let length = part.len() / CODE_WORDS;
        at = write_section(
            Section::Instructions(i as u64),
            part,
            length as u64,
            out,
            Ok(at),
        )?;
    }
    Ok(at)
}

#[tactic(auto, unfolding(crate::specs::Lines::lines_at))]
fn write_method(area: &[u64], method: Option<usize>, out: &mut [u8], place: Place) -> Place
    ensures { placed result out.new ≡ lines_at (method_lines area.now method) (placed place out.old) }
{
    match method {
        Some(i) => write_entry(Section::Methods, area, i, out, place),
        None => place,
    }
}

// Methods, by model, then name.
pub fn write_methods(area: &[u64], n: u64, out: &mut [u8], place: Place) -> Place
    ensures { placed result out.new ≡ lines_at (selected area.now n) (placed place out.old) }
{
    let count = n as usize;
    let mut at = place?;
    let mut method = least_above(area, count, None);
    for i in 0..count {
        at = write_method(area, method, out, Ok(at))?;
        method = method_after(area, count, method);
    }
    Ok(at)
}

// How many errors a refusal has: the entries ahead of the first without a number.
pub fn errors_in(errors: &[u64]) -> u64
    ensures { result ≡ errors_in errors.now }
{
    let n = errors.len() / ERROR_WORDS;
    let first = (0..n).position(|i| entry_word(errors, ERROR_WORDS, i, ERROR_NUMBER) == 0);
    first.unwrap_or(n) as u64
}

// Whether a refusal lists errors: after the program check's row 3 area 11 is as lent, and what it has are no errors of this call.
pub fn lists_errors(row: u64) -> bool
    ensures { result ≡ lists_errors row }
{
    row == BOOK_FAULTY || row == RING
}
