// The listing of 01: the lines of a delivery or a refusal, from the reply and the areas.
#![tactic(auto)]

pub mod lines;
pub mod methods;
pub mod sections;

ghost use Rattle.std.specs.Prelude.{◌≡◌, length};
ghost use Rattle.column_files.specs.Convert.{Converts};
ghost use Rattle.line_writer.specs.Placed.{placed};
ghost use Rattle.line_writer.specs.Written.{start_at};
ghost use Rattle.listings.specs.Lines.{lines_at};
ghost use Rattle.listings.specs.Listing.{areas_of, delivery_lines, refusal_lines, listing, Finishes};
ghost use Rattle.listings.specs.Sections.{totals_line, refusal_line};

use crate::lines::{REFUSAL, Section, TOTALS};
use crate::sections::{errors_in, lists_errors, write_code, write_methods, write_section};
use column_files::Converted;
use column_files::file::clear_bytes;
use line_writer::place::Place;
use line_writer::writer::{Fields, write_line};
use words::reply::{AREA_FULL, Reply, Totals};

// The areas that a listing shows, as they are lent.
#[derive(Clone, Copy)]
pub struct LentAreas<'a> {
    pub code: &'a [u64],
    pub constants: &'a [u64],
    pub functions: &'a [u64],
    pub models: &'a [u64],
    pub properties: &'a [u64],
    pub methods: &'a [u64],
    pub locals: &'a [u64],
    pub errors: &'a [u64],
    pub books: &'a [u64],
}

fn totals_line(totals: Totals) -> Fields
    ensures { result ≡ totals_line totals }
{
    Fields {
        section: TOTALS,
        first: totals.functions,
        second: totals.constants,
        third: totals.models,
        fourth: totals.context_locals,
        fifth: totals.entry_point,
        sixth: totals.books,
        last: totals.global_dependencies,
        signed: false,
    }
}

fn refusal_line(reply: Reply) -> Fields
    ensures { result ≡ refusal_line reply }
{
    Fields {
        section: REFUSAL,
        first: reply.number,
        second: reply.place,
        ..Fields::default()
    }
}

// A delivery: sections 1 to 10.
fn write_delivery(totals: Totals, lent: LentAreas<'_>, out: &mut [u8]) -> Place
    ensures { placed result out.new ≡ lines_at (delivery_lines totals (areas_of lent.entry)) (start_at 0 out.old) }
{
    let LentAreas {
        code,
        constants,
        functions,
        models,
        properties,
        methods,
        locals,
        errors: _,
        books,
    } = lent;
    let first = totals_line(totals);
    let at = write_line(out, 0, first);
    let at = write_section(Section::Functions, functions, totals.functions, out, at);
    let at = write_code(functions, code, totals.functions, out, at);
    let at = write_section(Section::Constants, constants, totals.constants, out, at);
    let at = write_section(Section::Models, models, totals.models, out, at);
    let at = write_section(Section::Properties, properties, totals.properties, out, at);
    let at = write_methods(methods, totals.methods, out, at);
    let at = write_section(
        Section::ContextValues,
        locals,
        totals.context_locals,
        out,
        at,
    );
    let at = write_section(Section::Globals, constants, totals.constants, out, at);
    write_section(Section::Files, books, totals.books, out, at)
}

// A refusal: section 0, then the errors, after rows 7 and 8.
fn write_refusal(reply: Reply, errors: &[u64], out: &mut [u8]) -> Place
    ensures { placed result out.new ≡ lines_at (refusal_lines reply errors.now) (start_at 0 out.old) }
{
    let first = refusal_line(reply);
    let place = write_line(out, 0, first);
    if lists_errors(reply.number) {
        let count = errors_in(errors);
        return write_section(Section::Errors, errors, count, out, place);
    }
    place
}

// The reply, and zeros after the text; where something did not fit, row 9 and zeros.
fn finish(out: &mut [u8], place: Place) -> Converted
    ensures { Finishes (placed place out.old) out.new result }
{
    match place {
        Ok(end) => {
            clear_bytes(out, end);
            Converted {
                number: 0,
                place: 0,
                total: end,
            }
        }
        Err(_) => {
            clear_bytes(out, 0);
            Converted {
                number: AREA_FULL,
                place: 0,
                total: 0,
            }
        }
    }
}

// Writes the listing of a reply and the areas: its bytes, zeros after them, and how many bytes. A number wider than its field or an output that is too short
// answers row 9, place 0, and leaves zeros.
pub fn write(reply: Reply, lent: LentAreas<'_>, out: &mut [u8]) -> Converted
    ensures { Converts (listing reply (areas_of lent.entry) lent.entry.errors.now (length out.old)) out.new result }
{
    let place = if reply.number == 0 {
        write_delivery(reply.totals, lent, out)
    } else {
        write_refusal(reply, lent.errors, out)
    };
    finish(out, place)
}
