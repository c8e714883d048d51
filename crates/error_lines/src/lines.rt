// A line of an error, and the lines of a list.
ghost use Rattle.std.specs.Prelude.{◌≡◌};
ghost use Rattle.error_lines.specs.Puts.{Writes};
ghost use Rattle.error_lines.specs.Listed.{listed};
ghost use Rattle.error_lines.specs.Lines.{value_field, error_line, errors_in, lines_of};
ghost use Rattle.error_lines.specs.Messages.{message};

use crate::buffer::Sink;
use crate::known::{ListedError, holds_text};
use crate::texts::Texts;
use column_lines::line::NEWLINE;
use words::UnknownNumber;
use words::areas::ERROR_WORDS;
use words::record::{INTEGER, column_of, line_of};
use words::reply::CompileError;

// The Rust's messages. A number that is no error's has none.
#[tactic(auto, unfolding(crate::specs::Messages::message), using(crate::proofs::Messages::no_message))]
fn message(number: u64) -> &'static [u8]
    ensures { result.now ≡ message number }
{
    match CompileError::try_from(number) {
        Ok(CompileError::VariableExists) => b"variable already exists",
        Ok(CompileError::CanNotAssign) => b"can not assign",
        Ok(CompileError::UnknownOperation) => b"unknown operation",
        Ok(CompileError::RescueInLayer) => b"rescue can only in the layer of function",
        Ok(CompileError::ConstantOnly) => b"value in local definition can be constant only",
        Ok(CompileError::PropertyExists) => b"property already exists",
        Ok(CompileError::ParameterExists) => b"parameter already exists",
        Ok(CompileError::InstanceFunction) => b"instance function can inside implement block only",
        Ok(CompileError::NotAModel) => b"is not a model",
        Ok(CompileError::ModelNotFound) => b"can not found model",
        Ok(CompileError::Ring) => b"ring",
        Err(UnknownNumber(_)) => b"",
    }
}

impl<'a> Sink<'a> {
    #[tactic(auto, unfolding(crate::specs::Lines::value_field))]
    fn put_value(&mut self, texts: Texts<'_>, kind: u64, value: u64)
        ensures { Writes (value_field texts.entry.table.now texts.entry.bytes.now kind value) self.old self.new }
    {
        if holds_text(kind) {
            self.put_text(texts, value);
        } else {
            self.put_number(value, kind == INTEGER);
        }
    }

    fn put_line(&mut self, texts: Texts<'_>, file: u64, error: ListedError)
        ensures { Writes (error_line texts.entry.table.now texts.entry.bytes.now file (listed error)) self.old self.new }
    {
        self.put_bytes(message(error.number));
        self.put_between();
        self.put_text(texts, error.file(file));
        self.put_between();
        self.put_number(line_of(error.position), false);
        self.put_between();
        self.put_number(column_of(error.position), false);
        self.put_between();
        self.put_number(error.kind, false);
        self.put_between();
        self.put_value(texts, error.kind, error.shown_value());
        self.put(NEWLINE);
    }

    // The lines of the list in an area.
    pub fn put_lines(&mut self, errors: &[u64], file: u64, texts: Texts<'_>)
        ensures { Writes (lines_of texts.entry.table.now texts.entry.bytes.now file (errors_in errors.now)) self.old self.new }
    {
        for i in 0..errors.len() / ERROR_WORDS {
            let error = ListedError::at(errors, i);
            if error.is_zeros() {
                return;
            }
            self.put_line(texts, file, error);
        }
    }
}
