// What stands in the fields of records.
ghost use Rattle.std.specs.Prelude.{◌+◌, ◌<◌, ◌^◌, ◌++◌, ◌∷◌, [], ℕ, List, length, OnOk};
ghost use Rattle.report.specs.Records.{HasWritten};

use aggregate::Cell;
use beas_core::{Name, NoMemory, Text, Value};
use csv::Writer;
use itoa::Buffer;
use std::io::Write;

/// What can stand in a field of a record.
pub trait Field {
    /// Its text.
    ghost field: { Self → List ℕ };

    /// Writes it as the next field of the record.
    fn write_to<W: Write + Drop>(&self, writer: &mut Writer<W>) -> Result<(), NoMemory>
        ensures { OnOk result ((before : List ℕ) (fields : List (List ℕ)) → length fields + 1 < 2 ^ 64
            → HasWritten W.contents writer.old before fields
            → HasWritten W.contents writer.new before (fields ++ field self.now ∷ [])) };
}

impl Field for Name {
    ghost field = { λ name. name };

    fn write_to<W: Write + Drop>(&self, writer: &mut Writer<W>) -> Result<(), NoMemory> {
        write_field(writer, self.as_str())
    }
}

impl Field for Text {
    ghost field = { λ text. text };

    fn write_to<W: Write + Drop>(&self, writer: &mut Writer<W>) -> Result<(), NoMemory> {
        write_field(writer, self.as_str())
    }
}

impl Field for Value {
    ghost use Rattle.report.specs.Reports.{field_text};

    ghost field = { field_text };

    fn write_to<W: Write + Drop>(&self, writer: &mut Writer<W>) -> Result<(), NoMemory> {
        match self {
            Value::Int(number) => write_field(writer, Buffer::new().format(*number)),
            Value::Str(words) => write_field(writer, words.as_str()),
        }
    }
}

impl Field for Cell {
    ghost use Rattle.report.specs.Reports.{cell_text};

    ghost field = { cell_text };

    fn write_to<W: Write + Drop>(&self, writer: &mut Writer<W>) -> Result<(), NoMemory> {
        match self {
            Cell::Plain(value) => value.write_to(writer),
            Cell::Count(count) => write_field(writer, Buffer::new().format(*count)),
            Cell::Sum(sum) => write_field(writer, Buffer::new().format(*sum)),
        }
    }
}

/// Writes a text as the next field of the record.
fn write_field<W: Write + Drop>(writer: &mut Writer<W>, field: &str) -> Result<(), NoMemory>
    ensures { OnOk result ((before : List ℕ) (fields : List (List ℕ)) → length fields + 1 < 2 ^ 64
        → HasWritten W.contents writer.old before fields
        → HasWritten W.contents writer.new before (fields ++ field.now ∷ [])) }
{
    if let Err(_) = writer.write_field(field.as_bytes()) {
        return Err(NoMemory);
    }
    Ok(())
}
