// The header and the rows of an answer, a record each, by csv's writer.
ghost use Rattle.std.specs.Prelude.{◌≡◌, ◌++◌, [], ℕ, List, map, OnOk};
ghost use Rattle.std.specs.List.{flat_map};
ghost use Rattle.report.specs.Records.{HasWritten};
ghost use Rattle.report.specs.Reports.{record_line, records_text};

use crate::fields::Field;
use beas_core::{List, NoMemory, Text};
use csv::{Writer, WriterBuilder};
use std::alloc::Global;
use std::io::Write;
use std::mem::ManuallyDrop;
use std::str;

/// Adds the header and the rows to a text.
pub fn push_records<H: Field, F: Field>(
    alloc: Global,
    text: &mut Text,
    header: &[H],
    rows: &[List<F>],
) -> Result<(), NoMemory>
    ensures { OnOk result (text.new ≡ text.old ++ records_text F.field (map H.field header.now) rows.now) }
{
    let mut bytes = Vec::new(alloc);
    push_written(text, &mut bytes, header, rows)
}

/// Adds them by way of some bytes, into which csv's writer writes them with its default settings; that records may
/// differ in width changes no byte. The writer has 8 KB, and each pass over those costs more than the records of a
/// small answer. So it is the first thing in the frame of a call of its own, where it is made in its place and once, and
/// it is neither moved nor dropped: once it is flushed, there is nothing to write or to give back.
#[inline(never)]
fn push_written<H: Field, F: Field>(
    text: &mut Text,
    bytes: &mut Vec<u8>,
    header: &[H],
    rows: &[List<F>],
) -> Result<(), NoMemory>
    requires { bytes.old.items ≡ [] }
    ensures { OnOk result (text.new ≡ text.old ++ records_text F.field (map H.field header.now) rows.now) }
{
    let mut writer = ManuallyDrop::new(WriterBuilder::new().flexible(true).from_writer(bytes));
    write_record(&mut *writer, header)?;
    write_rows(&mut *writer, rows)?;
    if let Err(_) = writer.flush() {
        return Err(NoMemory);
    }
    match str::from_utf8(writer.get_ref().as_slice()) {
        Ok(records) => text.push_str(records),
        Err(_) => unreachable!(),
    }
}

fn write_rows<F: Field, W: Write + Drop>(
    writer: &mut Writer<W>,
    rows: &[List<F>],
) -> Result<(), NoMemory>
    ensures { OnOk result ((before : List ℕ) → HasWritten W.contents writer.old before []
        → HasWritten W.contents writer.new
        (before ++ flat_map record_line (map (λ row. map F.field row) rows.now)) []) }
{
    for row in rows {
        write_record(writer, row.as_slice())?;
    }
    Ok(())
}

fn write_record<F: Field, W: Write + Drop>(
    writer: &mut Writer<W>,
    fields: &[F],
) -> Result<(), NoMemory>
    ensures { OnOk result ((before : List ℕ) → HasWritten W.contents writer.old before []
        → HasWritten W.contents writer.new (before ++ record_line (map F.field fields.now)) []) }
{
    for field in fields {
        field.write_to(writer)?;
    }
    end_record(writer)
}

/// Ends the record, which gets two quotes where it shows no byte.
fn end_record<W: Write + Drop>(writer: &mut Writer<W>) -> Result<(), NoMemory>
    ensures { OnOk result ((before : List ℕ) (fields : List (List ℕ)) → HasWritten W.contents writer.old before fields
        → HasWritten W.contents writer.new (before ++ record_line fields) []) }
{
    if let Err(_) = writer.end_record() {
        return Err(NoMemory);
    }
    Ok(())
}
