// The records of a text, one after the other.
ghost use Rattle.std.specs.Prelude.{◌≡◌, ◌≤◌, ◌+◌, ◌∷◌, [], length, IfOk, OnErr};
ghost use Rattle.std.specs.Bool.{MatchBool};
ghost use Rattle.csv.specs.Records.{fields_of};
ghost use Rattle.csv_load.specs.CsvRows.{records_of};
ghost use Rattle.csv_load.specs.Reading.{weight};

use beas_core::NoMemory;
use csv::{ByteRecord, Reader, ReaderBuilder};
use std::alloc::Global;
use std::marker::Model;

/// The records of a text that haven't been read yet.
#[derive(Drop)]
pub struct Records<'a> {
    reader: Reader<&'a [u8]>,
}

impl<'a> Model for Records<'a> {
    ghost use Rattle.std.specs.Prelude.{List, ℕ};
    ghost use Rattle.csv_load.specs.Reading.{left_of, IsPlain};

    ghost Value = { List (List (List ℕ)) };

    ghost view = { λ s. left_of s.reader };

    ghost invariant = { λ s. IsPlain s.reader };
}

impl<'a> Records<'a> {
    /// All records of a text, one leading mark EF BB BF dropped. It takes no memory.
    pub fn of(alloc: Global, text: &'a [u8]) -> Records<'a>
        ensures all { result ≡ records_of text.now }
        ensures few { weight result ≤ length text.now + 1 }
    {
        let reader = ReaderBuilder::new()
            .has_headers(false)
            .flexible(true)
            .from_reader(alloc, text);
        Records { reader }
    }

    /// Reads the next record into `fields`. False says that there is none.
    ///
    /// A slice always gives its bytes, so that an error says that memory ran out. No record comes after it.
    pub fn read(&mut self, fields: &mut ByteRecord) -> Result<bool, NoMemory>
        ensures ok { IfOk result
            (λ found. MatchBool found (self.old ≡ fields_of fields.new ∷ self.new) (self.old ≡ [])) }
        ensures err { OnErr result (self.new ≡ []) }
    {
        let found = match self.reader.read_byte_record(fields) {
            Ok(found) => found,
            Err(_) => return Err(NoMemory),
        };
        Ok(found)
    }
}
