// A JSON text that is being written.
ghost use Rattle.std.specs.Prelude.{◌≡◌, [], ◌∷◌, ◌++◌, decimal, OnOk};
ghost use Rattle.std.specs.Fmt.{signed_decimal};
ghost use Rattle.json.specs.Print.{print};
ghost use Rattle.json.specs.Token.{begin_object, end_object, begin_array, end_array, key, string, number, boolean};

use beas_core::{NoMemory, Text};
use itoa::Buffer;
use json::Writer;
use std::alloc::Global;
use std::marker::Model;

/// A JSON text, seen as its tokens. Commas and colons come by themselves; brackets are its callers' business.
#[derive(Drop)]
pub struct JsonText {
    writer: Writer,
}

impl Model for JsonText {
    ghost use Rattle.std.specs.Prelude.{◌≡◌, List, []};
    ghost use Rattle.json.specs.Token.{Token, tokens_code};

    ghost Value = { List Token };

    ghost coded = { tokens_code };

    ghost view = { λ s. s.writer.tokens };

    ghost invariant = { λ s. s.writer.before ≡ [] };
}

impl JsonText {
    /// The empty text, which takes no memory.
    pub fn new(alloc: Global) -> JsonText
        ensures { result ≡ [] }
    {
        JsonText {
            writer: Writer::new(Vec::new(alloc)),
        }
    }

    pub fn begin_object(&mut self) -> Result<(), NoMemory>
        ensures { OnOk result (self.new ≡ self.old ++ begin_object ∷ []) }
    {
        Ok(self.writer.begin_object()?)
    }

    pub fn end_object(&mut self) -> Result<(), NoMemory>
        ensures { OnOk result (self.new ≡ self.old ++ end_object ∷ []) }
    {
        Ok(self.writer.end_object()?)
    }

    pub fn begin_array(&mut self) -> Result<(), NoMemory>
        ensures { OnOk result (self.new ≡ self.old ++ begin_array ∷ []) }
    {
        Ok(self.writer.begin_array()?)
    }

    pub fn end_array(&mut self) -> Result<(), NoMemory>
        ensures { OnOk result (self.new ≡ self.old ++ end_array ∷ []) }
    {
        Ok(self.writer.end_array()?)
    }

    /// Begins a member, by its name.
    pub fn member(&mut self, name: &str) -> Result<(), NoMemory>
        ensures { OnOk result (self.new ≡ self.old ++ key name.now ∷ []) }
    {
        Ok(self.writer.key(name)?)
    }

    pub fn string(&mut self, text: &str) -> Result<(), NoMemory>
        ensures { OnOk result (self.new ≡ self.old ++ string text.now ∷ []) }
    {
        Ok(self.writer.string(text)?)
    }

    /// Adds a number as the string of its digits.
    pub fn digits(&mut self, n: u128) -> Result<(), NoMemory>
        ensures { OnOk result (self.new ≡ self.old ++ string (decimal n) ∷ []) }
    {
        self.string(Buffer::new().format(n))
    }

    pub fn natural(&mut self, n: u64) -> Result<(), NoMemory>
        ensures { OnOk result (self.new ≡ self.old ++ number (decimal n) ∷ []) }
    {
        Ok(self.writer.u64(n)?)
    }

    pub fn integer(&mut self, n: i64) -> Result<(), NoMemory>
        ensures { OnOk result (self.new ≡ self.old ++ number (signed_decimal n) ∷ []) }
    {
        Ok(self.writer.i64(n)?)
    }

    pub fn boolean(&mut self, b: bool) -> Result<(), NoMemory>
        ensures { OnOk result (self.new ≡ self.old ++ boolean b ∷ []) }
    {
        Ok(self.writer.boolean(b)?)
    }

    /// The text itself. It takes no memory.
    pub fn into_text(self) -> Text
        ensures { result ≡ print self }
    {
        match String::from_utf8(self.writer.into_inner()) {
            Ok(text) => Text::from_string(text),
            Err(_) => unreachable!(),
        }
    }
}
