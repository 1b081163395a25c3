// A text that grows lexeme by lexeme, with a space between two where one belongs.
ghost use Rattle.std.specs.Prelude.{◌≡◌, ◌++◌, ◌||◌, [], true, false, OnOk};
ghost use Rattle.sql_text.specs.Canonical.{keyword, name, digits, content, sign, gap, holds_left, holds_right};
ghost use Rattle.sql_text.specs.Writing.{put};

use beas_core::{Name, NoMemory, Text};
use sql_tokens::push_quoted;
use std::alloc::Global;
use std::marker::Model;

/// The text so far, and whether no space stands before what comes next.
#[derive(Drop)]
pub struct Writer {
    text: Text,
    held: bool,
}

impl Model for Writer {
    ghost use Rattle.sql_text.specs.Writing.{Written};

    ghost Value = { Written };

    ghost view = { λ w. record { text = w.text; held = w.held } };
}

impl Writer {
    pub fn new(alloc: Global) -> Writer
        ensures text { result.text ≡ [] }
        ensures held { result.held ≡ true }
    {
        Writer {
            text: Text::new(alloc),
            held: true,
        }
    }

    /// The text as it is. It takes no memory.
    pub fn into_text(self) -> Text
        ensures { result ≡ self.text }
    {
        self.text
    }

    fn space(&mut self, held: bool) -> Result<(), NoMemory>
        ensures text { OnOk result (self.new.text ≡ self.old.text ++ gap (self.old.held || held)) }
    {
        if !(self.held || held) {
            self.text.push_str(" ")?;
        }
        Ok(())
    }

    fn push(&mut self, spelling: &str) -> Result<(), NoMemory>
        ensures text { OnOk result (self.new.text ≡ self.old.text ++ spelling.now) }
        ensures held { OnOk result (self.new.held ≡ false) }
    {
        self.text.push_str(spelling)?;
        self.held = false;
        Ok(())
    }

    /// Adds a word of the grammar, in capitals.
    pub fn word(&mut self, text: &str) -> Result<(), NoMemory>
        ensures { OnOk result (self.new ≡ put self.old (keyword text.now)) }
    {
        self.space(false)?;
        self.push(text)
    }

    pub fn name(&mut self, text: &Name) -> Result<(), NoMemory>
        ensures { OnOk result (self.new ≡ put self.old (name text.now)) }
    {
        self.space(false)?;
        self.push(text.as_str())
    }

    /// Adds the digits of a number.
    pub fn number(&mut self, text: &Text) -> Result<(), NoMemory>
        ensures { OnOk result (self.new ≡ put self.old (digits text.now)) }
    {
        self.space(false)?;
        self.push(text.as_str())
    }

    /// Adds a text between quotes.
    pub fn quoted_text(&mut self, text: &Text) -> Result<(), NoMemory>
        ensures { OnOk result (self.new ≡ put self.old (content text.now)) }
    {
        self.space(false)?;
        push_quoted(&mut self.text, text.as_str())?;
        self.held = false;
        Ok(())
    }

    pub fn mark(&mut self, text: &str) -> Result<(), NoMemory>
        ensures { OnOk result (self.new ≡ put self.old (sign text.now)) }
    {
        self.space(text == "," || text == ")" || text == ".")?;
        self.text.push_str(text)?;
        self.held = text == "(" || text == "." || text == "-";
        Ok(())
    }
}
