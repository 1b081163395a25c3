// Folded identifiers.
ghost use Rattle.std.specs.Prelude.{◌≡◌, ◌↔◌, IsTrue};
ghost use Rattle.beas_core.specs.Spelling.{is_name};

use crate::duplicate::Duplicate;
use crate::errors::NoMemory;
use crate::text::Text;
use std::alloc::Global;
use std::marker::Model;

/// A folded identifier: the name of a table, a column or a constraint, seen as its bytes.
#[derive(Debug, Drop)]
pub struct Name {
    text: Text,
}

impl Model for Name {
    ghost use Rattle.std.specs.Prelude.{List, ℕ};

    ghost Value = { List ℕ };

    ghost view = { λ s. s.text };

    ghost use Rattle.std.specs.Prelude.{IsTrue};
    ghost use Rattle.beas_core.specs.Spelling.{is_name};

    ghost invariant = { λ s. IsTrue (is_name s.text) };
}

impl Name {
    /// The text as a name. It takes no memory.
    pub fn from_text(text: Text) -> Name
        requires { IsTrue (is_name text) }
        ensures { result ≡ text }
    {
        Name { text }
    }

    pub fn as_str(&self) -> &str
        ensures { result.now ≡ self.now }
    {
        self.text.as_str()
    }

    /// Whether it is this text.
    pub fn is(&self, text: &str) -> bool
        ensures { IsTrue result ↔ (self.now ≡ text.now) }
    {
        self.as_str() == text
    }
}

impl Duplicate for Name {
    fn copy(&self, alloc: Global) -> Result<Name, NoMemory> {
        Ok(Name {
            text: self.text.copy(alloc)?,
        })
    }
}
