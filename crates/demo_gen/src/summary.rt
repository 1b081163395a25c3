// The summary of a demonstration: one line of totals.
ghost use Rattle.std.specs.Prelude.{◌≡◌, ◌+◌, ◌<◌, ◌^◌, ◌∷◌, ◌++◌, [], List, IfOk};
ghost use Rattle.demo_gen.specs.declared.summary.Outcome.{Outcome};
ghost use Rattle.demo_gen.specs.Summaries.{summary_text, totals_of};

use beas_core::{NoMemory, Text};
use itoa::Buffer;
use std::alloc::Global;
use std::marker::Model;

/// What is counted of a statement.
#[derive(Clone, Copy, Debug)]
pub enum Outcome {
    Refused,
    /// A query was answered with so many rows and reads, and this number was announced before.
    Answered {
        rows: usize,
        reads: u128,
        bound: u128,
    },
    Other,
}

/// The totals over statements. Reads past 128 bits stay at the greatest number that has them.
#[derive(Debug, Drop)]
pub struct Summary {
    statements: u32,
    refused: u32,
    rows: u128,
    reads: u128,
    bound: u128,
}

impl Model for Summary {
    ghost use Rattle.std.specs.Prelude.{◌≤◌, ◌*◌, ◌^◌};
    ghost use Rattle.demo_gen.specs.Summaries.{Totals};

    ghost Value = { Totals };

    ghost view = { λ s. record {
      statements = s.statements;
      refused = s.refused;
      rows = s.rows;
      reads = s.reads;
      bound = s.bound;
    } };

    ghost invariant = { λ s. (s.refused ≤ s.statements) × (s.rows ≤ s.statements * 2 ^ 64) };
}

impl Summary {
    /// Of no statement.
    pub fn new() -> Summary
        ensures { result ≡ totals_of [] }
    {
        Summary {
            statements: 0,
            refused: 0,
            rows: 0,
            reads: 0,
            bound: 0,
        }
    }

    /// Counts one more statement.
    pub fn add(&mut self, outcome: Outcome)
        requires { self.old.statements + 1 < 2 ^ 32 }
        ensures { (outcomes : List Outcome) → self.old ≡ totals_of outcomes
            → self.new ≡ totals_of (outcomes ++ outcome ∷ []) }
    {
        self.statements += 1;
        match outcome {
            Outcome::Refused => self.refused += 1,
            Outcome::Answered { rows, reads, bound } => {
                self.rows += rows as u128;
                self.reads = self.reads.saturating_add(reads);
                self.bound = self.bound.max(bound);
            }
            Outcome::Other => {}
        }
    }

    /// The line of the totals.
    #[tactic(auto, unfolding(crate::specs::Summaries::summary_text))]
    pub fn text(&self, alloc: Global) -> Result<Text, NoMemory>
        ensures { IfOk result (λ text. text ≡ summary_text self.now) }
    {
        let mut text = Text::from_str(alloc, "statements ")?;
        text.push_str(Buffer::new().format(self.statements))?;
        text.push_str(" refused ")?;
        text.push_str(Buffer::new().format(self.refused))?;
        text.push_str(" rows ")?;
        text.push_str(Buffer::new().format(self.rows))?;
        text.push_str(" reads ")?;
        text.push_str(Buffer::new().format(self.reads))?;
        text.push_str(" greatest bound ")?;
        text.push_str(Buffer::new().format(self.bound))?;
        text.push_str("\n")?;
        Ok(text)
    }
}
