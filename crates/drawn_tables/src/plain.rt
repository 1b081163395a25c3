// Updates by scans of a plain list of rows, and what is to be reported of them.
use crate::conditions::Test;
use crate::tables::{Fact, text_of};
use beas_core::{NoMemory, Text};
use std::alloc::Global;

/// A live constraint: at most `bound` tuples of the fetched columns stand with each key.
#[derive(Drop)]
pub struct Rule {
    pub name: String,
    pub table: u8,
    pub key: Vec<u8>,
    pub fetched: Vec<u8>,
    pub bound: usize,
}

/// Why a constraint isn't taken: its name is live, its limit is zero, or a group of so many tuples is above its limit.
#[derive(Clone, Copy)]
enum Fault {
    NameIsLive,
    NoLimit,
    GroupAbove(usize),
}

/// The rows of all tables, and the live constraints in order of creation.
#[derive(Drop)]
pub struct Plain {
    pub rows: Vec<Fact>,
    pub rules: Vec<Rule>,
}

impl Rule {
    /// Whether two rows of its table have one key.
    fn joins(&self, left: &Fact, right: &Fact) -> bool {
        if left.table != self.table || right.table != self.table {
            return false;
        }
        for column in self.key.iter() {
            if left.at(*column) != right.at(*column) {
                return false;
            }
        }
        true
    }

    /// The key and the fetched columns.
    pub fn members(&self, alloc: Global) -> Result<Vec<u8>, NoMemory> {
        let mut columns = self.key.to_vec(alloc)?;
        columns.extend_from_slice(&self.fetched)?;
        Ok(columns)
    }

    /// The tuples of the rows that have the key of a row, each once, in order.
    pub fn group(
        &self,
        alloc: Global,
        rows: &[Fact],
        like: &Fact,
    ) -> Result<Vec<Vec<u8>>, NoMemory> {
        let columns = self.members(alloc)?;
        let mut tuples = Vec::new(alloc);
        for row in rows {
            if self.joins(row, like) {
                tuples.push(row.numbers(alloc, &columns)?)?;
            }
        }
        tuples.sort_unstable();
        tuples.dedup();
        Ok(tuples)
    }

    /// What is reported of a row, the nth of a statement, that breaks it.
    fn broken_text(&self, alloc: Global, row: &Fact, nth: usize) -> Result<Text, NoMemory> {
        let name = self.name.as_str();
        let why = format!(in alloc; "refused 12 row {nth} breaks {name} at key ")?;
        let mut why = Text::from_string(why);
        row.push_tuple(alloc, &mut why, &self.key)?;
        Ok(why)
    }

    /// What is reported of it where it isn't taken.
    fn faulty_text(&self, alloc: Global, fault: Fault) -> Result<Text, NoMemory> {
        match fault {
            Fault::NameIsLive => text_of(alloc, &["refused 7 duplicate name ", self.name.as_str()]),
            Fault::NoLimit => {
                Text::from_str(alloc, "refused 10 limit 0 not between 1 and 4294967295")
            }
            Fault::GroupAbove(most) => Ok(Text::from_string(format!(in alloc;
                "refused 11 greatest group {most} above limit {}",
                self.bound
            )?)),
        }
    }

    /// The number of tuples in its greatest group over some rows, which is the least limit that holds there.
    pub fn greatest(&self, alloc: Global, rows: &[Fact]) -> Result<usize, NoMemory> {
        let mut most = 0;
        for row in rows {
            most = self.group(alloc, rows, row)?.len().max(most);
        }
        Ok(most)
    }
}

/// What is reported of so many rows that were added or removed.
fn changed_text(alloc: Global, rows: usize) -> Result<Text, NoMemory> {
    Ok(Text::from_string(format!(in alloc; "ok {rows} rows")?))
}

/// Whether a row passes all tests.
fn passes_all(row: &Fact, tests: &[Test]) -> bool {
    for test in tests {
        if !test.passes(row) {
            return false;
        }
    }
    true
}

impl Plain {
    /// The first live constraint whose group with a row is too great.
    fn first_broken(&self, alloc: Global, row: &Fact) -> Result<Option<&Rule>, NoMemory> {
        for rule in self.rules.iter() {
            if rule.group(alloc, &self.rows, row)?.len() > rule.bound {
                return Ok(Some(rule));
            }
        }
        Ok(None)
    }

    /// What is reported of a row, the nth of a statement, where a constraint breaks with it.
    fn refusal_of_row(
        &self,
        alloc: Global,
        row: &Fact,
        nth: usize,
    ) -> Result<Option<Text>, NoMemory> {
        match self.first_broken(alloc, row)? {
            Some(rule) => Ok(Some(rule.broken_text(alloc, row, nth)?)),
            None => Ok(None),
        }
    }

    /// Adds rows, all or none, and gives the report.
    pub fn insert(&mut self, alloc: Global, more: &[Fact]) -> Result<Text, NoMemory> {
        let before = self.rows.len();
        let mut nth: usize = 0;
        for row in more {
            self.rows.push(*row)?;
            nth = nth.saturating_add(1);
            if let Some(why) = self.refusal_of_row(alloc, row, nth)? {
                self.rows.truncate(before);
                return Ok(why);
            }
        }
        changed_text(alloc, nth)
    }

    /// Removes the rows of a table that pass all tests, and gives the report.
    pub fn delete(&mut self, alloc: Global, table: u8, tests: &[Test]) -> Result<Text, NoMemory> {
        let before = self.rows.len();
        self.rows
            .retain(|row| row.table != table || !passes_all(row, tests));
        changed_text(alloc, before.saturating_sub(self.rows.len()))
    }

    fn is_live(&self, name: &str) -> bool {
        for rule in self.rules.iter() {
            if rule.name.as_str() == name {
                return true;
            }
        }
        false
    }

    /// Why a constraint isn't taken, if it isn't.
    fn fault_of(&self, alloc: Global, rule: &Rule) -> Result<Option<Fault>, NoMemory> {
        let most = rule.greatest(alloc, &self.rows)?;
        Ok(if self.is_live(rule.name.as_str()) {
            Some(Fault::NameIsLive)
        } else if rule.bound == 0 {
            Some(Fault::NoLimit)
        } else if most > rule.bound {
            Some(Fault::GroupAbove(most))
        } else {
            None
        })
    }

    /// Adds a constraint, and gives the report.
    pub fn create(&mut self, alloc: Global, rule: Rule) -> Result<Text, NoMemory> {
        match self.fault_of(alloc, &rule)? {
            Some(fault) => rule.faulty_text(alloc, fault),
            None => {
                self.rules.push(rule)?;
                Text::from_str(alloc, "ok")
            }
        }
    }

    /// Drops the constraint with a name, and gives the report. Refused is a name that isn't live.
    pub(crate) fn drop_rule(&mut self, alloc: Global, name: &str) -> Result<Text, NoMemory> {
        let before = self.rules.len();
        self.rules.retain(|other| other.name.as_str() != name);
        if self.rules.len() < before {
            return Text::from_str(alloc, "ok");
        }
        text_of(alloc, &["refused 25 unknown constraint ", name])
    }
}
