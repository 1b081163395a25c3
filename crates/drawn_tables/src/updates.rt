// Drawn updates, carried out on a plain list of rows, and the script that has them.
use crate::conditions::push_conditions;
use crate::draws::Draws;
use crate::plain::{Plain, Rule};
use crate::tables::{
    Fact, Shape, TABLES, comma, push_all, push_columns, push_creation, push_number, table_name,
    text_of,
};
use beas_core::{NoMemory, Text};
use std::alloc::Global;

/// A statement, and what is to be reported of it.
#[derive(Drop)]
pub struct Update {
    pub source: Text,
    report: Text,
}

/// The plain rows and constraints of the tables of `creations`, with the draws that change them.
#[derive(Drop)]
pub struct Twin {
    pub draws: Draws,
    pub plain: Plain,
    pub shape: Shape,
}

/// Statements, with the lines that are to be reported of them, and how many are refused.
#[derive(Drop)]
pub struct Batch {
    pub statements: Vec<Text>,
    pub wanted: Text,
    pub refused: u32,
}

/// The statement that creates a table without rows.
fn table_creation(alloc: Global, table: u8, shape: Shape) -> Result<Text, NoMemory> {
    let mut source = text_of(alloc, &["CREATE TABLE ", table_name(table), " "])?;
    push_creation(&mut source, shape)?;
    Ok(source)
}

/// The statements that create the tables r, s and t without rows.
pub fn creations(alloc: Global, shape: Shape) -> Result<Vec<Text>, NoMemory> {
    let mut statements = Vec::new(alloc);
    for table in 0..TABLES {
        statements.push(table_creation(alloc, table, shape)?)?;
    }
    Ok(statements)
}

/// Statements as a script.
pub fn script_of(alloc: Global, statements: &[Text]) -> Result<Text, NoMemory> {
    let mut script = Text::new(alloc);
    for statement in statements {
        push_all(&mut script, &[statement.as_str(), ";"])?;
    }
    Ok(script)
}

/// The columns of a table.
fn all_columns(alloc: Global, shape: Shape) -> Result<Vec<u8>, NoMemory> {
    let mut columns = Vec::new(alloc);
    for column in 0..shape.columns {
        columns.push(column)?;
    }
    Ok(columns)
}

/// A constraint without a key and without a limit that fetches all columns of r.
fn whole_rule(alloc: Global) -> Result<Rule, NoMemory> {
    let fetched = Vec::from_slice(alloc, &[0, 1, 2, 3])?;
    Ok(Rule {
        name: String::from_str(alloc, "whole")?,
        table: 0,
        key: Vec::new(alloc),
        fetched,
        bound: 0,
    })
}

/// Adds the statement that creates a constraint.
fn push_rule(alloc: Global, source: &mut Text, rule: &Rule) -> Result<(), NoMemory> {
    push_all(source, &["CREATE ACCESS ", rule.name.as_str(), " ON "])?;
    push_all(source, &[table_name(rule.table), " "])?;
    push_columns(source, &rule.key)?;
    source.push_str(" FETCH ")?;
    push_columns(source, &rule.fetched)?;
    source.push_str(" LIMIT ")?;
    push_number(alloc, source, rule.bound)
}

/// The statement that creates a constraint.
fn creation_of(alloc: Global, rule: &Rule) -> Result<Text, NoMemory> {
    let mut source = Text::new(alloc);
    push_rule(alloc, &mut source, rule)?;
    Ok(source)
}

/// Adds the literals of rows.
fn push_rows(
    alloc: Global,
    source: &mut Text,
    rows: &[Fact],
    shape: Shape,
) -> Result<(), NoMemory> {
    let columns = all_columns(alloc, shape)?;
    for (place, row) in rows.iter().enumerate() {
        source.push_str(comma(place))?;
        row.push_tuple(alloc, source, &columns)?;
    }
    Ok(())
}

impl Batch {
    /// No statements.
    pub fn new(alloc: Global) -> Batch {
        Batch {
            statements: Vec::new(alloc),
            wanted: Text::new(alloc),
            refused: 0,
        }
    }

    /// Adds the line of a report under this number.
    fn add_report(&mut self, alloc: Global, number: u32, report: &str) -> Result<(), NoMemory> {
        let is_refused = report.starts_with("refused");
        self.refused = self.refused.saturating_add(u32::from(is_refused));
        push_number(alloc, &mut self.wanted, number as usize)?;
        push_all(&mut self.wanted, &[" ", report, "\n"])
    }

    /// Adds an update as the statement with this number in the lines of reports.
    pub fn add(&mut self, alloc: Global, number: u32, update: Update) -> Result<(), NoMemory> {
        self.add_report(alloc, number, update.report.as_str())?;
        self.statements.push(update.source)?;
        Ok(())
    }
}

impl Twin {
    /// Tables without rows and constraints, and the draws of a seed.
    pub fn new(alloc: Global, seed: u64) -> Twin {
        Twin::shaped(alloc, seed, Shape::narrow())
    }

    /// The same of tables of another shape.
    pub fn shaped(alloc: Global, seed: u64, shape: Shape) -> Twin {
        Twin {
            shape,
            draws: Draws::new(seed),
            plain: Plain {
                rows: Vec::new(alloc),
                rules: Vec::new(alloc),
            },
        }
    }

    /// One to three drawn rows of a table.
    fn draw_rows(&mut self, alloc: Global, table: u8) -> Result<Vec<Fact>, NoMemory> {
        let mut rows = Vec::new(alloc);
        for _ in 0..self.draws.below(3) + 1 {
            rows.push(Fact::draw(&mut self.draws, table, self.shape))?;
        }
        Ok(rows)
    }

    /// Adds one to three drawn rows to a table, all or none, with their literals to a text. It gives the report.
    fn insert_drawn(
        &mut self,
        alloc: Global,
        table: u8,
        source: &mut Text,
    ) -> Result<Text, NoMemory> {
        let rows = self.draw_rows(alloc, table)?;
        push_rows(alloc, source, &rows, self.shape)?;
        self.plain.insert(alloc, &rows)
    }

    /// Adds one to three drawn rows to a table, all or none.
    pub fn insert(&mut self, alloc: Global) -> Result<Update, NoMemory> {
        let table = self.draws.below(TABLES);
        let mut source = text_of(alloc, &["INSERT INTO ", table_name(table), " VALUES "])?;
        let report = self.insert_drawn(alloc, table, &mut source)?;
        Ok(Update { source, report })
    }

    /// Removes the rows of a table that meet drawn conditions, which it adds to a text. It gives the report.
    fn delete_drawn(
        &mut self,
        alloc: Global,
        table: u8,
        source: &mut Text,
    ) -> Result<Text, NoMemory> {
        let count = self.draws.below(40).min(3);
        let names = &[table_name(table)];
        let tests = push_conditions(alloc, source, &mut self.draws, names, count)?;
        self.plain.delete(alloc, table, &tests)
    }

    /// Removes the rows of a table that meet drawn conditions.
    fn delete(&mut self, alloc: Global) -> Result<Update, NoMemory> {
        let table = self.draws.below(TABLES);
        let mut source = text_of(alloc, &["DELETE FROM ", table_name(table)])?;
        let report = self.delete_drawn(alloc, table, &mut source)?;
        Ok(Update { source, report })
    }

    /// Some columns, each once.
    fn columns(&mut self, alloc: Global, turns: u8) -> Result<Vec<u8>, NoMemory> {
        let mut columns = Vec::new(alloc);
        for _ in 0..turns {
            let column = self.draws.below(self.shape.columns.max(1));
            if !columns.contains(&column) {
                columns.push(column)?;
            }
        }
        Ok(columns)
    }

    /// A drawn name of a constraint, which may be live.
    fn draw_name(&mut self, alloc: Global) -> Result<String, NoMemory> {
        Ok(format!(in alloc; "k{}", self.draws.below(12))?)
    }

    /// Adds a constraint.
    fn create_rule(&mut self, alloc: Global, rule: Rule) -> Result<Update, NoMemory> {
        let source = creation_of(alloc, &rule)?;
        let report = self.plain.create(alloc, rule)?;
        Ok(Update { source, report })
    }

    /// Adds a constraint with this name whose limit is below `most`, and which fetches fewer columns than `wide`, or
    /// one. Where it is to have a key it has one, but on r it needn't.
    pub fn create(
        &mut self,
        alloc: Global,
        name: String,
        most: u8,
        wide: u8,
        with_key: bool,
    ) -> Result<Update, NoMemory> {
        let table = self.draws.below(TABLES);
        let bound = self.draws.below(most.max(1));
        let most_turns = self.shape.key_turns.max(1);
        let key_turns = self
            .draws
            .below(most_turns)
            .min(self.draws.below(most_turns));
        let fetched_turns = self.draws.below(wide.max(1)).max(1);
        let rule = Rule {
            name,
            table,
            key: self.columns(alloc, key_turns.max(u8::from(with_key && table > 0)))?,
            fetched: self.columns(alloc, fetched_turns)?,
            bound: usize::from(bound),
        };
        self.create_rule(alloc, rule)
    }

    /// Adds a constraint without a key that fetches all columns of r, and that holds.
    pub(crate) fn create_whole(&mut self, alloc: Global) -> Result<Update, NoMemory> {
        let mut rule = whole_rule(alloc)?;
        let most = rule.greatest(alloc, &self.plain.rows)?;
        rule.bound = most.saturating_add(usize::from(self.draws.below(3) + 1));
        self.create_rule(alloc, rule)
    }

    /// Drops a constraint by a drawn name.
    fn drop_rule(&mut self, alloc: Global) -> Result<Update, NoMemory> {
        let name = self.draw_name(alloc)?;
        let source = text_of(alloc, &["DROP ACCESS ", name.as_str()])?;
        let report = self.plain.drop_rule(alloc, name.as_str())?;
        Ok(Update { source, report })
    }

    /// Carries out one drawn update, which may be refused.
    fn next(&mut self, alloc: Global) -> Result<Update, NoMemory> {
        match self.draws.below(100) {
            0..=64 => self.insert(alloc),
            65..=79 => self.delete(alloc),
            80..=93 => {
                let name = self.draw_name(alloc)?;
                self.create(alloc, name, 10, 6, false)
            }
            _ => self.drop_rule(alloc),
        }
    }

    /// Carries out so many drawn updates, any of which may be refused.
    pub fn batch(&mut self, alloc: Global, count: u32) -> Result<Batch, NoMemory> {
        let mut batch = Batch::new(alloc);
        for nth in 0..count {
            batch.add(alloc, nth.saturating_add(1), self.next(alloc)?)?;
        }
        Ok(batch)
    }
}
