// Statements.
ghost use Rattle.std.specs.Prelude.{◌≡◌, if◌then◌else◌, length};
ghost use Rattle.token_reader.specs.Reading.{GivesWithRest, begins_with, after_all, has_group};
ghost use Rattle.sql_parser.specs.Reading.{Adds, after, then_close, read_columns, read_key, read_fetched, read_create_table, read_access_names, read_key_and_fetched, read_limit, read_access_shape, read_create_access, read_drop_access, read_load, read_insert, read_delete, read_pairs, read_group, read_discover, read_explain, read_scan_ok, read_specialise, read_select, read_selection, words_of, read_opened, read_first, read_statement};

use crate::conditions::where_conditions;
use crate::groups::grouped;
use crate::parts::{commas, maybe_names};
use crate::queries::{block_term, query};
use beas_core::{AccessSpec, Column, List, Name, Text};
use sql_text::{Literal, Statement};
use std::alloc::Global;
use token_reader::{ReadError, Reader};

#[tactic(auto, unfolding(crate::specs::Reading::read_columns, crate::specs::Reading::then_close))]
fn columns(reader: &mut Reader, alloc: Global) -> Result<List<Column>, ReadError>
    ensures { GivesWithRest result reader.new (read_columns reader.old) }
{
    reader.want_mark("(")?;
    let columns = commas::<Column>(reader, alloc)?;
    reader.want_mark(")")?;
    Ok(columns)
}

#[tactic(auto, unfolding(crate::specs::Reading::read_key, crate::specs::Reading::then_close))]
fn key(reader: &mut Reader, alloc: Global) -> Result<List<Name>, ReadError>
    ensures { GivesWithRest result reader.new (read_key reader.old) }
{
    reader.want_mark("(")?;
    let names = maybe_names(reader, alloc)?;
    reader.want_mark(")")?;
    Ok(names)
}

#[tactic(auto, unfolding(crate::specs::Reading::read_fetched, crate::specs::Reading::then_close))]
fn fetch_list(reader: &mut Reader, alloc: Global) -> Result<List<Name>, ReadError>
    ensures { GivesWithRest result reader.new (read_fetched reader.old) }
{
    reader.want_word("fetch")?;
    reader.want_mark("(")?;
    let names = commas::<Name>(reader, alloc)?;
    reader.want_mark(")")?;
    Ok(names)
}

#[tactic(auto, unfolding(crate::specs::Reading::read_create_table))]
fn create_table(reader: &mut Reader, alloc: Global) -> Result<Statement, ReadError>
    ensures { GivesWithRest result reader.new (read_create_table reader.old) }
{
    let name = reader.name(alloc)?;
    let columns = columns(reader, alloc)?;
    Ok(Statement::CreateTable { name, columns })
}

/// Reads the names of a constraint and of its table.
#[tactic(auto, unfolding(crate::specs::Reading::read_access_names))]
fn access_names(reader: &mut Reader, alloc: Global) -> Result<(Name, Name), ReadError>
    ensures { GivesWithRest result reader.new (read_access_names reader.old) }
{
    let name = reader.name(alloc)?;
    reader.want_word("on")?;
    let table = reader.name(alloc)?;
    Ok((name, table))
}

#[tactic(auto, unfolding(crate::specs::Reading::read_limit))]
fn limit(reader: &mut Reader, alloc: Global) -> Result<Text, ReadError>
    ensures { GivesWithRest result reader.new (read_limit reader.old) }
{
    reader.want_word("limit")?;
    reader.number(alloc)
}

#[tactic(auto, unfolding(crate::specs::Reading::read_key_and_fetched))]
fn key_and_fetched(
    reader: &mut Reader,
    alloc: Global,
) -> Result<(List<Name>, List<Name>), ReadError>
    ensures { GivesWithRest result reader.new (read_key_and_fetched reader.old) }
{
    let key = key(reader, alloc)?;
    let fetched = fetch_list(reader, alloc)?;
    Ok((key, fetched))
}

/// Reads what stands after the names of a constraint: its key and what it fetches, and its limit.
#[tactic(auto, unfolding(crate::specs::Reading::read_access_shape))]
fn access_shape(
    reader: &mut Reader,
    alloc: Global,
) -> Result<((List<Name>, List<Name>), Text), ReadError>
    ensures { GivesWithRest result reader.new (read_access_shape reader.old) }
{
    let columns = key_and_fetched(reader, alloc)?;
    let limit = limit(reader, alloc)?;
    Ok((columns, limit))
}

fn create_access(reader: &mut Reader, alloc: Global) -> Result<Statement, ReadError>
    ensures { GivesWithRest result reader.new (read_create_access reader.old) }
{
    let (name, table) = access_names(reader, alloc)?;
    let ((key, fetched), limit) = access_shape(reader, alloc)?;
    let spec = AccessSpec {
        name,
        table,
        key,
        fetched,
        limit,
    };
    Ok(Statement::CreateAccess { spec })
}

#[tactic(auto, unfolding(crate::specs::Reading::read_drop_access))]
fn drop_access(reader: &mut Reader, alloc: Global) -> Result<Statement, ReadError>
    ensures { GivesWithRest result reader.new (read_drop_access reader.old) }
{
    let name = reader.name(alloc)?;
    Ok(Statement::DropAccess { name })
}

#[tactic(auto, unfolding(crate::specs::Reading::read_load))]
fn load(reader: &mut Reader, alloc: Global) -> Result<Statement, ReadError>
    ensures { GivesWithRest result reader.new (read_load reader.old) }
{
    let table = reader.name(alloc)?;
    reader.want_word("from")?;
    let file = reader.quoted_text(alloc)?;
    Ok(Statement::Load { table, file })
}

#[tactic(auto, unfolding(crate::specs::Reading::read_insert))]
fn insert(reader: &mut Reader, alloc: Global) -> Result<Statement, ReadError>
    ensures { GivesWithRest result reader.new (read_insert reader.old) }
{
    let table = reader.name(alloc)?;
    reader.want_word("values")?;
    let rows = commas::<List<Literal>>(reader, alloc)?;
    Ok(Statement::Insert { table, rows })
}

#[tactic(auto, unfolding(crate::specs::Reading::read_delete, crate::specs::Reading::after))]
fn delete(reader: &mut Reader, alloc: Global) -> Result<Statement, ReadError>
    ensures { GivesWithRest result reader.new (read_delete reader.old) }
{
    let table = reader.name(alloc)?;
    let mut conditions = List::new(alloc);
    where_conditions(reader, alloc, &mut conditions)?;
    Ok(Statement::Delete { table, conditions })
}

#[tactic(auto, unfolding(crate::specs::Reading::read_pairs))]
fn pairs(reader: &mut Reader, alloc: Global, table: Name) -> Result<Statement, ReadError>
    ensures { GivesWithRest result reader.new (read_pairs table reader.old) }
{
    let limit = reader.number(alloc)?;
    Ok(Statement::DiscoverPairs { table, limit })
}

#[tactic(auto, unfolding(crate::specs::Reading::read_group))]
fn group(reader: &mut Reader, alloc: Global, table: Name) -> Result<Statement, ReadError>
    ensures { GivesWithRest result reader.new (read_group table reader.old) }
{
    let key = key(reader, alloc)?;
    let fetched = fetch_list(reader, alloc)?;
    Ok(Statement::DiscoverGroup {
        table,
        key,
        fetched,
    })
}

#[tactic(auto, unfolding(crate::specs::Reading::read_discover))]
fn discover(reader: &mut Reader, alloc: Global) -> Result<Statement, ReadError>
    ensures { GivesWithRest result reader.new (read_discover reader.old) }
{
    let table = reader.name(alloc)?;
    if reader.take_word("limit") {
        return pairs(reader, alloc, table);
    }
    group(reader, alloc, table)
}

#[tactic(auto, unfolding(crate::specs::Reading::read_explain))]
fn explain(reader: &mut Reader, alloc: Global) -> Result<Statement, ReadError>
    ensures { GivesWithRest result reader.new (read_explain reader.old) }
{
    let tree = query(reader, alloc)?;
    Ok(Statement::Explain { tree })
}

#[tactic(auto, unfolding(crate::specs::Reading::read_select))]
fn select(reader: &mut Reader, alloc: Global) -> Result<Statement, ReadError>
    ensures { GivesWithRest result reader.new (read_select reader.old) }
{
    let tree = query(reader, alloc)?;
    Ok(Statement::Select { tree })
}

#[tactic(auto, unfolding(crate::specs::Reading::read_scan_ok))]
fn scan_ok(reader: &mut Reader, alloc: Global) -> Result<Statement, ReadError>
    ensures { GivesWithRest result reader.new (read_scan_ok reader.old) }
{
    let tree = query(reader, alloc)?;
    Ok(Statement::ScanOk { tree })
}

#[tactic(auto, unfolding(crate::specs::Reading::read_specialise))]
fn specialise(reader: &mut Reader, alloc: Global) -> Result<Statement, ReadError>
    ensures { GivesWithRest result reader.new (read_specialise reader.old) }
{
    let tree = block_term(reader, alloc)?;
    Ok(Statement::Specialise { tree })
}

/// Reads what begins with no other words: a query, or a grouped statement, which alone has a word GROUP.
#[tactic(auto, unfolding(crate::specs::Reading::read_selection))]
fn selection(reader: &mut Reader, alloc: Global, is_grouped: bool) -> Result<Statement, ReadError>
    requires { is_grouped ≡ has_group reader.now }
    ensures { GivesWithRest result reader.new (read_selection reader.old) }
{
    if is_grouped {
        return grouped(reader, alloc);
    }
    select(reader, alloc)
}

/// How a statement begins that isn't a query alone or grouped.
#[derive(Clone, Copy)]
enum Opening {
    CreateTable,
    CreateAccess,
    DropAccess,
    Load,
    Insert,
    Delete,
    Discover,
    Explain,
    ScanOk,
    Specialise,
}

const OPENINGS: [Opening; 10] = [
    Opening::CreateTable,
    Opening::CreateAccess,
    Opening::DropAccess,
    Opening::Load,
    Opening::Insert,
    Opening::Delete,
    Opening::Discover,
    Opening::Explain,
    Opening::ScanOk,
    Opening::Specialise,
];

/// Goes after the words of an opening, where they are next, and says whether they were.
#[tactic(auto, unfolding(token_reader::specs::Reading::begins_with, token_reader::specs::Reading::after_all))]
fn take_opening(reader: &mut Reader, opening: Opening) -> bool
    ensures found { result ≡ begins_with (words_of opening) reader.old }
    ensures rest { reader.new ≡ (if result then after_all (words_of opening) reader.old else reader.old) }
{
    match opening {
        Opening::CreateTable => reader.take_words("create", "table"),
        Opening::CreateAccess => reader.take_words("create", "access"),
        Opening::DropAccess => reader.take_words("drop", "access"),
        Opening::Load => reader.take_word("load"),
        Opening::Insert => reader.take_words("insert", "into"),
        Opening::Delete => reader.take_words("delete", "from"),
        Opening::Discover => reader.take_word("discover"),
        Opening::Explain => reader.take_word("explain"),
        Opening::ScanOk => reader.take_words("scan", "ok"),
        Opening::Specialise => reader.take_word("specialise"),
    }
}

/// Reads what stands after the words of an opening.
fn after_opening(
    reader: &mut Reader,
    alloc: Global,
    opening: Opening,
) -> Result<Statement, ReadError>
    ensures { GivesWithRest result reader.new (read_opened opening reader.old) }
{
    match opening {
        Opening::CreateTable => create_table(reader, alloc),
        Opening::CreateAccess => create_access(reader, alloc),
        Opening::DropAccess => drop_access(reader, alloc),
        Opening::Load => load(reader, alloc),
        Opening::Insert => insert(reader, alloc),
        Opening::Delete => delete(reader, alloc),
        Opening::Discover => discover(reader, alloc),
        Opening::Explain => explain(reader, alloc),
        Opening::ScanOk => scan_ok(reader, alloc),
        Opening::Specialise => specialise(reader, alloc),
    }
}

/// Reads a statement by the first of these openings that is next. What begins with none is a query or grouped.
#[inline(never)]
fn by_first(
    reader: &mut Reader,
    alloc: Global,
    openings: &[Opening],
) -> Result<Statement, ReadError>
    ensures { GivesWithRest result reader.new (read_first openings.now reader.old) }
{
    for opening in openings {
        if take_opening(reader, *opening) {
            return after_opening(reader, alloc, *opening);
        }
    }
    let is_grouped = reader.has_group();
    selection(reader, alloc, is_grouped)
}

/// Reads a statement, or a query that lacks its DISTINCT. Most begin with SELECT, as no opening does.
pub fn statement(
    reader: &mut Reader,
    alloc: Global,
    is_grouped: bool,
) -> Result<Statement, ReadError>
    requires { is_grouped ≡ has_group reader.now }
    ensures { GivesWithRest result reader.new (read_statement reader.old) }
{
    if reader.next_is_word("select") {
        return selection(reader, alloc, is_grouped);
    }
    by_first(reader, alloc, &OPENINGS)
}
