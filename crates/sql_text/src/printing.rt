// The canonical text of statements.
ghost use Rattle.std.specs.Prelude.{◌≡◌, ◌++◌, ◌∷◌, [], List, OnOk, IfOk, Option, codes, if◌then◌else◌};
ghost use Rattle.sql_text.specs.Canonical.{Lexeme, keyword, name, digits, content, sign, parts_with, comma_list, names_of, column_of, type_of, literal_of, tuple_of, alias_before, ref_of, side_of, sign_text, condition_of, where_of, item_of, output_of, distinct_of, head_of, body_of, block_of, in_parentheses, operand_of, tree_lexemes, folded_of, group_item_of, from_of, grouped_of, fetch_of, limit_of, access_of, lexemes_of, canonical_text};
ghost use Rattle.sql_text.specs.Between.{lexeme_between};
ghost use Rattle.sql_text.specs.Writing.{put, put_all};

use crate::tree::{
    BlockTree, ColumnRef, Cond, FromItem, GroupItem, Literal, SelectNode, SelectTree, Side,
    Statement,
};
use crate::writer::Writer;
use beas_core::{AccessSpec, ColType, Column, List as Items, Name, NoMemory, Sign, Text};
use std::alloc::Global;

/// What stands between the parts of a list.
#[derive(Clone, Copy)]
enum Between {
    Comma,
    And,
}

/// What is printed in lists.
trait Part {
    ghost lexemes: { Self → List Lexeme };

    fn write(&self, writer: &mut Writer) -> Result<(), NoMemory>
        ensures { OnOk result (writer.new ≡ put_all writer.old (lexemes self.now)) };
}

fn write_between(writer: &mut Writer, between: Between) -> Result<(), NoMemory>
    ensures { OnOk result (writer.new ≡ put writer.old (lexeme_between between)) }
{
    match between {
        Between::Comma => writer.mark(","),
        Between::And => writer.word("AND"),
    }
}

fn write_parted<T: Part>(
    writer: &mut Writer,
    between: Between,
    parts: &Items<T>,
) -> Result<(), NoMemory>
    ensures { OnOk result (writer.new ≡ put_all writer.old (parts_with (lexeme_between between) T.lexemes parts.now)) }
{
    let Some((first, rest)) = parts.as_slice().split_first() else {
        return Ok(());
    };
    first.write(writer)?;
    for part in rest {
        write_between(writer, between)?;
        part.write(writer)?;
    }
    Ok(())
}

impl Part for Name {
    ghost lexemes = { λ n. name n ∷ [] };

    #[tactic(auto, unfolding(crate::specs::Writing::put_all))]
    fn write(&self, writer: &mut Writer) -> Result<(), NoMemory> {
        writer.name(self)
    }
}

fn write_type(writer: &mut Writer, kind: ColType) -> Result<(), NoMemory>
    ensures { OnOk result (writer.new ≡ put writer.old (type_of kind)) }
{
    match kind {
        ColType::Integer => writer.word("INTEGER"),
        ColType::Words => writer.word("TEXT"),
    }
}

impl Part for Column {
    ghost lexemes = { column_of };

    #[tactic(auto, unfolding(crate::specs::Writing::put_all))]
    fn write(&self, writer: &mut Writer) -> Result<(), NoMemory> {
        writer.name(&self.name)?;
        write_type(writer, self.kind)
    }
}

impl Part for Literal {
    ghost lexemes = { literal_of };

    #[tactic(auto, unfolding(crate::specs::Writing::put_all))]
    fn write(&self, writer: &mut Writer) -> Result<(), NoMemory> {
        match self {
            Literal::Number { negative, digits } => {
                if *negative {
                    writer.mark("-")?;
                    return writer.number(digits);
                }
                writer.number(digits)
            }
            Literal::Words { text } => writer.quoted_text(text),
        }
    }
}

impl Part for Items<Literal> {
    ghost lexemes = { tuple_of };

    #[tactic(auto, unfolding(crate::specs::Writing::put_all), using(crate::proofs::Written::put_all_append))]
    fn write(&self, writer: &mut Writer) -> Result<(), NoMemory> {
        writer.mark("(")?;
        write_parted::<Literal>(writer, Between::Comma, self)?;
        writer.mark(")")
    }
}

#[tactic(auto, unfolding(crate::specs::Writing::put_all))]
fn write_alias_before(writer: &mut Writer, alias: &Option<Name>) -> Result<(), NoMemory>
    ensures { OnOk result (writer.new ≡ put_all writer.old (alias_before alias.now)) }
{
    match alias {
        Some(alias) => {
            writer.name(alias)?;
            writer.mark(".")
        }
        None => Ok(()),
    }
}

impl Part for ColumnRef {
    ghost lexemes = { ref_of };

    #[tactic(auto, unfolding(crate::specs::Writing::put_all), using(crate::proofs::Written::put_all_append))]
    fn write(&self, writer: &mut Writer) -> Result<(), NoMemory> {
        write_alias_before(writer, &self.table)?;
        writer.name(&self.column)
    }
}

fn write_side(writer: &mut Writer, side: &Side) -> Result<(), NoMemory>
    ensures { OnOk result (writer.new ≡ put_all writer.old (side_of side.now)) }
{
    match side {
        Side::Column(column) => column.write(writer),
        Side::Fixed(literal) => literal.write(writer),
    }
}

fn write_sign(writer: &mut Writer, by: Sign) -> Result<(), NoMemory>
    ensures { OnOk result (writer.new ≡ put writer.old (sign (sign_text by))) }
{
    match by {
        Sign::Equal => writer.mark("="),
        Sign::Differs => writer.mark("<>"),
        Sign::Less => writer.mark("<"),
        Sign::AtMost => writer.mark("<="),
        Sign::More => writer.mark(">"),
        Sign::AtLeast => writer.mark(">="),
    }
}

#[tactic(auto, unfolding(crate::specs::Writing::put_all), using(crate::proofs::Written::put_all_append))]
fn write_comparison(
    writer: &mut Writer,
    left: &Side,
    by: Sign,
    right: &Side,
) -> Result<(), NoMemory>
    ensures { OnOk result (writer.new ≡ put_all writer.old (side_of left.now ++ sign (sign_text by) ∷ side_of
        right.now)) }
{
    write_side(writer, left)?;
    write_sign(writer, by)?;
    write_side(writer, right)
}

#[tactic(auto, unfolding(crate::specs::Writing::put_all), using(crate::proofs::Written::put_all_append))]
fn write_bounds(writer: &mut Writer, low: &Side, high: &Side) -> Result<(), NoMemory>
    ensures { OnOk result (writer.new ≡ put_all writer.old (side_of low.now ++ keyword (codes "AND") ∷ side_of
        high.now)) }
{
    write_side(writer, low)?;
    writer.word("AND")?;
    write_side(writer, high)
}

#[tactic(auto, unfolding(crate::specs::Writing::put_all), using(crate::proofs::Written::put_all_append))]
fn write_range(
    writer: &mut Writer,
    value: &ColumnRef,
    low: &Side,
    high: &Side,
) -> Result<(), NoMemory>
    ensures { OnOk result (writer.new ≡ put_all writer.old (ref_of value.now ++ keyword (codes "BETWEEN") ∷ side_of
        low.now ++ keyword (codes "AND") ∷ side_of high.now)) }
{
    value.write(writer)?;
    writer.word("BETWEEN")?;
    write_bounds(writer, low, high)
}

impl Part for Cond {
    ghost lexemes = { condition_of };

    fn write(&self, writer: &mut Writer) -> Result<(), NoMemory> {
        match self {
            Cond::Compare { left, sign, right } => write_comparison(writer, left, *sign, right),
            Cond::Between { value, low, high } => write_range(writer, value, low, high),
        }
    }
}

#[tactic(auto, unfolding(crate::specs::Writing::put_all))]
fn write_where(writer: &mut Writer, conditions: &Items<Cond>) -> Result<(), NoMemory>
    ensures { OnOk result (writer.new ≡ put_all writer.old (where_of conditions.now)) }
{
    if conditions.is_empty() {
        return Ok(());
    }
    writer.word("WHERE")?;
    write_parted::<Cond>(writer, Between::And, conditions)
}

impl Part for FromItem {
    ghost lexemes = { item_of };

    #[tactic(auto, unfolding(crate::specs::Writing::put_all))]
    fn write(&self, writer: &mut Writer) -> Result<(), NoMemory> {
        writer.name(&self.table)?;
        if self.alias.is(self.table.as_str()) {
            return Ok(());
        }
        writer.word("AS")?;
        writer.name(&self.alias)
    }
}

#[tactic(auto, unfolding(crate::specs::Writing::put_all))]
fn write_output(writer: &mut Writer, star: bool, items: &Items<ColumnRef>) -> Result<(), NoMemory>
    ensures { OnOk result (writer.new ≡ put_all writer.old (output_of star items.now)) }
{
    if star {
        return writer.mark("*");
    }
    write_parted::<ColumnRef>(writer, Between::Comma, items)
}

#[tactic(auto, unfolding(crate::specs::Writing::put_all))]
fn write_distinct(writer: &mut Writer, distinct: bool) -> Result<(), NoMemory>
    ensures { OnOk result (writer.new ≡ put_all writer.old (distinct_of distinct)) }
{
    if distinct {
        return writer.word("DISTINCT");
    }
    Ok(())
}

#[tactic(auto, unfolding(crate::specs::Writing::put_all), using(crate::proofs::Written::put_all_append))]
fn write_head(
    writer: &mut Writer,
    distinct: bool,
    star: bool,
    items: &Items<ColumnRef>,
) -> Result<(), NoMemory>
    ensures { OnOk result (writer.new ≡ put_all writer.old (head_of distinct star items.now)) }
{
    writer.word("SELECT")?;
    write_distinct(writer, distinct)?;
    write_output(writer, star, items)
}

#[tactic(auto, unfolding(crate::specs::Writing::put_all), using(crate::proofs::Written::put_all_append))]
fn write_body(
    writer: &mut Writer,
    items: &Items<FromItem>,
    conditions: &Items<Cond>,
) -> Result<(), NoMemory>
    ensures { OnOk result (writer.new ≡ put_all writer.old (body_of items.now conditions.now)) }
{
    writer.word("FROM")?;
    write_parted::<FromItem>(writer, Between::Comma, items)?;
    write_where(writer, conditions)
}

#[tactic(auto, unfolding(crate::specs::Writing::put_all), using(crate::proofs::Written::put_all_append))]
fn write_block(writer: &mut Writer, block: &BlockTree) -> Result<(), NoMemory>
    ensures { OnOk result (writer.new ≡ put_all writer.old (block_of block.now)) }
{
    write_head(writer, block.distinct, block.star, &block.items)?;
    write_body(writer, &block.from_items, &block.conditions)
}

#[cycle(trees)]
#[tactic(auto, unfolding(crate::specs::Writing::put_all), using(crate::proofs::Written::put_all_append))]
fn write_operand(writer: &mut Writer, right: &SelectTree) -> Result<(), NoMemory>
    ensures { OnOk result (writer.new ≡ put_all writer.old (operand_of right.now (tree_lexemes right.now))) }
{
    match &right.node {
        SelectNode::Block(block) => write_block(writer, block),
        _ => {
            writer.mark("(")?;
            write_tree(writer, right)?;
            writer.mark(")")
        }
    }
}

#[cycle(trees)]
#[tactic(auto, unfolding(crate::specs::Writing::put_all), using(crate::proofs::Written::put_all_append))]
fn write_tree(writer: &mut Writer, tree: &SelectTree) -> Result<(), NoMemory>
    ensures { OnOk result (writer.new ≡ put_all writer.old (tree_lexemes tree.now)) }
{
    match &tree.node {
        SelectNode::Block(block) => write_block(writer, block),
        SelectNode::Union(left, right) => {
            write_tree(writer, left)?;
            writer.word("UNION")?;
            write_operand(writer, right)
        }
        SelectNode::Except(left, right) => {
            write_tree(writer, left)?;
            writer.word("EXCEPT")?;
            write_operand(writer, right)
        }
    }
}

#[tactic(auto, unfolding(crate::specs::Writing::put_all), using(crate::proofs::Written::put_all_append))]
fn write_names(writer: &mut Writer, names: &Items<Name>) -> Result<(), NoMemory>
    ensures { OnOk result (writer.new ≡ put_all writer.old (in_parentheses (names_of names.now))) }
{
    writer.mark("(")?;
    write_parted::<Name>(writer, Between::Comma, names)?;
    writer.mark(")")
}

#[tactic(auto, unfolding(crate::specs::Writing::put_all))]
fn write_fetched(writer: &mut Writer, names: &Items<Name>) -> Result<(), NoMemory>
    ensures { OnOk result (writer.new ≡ put_all writer.old (fetch_of names.now)) }
{
    writer.word("FETCH")?;
    write_names(writer, names)
}

#[tactic(auto, unfolding(crate::specs::Writing::put_all))]
fn write_limit(writer: &mut Writer, limit: &Text) -> Result<(), NoMemory>
    ensures { OnOk result (writer.new ≡ put_all writer.old (limit_of limit.now)) }
{
    writer.word("LIMIT")?;
    writer.number(limit)
}

#[tactic(auto, unfolding(crate::specs::Writing::put_all), using(crate::proofs::Written::put_all_append))]
fn write_columns(writer: &mut Writer, columns: &Items<Column>) -> Result<(), NoMemory>
    ensures { OnOk result (writer.new ≡ put_all writer.old (in_parentheses (comma_list column_of columns.now))) }
{
    writer.mark("(")?;
    write_parted::<Column>(writer, Between::Comma, columns)?;
    writer.mark(")")
}

#[tactic(auto, unfolding(crate::specs::Writing::put_all))]
fn write_create_table(
    writer: &mut Writer,
    table: &Name,
    columns: &Items<Column>,
) -> Result<(), NoMemory>
    ensures { OnOk result (writer.new ≡ put_all writer.old (keyword (codes "CREATE") ∷ keyword (codes "TABLE") ∷ name
        table.now ∷ in_parentheses (comma_list column_of columns.now))) }
{
    writer.word("CREATE")?;
    writer.word("TABLE")?;
    writer.name(table)?;
    write_columns(writer, columns)
}

#[tactic(auto, unfolding(crate::specs::Writing::put_all), using(crate::proofs::Written::put_all_append))]
fn write_access(writer: &mut Writer, spec: &AccessSpec) -> Result<(), NoMemory>
    ensures { OnOk result (writer.new ≡ put_all writer.old (access_of spec.now)) }
{
    writer.word("CREATE")?;
    writer.word("ACCESS")?;
    writer.name(&spec.name)?;
    writer.word("ON")?;
    writer.name(&spec.table)?;
    write_names(writer, &spec.key)?;
    write_fetched(writer, &spec.fetched)?;
    write_limit(writer, &spec.limit)
}

#[tactic(auto, unfolding(crate::specs::Writing::put_all))]
fn write_drop_access(writer: &mut Writer, access: &Name) -> Result<(), NoMemory>
    ensures { OnOk result (writer.new ≡ put_all writer.old (keyword (codes "DROP") ∷ keyword (codes "ACCESS") ∷ name
        access.now ∷ [])) }
{
    writer.word("DROP")?;
    writer.word("ACCESS")?;
    writer.name(access)
}

#[tactic(auto, unfolding(crate::specs::Writing::put_all))]
fn write_load(writer: &mut Writer, table: &Name, file: &Text) -> Result<(), NoMemory>
    ensures { OnOk result (writer.new ≡ put_all writer.old (keyword (codes "LOAD") ∷ name table.now ∷ keyword
        (codes "FROM") ∷ content file.now ∷ [])) }
{
    writer.word("LOAD")?;
    writer.name(table)?;
    writer.word("FROM")?;
    writer.quoted_text(file)
}

#[tactic(auto, unfolding(crate::specs::Writing::put_all))]
fn write_insert(
    writer: &mut Writer,
    table: &Name,
    rows: &Items<Items<Literal>>,
) -> Result<(), NoMemory>
    ensures { OnOk result (writer.new ≡ put_all writer.old (keyword (codes "INSERT") ∷ keyword (codes "INTO") ∷ name
        table.now ∷ keyword (codes "VALUES") ∷ comma_list tuple_of rows.now)) }
{
    writer.word("INSERT")?;
    writer.word("INTO")?;
    writer.name(table)?;
    writer.word("VALUES")?;
    write_parted::<Items<Literal>>(writer, Between::Comma, rows)
}

#[tactic(auto, unfolding(crate::specs::Writing::put_all))]
fn write_delete(writer: &mut Writer, table: &Name, conditions: &Items<Cond>) -> Result<(), NoMemory>
    ensures { OnOk result (writer.new ≡ put_all writer.old (keyword (codes "DELETE") ∷ keyword (codes "FROM") ∷ name
        table.now ∷ where_of conditions.now)) }
{
    writer.word("DELETE")?;
    writer.word("FROM")?;
    writer.name(table)?;
    write_where(writer, conditions)
}

#[tactic(auto, unfolding(crate::specs::Writing::put_all), using(crate::proofs::Written::put_all_append))]
fn write_group(
    writer: &mut Writer,
    table: &Name,
    key: &Items<Name>,
    fetched: &Items<Name>,
) -> Result<(), NoMemory>
    ensures { OnOk result (writer.new ≡ put_all writer.old (keyword (codes "DISCOVER") ∷ name table.now ∷ in_parentheses
        (names_of key.now) ++ fetch_of fetched.now)) }
{
    writer.word("DISCOVER")?;
    writer.name(table)?;
    write_names(writer, key)?;
    write_fetched(writer, fetched)
}

#[tactic(auto, unfolding(crate::specs::Writing::put_all))]
fn write_pairs(writer: &mut Writer, table: &Name, limit: &Text) -> Result<(), NoMemory>
    ensures { OnOk result (writer.new ≡ put_all writer.old (keyword (codes "DISCOVER") ∷ name table.now ∷ limit_of
        limit.now)) }
{
    writer.word("DISCOVER")?;
    writer.name(table)?;
    write_limit(writer, limit)
}

#[tactic(auto, unfolding(crate::specs::Writing::put_all))]
fn write_explained(writer: &mut Writer, tree: &SelectTree) -> Result<(), NoMemory>
    ensures { OnOk result (writer.new ≡ put_all writer.old (keyword (codes "EXPLAIN") ∷ tree_lexemes tree.now)) }
{
    writer.word("EXPLAIN")?;
    write_tree(writer, tree)
}

#[tactic(auto, unfolding(crate::specs::Writing::put_all))]
fn write_scanned(writer: &mut Writer, tree: &SelectTree) -> Result<(), NoMemory>
    ensures { OnOk result (writer.new ≡ put_all writer.old (keyword (codes "SCAN") ∷ keyword (codes "OK") ∷ tree_lexemes
        tree.now)) }
{
    writer.word("SCAN")?;
    writer.word("OK")?;
    write_tree(writer, tree)
}

#[tactic(auto, unfolding(crate::specs::Writing::put_all))]
fn write_specialised(writer: &mut Writer, tree: &SelectTree) -> Result<(), NoMemory>
    ensures { OnOk result (writer.new ≡ put_all writer.old (keyword (codes "SPECIALISE") ∷ tree_lexemes tree.now)) }
{
    writer.word("SPECIALISE")?;
    write_tree(writer, tree)
}

#[tactic(auto, unfolding(crate::specs::Writing::put_all), using(crate::proofs::Written::put_all_append))]
fn write_folded(
    writer: &mut Writer,
    function: &str,
    distinct: bool,
    column: &ColumnRef,
) -> Result<(), NoMemory>
    ensures { OnOk result (writer.new ≡ put_all writer.old (folded_of function.now distinct column.now)) }
{
    writer.word(function)?;
    writer.mark("(")?;
    write_distinct(writer, distinct)?;
    column.write(writer)?;
    writer.mark(")")
}

impl Part for GroupItem {
    ghost lexemes = { group_item_of };

    fn write(&self, writer: &mut Writer) -> Result<(), NoMemory> {
        match self {
            GroupItem::Plain(column) => column.write(writer),
            GroupItem::Count(column) => write_folded(writer, "COUNT", true, column),
            GroupItem::Sum(column) => write_folded(writer, "SUM", true, column),
            GroupItem::Least(column) => write_folded(writer, "MIN", false, column),
            GroupItem::Greatest(column) => write_folded(writer, "MAX", false, column),
        }
    }
}

#[tactic(auto, unfolding(crate::specs::Writing::put_all))]
fn write_from(writer: &mut Writer, tree: &SelectTree) -> Result<(), NoMemory>
    ensures { OnOk result (writer.new ≡ put_all writer.old (from_of tree.now)) }
{
    match &tree.node {
        SelectNode::Block(block) => write_body(writer, &block.from_items, &block.conditions),
        SelectNode::Union(..) | SelectNode::Except(..) => Ok(()),
    }
}

#[tactic(auto, unfolding(crate::specs::Writing::put_all), using(crate::proofs::Written::put_all_append))]
fn write_grouped(
    writer: &mut Writer,
    items: &Items<GroupItem>,
    keys: &Items<ColumnRef>,
    inner: &SelectTree,
) -> Result<(), NoMemory>
    ensures { OnOk result (writer.new ≡ put_all writer.old (grouped_of items.now keys.now inner.now)) }
{
    writer.word("SELECT")?;
    write_parted::<GroupItem>(writer, Between::Comma, items)?;
    write_from(writer, inner)?;
    writer.word("GROUP")?;
    writer.word("BY")?;
    write_parted::<ColumnRef>(writer, Between::Comma, keys)
}

fn write_statement(writer: &mut Writer, statement: &Statement) -> Result<(), NoMemory>
    ensures { OnOk result (writer.new ≡ put_all writer.old (lexemes_of statement.now)) }
{
    match statement {
        Statement::CreateTable { name, columns } => write_create_table(writer, name, columns),
        Statement::CreateAccess { spec } => write_access(writer, spec),
        Statement::DropAccess { name } => write_drop_access(writer, name),
        Statement::Load { table, file } => write_load(writer, table, file),
        Statement::Insert { table, rows } => write_insert(writer, table, rows),
        Statement::Delete { table, conditions } => write_delete(writer, table, conditions),
        Statement::DiscoverGroup {
            table,
            key,
            fetched,
        } => write_group(writer, table, key, fetched),
        Statement::DiscoverPairs { table, limit } => write_pairs(writer, table, limit),
        Statement::Select { tree } => write_tree(writer, tree),
        Statement::Explain { tree } => write_explained(writer, tree),
        Statement::ScanOk { tree } => write_scanned(writer, tree),
        Statement::Grouped { items, keys, inner } => write_grouped(writer, items, keys, inner),
        Statement::Specialise { tree } => write_specialised(writer, tree),
    }
}

/// The canonical text of a statement: words of the grammar in capitals, one space between tokens where one belongs,
/// all conditions after WHERE, and parentheses only around a UNION or EXCEPT that is a right operand.
pub fn print(alloc: Global, statement: &Statement) -> Result<Text, NoMemory>
    ensures { IfOk result (λ text. text ≡ canonical_text statement.now) }
{
    let mut writer = Writer::new(alloc);
    write_statement(&mut writer, statement)?;
    Ok(writer.into_text())
}
