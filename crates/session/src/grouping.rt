// Grouped statements.
ghost use Rattle.std.specs.Prelude.{◌≡◌, ◌≤◌, ◌+◌, ◌<◌, ◌^◌, All, find, length, map, option_map, option_copied, IfOk, OnOk};
ghost use Rattle.std.specs.List.{list_any, zip};
ghost use Rattle.beas_core.specs.Classes.{same_place};
ghost use Rattle.beas_core.specs.Fits.{Fits, PlanFits};
ghost use Rattle.beas_core.specs.Full.{full_of};
ghost use Rattle.beas_core.specs.Order.{row_cmp};
ghost use Rattle.beas_core.specs.Results.{Gives, IsRefusedAs};
ghost use Rattle.beas_core.specs.Sets.{IsInOrder};
ghost use Rattle.beas_core.specs.Shapes.{IsPlace};
ghost use Rattle.catalogue.specs.Database.{rows_at, schema_of};
ghost use Rattle.catalogue.specs.Queries.{BlockIsOver};
ghost use Rattle.session.specs.Announced.{announcement};
ghost use Rattle.session.specs.Applying.{settings_in};
ghost use Rattle.session.specs.Carrying.{CarriesOut};
ghost use Rattle.session.specs.Effects.{grouped_effect, groups_effect, reads_in, unless};
ghost use Rattle.session.specs.Grouping.{HasOutputs, first_block, fold_in, grouping_refusal, groups_over, in_brackets, is_text, is_text_sum, is_ungrouped, item_name, kind_at, text_sum_refusal, ungrouped_refusal};
ghost use Rattle.session.specs.Statements.{GroupedIsWellFormed};
ghost use Rattle.session.specs.Stores.{database_in};
ghost use Rattle.session.specs.Turns.{IsWithin};

use crate::queries::{answer, plan_shown, prepared_over};
use crate::settings::Settings;
use crate::specialising::first_block;
use crate::stored::Store;
use aggregate::{Cell, Fold, fold_rows};
use beas_core::{
    Block, ColType, Duplicate, Fail, Limits, List, Name, NoMemory, Place, Prepared, Refusal, Row,
    Steps, Text,
};
use catalogue::Catalogue;
use report::Report;
use sql_text::{ColumnRef, GroupItem, SelectTree};
use std::alloc::Global;
use std::sync::ledger::Ledger;

/// Recalls that limits allow at most 1,024 outputs of a block. It changes nothing.
fn recall_few_outputs(limits: &Limits)
    ensures { limits.now.outputs ≤ 1024 }
{
    let _outputs = limits.outputs;
}

/// The query of the keys and of the columns of the items, as it is announced over the store.
fn inner_query(
    alloc: Global,
    store: &Store,
    settings: &Settings,
    items: &List<GroupItem>,
    keys: &List<ColumnRef>,
    inner: &SelectTree,
) -> Result<Prepared, Fail>
    requires { GroupedIsWellFormed items.now keys.now inner.now }
    ensures announced { Gives result
        (announcement settings.now.limits.now settings.now.budget (schema_of (database_in store.now)) inner.now) }
    ensures plan { IfOk result (PlanFits store.now.catalogue.accesses) }
    ensures fits { IfOk result (Fits store.now.catalogue.accesses (rows_at (database_in store.now))) }
    ensures over { IfOk result (λ prepared. BlockIsOver store.now.catalogue (first_block prepared.query)) }
    ensures outputs { IfOk result (λ prepared. HasOutputs (length keys.now) (length items.now) prepared.query) }
{
    // So the keys and the items are few enough to be counted in 16 bits.
    recall_few_outputs(settings.limits);
    prepared_over(alloc, store, settings, inner)
}

fn is_key(keys: &[Place], place: Place) -> bool
    ensures { result ≡ list_any (same_place place) keys.now }
{
    keys.iter().any(|key| place.atom == key.atom && place.column.0 == key.column.0)
}

fn is_ungrouped(keys: &[Place], item: &GroupItem, place: Place) -> bool
    ensures { result ≡ is_ungrouped keys.now (item.now, place) }
{
    match item {
        GroupItem::Plain(_) => !is_key(keys, place),
        GroupItem::Count(_) | GroupItem::Sum(_) | GroupItem::Least(_) | GroupItem::Greatest(_) =>
            false,
    }
}

/// The first plain item whose column isn't a key.
fn first_ungrouped<'a>(
    keys: &[Place],
    items: &'a [GroupItem],
    places: &[Place],
) -> Option<&'a GroupItem>
    ensures { option_copied result ≡ option_map (λ i. i.0) (find (is_ungrouped keys.now) (zip items.now places.now)) }
{
    let [item, items @ ..] = items else {
        return None;
    };
    let [place, places @ ..] = places else {
        return None;
    };
    if is_ungrouped(keys, item, *place) {
        Some(item)
    } else {
        first_ungrouped(keys, items, places)
    }
}

fn is_text(catalogue: &Catalogue, block: &Block, place: Place) -> bool
    requires over { BlockIsOver catalogue.now block.now }
    requires place { IsPlace block.now.atoms place }
    ensures { result ≡ is_text (kind_at catalogue.now block.now place) }
{
    let table = block.atoms.as_slice()[usize::from(place.atom)].table;
    let columns = catalogue.columns(table).as_slice();
    match columns[usize::from(place.column.0)].kind {
        ColType::Words => true,
        ColType::Integer => false,
    }
}

fn is_text_sum(catalogue: &Catalogue, block: &Block, item: &GroupItem, place: Place) -> bool
    requires over { BlockIsOver catalogue.now block.now }
    requires place { IsPlace block.now.atoms place }
    ensures { result ≡ is_text_sum catalogue.now block.now (item.now, place) }
{
    match item {
        GroupItem::Sum(_) => is_text(catalogue, block, place),
        GroupItem::Plain(_) | GroupItem::Count(_) | GroupItem::Least(_) | GroupItem::Greatest(_) =>
            false,
    }
}

/// The first item that sums a text column.
fn first_text_sum<'a>(
    catalogue: &Catalogue,
    block: &Block,
    items: &'a [GroupItem],
    places: &[Place],
) -> Option<&'a GroupItem>
    requires over { BlockIsOver catalogue.now block.now }
    requires places { All (IsPlace block.now.atoms) places.now }
    ensures { option_copied result ≡ option_map (λ i. i.0)
        (find (is_text_sum catalogue.now block.now) (zip items.now places.now)) }
{
    let [item, items @ ..] = items else {
        return None;
    };
    let [place, places @ ..] = places else {
        return None;
    };
    if is_text_sum(catalogue, block, item, *place) {
        Some(item)
    } else {
        first_text_sum(catalogue, block, items, places)
    }
}

/// Refuses a plain item whose column isn't one of the first so many, which are the keys.
fn refuse_ungrouped(
    alloc: Global,
    block: &Block,
    keys: usize,
    items: &[GroupItem],
) -> Result<(), Fail>
    requires { keys ≤ length block.now.output }
    ensures { IsRefusedAs result (ungrouped_refusal block.now keys items.now) }
{
    let (keys, places) = block.output.as_slice().split_at(keys);
    match first_ungrouped(keys, items, places) {
        None => Ok(()),
        Some(item) => {
            let column = item.column().column.copy(alloc)?;
            Err(Fail::Refused(Refusal::NotGrouped { column }))
        }
    }
}

/// Refuses an item that sums a text column; the columns of the items stand behind so many keys.
fn refuse_text_sum(
    alloc: Global,
    catalogue: &Catalogue,
    block: &Block,
    keys: usize,
    items: &[GroupItem],
) -> Result<(), Fail>
    requires over { BlockIsOver catalogue.now block.now }
    requires places { All (IsPlace block.now.atoms) block.now.output }
    requires keys { keys ≤ length block.now.output }
    ensures { IsRefusedAs result (text_sum_refusal catalogue.now block.now keys items.now) }
{
    let places = &block.output.as_slice()[keys..];
    match first_text_sum(catalogue, block, items, places) {
        None => Ok(()),
        Some(item) => {
            let column = item.column().column.copy(alloc)?;
            Err(Fail::Refused(Refusal::SumOfText { column }))
        }
    }
}

/// Refuses items that can't be grouped by the first so many columns of a block's output.
fn refuse_items(
    alloc: Global,
    catalogue: &Catalogue,
    block: &Block,
    keys: usize,
    items: &[GroupItem],
) -> Result<(), Fail>
    requires over { BlockIsOver catalogue.now block.now }
    requires places { All (IsPlace block.now.atoms) block.now.output }
    requires keys { keys ≤ length block.now.output }
    ensures { IsRefusedAs result (grouping_refusal catalogue.now block.now keys items.now) }
{
    refuse_ungrouped(alloc, block, keys, items)?;
    refuse_text_sum(alloc, catalogue, block, keys, items)
}

fn in_brackets(alloc: Global, word: &str, name: &Name) -> Result<Text, NoMemory>
    ensures { IfOk result (λ text. text ≡ in_brackets word.now name.now) }
{
    Ok(Text::from_string(format!(in alloc; "{word}({})", name.as_str())?))
}

fn item_name(alloc: Global, item: &GroupItem) -> Result<Text, NoMemory>
    ensures { IfOk result (λ name. name ≡ item_name item.now) }
{
    match item {
        GroupItem::Plain(column) => Text::from_str(alloc, column.column.as_str()),
        GroupItem::Count(column) => in_brackets(alloc, "count", &column.column),
        GroupItem::Sum(column) => in_brackets(alloc, "sum", &column.column),
        GroupItem::Least(column) => in_brackets(alloc, "min", &column.column),
        GroupItem::Greatest(column) => in_brackets(alloc, "max", &column.column),
    }
}

fn item_names(alloc: Global, items: &[GroupItem]) -> Result<List<Text>, NoMemory>
    ensures { IfOk result (λ names. names ≡ map item_name items.now) }
{
    let mut names = List::new(alloc);
    for item in items {
        names.push(item_name(alloc, item)?)?;
    }
    Ok(names)
}

fn fold_in(item: &GroupItem) -> Fold
    ensures { result ≡ fold_in item.now }
{
    match item {
        GroupItem::Plain(_) => Fold::Plain,
        GroupItem::Count(_) => Fold::Count,
        GroupItem::Sum(_) => Fold::Sum,
        GroupItem::Least(_) => Fold::Least,
        GroupItem::Greatest(_) => Fold::Greatest,
    }
}

fn folds_in(alloc: Global, items: &[GroupItem]) -> Result<List<Fold>, NoMemory>
    ensures { IfOk result (λ folds. folds ≡ map fold_in items.now) }
{
    let mut folds = List::new(alloc);
    for item in items {
        folds.push(fold_in(item))?;
    }
    Ok(folds)
}

/// Refuses a grouped statement whose items can't be grouped by its keys.
fn refuse_grouping(
    alloc: Global,
    store: &Store,
    keys: usize,
    items: &List<GroupItem>,
    prepared: &Prepared,
) -> Result<(), Fail>
    requires plan { PlanFits store.now.catalogue.accesses prepared.now }
    requires over { BlockIsOver store.now.catalogue (first_block prepared.now.query) }
    requires outputs { HasOutputs keys (length items.now) prepared.now.query }
    ensures { IsRefusedAs result (grouping_refusal
        (schema_of (database_in store.now)) (first_block prepared.now.query) keys items.now) }
{
    refuse_items(
        alloc,
        &store.catalogue,
        first_block(&prepared.query),
        keys,
        items.as_slice(),
    )
}

/// The rows of groups that an answer is cut into.
fn groups_over(
    alloc: Global,
    rows: &List<Row>,
    keys: usize,
    items: &List<GroupItem>,
) -> Result<List<List<Cell>>, NoMemory>
    requires few { keys < 2 ^ 16 }
    requires wide { All (λ row. length row ≡ keys + length items.now) rows.now }
    requires in_order { IsInOrder row_cmp rows.now }
    ensures { IfOk result (λ groups. groups ≡ groups_over keys items.now rows.now) }
{
    let folds = folds_in(alloc, items.as_slice())?;
    fold_rows(alloc, rows, keys as u16, &folds)
}

/// The groups of a query's answer, and how many tuples were read.
#[derive(Drop)]
struct Groups {
    rows: List<List<Cell>>,
    reads: u128,
}

/// The groups of the answer of a query.
fn answer_groups<L: Ledger>(
    alloc: Global,
    store: &Store,
    keys: usize,
    items: &List<GroupItem>,
    prepared: &Prepared,
    steps: &mut Steps<L>,
) -> Result<Groups, NoMemory>
    requires fits { Fits store.now.catalogue.accesses (rows_at (database_in store.now)) prepared.now }
    requires outputs { HasOutputs keys (length items.now) prepared.now.query }
    ensures rows { IfOk result (λ groups. groups.rows
        ≡ groups_over keys items.now (full_of (rows_at (database_in store.now)) prepared.now.query)) }
    ensures reads { IfOk result (λ groups. groups.reads ≡ reads_in (database_in store.now) prepared.now) }
    ensures within { IfOk result (λ groups. groups.reads ≤ prepared.now.bound) }
    ensures cost { OnOk result (steps.new ≡ steps.old + reads_in (database_in store.now) prepared.now) }
    ensures at_most { steps.new ≤ steps.old + reads_in (database_in store.now) prepared.now }
    ensures no_fewer { steps.old ≤ steps.new }
{
    let answer = answer(alloc, store, prepared, steps)?;
    let reads = answer.reads;
    let rows = groups_over(alloc, &answer.rows, keys, items);
    drop(answer);
    Ok(Groups { rows: rows?, reads })
}

/// The report of a grouped statement that is announced.
fn groups_report<L: Ledger>(
    alloc: Global,
    store: &Store,
    explain: bool,
    keys: usize,
    items: &List<GroupItem>,
    prepared: &Prepared,
    steps: &mut Steps<L>,
) -> Result<Report, Fail>
    requires plan { PlanFits store.now.catalogue.accesses prepared.now }
    requires fits { Fits store.now.catalogue.accesses (rows_at (database_in store.now)) prepared.now }
    requires outputs { HasOutputs keys (length items.now) prepared.now.query }
    ensures carried { CarriesOut (groups_effect explain (database_in store.now) keys items.now prepared.now)
        (database_in store.now) result (database_in store.now) steps.old steps.new }
    ensures within { IfOk result IsWithin }
{
    let plan = plan_shown(alloc, store, prepared, explain)?;
    let header = item_names(alloc, items.as_slice())?;
    let groups = answer_groups(alloc, store, keys, items, prepared, steps)?;
    Ok(Report::Grouped {
        bound: prepared.bound,
        plan,
        header,
        rows: groups.rows,
        reads: groups.reads,
    })
}

/// The report of a grouped statement that is announced, unless its items can't be grouped by its keys.
fn report_if_grouped<L: Ledger>(
    alloc: Global,
    store: &Store,
    explain: bool,
    keys: usize,
    items: &List<GroupItem>,
    prepared: &Prepared,
    steps: &mut Steps<L>,
) -> Result<Report, Fail>
    requires plan { PlanFits store.now.catalogue.accesses prepared.now }
    requires fits { Fits store.now.catalogue.accesses (rows_at (database_in store.now)) prepared.now }
    requires over { BlockIsOver store.now.catalogue (first_block prepared.now.query) }
    requires outputs { HasOutputs keys (length items.now) prepared.now.query }
    ensures carried { CarriesOut
        (unless
        (grouping_refusal (schema_of (database_in store.now)) (first_block prepared.now.query) keys items.now)
        (database_in store.now)
        (groups_effect explain (database_in store.now) keys items.now prepared.now))
        (database_in store.now) result (database_in store.now) steps.old steps.new }
    ensures within { IfOk result IsWithin }
{
    refuse_grouping(alloc, store, keys, items, prepared)?;
    groups_report(alloc, store, explain, keys, items, prepared, steps)
}

/// A grouped statement: its keys and the columns of its items are a query, whose answer is cut into groups.
pub fn grouped<L: Ledger>(
    alloc: Global,
    store: &Store,
    settings: &Settings,
    items: &List<GroupItem>,
    keys: &List<ColumnRef>,
    inner: &SelectTree,
    steps: &mut Steps<L>,
) -> Result<Report, Fail>
    requires { GroupedIsWellFormed items.now keys.now inner.now }
    ensures carried { CarriesOut
        (grouped_effect (settings_in settings.now) (database_in store.now) items.now keys.now inner.now)
        (database_in store.now) result (database_in store.now) steps.old steps.new }
    ensures within { IfOk result IsWithin }
{
    let prepared = inner_query(alloc, store, settings, items, keys, inner)?;
    let keys = keys.len();
    let report = report_if_grouped(
        alloc,
        store,
        settings.explain,
        keys,
        items,
        &prepared,
        steps,
    );
    drop(prepared);
    report
}
