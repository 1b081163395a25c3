// SPECIALISE: which columns, given as constants, would make a block covered.
ghost use Rattle.std.specs.Prelude.{◌≡◌, All, IfOk, IfSome, map, option_map};
ghost use Rattle.beas_core.specs.Results.{Gives};
ghost use Rattle.beas_core.specs.Shapes.{BlockIsWellFormed, IsPlace};
ghost use Rattle.catalogue.specs.Database.{schema_of};
ghost use Rattle.catalogue.specs.Queries.{BlockIsOver};
ghost use Rattle.report.specs.declared.reports.Report.TheVariants.{Specialised};
ghost use Rattle.specialise.specs.Specialised.{specialised};
ghost use Rattle.session.specs.Announced.{binding};
ghost use Rattle.session.specs.Carrying.{CarriesOut};
ghost use Rattle.session.specs.Effects.{named_place, specialise_effect};
ghost use Rattle.session.specs.Grouping.{first_block};
ghost use Rattle.session.specs.Statements.{TreeIsWellFormed};
ghost use Rattle.session.specs.Stores.{database_in};
ghost use Rattle.session.specs.Turns.{IsWithin};

use crate::discovery::name_at;
use crate::stored::Store;
use beas_core::{Block, Fail, Limits, List, Name, NoMemory, Place, Query, QueryNode};
use binder::bind;
use catalogue::Catalogue;
use report::Report;
use specialise::specialise;
use sql_text::SelectTree;
use std::alloc::Global;

/// The block of a query of one block, and of another query its first.
pub fn first_block(query: &Query) -> &Block
    ensures { result.now ≡ first_block query.now }
{
    match &query.node {
        QueryNode::Block(block) => block,
        QueryNode::Union(left, _) => first_block(left),
        QueryNode::Except(left, _) => first_block(left),
    }
}

/// The query that a tree is bound to.
fn bound_query(
    alloc: Global,
    store: &Store,
    limits: &Limits,
    tree: &SelectTree,
) -> Result<Query, Fail>
    requires { TreeIsWellFormed tree.now }
    ensures bound { Gives result (binding limits.now (schema_of (database_in store.now)) tree.now) }
    ensures form { IfOk result (λ query. BlockIsWellFormed (first_block query)) }
    ensures over { IfOk result (λ query. BlockIsOver store.now.catalogue (first_block query)) }
{
    bind(alloc, &store.catalogue, limits, tree)
}

/// The first places of the classes that want a constant.
fn wanted_places(alloc: Global, store: &Store, block: &Block) -> Result<Option<List<Place>>, Fail>
    requires { BlockIsWellFormed block.now }
    ensures found { Gives result (specialised (database_in store.now).accesses block.now) }
    ensures places { IfOk result (λ found. IfSome found (All (IsPlace block.now.atoms))) }
{
    specialise(alloc, store.catalogue.accesses(), block)
}

/// A place as the number of its atom, from 1 on, and the name of its column.
fn named_place(
    alloc: Global,
    catalogue: &Catalogue,
    block: &Block,
    place: Place,
) -> Result<(u32, Name), NoMemory>
    requires over { BlockIsOver catalogue.now block.now }
    requires place { IsPlace block.now.atoms place }
    ensures { IfOk result (λ named. named ≡ named_place catalogue.now block.now place) }
{
    let table = block.atoms.as_slice()[usize::from(place.atom)].table;
    let columns = catalogue.columns(table).as_slice();
    let name = name_at(alloc, columns, place.column)?;
    Ok((u32::from(place.atom) + 1, name))
}

fn named_places(
    alloc: Global,
    catalogue: &Catalogue,
    block: &Block,
    places: &[Place],
) -> Result<List<(u32, Name)>, NoMemory>
    requires over { BlockIsOver catalogue.now block.now }
    requires places { All (IsPlace block.now.atoms) places.now }
    ensures { IfOk result (λ named. named ≡ map (named_place catalogue.now block.now) places.now) }
{
    let mut named = List::new(alloc);
    for place in places {
        named.push(named_place(alloc, catalogue, block, *place)?)?;
    }
    Ok(named)
}

fn named_if_any(
    alloc: Global,
    catalogue: &Catalogue,
    block: &Block,
    places: &Option<List<Place>>,
) -> Result<Option<List<(u32, Name)>>, NoMemory>
    requires over { BlockIsOver catalogue.now block.now }
    requires places { IfSome places.now (All (IsPlace block.now.atoms)) }
    ensures { IfOk result (λ named. named ≡ option_map (map (named_place catalogue.now block.now)) places.now) }
{
    match places {
        None => Ok(None),
        Some(places) => {
            let named = named_places(alloc, catalogue, block, places.as_slice())?;
            Ok(Some(named))
        }
    }
}

/// The report of the places that want a constant.
fn places_report(
    alloc: Global,
    store: &Store,
    block: &Block,
    places: &Option<List<Place>>,
) -> Result<Report, NoMemory>
    requires over { BlockIsOver store.now.catalogue block.now }
    requires places { IfSome places.now (All (IsPlace block.now.atoms)) }
    ensures { IfOk result (λ report. report ≡ Specialised
        (option_map (map (named_place (schema_of (database_in store.now)) block.now)) places.now)) }
{
    let places = named_if_any(alloc, &store.catalogue, block, places)?;
    Ok(Report::Specialised { places })
}

/// SPECIALISE: the columns that, given as constants, would make a block covered. It reads nothing, and the budget plays
/// no part.
pub fn specialise_block(
    alloc: Global,
    store: &Store,
    limits: &Limits,
    tree: &SelectTree,
) -> Result<Report, Fail>
    requires { TreeIsWellFormed tree.now }
    ensures carried { CarriesOut (specialise_effect limits.now (database_in store.now) tree.now)
        (database_in store.now) result (database_in store.now) 0 0 }
    ensures within { IfOk result IsWithin }
{
    let query = bound_query(alloc, store, limits, tree)?;
    let block = first_block(&query);
    let places = match wanted_places(alloc, store, block) {
        Ok(places) => places,
        Err(why) => {
            drop(query);
            return Err(why);
        }
    };
    let report = places_report(alloc, store, block, &places);
    drop(places);
    drop(query);
    Ok(report?)
}
