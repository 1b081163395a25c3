// A prepared query as a JSON text.
ghost use Rattle.std.specs.Prelude.{◌≡◌, ◌<◌, ◌+◌, ◌^◌, ◌++◌, length, map, All, IsTrue, IfOk, OnOk};
ghost use Rattle.std.specs.List.{enumerate_from};
ghost use Rattle.beas_core.specs.Fits.{PlanFits};
ghost use Rattle.beas_core.specs.Guiding.{after};
ghost use Rattle.beas_core.specs.Derivations.{is_live};
ghost use Rattle.beas_core.specs.Trees.{blocks_of};
ghost use Rattle.json.specs.Tree.{json_tokens};
ghost use Rattle.plan_data.specs.PlanValue.{atom_value, block_value, columns_value, list_of, number_value, numbered_value, plan_value, printed, query_value, step_value, use_value};
ghost use Rattle.catalogue.specs.Schema.{AccessIsSound, access_with_id};
ghost use Rattle.plan_data.specs.Named.{BlockIsNamed};

use crate::as_json::{AsJson, write_list, write_member};
use crate::json_text::JsonText;
use beas_core::{
    Access, AccessId, Atom, Column, ColumnId, DStep, Derivation, Name, NoMemory, Normal, Prepared,
    Query, QueryNode, Text, recall_length,
};
use catalogue::{Catalogue, recall_soundness};
use std::alloc::Global;

/// A prepared query as a JSON text. The names of `header` are those of its answer's columns, and its steps use live constraints
/// alone.
pub fn plan_json(
    alloc: Global,
    prepared: &Prepared,
    header: &[Name],
    catalogue: &Catalogue,
) -> Result<Text, NoMemory>
    requires { PlanFits catalogue.now.accesses prepared.now }
    ensures { IfOk result (λ text. text ≡ printed (plan_value prepared.now header.now catalogue.now)) }
{
    let mut out = JsonText::new(alloc);
    write_plan(&mut out, prepared, header, catalogue)?;
    Ok(out.into_text())
}

/// Adds the whole.
fn write_plan(
    out: &mut JsonText,
    prepared: &Prepared,
    header: &[Name],
    catalogue: &Catalogue,
) -> Result<(), NoMemory>
    requires { PlanFits catalogue.now.accesses prepared.now }
    ensures { OnOk result (out.new ≡ out.old ++ json_tokens (plan_value prepared.now header.now catalogue.now)) }
{
    // There are as many blocks as derivations, so that their numbers fit.
    recall_length(prepared.derivations.as_slice());
    out.begin_object()?;
    out.member("bound")?;
    out.digits(prepared.bound)?;
    out.member("columns")?;
    write_list(out, header)?;
    out.member("query")?;
    write_query(out, 0, &prepared.query)?;
    out.member("blocks")?;
    write_blocks(out, catalogue, prepared)?;
    out.end_object()
}

/// Adds how the blocks of a query, numbered from `first` on, make the answer, and tells the next number.
fn write_query(out: &mut JsonText, first: usize, query: &Query) -> Result<usize, NoMemory>
    requires { first + length (blocks_of query.now) < 2 ^ 64 }
    ensures value { OnOk result (out.new ≡ out.old ++ json_tokens (query_value first query.now)) }
    ensures next { IfOk result (λ next. next ≡ after first query.now) }
{
    let (sign, left, right) = match &query.node {
        QueryNode::Block(_) => {
            write_number(out, first)?;
            return Ok(first + 1);
        }
        QueryNode::Union(left, right) => ("union", left, right),
        QueryNode::Except(left, right) => ("except", left, right),
    };
    out.begin_object()?;
    out.member(sign)?;
    out.begin_array()?;
    let next = write_query(out, first, left)?;
    let next = write_query(out, next, right)?;
    out.end_array()?;
    out.end_object()?;
    Ok(next)
}

/// Adds one block of a query, by its number.
fn write_number(out: &mut JsonText, block: usize) -> Result<(), NoMemory>
    ensures { OnOk result (out.new ≡ out.old ++ json_tokens (number_value block)) }
{
    out.begin_object()?;
    out.member("block")?;
    out.natural(block as u64)?;
    out.end_object()
}

/// Adds the blocks.
fn write_blocks(
    out: &mut JsonText,
    catalogue: &Catalogue,
    prepared: &Prepared,
) -> Result<(), NoMemory>
    requires { PlanFits catalogue.now.accesses prepared.now }
    ensures { OnOk result (out.new ≡ out.old ++ json_tokens (list_of (map (numbered_value catalogue.now prepared.now)
        (enumerate_from 0 prepared.now.normals)))) }
{
    // The tables of the live constraints are there. Each atom has a step, so its table is there too.
    recall_soundness(catalogue);
    let plans = prepared.derivations.as_slice();
    let guided = prepared.guided.as_slice();
    out.begin_array()?;
    for (n, normal) in prepared.normals.as_slice().iter().enumerate() {
        write_block(out, catalogue, normal, &plans[n], guided[n])?;
    }
    out.end_array()
}

/// Adds one block.
fn write_block(
    out: &mut JsonText,
    catalogue: &Catalogue,
    normal: &Normal,
    plan: &Derivation,
    guided: bool,
) -> Result<(), NoMemory>
    requires { BlockIsNamed catalogue.now normal.now plan.now }
    ensures { OnOk result (out.new ≡ out.old ++ json_tokens (block_value catalogue.now normal.now plan.now guided)) }
{
    out.begin_object()?;
    out.member("atoms")?;
    write_atoms(out, catalogue, normal.atoms.as_slice())?;
    write_member(out, "classes", &normal.classes)?;
    write_member(out, "count", &normal.count)?;
    write_member(out, "constants", &normal.constants)?;
    write_member(out, "comparisons", &normal.comparisons)?;
    write_member(out, "output", &normal.output)?;
    write_member(out, "guided", &guided)?;
    out.member("steps")?;
    write_steps(out, catalogue, plan.steps.as_slice())?;
    out.end_object()
}

/// Adds the table of each atom.
fn write_atoms(out: &mut JsonText, catalogue: &Catalogue, atoms: &[Atom]) -> Result<(), NoMemory>
    requires { All (λ a. a.table.0 < length catalogue.now.tables) atoms.now }
    ensures { OnOk result (out.new ≡ out.old ++ json_tokens (list_of (map (atom_value catalogue.now) atoms.now))) }
{
    out.begin_array()?;
    for atom in atoms {
        out.string(catalogue.table_name(atom.table).as_str())?;
    }
    out.end_array()
}

/// Adds the steps of a block.
fn write_steps(out: &mut JsonText, catalogue: &Catalogue, steps: &[DStep]) -> Result<(), NoMemory>
    requires { All (λ s. IsTrue (is_live catalogue.now.accesses s.access)) steps.now }
    ensures { OnOk result (out.new ≡ out.old ++ json_tokens (list_of (map (step_value catalogue.now) steps.now))) }
{
    out.begin_array()?;
    for step in steps {
        let access = access_of(catalogue, step.access);
        write_step(out, catalogue, step, access)?;
    }
    out.end_array()
}

/// The live constraint with this id.
fn access_of(catalogue: &Catalogue, id: AccessId) -> &Access
    requires { IsTrue (is_live catalogue.now.accesses id) }
    ensures access { result.now ≡ access_with_id catalogue.now.accesses id }
    ensures sound { AccessIsSound catalogue.now result.now }
{
    let position = catalogue.position(id);
    &catalogue.accesses().as_slice()[position]
}

/// Adds a step, which uses this constraint.
fn write_step(
    out: &mut JsonText,
    catalogue: &Catalogue,
    step: &DStep,
    access: &Access,
) -> Result<(), NoMemory>
    requires { AccessIsSound catalogue.now access.now }
    ensures { OnOk result (out.new ≡ out.old ++ json_tokens (use_value catalogue.now step.now access.now)) }
{
    let columns = catalogue.columns(access.table).as_slice();
    out.begin_object()?;
    write_member(out, "atom", &step.atom)?;
    write_member(out, "table", catalogue.table_name(access.table))?;
    write_member(out, "constraint", &access.name)?;
    out.member("key")?;
    write_columns(out, columns, access.key.as_slice())?;
    out.member("fetch")?;
    write_columns(out, columns, access.fetched.as_slice())?;
    write_member(out, "limit", &access.bound)?;
    write_member(out, "adds", &step.adds)?;
    out.end_object()
}

/// Adds the names of columns.
fn write_columns(out: &mut JsonText, columns: &[Column], ids: &[ColumnId]) -> Result<(), NoMemory>
    requires { All (λ c. c.0 < length columns.now) ids.now }
    ensures { OnOk result (out.new ≡ out.old ++ json_tokens (columns_value columns.now ids.now)) }
{
    out.begin_array()?;
    for id in ids {
        columns[usize::from(id.0)].name.write(out)?;
    }
    out.end_array()
}
