// Tables and live access constraints.
ghost use Rattle.std.specs.Prelude.{◌≡◌, ◌≢◌, ◌+◌, ◌<◌, ◌≤◌, [], List, length, map, slice_index_or, ◌==◌, option_map, is_some, IsTrue, IsOk, IfOk, IfSome, OnOk, OnErr, None, Some, nat_le};
ghost use Rattle.std.specs.List.{list_any, remove};
ghost use Rattle.std.specs.Option.{option_or, is_none};
ghost use Rattle.beas_core.specs.Spelling.{limit_in};
ghost use Rattle.catalogue.specs.Schema.{SchemaIsSound, TableIsSound, table_named, table_at, access_with_id, columns_at, has_access, schema_with_table, schema_with_access, schema_without_access};
ghost use Rattle.beas_core.specs.declared.schema.Access.{Access as Constraint};
ghost use Rattle.catalogue.specs.Kept.{MayMakeTable, MayMakeAccess, ids_on, id_of_access_named};
ghost use Rattle.beas_core.specs.Results.{IsRefusedAs, refused_if};
ghost use Rattle.catalogue.specs.Refusing.{unknown_table, unknown_columns, repeated_columns, add_table_refusal, resolve_refusal, admit_refusal, drop_access_refusal, column_ids, columns_of_named, new_access};

use crate::columns::{bound_of, ids_of};
use crate::ids::{position_of_id, push_in, push_in_room, remove_in, reserve_in};
use crate::names::NameMap;
use crate::repeats::refuse_repeated;
use crate::tables::TableSchema;
use beas_core::{
    Access, AccessId, AccessSpec, Column, ColumnId, Counted, Duplicate, Fail, Limits, List, Name,
    NoMemory, Refusal, TableId,
};
use seeded_hash::SeededHashing;
use std::alloc::Global;
use std::marker::Model;
use std::mem;

/// Tables and live access constraints, each found by its name and by its number.
#[derive(Debug, Drop)]
pub struct Catalogue {
    alloc: Global,
    tables: Vec<TableSchema>,
    accesses: List<Access>,
    created: u32,
    table_numbers: NameMap,
    access_ids: NameMap,
    by_table: Vec<Vec<AccessId>>,
}

impl Model for Catalogue {
    ghost use Rattle.std.specs.Prelude.{map};
    ghost use Rattle.indexmap.specs.IndexMap.{get_by_text};
    ghost use Rattle.catalogue.specs.Schema.{Schema};
    ghost use Rattle.catalogue.specs.Kept.{IsKept};

    ghost Value = { Schema };

    ghost view = { λ s. record { tables = s.tables.items; accesses = s.accesses; created = s.created } };

    ghost invariant = { λ s. IsKept (record { tables = s.tables.items; accesses = s.accesses; created = s.created })
        (get_by_text s.table_numbers.numbers) (get_by_text s.access_ids.numbers)
        (map (λ ids. ids.items) s.by_table.items) };
}

/// A catalogue has these fields and no other, so it keeps names and numbers and no row of a table: with a further field this
/// would not compile.
fn catalogue_fields(catalogue: &Catalogue) {
    let Catalogue {
        alloc: _alloc,
        tables: _tables,
        accesses: _accesses,
        created: _created,
        table_numbers: _table_numbers,
        access_ids: _access_ids,
        by_table: _by_table,
    } = catalogue;
}

impl Catalogue {
    /// A catalogue without tables, whose names will be hashed with the seed 0. It takes no memory.
    pub fn new(alloc: Global) -> Catalogue
        ensures { result ≡ record { tables = []; accesses = []; created = 0 } }
    {
        Catalogue::seeded(alloc, 0)
    }

    /// A catalogue without tables, whose names will be hashed with a seed. It makes no difference to what is answered. It
    /// takes no memory.
    pub fn seeded(alloc: Global, seed: u64) -> Catalogue
        ensures { result ≡ record { tables = []; accesses = []; created = 0 } }
    {
        let hashing = SeededHashing::seeded(seed);
        Catalogue {
            alloc,
            tables: Vec::new(alloc),
            accesses: List::new(alloc),
            created: 0,
            table_numbers: NameMap::new(alloc, hashing),
            access_ids: NameMap::new(alloc, hashing),
            by_table: Vec::new(alloc),
        }
    }

    /// How names are hashed.
    fn hashing(&self) -> SeededHashing {
        self.table_numbers.hashing()
    }

    /// The table with this name, if there is one. It takes no memory.
    pub fn table(&self, name: &Name) -> Option<TableId>
        ensures named { result ≡ table_named self.now name.now }
        ensures live { IfSome result (λ id. id.0 < length self.now.tables) }
    {
        self.table_numbers.number(name).map(TableId)
    }

    /// The name of a table. It takes no memory.
    pub fn table_name(&self, id: TableId) -> &Name
        requires { id.0 < length self.now.tables }
        ensures { result.now ≡ (table_at self.now id).name }
    {
        &self.tables[id.0 as usize].name
    }

    /// The columns of a table. It takes no memory.
    pub fn columns(&self, id: TableId) -> &List<Column>
        requires { id.0 < length self.now.tables }
        ensures columns { result.now ≡ columns_at self.now id }
        ensures sound { TableIsSound (table_at self.now id) }
    {
        &self.tables[id.0 as usize].columns
    }

    /// The live constraints, in order of creation. It takes no memory.
    pub fn accesses(&self) -> &List<Access>
        ensures accesses { result.now ≡ self.now.accesses }
        ensures sound { SchemaIsSound self.now }
    {
        &self.accesses
    }

    /// The ids of the live constraints on a table, in order of creation. It takes no memory.
    pub fn ids_on(&self, table: TableId) -> &[AccessId]
        requires { table.0 < length self.now.tables }
        ensures ids { result.now ≡ ids_on self.now.accesses table.0 }
        ensures sound { SchemaIsSound self.now }
    {
        self.by_table[table.0 as usize].as_slice()
    }

    /// Where a live constraint stands among the live ones. It takes no memory.
    pub fn position(&self, id: AccessId) -> usize
        requires { IsTrue (list_any (λ a. a.id.0 == id.0) self.now.accesses) }
        ensures within { result < length self.now.accesses }
        ensures found { (d : Constraint) → slice_index_or self.now.accesses result d
            ≡ access_with_id self.now.accesses id }
        ensures has_id { (access_with_id self.now.accesses id).id.0 ≡ id.0 }
        ensures sound { SchemaIsSound self.now }
    {
        position_of_id(self.accesses.as_slice(), id)
    }

    /// The live constraint with this id. It takes no memory.
    pub fn access(&self, id: AccessId) -> &Access
        requires { IsTrue (list_any (λ a. a.id.0 == id.0) self.now.accesses) }
        ensures { result.now ≡ access_with_id self.now.accesses id }
    {
        &self.accesses.as_slice()[self.position(id)]
    }

    /// Makes a table. After any error the catalogue is as it was.
    pub fn add_table(
        &mut self,
        alloc: Global,
        limits: &Limits,
        name: Name,
        columns: List<Column>,
    ) -> Result<TableId, Fail>
        requires { 1 ≤ length columns }
        ensures refused { IsRefusedAs result (add_table_refusal limits.now self.old name columns) }
        ensures id { IfOk result (λ id. id.0 ≡ length self.old.tables) }
        ensures ok { OnOk result (self.new ≡ schema_with_table self.old name columns) }
        ensures err { OnErr result (self.new ≡ self.old) }
    {
        self.refuse_table(alloc, limits, &name, &columns)?;
        Ok(self.put_table(alloc, name, columns)?)
    }

    fn refuse_table(
        &self,
        alloc: Global,
        limits: &Limits,
        name: &Name,
        columns: &List<Column>,
    ) -> Result<(), Fail>
        ensures { IsRefusedAs result (add_table_refusal limits.now self.now name.now columns.now) }
    {
        if self.table(name).is_some() {
            return Err(Fail::Refused(Refusal::TableExists {
                name: name.copy(alloc)?,
            }));
        }
        refuse_repeated(alloc, self.hashing(), columns.as_slice())?;
        if self.tables.len() >= limits.tables as usize {
            return Err(Fail::Refused(Refusal::TooMany {
                what: Counted::Tables,
                limit: u64::from(limits.tables),
            }));
        }
        if columns.len() > usize::from(limits.columns) {
            return Err(Fail::Refused(Refusal::TooMany {
                what: Counted::Columns,
                limit: u64::from(limits.columns),
            }));
        }
        Ok(())
    }

    fn put_table(
        &mut self,
        alloc: Global,
        name: Name,
        columns: List<Column>,
    ) -> Result<TableId, NoMemory>
        requires { MayMakeTable self.old (record { name = name; columns = columns }) }
        ensures id { IfOk result (λ id. id.0 ≡ length self.old.tables) }
        ensures ok { OnOk result (self.new ≡ schema_with_table self.old name columns) }
        ensures err { OnErr result (self.new ≡ self.old) }
    {
        let id = self.tables.len() as u32;
        self.tables.reserve(1)?;
        self.by_table.reserve(1)?;
        let key = self.table_numbers.prepare(alloc, &name)?;
        self.table_numbers.put(key, id);
        push_in_room(&mut self.tables, TableSchema { name, columns });
        push_in_room(&mut self.by_table, Vec::new(alloc));
        Ok(TableId(id))
    }

    /// Makes a constraint. After any error the catalogue is as it was.
    pub fn add_access(
        &mut self,
        alloc: Global,
        limits: &Limits,
        spec: &AccessSpec,
    ) -> Result<AccessId, Fail>
        requires { 1 ≤ length spec.now.fetched }
        ensures refused { IsRefusedAs result (admit_refusal limits.now self.old spec.now) }
        ensures id { IfOk result (λ id. id.0 ≡ self.old.created) }
        ensures ok { OnOk result (self.new ≡ schema_with_access self.old (new_access self.old spec.now)) }
        ensures err { OnErr result (self.new ≡ self.old) }
    {
        let access = self.admit(alloc, limits, spec)?;
        Ok(self.put_access(alloc, access)?)
    }

    fn put_access(&mut self, alloc: Global, access: Access) -> Result<AccessId, NoMemory>
        requires { MayMakeAccess self.old access }
        ensures id { IfOk result (λ id. id.0 ≡ self.old.created) }
        ensures ok { OnOk result (self.new ≡ schema_with_access self.old access) }
        ensures err { OnErr result (self.new ≡ self.old) }
    {
        let id = access.id;
        let table = access.table.0 as usize;
        let key = self.access_ids.prepare(alloc, &access.name)?;
        reserve_in(&mut self.by_table, table)?;
        self.accesses.push(access)?;
        push_in(&mut self.by_table, table, id);
        self.access_ids.put(key, id.0);
        self.created += 1;
        Ok(id)
    }

    /// Drops a constraint. Where its name is live the call takes no memory and succeeds; after any error
    /// the catalogue is as it was.
    pub fn drop_access(&mut self, alloc: Global, name: &Name) -> Result<AccessId, Fail>
        ensures refused { IsRefusedAs result (drop_access_refusal self.old name.now) }
        ensures live { IsTrue (has_access self.old name.now) → IsOk result }
        ensures id { IfOk result (λ id. id_of_access_named self.old.accesses name.now ≡ Some id.0) }
        ensures ok { OnOk result (self.new ≡ schema_without_access self.old name.now) }
        ensures err { OnErr result (self.new ≡ self.old) }
    {
        match self.access_named(name) {
            Some(id) => {
                self.take_out(name, id);
                Ok(id)
            }
            None => Err(Fail::Refused(Refusal::UnknownAccess {
                name: name.copy(alloc)?,
            })),
        }
    }

    /// The id of the live constraint with this name, if there is one. It takes no memory.
    pub fn access_named(&self, name: &Name) -> Option<AccessId>
        ensures id { option_map (λ id. id.0) result ≡ id_of_access_named self.now.accesses name.now }
        ensures named { is_some result ≡ has_access self.now name.now }
        ensures live { IfSome result (λ id. IsTrue (list_any (λ a. a.id.0 == id.0) self.now.accesses)) }
    {
        match self.access_ids.number(name) {
            Some(number) => Some(AccessId(number)),
            None => None,
        }
    }

    /// Where the live constraint with this name stands among the live ones, if there is one. It takes no
    /// memory.
    pub fn position_named(&self, name: &Name) -> Option<usize>
        ensures named { is_some result ≡ has_access self.now name.now }
        ensures within { IfSome result (λ place. place < length self.now.accesses) }
        ensures only { IfSome result (λ place. (schema_without_access self.now name.now).accesses
            ≡ remove self.now.accesses place) }
    {
        let id = self.access_named(name)?;
        let accesses = self.accesses.as_slice();
        Some(position_of_id(accesses, id))
    }

    /// The allocator that the catalogue keeps.
    pub fn alloc(&self) -> Global {
        self.alloc
    }

    fn take_out(&mut self, name: &Name, id: AccessId)
        requires { id_of_access_named self.old.accesses name.now ≡ Some id.0 }
        ensures { self.new ≡ schema_without_access self.old name.now }
    {
        let place = position_of_id(self.accesses.as_slice(), id);
        let mut accesses = mem::replace(&mut self.accesses, List::new(self.alloc)).into_vec();
        let dropped = accesses.remove(place);
        self.accesses = List::from_vec(accesses);
        remove_in(&mut self.by_table, dropped.table.0 as usize, id);
        self.access_ids.remove(name);
    }

    /// Whether a live constraint has this name.
    fn has_access(&self, name: &Name) -> bool
        ensures { result ≡ has_access self.now name.now }
    {
        self.access_ids.number(name).is_some()
    }

    /// The table with this name, refused where there is none.
    fn known_table(&self, alloc: Global, name: &Name) -> Result<TableId, Fail>
        ensures refused { IsRefusedAs result (unknown_table self.now name.now) }
        ensures named { IfOk result (λ id. table_named self.now name.now ≡ Some id) }
        ensures live { IfOk result (λ id. id.0 < length self.now.tables) }
    {
        match self.table(name) {
            Some(id) => Ok(id),
            None => Err(Fail::Refused(Refusal::UnknownTable {
                name: name.copy(alloc)?,
            })),
        }
    }

    /// The table and the columns that these names stand for, of which some may stand twice.
    fn known_columns(
        &self,
        alloc: Global,
        table: &Name,
        key: &List<Name>,
        fetched: &List<Name>,
    ) -> Result<(TableId, List<ColumnId>, List<ColumnId>), Fail>
        ensures refused { IsRefusedAs result (option_or (unknown_table self.now table.now)
            (unknown_columns (columns_of_named self.now table.now) key.now fetched.now)) }
        ensures table { IfOk result (λ found. table_named self.now table.now ≡ Some found.0) }
        ensures live { IfOk result (λ found. found.0.0 < length self.now.tables) }
        ensures key { IfOk result (λ found. found.1 ≡ column_ids (columns_of_named self.now table.now) key.now) }
        ensures fetched { IfOk result (λ found. found.2
            ≡ column_ids (columns_of_named self.now table.now) fetched.now) }
    {
        let id = self.known_table(alloc, table)?;
        let columns = self.columns(id).as_slice();
        let key_columns = ids_of(alloc, columns, key.as_slice())?;
        let fetched_columns = ids_of(alloc, columns, fetched.as_slice())?;
        Ok((id, key_columns, fetched_columns))
    }

    /// Refuses the first column that stands twice in the key, or else in what is fetched.
    fn refuse_repeated_columns(
        &self,
        alloc: Global,
        key: &List<Name>,
        fetched: &List<Name>,
    ) -> Result<(), Fail>
        ensures { IsRefusedAs result (repeated_columns key.now fetched.now) }
    {
        refuse_repeated(alloc, self.hashing(), key.as_slice())?;
        refuse_repeated(alloc, self.hashing(), fetched.as_slice())
    }

    /// The table and the columns that these names stand for.
    pub fn resolve(
        &self,
        alloc: Global,
        table: &Name,
        key: &List<Name>,
        fetched: &List<Name>,
    ) -> Result<(TableId, List<ColumnId>, List<ColumnId>), Fail>
        ensures refused { IsRefusedAs result (resolve_refusal self.now table.now key.now fetched.now) }
        ensures table { IfOk result (λ found. table_named self.now table.now ≡ Some found.0) }
        ensures live { IfOk result (λ found. found.0.0 < length self.now.tables) }
        ensures key { IfOk result (λ found. found.1 ≡ column_ids (columns_of_named self.now table.now) key.now) }
        ensures fetched { IfOk result (λ found. found.2
            ≡ column_ids (columns_of_named self.now table.now) fetched.now) }
    {
        let found = self.known_columns(alloc, table, key, fetched)?;
        self.refuse_repeated_columns(alloc, key, fetched)?;
        Ok(found)
    }

    /// The bound of the constraint that a statement would make, unless its name is taken, a column stands twice, its limit
    /// is bad, or there are too many constraints.
    fn admitted_bound(&self, alloc: Global, limits: &Limits, spec: &AccessSpec) -> Result<u32, Fail>
        ensures refused { IsRefusedAs result
            (option_or (refused_if (has_access self.now spec.now.name) (Refusal.DuplicateName spec.now.name))
            (option_or (repeated_columns spec.now.key spec.now.fetched)
            (option_or (refused_if (is_none (limit_in spec.now.limit)) (Refusal.BadLimit spec.now.limit))
            (refused_if (nat_le limits.now.constraints self.now.created)
            (Refusal.TooMany Counted.Constraints limits.now.constraints))))) }
        ensures bound { IfOk result (λ bound. limit_in spec.now.limit ≡ Some bound) }
    {
        self.refuse_taken_name(alloc, &spec.name)?;
        self.refuse_repeated_columns(alloc, &spec.key, &spec.fetched)?;
        let bound = bound_of(alloc, &spec.limit)?;
        self.refuse_one_too_many(limits)?;
        Ok(bound)
    }

    /// The constraint that a statement would make. It tests, and changes nothing.
    pub fn admit(&self, alloc: Global, limits: &Limits, spec: &AccessSpec) -> Result<Access, Fail>
        requires { 1 ≤ length spec.now.fetched }
        ensures refused { IsRefusedAs result (admit_refusal limits.now self.now spec.now) }
        ensures admitted { IfOk result (λ access. access ≡ new_access self.now spec.now) }
    {
        let (table, key, fetched) = self.known_columns(
            alloc,
            &spec.table,
            &spec.key,
            &spec.fetched,
        )?;
        let bound = self.admitted_bound(alloc, limits, spec)?;
        let name = spec.name.copy(alloc)?;
        Ok(Access {
            id: AccessId(self.created),
            name,
            table,
            key,
            fetched,
            bound,
        })
    }

    fn refuse_taken_name(&self, alloc: Global, name: &Name) -> Result<(), Fail>
        ensures { IsRefusedAs result (refused_if (has_access self.now name.now) (Refusal.DuplicateName name.now)) }
    {
        if self.has_access(name) {
            return Err(Fail::Refused(Refusal::DuplicateName {
                name: name.copy(alloc)?,
            }));
        }
        Ok(())
    }

    fn refuse_one_too_many(&self, limits: &Limits) -> Result<(), Fail>
        ensures { IsRefusedAs result (refused_if (nat_le limits.now.constraints self.now.created)
            (Refusal.TooMany Counted.Constraints limits.now.constraints)) }
    {
        if self.created >= limits.constraints {
            return Err(Fail::Refused(Refusal::TooMany {
                what: Counted::Constraints,
                limit: u64::from(limits.constraints),
            }));
        }
        Ok(())
    }
}

/// Recalls that the schema of a catalogue is sound: its tables are few and no two have one name, no two constraints have
/// one id or one name, and each is on a table that is there. That holds of each catalogue, but a caller knows it only by the
/// clause of a call on it. So this call is there for its clause, and changes nothing.
pub fn recall_soundness(catalogue: &Catalogue)
    ensures { SchemaIsSound catalogue.now }
{
    let _accesses = catalogue.accesses();
}
