// The calls that open, ask and close a database.
ghost use Rattle.std.specs.Prelude.{◌≡◌, ◌≢◌, ◌<◌, ◌⊎◌, ℕ, IfErr, OnErr, OnOk};
ghost use Rattle.std.specs.Result.{result_ok};
ghost use Rattle.beas_library.specs.Engines.{HasFile, HasSaid as IsSaid, HasWanted};
ghost use Rattle.beas_library.specs.OnePiece.{IsRefusedFor};
ghost use Rattle.beas_c.specs.Calls.{HasAdded, HasClosed, HasDropped, HasOpened, HasPlanned, HasPriced, HasSaid, HasSet};
ghost use Rattle.beas_c.specs.Given.{budget_of, is_set};
ghost use Rattle.beas_c.specs.Statuses.{done, no_memory};
ghost use Rattle.beas_c.specs.Telling.{CopiesSome};

use crate::database::Database;
use crate::held::Held;
use crate::limits::{AskedLimits, limits_of};
use crate::status::{BAD_LIMIT, CLOSED, DONE, NO_MEMORY, NOT_TEXT, status_of};
use crate::telling::copy;
use beas_core::{Bytes, NoMemory, Refusal, Steps, Text};
use beas_library::{Engine, Why};
use std::alloc::Global;
use std::marker::Brand;
use std::str;
use std::sync::ledger::{Blank, Ledger};

/// The version of the interface.
const VERSION: u32 = 1;

/// The version of the interface that the library has.
#[unsafe(no_mangle)]
pub extern "C" fn beas_abi() -> u32
    ensures { result ≡ 1 }
{
    VERSION
}

/// The budget, if there is one.
fn budget_of(has_budget: u8, budget: u64) -> Option<u64>
    ensures { result ≡ budget_of has_budget budget }
{
    if has_budget == 0 { None } else { Some(budget) }
}

/// Opens a database with no table. What an open one held is let go.
#[unsafe(no_mangle)]
pub extern "C" fn beas_open(
    db: &mut Database,
    alloc: Global,
    limits: &AskedLimits,
    has_budget: u8,
    budget: u64,
    explain: u8,
) -> i32
    ensures { HasOpened limits.now (budget_of has_budget budget) (is_set explain)
        db.old.seat.value result db.new.seat.value }
{
    match limits_of(limits) {
        Some(limits) => match Held::new(
            alloc,
            limits,
            budget_of(has_budget, budget),
            explain != 0,
        ) {
            Ok(held) => {
                if let Some(old) = db.take(alloc) {
                    drop(old);
                }
                db.put(held);
                DONE
            }
            Err(_) => NO_MEMORY,
        },
        None => BAD_LIMIT,
    }
}

/// Changes the budget, and whether answers have their plans. Queries that are open keep what they were opened with.
#[unsafe(no_mangle)]
pub extern "C" fn beas_set(
    db: &mut Database,
    alloc: Global,
    has_budget: u8,
    budget: u64,
    explain: u8,
) -> i32
    ensures { HasSet (budget_of has_budget budget) (is_set explain) db.old.seat.value result db.new.seat.value }
{
    match db.take(alloc) {
        Some(mut held) => {
            held.engine.set(budget_of(has_budget, budget), explain != 0);
            db.put(held);
            DONE
        }
        None => CLOSED,
    }
}

/// Hands over a file: LOAD of this name reads these bytes from then on.
#[unsafe(no_mangle)]
pub extern "C" fn beas_add_file(db: &mut Database, alloc: Global, name: &[u8], bytes: &[u8]) -> i32
    ensures { HasAdded name.now bytes.now db.old.seat.value result db.new.seat.value }
{
    match db.take(alloc) {
        Some(mut held) => {
            let status = match str::from_utf8(name) {
                Ok(name) => file_added(&mut held.engine, alloc, name, bytes),
                Err(_) => NOT_TEXT,
            };
            db.put(held);
            status
        }
        None => CLOSED,
    }
}

/// Hands over a file, if there is memory for its name and bytes.
fn add_file(engine: &mut Engine, alloc: Global, name: &str, bytes: &[u8]) -> Result<(), NoMemory>
    ensures added { OnOk result (HasFile name.now bytes.now engine.old engine.new) }
    ensures err { OnErr result (engine.new ≡ engine.old) }
{
    let name = Text::from_str(alloc, name)?;
    let bytes = Bytes::from_vec(Vec::from_slice(alloc, bytes)?);
    engine.add_file(name, bytes)
}

/// The same, as a status.
fn file_added(engine: &mut Engine, alloc: Global, name: &str, bytes: &[u8]) -> i32
    ensures { ((result ≡ done) × HasFile name.now bytes.now engine.old engine.new)
        ⊎ ((result ≡ no_memory) × (engine.new ≡ engine.old)) }
{
    match add_file(engine, alloc, name, bytes) {
        Ok(()) => DONE,
        Err(NoMemory) => NO_MEMORY,
    }
}

/// Carries out the one statement of a text, with a counter of its reads.
fn said<L: Ledger>(engine: &mut Engine, alloc: Global, text: &[u8], blank: Blank) -> Result<(), Why>
    requires name { blank.name ≡ L.name }
    requires parts { blank.parts ≡ L.parts }
    requires some { 0 < blank.parts }
    ensures said { OnOk result ((reads : ℕ) × IsSaid text.now engine.old engine.new 0 reads) }
    ensures why { IfErr result (λ why. IsRefusedFor why text.now) }
    ensures unchanged { IfErr result (λ why. why ≢ Why.NoMemory → engine.new ≡ engine.old) }
    ensures wanting { IfErr result (λ why. why ≡ Why.NoMemory
        → (reads : ℕ) × HasWanted text.now engine.old engine.new 0 reads) }
{
    let mut steps = Steps::<L>::start(blank);
    engine.say(alloc, text, &mut steps)
}

/// Carries out one statement, as a script's next one; the report is there afterwards.
#[unsafe(no_mangle)]
pub extern "C" fn beas_say(db: &mut Database, alloc: Global, text: &[u8]) -> i32
    ensures { HasSaid text.now db.old.seat.value result db.new.seat.value }
{
    match db.take(alloc) {
        Some(mut held) => {
            let said = said::<Brand>(&mut held.engine, alloc, text, Blank::new(1));
            db.put(held);
            status_of(said)
        }
        None => CLOSED,
    }
}

/// Tells what EXPLAIN would report of one SELECT if there were no budget; the report is there afterwards.
#[unsafe(no_mangle)]
pub extern "C" fn beas_price(db: &mut Database, alloc: Global, text: &[u8]) -> i32
    ensures { HasPriced text.now db.old.seat.value result db.new.seat.value }
{
    match db.take(alloc) {
        Some(mut held) => {
            let priced = held.engine.price(alloc, text);
            db.put(held);
            status_of(priced)
        }
        None => CLOSED,
    }
}

/// The plan of a query, if it isn't refused.
fn copy_plan(plan: Result<Text, Refusal>, into: &mut [u8], len: &mut usize) -> i32
    ensures { CopiesSome (result_ok plan) result into.old into.new len.old len.new }
{
    match plan {
        Ok(text) => copy(Some(text.as_str()), into, len),
        Err(_) => copy(None, into, len),
    }
}

/// The plan of one SELECT as a JSON text, whatever the budget is. The last report stays.
#[unsafe(no_mangle)]
pub extern "C" fn beas_plan_data(
    db: &mut Database,
    alloc: Global,
    text: &[u8],
    into: &mut [u8],
    len: &mut usize,
) -> i32
    ensures planned { HasPlanned text.now db.old.seat.value result into.old into.new len.old len.new }
    ensures same { db.new.seat.value ≡ db.old.seat.value }
{
    match db.take(alloc) {
        Some(held) => {
            let status = match held.engine.plan_data(alloc, text) {
                Ok(plan) => copy_plan(plan, into, len),
                Err(why) => status_of(Err(why)),
            };
            db.put(held);
            status
        }
        None => CLOSED,
    }
}

/// Drops the open query of a session, if it has one, without a report.
#[unsafe(no_mangle)]
pub extern "C" fn beas_drop_query(db: &mut Database, alloc: Global, session: u32) -> i32
    ensures { HasDropped session db.old.seat.value result db.new.seat.value }
{
    match db.take(alloc) {
        Some(mut held) => {
            held.engine.drop_query(session);
            db.put(held);
            DONE
        }
        None => CLOSED,
    }
}

/// Closes a database, and frees all that it held.
#[unsafe(no_mangle)]
pub extern "C" fn beas_close(db: &mut Database, alloc: Global) -> i32
    ensures { HasClosed db.old.seat.value result db.new.seat.value }
{
    match db.take(alloc) {
        Some(held) => {
            drop(held);
            DONE
        }
        None => CLOSED,
    }
}
