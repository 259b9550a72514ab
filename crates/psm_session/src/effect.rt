//! What a bound statement does.

ghost use Rattle.std.specs.Prelude.{◌≡◌, true, IfOk, OnErr};
ghost use Rattle.catalog_store.specs.Catalog.{Catalog as PlainCatalog};
ghost use Rattle.row_types.specs.Tables.{names_of};
ghost use Rattle.bind_statements.specs.Binds.{BoundFits, StatementFits};
ghost use Rattle.viewing_laws.specs.Standing.{CallsStandBefore};
ghost use Rattle.psm_effects.specs.Conclusions.{database, IsEffect};
ghost use Rattle.psm_effects.specs.Shapes.{IsWhole};
ghost use Rattle.psm_session.specs.Effects.{is_done as is_done_of, by_plans, effect, checked};

use crate::keeping::keep_plans;
use crate::names::{make, take_out};
use bind_direct::{Bound, BoundStatement};
use catalog_store::Catalog;
use kept_queries::KeptPlans;
use psm_effects::{run_delete, run_insert, run_query, run_routine, run_update};
use reply_text::{Reply, done_reply};
use run_modes::{Mode, is_by_plan};
use sql_values::{Name, NoMemory};
use std::alloc::Global;
use std::mem::drop;
use table_store::Tables;

/// Whether what a statement of this form replies is determined. An EXPLAIN is not: it does nothing.
pub(crate) fn is_done(stmt: &Bound) -> bool
    ensures { result ≡ is_done_of stmt.now }
{
    match stmt {
        Bound::Explain(_) => false,
        _ => true,
    }
}

// Whether a statement is done by plans in a mode, where it is said whether plans answer it: so says
// the query that it asks, or that gives the rows of its change.
fn is_asked_by_plan(mode: Mode, by_plan: bool, stmt: &Bound) -> bool
    ensures { result ≡ by_plans mode by_plan stmt.now }
{
    match stmt {
        Bound::Insert(insert, _) => is_by_plan(mode, by_plan, &insert.source),
        Bound::Update(update) => is_by_plan(mode, by_plan, &update.rows),
        Bound::Delete(delete) => is_by_plan(mode, by_plan, &delete.rows),
        Bound::Query(query) => is_by_plan(mode, by_plan, query),
        _ => by_plan,
    }
}

// Whether a bound statement is done by plans in a mode, which it then fits.
fn is_done_by_plans(mode: Mode, stmt: &BoundStatement) -> bool
    ensures exact { result ≡ by_plans mode stmt.now.by_plan stmt.now.bound }
    ensures fits { (catalog : PlainCatalog) → StatementFits catalog stmt.now →
        BoundFits catalog result stmt.now.bound }
{
    is_asked_by_plan(mode, stmt.by_plan, &stmt.bound)
}

// Does a bound statement with so many turns, by plans where it is said that they answer it, and
// answers its reply. Without memory nothing changes. The tables and the kept plans stay those of the
// catalog, and the names those of the tables.
fn run_bound(
    alloc: Global,
    stmt: Bound,
    by_plan: bool,
    budget: u64,
    catalog: &mut Catalog,
    tables: &mut Tables,
    names: &mut Vec<Name>,
    kept: &mut KeptPlans,
) -> Result<Reply, NoMemory>
    requires fits { BoundFits catalog.old by_plan stmt }
    requires calls { CallsStandBefore catalog.old }
    requires whole { IsWhole (database catalog.old tables.old) }
    requires names { names.old.items ≡ names_of tables.old.tables }
    requires kept { kept.old ≡ catalog.old }
    ensures ok { IfOk result (λ r. IsEffect (effect budget stmt (database catalog.old tables.old)) r
        (database catalog.new tables.new)) }
    ensures err { OnErr result (database catalog.new tables.new ≡ database catalog.old tables.old) }
    ensures whole { IsWhole (database catalog.new tables.new) }
    ensures names { names.new.items ≡ names_of tables.new.tables }
    ensures kept { kept.new ≡ catalog.new }
{
    match stmt {
        Bound::Create(name, object) => make(alloc, name, object, catalog, tables, names, kept),
        Bound::Drop(name) => take_out(alloc, &name, catalog, tables, names, kept),
        Bound::Insert(insert, at) => {
            let reply = run_insert(alloc, &insert, &at, by_plan, budget, catalog, kept, tables);
            drop(insert);
            drop(at);
            reply
        }
        Bound::Update(update) => {
            let reply = run_update(alloc, &update, by_plan, budget, catalog, kept, tables);
            drop(update);
            reply
        }
        Bound::Delete(delete) => {
            let reply = run_delete(alloc, &delete, by_plan, budget, catalog, kept, tables);
            drop(delete);
            reply
        }
        Bound::Query(query) => {
            let reply = run_query(alloc, &query, by_plan, budget, catalog, kept, tables);
            drop(query);
            reply
        }
        Bound::Explain(query) => {
            drop(query);
            done_reply(alloc, &[], None)
        }
        Bound::Routine(body) => {
            let reply = run_routine(alloc, &body, budget, catalog, kept, tables);
            drop(body);
            reply
        }
    }
}

/// Does a bound statement in a mode with so many turns, once plans are kept of what it calls, and
/// answers its reply. Without memory nothing changes. The tables and the kept plans stay those of the
/// catalog, and the names those of the tables.
pub(crate) fn run_found(
    alloc: Global,
    stmt: BoundStatement,
    mode: Mode,
    budget: u64,
    catalog: &mut Catalog,
    tables: &mut Tables,
    names: &mut Vec<Name>,
    kept: &mut KeptPlans,
) -> Result<Reply, NoMemory>
    requires fits { StatementFits catalog.old stmt }
    requires calls { CallsStandBefore catalog.old }
    requires whole { IsWhole (database catalog.old tables.old) }
    requires names { names.old.items ≡ names_of tables.old.tables }
    requires kept { kept.old ≡ catalog.old }
    ensures ok { IfOk result (λ r. IsEffect (effect budget stmt.bound
        (database catalog.old tables.old)) r (database catalog.new tables.new)) }
    ensures err { OnErr result (database catalog.new tables.new ≡ database catalog.old tables.old) }
    ensures whole { IsWhole (database catalog.new tables.new) }
    ensures names { names.new.items ≡ names_of tables.new.tables }
    ensures kept { kept.new ≡ catalog.new }
{
    let by_plan = is_done_by_plans(mode, &stmt);
    let BoundStatement { bound, by_plan: _ } = stmt;
    keep_plans(alloc, mode, by_plan, &bound, &*catalog, kept);
    run_bound(alloc, bound, by_plan, budget, catalog, tables, names, kept)
}

/// Checks a bound statement alone: a definition is carried out, and all else leaves the database.
/// Without memory nothing changes. The tables and the kept plans stay those of the catalog, and the
/// names those of the tables.
pub(crate) fn check_bound(
    alloc: Global,
    stmt: BoundStatement,
    catalog: &mut Catalog,
    tables: &mut Tables,
    names: &mut Vec<Name>,
    kept: &mut KeptPlans,
) -> Result<Reply, NoMemory>
    requires fits { StatementFits catalog.old stmt }
    requires whole { IsWhole (database catalog.old tables.old) }
    requires names { names.old.items ≡ names_of tables.old.tables }
    requires kept { kept.old ≡ catalog.old }
    ensures ok { IfOk result (λ r. IsEffect (checked stmt.bound (database catalog.old tables.old)) r
        (database catalog.new tables.new)) }
    ensures err { OnErr result (database catalog.new tables.new ≡ database catalog.old tables.old) }
    ensures whole { IsWhole (database catalog.new tables.new) }
    ensures names { names.new.items ≡ names_of tables.new.tables }
    ensures kept { kept.new ≡ catalog.new }
{
    let BoundStatement { bound, by_plan: _ } = stmt;
    match bound {
        Bound::Create(name, object) => make(alloc, name, object, catalog, tables, names, kept),
        Bound::Drop(name) => take_out(alloc, &name, catalog, tables, names, kept),
        Bound::Insert(insert, listed) => {
            drop(insert);
            drop(listed);
            done_reply(alloc, &[], None)
        }
        Bound::Update(update) => {
            drop(update);
            done_reply(alloc, &[], None)
        }
        Bound::Delete(delete) => {
            drop(delete);
            done_reply(alloc, &[], None)
        }
        Bound::Query(query) | Bound::Explain(query) => {
            drop(query);
            done_reply(alloc, &[], None)
        }
        Bound::Routine(body) => {
            drop(body);
            done_reply(alloc, &[], None)
        }
    }
}
