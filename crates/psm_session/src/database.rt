//! The database.

ghost use Rattle.std.specs.Prelude.{◌≡◌, ◌≤◌, ◌+◌, ℕ, List, [], true, false, IfOk, OnErr};
ghost use Rattle.rel_algebra.specs.Tree.{Query};
ghost use Rattle.rel_algebra.specs.World.{World, no_self, no_frame};
ghost use Rattle.rel_algebra.specs.Meaning.{answer};
ghost use Rattle.rel_algebra.specs.Joins.{table_width};
ghost use Rattle.rel_algebra.specs.Lasting.{QueryLasts};
ghost use Rattle.rel_algebra.specs.Plain.{planned};
ghost use Rattle.rel_algebra.specs.Work.{work};
ghost use Rattle.catalog_store.specs.View.{query_of};
ghost use Rattle.bind_direct.specs.declared.bound.Bound.TheVariants.{Explain};
ghost use Rattle.typing_plans.specs.Bodies.{kinds_in};
ghost use Rattle.bind_statements.specs.Statements.{judged_statement, anchor_of};
ghost use Rattle.bound_trees.specs.declared.query.BoundQuery.{BoundQuery};
ghost use Rattle.psm_effects.specs.Answering.{ends_with, HasValues};
ghost use Rattle.psm_effects.specs.Explaining.{IsExplained};
ghost use Rattle.psm_effects.specs.Preparing.{IsPlanOf, IsPrepared, over, plan_in};
ghost use Rattle.psm_session.specs.Bodies.{IsTypedQuery};
ghost use Rattle.psm_session.specs.Dump.{dump_text};
ghost use Rattle.psm_session.specs.Effects.{is_done as is_done_of};
ghost use Rattle.psm_session.specs.Executing.{Executes, Checks, reply_to};

use crate::dump::add_tables;
use crate::effect::{check_bound, is_done, run_found};
use bind_direct::{Bound, BoundStatement};
use bind_faults::Fault;
use bind_statements::{NameFault, bind_statement};
use bound_trees::BoundQuery;
use catalog_store::Catalog;
use kept_queries::KeptPlans;
use plan_exec::Answer;
use psm_effects::{Prepared, explain_query, prepare_query, run_plan};
use reply_text::{Dump, FaultText, Reply, fault_reply};
use row_types::Steps;
use run_modes::Mode;
use sql_values::{Name, NoMemory};
use statement_trees::Stmt;
use std::alloc::Global;
use std::marker::Model;
use std::mem::drop;
use std::sync::ledger::Ledger;
use table_store::Tables;

/// A catalog, and the tables that it names, each with the columns and the key that it says, in its
/// order; the body of each function with a plan is well typed over the entries made before it; and
/// the head of each routine lists what its body calls, which was made before it, but for the
/// routine itself. Contracts see both as plain data. Beside them stand the names of the tables, in
/// their order, and plans of queries in bodies, in this catalog.
#[derive(Drop)]
pub struct Database {
    alloc: Global,
    catalog: Catalog,
    tables: Tables,
    names: Vec<Name>,
    kept: KeptPlans,
}

impl Model for Database {
    ghost use Rattle.psm_effects.specs.Database.{Plain};
    ghost use Rattle.psm_session.specs.Codes.{coded_database};

    ghost Value = { Plain };

    ghost coded = { coded_database };

    ghost use Rattle.std.specs.Prelude.{◌≡◌};
    ghost use Rattle.row_types.specs.Tables.{names_of};
    ghost use Rattle.psm_effects.specs.Conclusions.{database};
    ghost use Rattle.psm_effects.specs.Shapes.{IsWhole};
    ghost use Rattle.listed_calls.specs.Kept.{CallsListed};
    ghost use Rattle.psm_session.specs.Bodies.{HasTypedBodies};

    ghost view = { λ d. database d.catalog d.tables };

    ghost invariant = { λ d. IsWhole (database d.catalog d.tables) × (HasTypedBodies d.catalog ×
        (CallsListed d.catalog × ((d.names.items ≡ names_of d.tables.tables) ×
        (d.kept ≡ d.catalog)))) };
}

// The reply to a fault.
fn name_fault(alloc: Global, fault: Fault) -> Result<Reply, NoMemory>
    ensures { IfOk result (λ r. r ≡ reply_to fault) }
{
    let text = FaultText::Name(fault.kind);
    fault_reply(alloc, text, fault.at.line, fault.at.column)
}

// The query of an EXPLAIN.
fn explained_query(stmt: &Bound) -> &BoundQuery
    requires { is_done_of stmt.now ≡ false }
    ensures { stmt.now ≡ Explain result.now }
{
    match stmt {
        Bound::Explain(query) => query,
        _ => unreachable!(),
    }
}

impl Database {
    ghost use Rattle.psm_effects.specs.Conclusions.{database};
    ghost use Rattle.psm_effects.specs.Database.{empty};

    /// A database without tables and functions. It takes no memory.
    pub fn new(alloc: Global) -> Database
        ensures { result ≡ empty }
    {
        let catalog = Catalog::new(alloc);
        let kept = KeptPlans::new(alloc, &catalog);
        Database {
            alloc,
            catalog,
            tables: Tables::new(alloc),
            names: Vec::new(alloc),
            kept,
        }
    }

    /// The catalog as it is, in which a query is bound that is to be prepared.
    pub fn catalog(&self) -> &Catalog
        ensures { result.now ≡ self.now.catalog }
    {
        &self.catalog
    }

    /// The catalog and the tables, which are all that a database is.
    pub fn into_parts(self) -> (Catalog, Tables)
        ensures { database result.0 result.1 ≡ self }
    {
        let Database {
            alloc: _,
            catalog,
            tables,
            names: _,
            kept: _,
        } = self;
        (catalog, tables)
    }

    /// Prepares a well typed query whose functions all have plans: its plan is made once, means the
    /// query for every content of the tables, and is well formed.
    pub fn prepare(&self, query: &BoundQuery) -> Result<Prepared, NoMemory>
        requires planned { planned (query_of self.now.catalog query.now) ≡ true }
        requires typed { IsTypedQuery self.now.catalog query.now }
        ensures { IfOk result (λ p. IsPrepared (query_of self.now.catalog query.now)
            (table_width self.now.tables) (kinds_in self.now.catalog) (plan_in p)) }
    {
        let _entries = self.catalog.len();
        prepare_query(self.alloc, query, &self.catalog)
    }

    /// How a prepared query ends over the tables as they are now: its rows in their order, or the
    /// first condition, where the tables that it names have as many columns as when it was
    /// prepared. It takes at most as many steps as the plan's work.
    pub fn run_prepared<L: Ledger>(
        &self,
        prepared: &Prepared,
        steps: &mut Steps<L>,
    ) -> Result<Answer, NoMemory>
        ensures ends { IfOk result (λ a. (q : Query) (widths : List ℕ → ℕ) →
            IsPlanOf q widths (plan_in prepared.now) →
            QueryLasts q widths (table_width self.now.tables)
            → (w : World) → w.tables ≡ self.now.tables →
            answer q no_self [] no_frame w ≡ ends_with a w) }
        ensures values { IfOk result (λ a. HasValues a) }
        ensures work { steps.new ≤ steps.old + work (plan_in prepared.now) (over self.now.tables) [] }
    {
        run_plan(self.alloc, prepared, &self.tables, steps)
    }

    /// All tables in the order of their making, each with its rows in the order of their keys.
    pub fn dump(&self) -> Result<Reply, NoMemory>
        ensures { IfOk result (λ r. r ≡ dump_text self.now) }
    {
        let mut dump = Dump::new(self.alloc);
        add_tables(&mut dump, &self.names, &self.tables)?;
        dump.into_reply()
    }

    /// The reply to EXPLAIN of a query, exactly: in how many places it calls functions with plans,
    /// blocks that may have plans among them, and functions without, and, where it has a plan, the
    /// lines of that, which means it, whatever the tables hold. Nothing is run and nothing changes.
    pub fn explain(&self, query: &BoundQuery) -> Result<Reply, NoMemory>
        ensures { IfOk result (λ r. IsExplained self.now.catalog query.now r) }
    {
        explain_query(self.alloc, query, &self.catalog)
    }

    // The reply to an EXPLAIN whose names are resolved.
    fn explain_bound(&self, stmt: BoundStatement) -> Result<Reply, NoMemory>
        requires { is_done_of stmt.bound ≡ false }
        ensures { IfOk result (λ r. (query : BoundQuery) × (stmt.bound ≡ Explain query) ×
            IsExplained self.now.catalog query r) }
    {
        let reply = self.explain(explained_query(&stmt.bound));
        drop(stmt);
        reply
    }

    /// Does a statement in a mode with so many turns, and answers its reply, which is the same in
    /// both modes. A statement with faults in this catalog changes nothing, and its reply is the
    /// least of them; an EXPLAIN changes nothing, and takes no turn. Without memory nothing changes
    /// either.
    pub fn exec_statement(
        &mut self,
        stmt: &Stmt,
        mode: Mode,
        budget: u64,
    ) -> Result<Reply, NoMemory>
        ensures ok { IfOk result (λ reply. Executes budget (judged_statement stmt.now self.old.catalog)
            (anchor_of stmt.now) self.old reply self.new) }
        ensures err { OnErr result (self.new ≡ self.old) }
    {
        let _entries = self.catalog.len();
        match bind_statement(self.alloc, stmt, &self.catalog) {
            Ok(found) => {
                if is_done(&found.bound) {
                    run_found(
                        self.alloc,
                        found,
                        mode,
                        budget,
                        &mut self.catalog,
                        &mut self.tables,
                        &mut self.names,
                        &mut self.kept,
                    )
                } else {
                    self.explain_bound(found)
                }
            }
            Err(NameFault::Fault(fault)) => name_fault(self.alloc, fault),
            Err(NameFault::NoMemory) => Err(NoMemory),
        }
    }

    /// Checks a statement, and answers its reply: the least of its faults in this catalog, where it
    /// has any, and nothing changes. Else a definition is carried out, whatever its form, and any
    /// other statement is bound alone. Without memory nothing changes.
    pub fn check_statement(&mut self, stmt: &Stmt) -> Result<Reply, NoMemory>
        ensures ok { IfOk result (λ reply. Checks (judged_statement stmt.now self.old.catalog)
            (anchor_of stmt.now) self.old reply self.new) }
        ensures err { OnErr result (self.new ≡ self.old) }
    {
        let _entries = self.catalog.len();
        match bind_statement(self.alloc, stmt, &self.catalog) {
            Ok(found) => check_bound(
                self.alloc,
                found,
                &mut self.catalog,
                &mut self.tables,
                &mut self.names,
                &mut self.kept,
            ),
            Err(NameFault::Fault(fault)) => name_fault(self.alloc, fault),
            Err(NameFault::NoMemory) => Err(NoMemory),
        }
    }
}
