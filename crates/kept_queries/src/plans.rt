//! The kept queries of several bodies, and the plans of blocks and of calls, in one catalog.

ghost use Rattle.std.specs.Prelude.{◌≡◌, Some, None, IfSome};
ghost use Rattle.std.specs.Option.{option_copied};
ghost use Rattle.block_plans.specs.Blocks.{IsBlock};
ghost use Rattle.call_plans.specs.Calls.{IsCallPlan};
ghost use Rattle.kept_queries.specs.Keeping.{IsKeptFor, ArePlans};

use crate::keeping::{KeptQuery, find};
use crate::sight::InSight;
use block_plans::BlockPlans;
use bound_trees::BoundQuery;
use call_plans::CallPlan;
use catalog_store::{Catalog, FunctionPlan};
use indexmap::{IndexMap, IndexSet};
use sql_values::{Name, NoMemory, SqlType};
use sqlite_items::Items;
use std::alloc::Global;
use std::marker::Model;
use std::snapshot::Snapshot;

/// The plans of blocks, and of calls of functions (ISO/IEC 9075-2, 10.4), by the functions' names;
/// the kept queries of routines whose bodies are statements, by the routines' names; those of
/// functions that only return an expression, with the functions' names; and those of the statement
/// that is run; all in one catalog. What such a function returns is run as what stands in no
/// routine is. A contract sees the catalog alone.
#[derive(Drop)]
pub struct KeptPlans {
    known: Snapshot<Catalog>,
    blocks: BlockPlans,
    calls: IndexMap<Name, CallPlan>,
    routines: IndexMap<Name, Items<KeptQuery>>,
    functions: IndexSet<Name>,
    returned: Items<KeptQuery>,
    statement: Items<KeptQuery>,
}

impl Model for KeptPlans {
    ghost use Rattle.catalog_store.specs.Catalog.{Catalog as PlainCatalog};
    ghost use Rattle.catalog_store.specs.Codes.{coded_catalog};

    ghost Value = { PlainCatalog };

    ghost coded = { coded_catalog };

    ghost use Rattle.std.specs.Prelude.{◌≡◌, None};
    ghost use Rattle.kept_queries.specs.Keeping.{ArePlans, AreForBodies};
    ghost use Rattle.kept_queries.specs.Called.{AreCalls};

    ghost view = { λ p. p.known.value };

    ghost invariant = { λ p.
        ((p.blocks.known ≡ p.known.value) × AreCalls p.known.value p.calls.entries)
        × (AreForBodies p.known.value p.routines.entries
        × (ArePlans p.known.value None p.returned × ArePlans p.known.value None p.statement)) };
}

impl KeptPlans {
    /// None yet, in this catalog.
    pub fn new(alloc: Global, catalog: &Catalog) -> KeptPlans
        ensures { result ≡ catalog.now }
    {
        KeptPlans {
            known: Snapshot::of(catalog),
            blocks: BlockPlans::new(alloc, catalog),
            calls: IndexMap::new(alloc),
            routines: IndexMap::new(alloc),
            functions: IndexSet::new(alloc),
            returned: Items::new(alloc),
            statement: Items::new(alloc),
        }
    }

    /// Whether the queries of a routine are there.
    pub fn holds(&self, name: &Name) -> bool {
        self.routines.contains_key(name) || self.functions.contains(name)
    }

    /// How many queries in what functions return there are.
    pub fn returned(&self) -> usize {
        self.returned.len()
    }

    /// The plans of blocks.
    pub fn blocks(&self) -> &BlockPlans
        ensures { result.now.known ≡ self.now }
    {
        &self.blocks
    }

    /// The plan of a block more, in the place of any that it had. Without memory the others stay.
    pub fn add_block(
        &mut self,
        name: Name,
        parameters: Items<SqlType>,
        plan: FunctionPlan,
    ) -> Result<(), NoMemory>
        requires { IsBlock self.old name (record { parameters = parameters; plan = Some plan }) }
        ensures { self.new ≡ self.old }
    {
        self.blocks.add(name, parameters, plan)
    }

    /// The plan of the calls of a function more, in the place of any that they had. Without memory
    /// the others stay.
    pub fn add_call(&mut self, name: Name, call: CallPlan) -> Result<(), NoMemory>
        requires { IsCallPlan self.old name call }
        ensures { self.new ≡ self.old }
    {
        self.calls.insert(name, call)?;
        Ok(())
    }

    /// The plan of the calls of a function, where it is there.
    pub fn call(&self, name: &Name) -> Option<&CallPlan>
        ensures { IfSome result (λ c. IsCallPlan self.now name.now c.now) }
    {
        self.calls.get(name)
    }

    /// Those in the body of a routine, in the place of any that it had. Without memory nothing is
    /// lost but these.
    pub fn add(&mut self, name: Name, queries: Items<KeptQuery>) -> Result<(), NoMemory>
        requires { ArePlans self.old (Some name) queries }
        ensures { self.new ≡ self.old }
    {
        self.routines.insert(name, queries)?;
        Ok(())
    }

    /// Those in what a function returns, after those of other functions. Without memory those of
    /// all functions are lost.
    pub fn add_function(
        &mut self,
        alloc: Global,
        name: Name,
        queries: Items<KeptQuery>,
    ) -> Result<(), NoMemory>
        requires { ArePlans self.old None queries }
        ensures { self.new ≡ self.old }
    {
        match self.returned.append(queries) {
            Ok(()) => {
                self.functions.insert(name)?;
                Ok(())
            }
            Err(_) => {
                self.returned = Items::new(alloc);
                Err(NoMemory)
            }
        }
    }

    /// Those of the statement that is run, in the place of the last one's.
    pub fn set_statement(&mut self, queries: Items<KeptQuery>)
        requires { ArePlans self.old None queries }
        ensures { self.new ≡ self.old }
    {
        self.statement = queries;
    }

    /// The first that is kept of an equal query where as much is in sight, for the body of a
    /// routine, or for what stands in none. What it misses is only slower.
    pub fn find<'a>(
        &'a self,
        own: Option<&Name>,
        query: &BoundQuery,
        sight: &InSight,
    ) -> Option<&'a KeptQuery>
        ensures kept { IfSome result (λ k. IsKeptFor self.now (option_copied own.entry) k.now) }
        ensures query { IfSome result (λ k. k.now.query ≡ query.now) }
        ensures sight { IfSome result (λ k. k.now.in_sight ≡ sight.now) }
    {
        match own {
            Some(name) => self.find_in(name, query, sight),
            None => self.find_outside(query, sight),
        }
    }

    // The first of those in the body of a routine.
    fn find_in<'a>(
        &'a self,
        own: &Name,
        query: &BoundQuery,
        sight: &InSight,
    ) -> Option<&'a KeptQuery>
        ensures kept { IfSome result (λ k. IsKeptFor self.now (Some own.now) k.now) }
        ensures query { IfSome result (λ k. k.now.query ≡ query.now) }
        ensures sight { IfSome result (λ k. k.now.in_sight ≡ sight.now) }
    {
        match self.routines.get(own) {
            Some(queries) => find(queries.as_slice(), query, sight),
            None => None,
        }
    }

    // The first of the statement, or else of functions.
    fn find_outside<'a>(&'a self, query: &BoundQuery, sight: &InSight) -> Option<&'a KeptQuery>
        ensures kept { IfSome result (λ k. IsKeptFor self.now None k.now) }
        ensures query { IfSome result (λ k. k.now.query ≡ query.now) }
        ensures sight { IfSome result (λ k. k.now.in_sight ≡ sight.now) }
    {
        match find(self.statement.as_slice(), query, sight) {
            Some(kept) => Some(kept),
            None => find(self.returned.as_slice(), query, sight),
        }
    }
}
