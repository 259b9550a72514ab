//! The plans of blocks, by their names, in one catalog.

ghost use Rattle.std.specs.Prelude.{◌≡◌, [], length, Some, OnOk, OnErr, MatchOption};
ghost use Rattle.catalog_store.specs.Catalog.{routine_named};
ghost use Rattle.block_plans.specs.Callees.{callee, without_blocks};
ghost use Rattle.block_plans.specs.Blocks.{IsBlock, IsRun, with_name};

use catalog_store::{Catalog, FunctionPlan};
use indexmap::IndexMap;
use sql_values::{Name, NoMemory, SqlType};
use sqlite_items::Items;
use std::alloc::Global;
use std::marker::Model;
use std::snapshot::Snapshot;

/// A function whose body is a block: the types of its parameters, and its plan, which is there
/// where the block is kept.
#[derive(Drop)]
pub struct BlockPlan {
    pub parameters: Items<SqlType>,
    pub plan: Option<FunctionPlan>,
}

/// The plans of blocks, by the functions' names, all in one catalog. A contract sees the catalog
/// and the names.
#[derive(Drop)]
pub struct BlockPlans {
    known: Snapshot<Catalog>,
    plans: IndexMap<Name, BlockPlan>,
}

impl Model for BlockPlans {
    ghost use Rattle.block_plans.specs.Callees.{Callees, coded_callees};

    ghost Value = { Callees };

    ghost coded = { coded_callees };

    ghost use Rattle.block_plans.specs.Blocks.{AreBlocks, names_of};

    ghost view = { λ p. record { known = p.known.value; blocks = names_of p.plans.entries } };

    ghost invariant = { λ p. AreBlocks p.known.value p.plans.entries };
}

impl BlockPlans {
    /// None yet, in this catalog.
    pub fn new(alloc: Global, catalog: &Catalog) -> BlockPlans
        ensures { result ≡ without_blocks catalog.now }
    {
        BlockPlans {
            known: Snapshot::of(catalog),
            plans: IndexMap::new(alloc),
        }
    }

    /// The plan of a block more, in the place of any that it had. Without memory the others stay.
    pub fn add(
        &mut self,
        name: Name,
        parameters: Items<SqlType>,
        plan: FunctionPlan,
    ) -> Result<(), NoMemory>
        requires { IsBlock self.old.known name
            (record { parameters = parameters; plan = Some plan }) }
        ensures known { self.new.known ≡ self.old.known }
        ensures ok { OnOk result (self.new.blocks ≡ with_name name self.old.blocks) }
        ensures err { OnErr result (self.new ≡ self.old) }
    {
        let plan = Some(plan);
        self.plans.insert(name, BlockPlan { parameters, plan })?;
        Ok(())
    }

    /// The block of a name that has so many parameters, where it has a plan.
    pub fn get<'a>(&'a self, name: &Name, count: usize) -> Option<&'a BlockPlan>
        ensures { MatchOption result
            (callee self.now name.now count ≡ routine_named name.now self.now.known)
            (λ b. IsRun self.now name.now count b.now) }
    {
        match self.plans.get(name) {
            Some(block) => with_parameters(block, count),
            None => None,
        }
    }
}

// A block that has so many parameters.
fn with_parameters(block: &BlockPlan, count: usize) -> Option<&BlockPlan>
    ensures { MatchOption result (¬ (length block.now.parameters ≡ count))
        (λ b. (b.now ≡ block.now) × (length block.now.parameters ≡ count)) }
{
    if block.parameters.len() == count {
        Some(block)
    } else {
        None
    }
}
