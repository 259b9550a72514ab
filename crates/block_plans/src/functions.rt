//! What calls in queries run: the functions of a catalog, and blocks that have plans beside it.

ghost use Rattle.std.specs.Prelude.{◌≡◌, MatchOption};
ghost use Rattle.catalog_store.specs.Catalog.{routine_named};
ghost use Rattle.block_plans.specs.Callees.{callee, without_blocks};
ghost use Rattle.block_plans.specs.Blocks.{IsRun};

use crate::blocks::{BlockPlan, BlockPlans};
use catalog_store::Catalog;
use sql_values::Name;
use std::marker::Model;

/// A catalog, and the plans of those of its blocks that have any. A contract sees the catalog and
/// the blocks' names.
#[derive(Drop)]
pub struct Functions<'a> {
    catalog: &'a Catalog,
    blocks: Option<&'a BlockPlans>,
}

impl<'a> Model for Functions<'a> {
    ghost use Rattle.block_plans.specs.Callees.{Callees, coded_callees};

    ghost Value = { Callees };

    ghost coded = { coded_callees };

    ghost use Rattle.block_plans.specs.Blocks.{AreOf, blocks_in};

    ghost view = { λ f. record { known = f.catalog.now; blocks = blocks_in f.blocks } };

    ghost invariant = { λ f. AreOf f.catalog.now f.blocks };
}

impl<'a> Functions<'a> {
    /// Those of a catalog alone.
    pub fn of(catalog: &'a Catalog) -> Functions<'a>
        ensures { result ≡ without_blocks catalog.now }
    {
        Functions {
            catalog,
            blocks: None,
        }
    }

    /// Those of a catalog, and its blocks.
    pub fn with_blocks(catalog: &'a Catalog, blocks: &'a BlockPlans) -> Functions<'a>
        requires { blocks.now.known ≡ catalog.now }
        ensures { result ≡ blocks.now }
    {
        Functions {
            catalog,
            blocks: Some(blocks),
        }
    }

    /// The catalog.
    pub fn catalog(&self) -> &'a Catalog
        ensures { result.now ≡ self.now.known }
    {
        self.catalog
    }

    /// The block that a call of a name with so many arguments runs, where it runs one.
    pub fn block(&self, name: &Name, count: usize) -> Option<&'a BlockPlan>
        ensures { MatchOption result
            (callee self.now name.now count ≡ routine_named name.now self.now.known)
            (λ b. IsRun self.now name.now count b.now) }
    {
        match self.blocks {
            Some(blocks) => blocks.get(name, count),
            None => None,
        }
    }
}
