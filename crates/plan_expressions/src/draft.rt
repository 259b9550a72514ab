//! A plan in the making: nodes are put over it one by one.

ghost use Rattle.std.specs.Prelude.{◌≡◌, ◌+◌, length, Some, OnOk};
ghost use Rattle.rel_algebra.specs.Joins.{places};
ghost use Rattle.rel_algebra.specs.Plan.{extend, apply, anew, kind_width, filter, keep, cross};
ghost use Rattle.rel_algebra.specs.Plan.{left_outer, settle, group, sort, unit_row, on_each, Nodes};
ghost use Rattle.rel_algebra.specs.PlanView.{scalar_of, scalars_of, kind_of, aggregates_of};
ghost use Rattle.rel_algebra.specs.PlanView.{leaf_of, tree_of, run_of};
ghost use Rattle.catalog_store.specs.Kept.{run_of as kept_run};
ghost use Rattle.plan_expressions.specs.Drafts.{drafted, is_unit_row};

use rel_algebra::{ApplyKind, ColumnPlaces, Leaf, Node, Plan, Scalar};
use row_types::{AggregateColumn, SortKey};
use sql_values::NoMemory;
use sqlite_items::{Boxed, Items};
use std::alloc::Global;

/// A plan in the making, and how many columns its rows have.
#[derive(Drop)]
pub struct Draft {
    pub alloc: Global,
    pub plan: Plan,
    pub columns: usize,
}

impl Draft {
    /// A leaf whose rows have so many columns.
    pub fn over(alloc: Global, leaf: Leaf, columns: usize) -> Draft
        ensures tree { (drafted result).tree ≡ leaf_of leaf }
        ensures width { (drafted result).width ≡ columns }
    {
        let plan = Plan {
            leaf,
            nodes: Items::new(alloc),
        };
        Draft {
            alloc,
            plan,
            columns,
        }
    }

    /// A plan whose rows have so many columns.
    pub fn of_plan(alloc: Global, plan: Plan, columns: usize) -> Draft
        ensures tree { (drafted result).tree ≡ tree_of plan }
        ensures width { (drafted result).width ≡ columns }
    {
        Draft {
            alloc,
            plan,
            columns,
        }
    }

    /// What the plan takes its memory from.
    pub fn allocator(&self) -> Global {
        self.alloc
    }

    /// The number of columns of the plan's rows.
    pub fn columns(&self) -> usize
        ensures { result ≡ (drafted self.now).width }
    {
        self.columns
    }

    /// Whether the plan is Unit alone.
    pub fn is_unit(&self) -> bool
        ensures { result ≡ is_unit_row (drafted self.now).tree }
    {
        match self.plan.leaf {
            Leaf::Unit => self.plan.nodes.is_empty(),
            Leaf::Scan(_, _) => false,
            Leaf::Values(_) => false,
        }
    }

    /// An Extend more.
    pub fn extend(&mut self, scalars: Items<Scalar>) -> Result<(), NoMemory>
        ensures tree { OnOk result ((drafted self.new).tree ≡ extend (scalars_of scalars)
            (drafted self.old).tree) }
        ensures width { OnOk result ((drafted self.new).width ≡ (drafted self.old).width +
            length scalars) }
    {
        let Some(columns) = self.columns.checked_add(scalars.len()) else {
            return Err(NoMemory);
        };
        self.plan.nodes.push(Node::Extend(scalars))?;
        self.columns = columns;
        Ok(())
    }

    /// An Apply more: the cells that the kind makes of the rows of a plan inside, where the scalar
    /// is true.
    pub fn apply(&mut self, when: Scalar, kind: ApplyKind, inner: Plan) -> Result<(), NoMemory>
        ensures tree { OnOk result ((drafted self.new).tree ≡ apply (scalar_of when) (kind_of kind)
            anew (tree_of inner) (drafted self.old).tree) }
        ensures width { OnOk result ((drafted self.new).width ≡ (drafted self.old).width +
            kind_width (kind_of kind)) }
    {
        let Some(columns) = self.columns.checked_add(cells_of(&kind)) else {
            return Err(NoMemory);
        };
        let inner = Boxed::new(self.alloc, inner)?;
        self.plan.nodes.push(Node::Apply(when, kind, inner))?;
        self.columns = columns;
        Ok(())
    }

    /// A Filter more.
    pub fn filter(&mut self, test: Scalar) -> Result<(), NoMemory>
        ensures tree { OnOk result ((drafted self.new).tree ≡ filter (scalar_of test)
            (drafted self.old).tree) }
        ensures width { (drafted self.new).width ≡ (drafted self.old).width }
    {
        self.plan.nodes.push(Node::Filter(test))?;
        Ok(())
    }

    /// A Keep more.
    pub fn keep(&mut self, places: Items<usize>) -> Result<(), NoMemory>
        ensures tree { OnOk result ((drafted self.new).tree ≡ keep places (drafted self.old).tree) }
        ensures width { OnOk result ((drafted self.new).width ≡ length places) }
    {
        let columns = places.len();
        self.plan
            .nodes
            .push(Node::Keep(ColumnPlaces::listed(places)))?;
        self.columns = columns;
        Ok(())
    }

    /// A Keep more, of the first so many columns.
    pub fn keep_front(&mut self, columns: usize) -> Result<(), NoMemory>
        ensures tree { OnOk result ((drafted self.new).tree ≡ keep (places 0 columns)
            (drafted self.old).tree) }
        ensures width { OnOk result ((drafted self.new).width ≡ columns) }
    {
        self.plan
            .nodes
            .push(Node::Keep(ColumnPlaces::front(columns)))?;
        self.columns = columns;
        Ok(())
    }

    /// A Cross more: each row with each row of a plan at the right (ISO/IEC 9075-2, 7.10).
    pub fn cross(&mut self, right: Draft) -> Result<(), NoMemory>
        ensures tree { OnOk result ((drafted self.new).tree ≡ cross (drafted self.old).tree
            (drafted right).tree) }
        ensures width { OnOk result ((drafted self.new).width ≡ (drafted self.old).width +
            (drafted right).width) }
    {
        let Some(columns) = self.columns.checked_add(right.columns) else {
            return Err(NoMemory);
        };
        let right = Boxed::new(self.alloc, right.into_plan())?;
        self.plan.nodes.push(Node::Cross(right))?;
        self.columns = columns;
        Ok(())
    }

    /// A LeftOuter more: each row with those rows of a plan at the right for which the test is true
    /// after these nodes, or with NULLs (7.10).
    pub fn left_outer(
        &mut self,
        nodes: Items<Node>,
        test: Scalar,
        right: Draft,
    ) -> Result<(), NoMemory>
        ensures tree { OnOk result ((drafted self.new).tree ≡ left_outer (run_of nodes)
            (scalar_of test) (drafted right).width (drafted self.old).tree (drafted right).tree) }
        ensures width { OnOk result ((drafted self.new).width ≡ (drafted self.old).width +
            (drafted right).width) }
    {
        let nulls = right.columns;
        let Some(columns) = self.columns.checked_add(nulls) else {
            return Err(NoMemory);
        };
        let right = Boxed::new(self.alloc, right.into_plan())?;
        let node = Node::LeftOuter(nodes, test, nulls, right);
        self.plan.nodes.push(node)?;
        self.columns = columns;
        Ok(())
    }

    /// A Settle more.
    pub fn settle(&mut self) -> Result<(), NoMemory>
        ensures tree { OnOk result ((drafted self.new).tree ≡ settle (drafted self.old).tree) }
        ensures width { (drafted self.new).width ≡ (drafted self.old).width }
    {
        self.plan.nodes.push(Node::Settle)?;
        Ok(())
    }

    /// A Group more (7.13): by the columns at these places, with these aggregates (10.9).
    pub fn group(
        &mut self,
        places: Items<usize>,
        aggregates: Items<AggregateColumn>,
    ) -> Result<(), NoMemory>
        ensures tree { OnOk result ((drafted self.new).tree ≡ group places
            (aggregates_of aggregates) (drafted self.old).tree) }
        ensures width { OnOk result ((drafted self.new).width ≡ length places + length aggregates) }
    {
        let Some(columns) = places.len().checked_add(aggregates.len()) else {
            return Err(NoMemory);
        };
        self.plan.nodes.push(Node::Group(places, aggregates))?;
        self.columns = columns;
        Ok(())
    }

    /// A Sort more (14.3).
    pub fn sort(&mut self, keys: Items<SortKey>) -> Result<(), NoMemory>
        ensures tree { OnOk result ((drafted self.new).tree ≡ sort keys (drafted self.old).tree) }
        ensures width { (drafted self.new).width ≡ (drafted self.old).width }
    {
        self.plan.nodes.push(Node::Sort(keys))?;
        Ok(())
    }

    /// The nodes of a plan that adds columns alone to one row without cells.
    pub fn into_nodes(self) -> Items<Node>
        ensures kept { (a : Nodes) → (drafted self).tree ≡ on_each a unit_row →
            kept_run result ≡ Some a }
        ensures run { (a : Nodes) → (drafted self).tree ≡ on_each a unit_row → run_of result ≡ a }
    {
        self.into_plan().nodes
    }

    /// The plan.
    pub fn into_plan(self) -> Plan
        ensures { tree_of result ≡ (drafted self).tree }
    {
        let Draft {
            alloc: _,
            plan,
            columns: _,
        } = self;
        plan
    }
}

// How many cells a kind of Apply makes.
fn cells_of(kind: &ApplyKind) -> usize
    ensures { result ≡ kind_width (kind_of kind.now) }
{
    match kind {
        ApplyKind::Single => 1,
        ApplyKind::Exists => 1,
        ApplyKind::Member(_) => 1,
        ApplyKind::Aggregate(columns) => columns.len(),
        ApplyKind::Into(columns) => *columns,
    }
}
