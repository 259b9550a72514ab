//! Rows on their way to the next node that takes whole lists. A Group needs no list: its aggregates
//! are folded as the rows come, so that its memory is that of the groups.

ghost use Rattle.std.specs.Prelude.{◌≡◌, ◌∷◌, [], true, IfOk, OnOk};
ghost use Rattle.row_types.specs.Cells.{Poisoned};
ghost use Rattle.plan_nodes.specs.Receiving.{is_list as is_list_by};
ghost use Rattle.plan_nodes.specs.Receiving.{nothing_below as nothing_below_by};
ghost use Rattle.plan_nodes.specs.Receiving.{nothing_for as nothing_for_by};
ghost use Rattle.plan_nodes.specs.Receiving.{nothing_wanted as nothing_wanted_by};
ghost use Rattle.plan_nodes.specs.Receiving.{received as received_by};
ghost use Rattle.plan_nodes.specs.declared.received.Received.TheVariants.{Rows};

use group_index::Folding;
use rel_algebra::Node;
use row_types::{AggregateColumn, PlanRow, RowEnd, RowList};
use sql_conditions::Area;
use sql_values::NoMemory;
use sqlite_items::Boxed;
use std::alloc::Global;

/// What the rows of a plan are wanted for.
#[derive(Drop)]
pub enum Wanted<'a> {
    /// A list of them.
    List,
    /// These aggregates of all of them.
    Aggregates(&'a [AggregateColumn]),
}

/// What was received of rows so far.
#[derive(Drop)]
pub enum Received {
    /// The rows.
    Rows(RowList),
    /// What a Group folds of the rows. None of them has an area.
    Folds(Folding),
    /// The first area of rows that go to a Group.
    Raised(Area),
}

impl Received {
    /// No rows, on their way to the first of these nodes, or, after the last, for what they are
    /// wanted.
    pub fn nothing_below(
        alloc: Global,
        wanted: &Wanted,
        nodes: &[Node],
    ) -> Result<Received, NoMemory>
        ensures { IfOk result (λ r. r ≡ nothing_below_by wanted.now nodes.now) }
    {
        if nodes.is_empty() {
            return nothing_wanted(alloc, wanted);
        }
        nothing_for(alloc, &nodes[0])
    }

    /// Whether it is a list of no rows. `false` says nothing.
    pub(crate) fn is_empty_list(&self) -> bool
        ensures { result ≡ true → self.now ≡ Rows [] }
    {
        match self {
            Received::Rows(rows) => rows.len() == 0,
            Received::Folds(_) => false,
            Received::Raised(_) => false,
        }
    }

    /// Whether rows that pass no node can be given as a list in place of this one.
    pub fn takes_whole(&self, nodes: &[Node]) -> bool
        ensures list { result ≡ true → self.now ≡ Rows [] }
        ensures nodes { result ≡ true → nodes.now ≡ [] }
    {
        nodes.is_empty() && self.is_empty_list()
    }

    /// The same, with memory for so many rows where it is a list without any.
    pub fn with_room(self, alloc: Global, rows: usize) -> Result<Received, NoMemory>
        ensures { IfOk result (λ r. r ≡ self) }
    {
        if self.is_empty_list() {
            return Ok(Received::Rows(RowList::with_capacity(alloc, rows)?));
        }
        Ok(self)
    }

    /// Takes one row more.
    pub fn take(&mut self, alloc: Global, row: PlanRow) -> Result<(), NoMemory>
        ensures { OnOk result (self.new ≡ received_by self.old (row ∷ [])) }
    {
        match self {
            Received::Rows(rows) => rows.push(row),
            Received::Folds(folding) => match row.into_end(alloc)? {
                RowEnd::Values(values) => folding.take(values.as_slice()),
                RowEnd::Raised(area) => {
                    *self = Received::Raised(area.into_inner());
                    Ok(())
                }
            },
            Received::Raised(_) => Ok(()),
        }
    }

    /// With one row more, poisoned by an area.
    pub fn with_poisoned(self, alloc: Global, area: Area) -> Result<Received, NoMemory>
        ensures { IfOk result (λ r. r ≡ received_by self (Poisoned area ∷ [])) }
    {
        let mut received = self;
        received.take(alloc, PlanRow::poisoned(Boxed::new(alloc, area)?))?;
        Ok(received)
    }

    /// The rows.
    pub fn into_list(self) -> RowList
        requires { is_list_by self ≡ true }
        ensures { self ≡ Rows result }
    {
        match self {
            Received::Rows(rows) => rows,
            Received::Folds(_) => unreachable!(),
            Received::Raised(_) => unreachable!(),
        }
    }
}

// No rows, on their way to a node.
fn nothing_for(alloc: Global, node: &Node) -> Result<Received, NoMemory>
    ensures { IfOk result (λ r. r ≡ nothing_for_by node.now) }
{
    match node {
        Node::Group(places, aggregates) => Ok(Received::Folds(Folding::new(
            alloc,
            places.as_slice(),
            aggregates.as_slice(),
        )?)),
        _ => Ok(Received::Rows(RowList::new(alloc))),
    }
}

// No rows, for what they are wanted.
fn nothing_wanted(alloc: Global, wanted: &Wanted) -> Result<Received, NoMemory>
    ensures { IfOk result (λ r. r ≡ nothing_wanted_by wanted.now) }
{
    match wanted {
        Wanted::List => Ok(Received::Rows(RowList::new(alloc))),
        Wanted::Aggregates(aggregates) => {
            Ok(Received::Folds(Folding::new(alloc, &[], aggregates)?))
        }
    }
}
