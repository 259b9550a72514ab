//! Bound expressions with their heads, and what queries and items of FROM are bound to.

ghost use Rattle.std.specs.Prelude.{◌≡◌, IfOk, OnOk, not, is_some};
ghost use Rattle.bind_faults.specs.Faults.{merged};
ghost use Rattle.bind_parts.specs.Typed as spec;

use bind_faults::Fault;
use bind_kinds::{Kind, OperandHead, head_of};
use bind_sight::{ColumnList, Output};
use bound_trees::{BoundExpr, BoundQuery, BoundSource};
use sql_values::{Name, NoMemory};
use sqlite_items::Items;
use std::alloc::Global;
use syntax_trees::Anchor;

/// A bound expression with its head.
#[derive(Drop)]
pub struct Typed {
    pub head: OperandHead,
    pub tree: BoundExpr,
}

/// Several bound expressions, and their heads.
#[derive(Drop)]
pub struct Operands {
    pub heads: Items<OperandHead>,
    pub trees: Items<BoundExpr>,
}

/// A bound query, with its place and its columns.
#[derive(Drop)]
pub struct TypedQuery {
    pub at: Anchor,
    pub columns: Items<Output>,
    pub tree: BoundQuery,
}

/// What an item of FROM stands for: its name and the place of it, its columns, and whether it is
/// known.
#[derive(Drop)]
pub struct TypedSource {
    pub name: Name,
    pub at: Anchor,
    pub columns: ColumnList,
    pub known: bool,
    pub source: BoundSource,
}

// An expression of this kind, at this token.
pub(crate) fn with_kind(kind: Kind, at: Anchor, tree: BoundExpr) -> Typed
    ensures { result ≡ spec.with_kind kind at tree }
{
    Typed {
        head: head_of(kind, at),
        tree,
    }
}

/// An expression in which these faults were noted apart: its kind is Null where there are any. They
/// are added to those before.
pub fn settle(typed: Typed, before: Option<Fault>, least: &mut Option<Fault>) -> Typed
    ensures value { result ≡ spec.settle (not (is_some least.old)) typed }
    ensures faults { least.new ≡ merged before least.old }
{
    Typed {
        head: bind_kinds::settle(typed.head, before, least),
        tree: typed.tree,
    }
}

/// No operand, with room for some.
pub fn no_operands(alloc: Global, room: usize) -> Result<Operands, NoMemory>
    ensures { IfOk result (λ so. so ≡ spec.no_operands) }
{
    let heads = Vec::with_capacity(alloc, room)?;
    let trees = Vec::with_capacity(alloc, room)?;
    Ok(Operands {
        heads: Items::from_vec(heads),
        trees: Items::from_vec(trees),
    })
}

/// One operand more.
pub fn add_operand(so: &mut Operands, typed: Typed) -> Result<(), NoMemory>
    ensures { OnOk result (so.new ≡ spec.with_last so.old typed) }
{
    let Typed { head, tree } = typed;
    so.trees.push(tree)?;
    so.heads.push(head)?;
    Ok(())
}
