//! Values in statements, and the variables into which they are stored.

ghost use Rattle.std.specs.Prelude.{◌≡◌, map, IfOk, OnOk};
ghost use Rattle.bind_faults.specs.Faults.{noted, taken};
ghost use Rattle.bind_simple.specs.Places.{place_by};
ghost use Rattle.bind_simple.specs.Values.{judged_expr, value_of_kind};
ghost use Rattle.bind_simple.specs.Values as spec;

use crate::place::{Surroundings, seen_from};
use bind_faults::{Fault, Notes};
use bind_kinds::{Kind, OperandHead, head_of, in_turn};
use bind_names::variable_named;
use bind_parts::Typed;
use bind_queries::bind_expr;
use bind_rules::note_found;
use bind_sight::Variable;
use bound_trees::{BoundExpr, BoundTarget};
use sql_values::{NoMemory, SqlType};
use sqlite_items::Items;
use std::alloc::Global;
use syntax_trees::{Anchor, Expr, Ident};

/// A variable into which a value is stored, with the kind that it takes and its place in the text.
#[derive(Clone, Copy)]
pub(crate) struct Stored {
    pub(crate) target: BoundTarget,
    pub(crate) kind: Kind,
    pub(crate) at: Anchor,
}

/// An expression of a statement.
pub fn bind_value(
    alloc: Global,
    expr: &Expr,
    place: &Surroundings<'_>,
    notes: &mut Notes,
) -> Result<Typed, NoMemory>
    ensures value { IfOk result (λ t. t ≡ (judged_expr expr.now (place_by place.now)).value) }
    ensures notes { OnOk result (notes.new ≡ taken notes.old
        (judged_expr expr.now (place_by place.now))) }
{
    let sight = seen_from(place);
    let typed = bind_expr(alloc, expr, &sight, notes)?;
    Ok(typed)
}

/// A value of a kind.
pub fn bind_of_kind(
    alloc: Global,
    kind: Kind,
    expr: &Expr,
    place: &Surroundings<'_>,
    notes: &mut Notes,
) -> Result<BoundExpr, NoMemory>
    ensures value { IfOk result (λ e. e ≡ (value_of_kind kind expr.now (place_by place.now)).value) }
    ensures notes { OnOk result (notes.new ≡ taken notes.old
        (value_of_kind kind expr.now (place_by place.now))) }
{
    let typed = bind_value(alloc, expr, place, notes)?;
    in_turn(&[kind], &[typed.head], &mut notes.least);
    Ok(typed.tree)
}

fn or_integer(data_type: Option<SqlType>) -> SqlType
    ensures { result ≡ spec.or_integer data_type }
{
    match data_type {
        Some(data_type) => data_type,
        None => SqlType::Integer,
    }
}

fn stored_in(at: Anchor, found: Option<(usize, Variable)>) -> Stored
    ensures { result ≡ spec.stored_in at found }
{
    match found {
        Some((slot, variable)) => Stored {
            target: BoundTarget {
                slot,
                data_type: or_integer(variable.data_type),
            },
            kind: variable.kind,
            at,
        },
        None => Stored {
            target: BoundTarget {
                slot: 0,
                data_type: SqlType::Integer,
            },
            kind: Kind::Null,
            at,
        },
    }
}

/// The variable of a name, into which a value is stored. None is in sight, or it is a column of
/// FOR: a fault.
pub(crate) fn bind_target(
    ident: &Ident,
    place: &Surroundings<'_>,
    least: &mut Option<Fault>,
) -> Result<Stored, NoMemory>
    ensures value { IfOk result (λ t. t ≡ spec.stored_at ident.now (place_by place.now)) }
    ensures faults { OnOk result (least.new ≡ noted least.old
        (spec.faults_at ident.now (place_by place.now))) }
{
    let found = variable_named(&ident.name, place.scopes)?;
    note_found(ident, found, least);
    Ok(stored_in(ident.anchor, found))
}

/// Several, in their order.
pub(crate) fn bind_targets(
    alloc: Global,
    idents: &[Ident],
    place: &Surroundings<'_>,
    least: &mut Option<Fault>,
) -> Result<Items<Stored>, NoMemory>
    ensures value { IfOk result (λ ts. ts ≡ spec.targets_at idents.now (place_by place.now)) }
    ensures faults { OnOk result (least.new ≡ noted least.old
        (spec.targets_faults idents.now (place_by place.now))) }
{
    let mut targets = Items::new(alloc);
    for ident in idents {
        let target = bind_target(ident, place, least)?;
        targets.push(target)?;
    }
    Ok(targets)
}

/// Where values are stored.
pub(crate) fn targets_of(alloc: Global, stored: &[Stored]) -> Result<Items<BoundTarget>, NoMemory>
    ensures { IfOk result (λ ts. ts ≡ spec.targets_of stored.now) }
{
    let mut targets = Items::new(alloc);
    for one in stored {
        targets.push(one.target)?;
    }
    Ok(targets)
}

/// The kinds of what is stored.
pub(crate) fn kinds_of(alloc: Global, stored: &[Stored]) -> Result<Items<Kind>, NoMemory>
    ensures { IfOk result (λ ks. ks ≡ spec.kinds_of stored.now) }
{
    let mut kinds = Items::new(alloc);
    for one in stored {
        kinds.push(one.kind)?;
    }
    Ok(kinds)
}

/// What is stored, as if it stood at its target.
pub(crate) fn heads_at(alloc: Global, stored: &[Stored]) -> Result<Items<OperandHead>, NoMemory>
    ensures { IfOk result (λ hs. hs ≡ spec.heads_at stored.now) }
{
    let mut heads = Items::new(alloc);
    for one in stored {
        heads.push(head_of(one.kind, one.at))?;
    }
    Ok(heads)
}
