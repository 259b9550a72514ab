//! The text of a node, and of a leaf, without its line's margin and end.

ghost use Rattle.std.specs.Prelude.{◌≡◌, ◌++◌, codes, OnOk};
ghost use Rattle.rel_algebra.specs.Plan.{anew, extend, filter, group, keep, sort, unit_row};
ghost use Rattle.rel_algebra.specs.PlanText.{way_text};
ghost use Rattle.rel_algebra.specs.PlanView.{aggregates_of, kind_of, leaf_of, scalar_of};
ghost use Rattle.rel_algebra.specs.PlanView.{scalars_of, with_node};
ghost use Rattle.plan_text.specs.ScalarText.{scalar_text};
ghost use Rattle.plan_text.specs.PlanLines.{kind_text, node_text, texts};

use crate::lists::{put_aggregate_list, put_key_list, put_place_list, put_places, put_row_list};
use crate::scalars::{put_scalar, put_scalar_list};
use rel_algebra::{ApplyKind, ColumnPlaces, Leaf, Node, Scalar};
use reply_text::put;
use row_types::{AggregateColumn, SortKey};
use sql_values::NoMemory;

/// Writes the text of a leaf.
pub(crate) fn put_leaf(text: &mut Vec<u8>, leaf: &Leaf) -> Result<(), NoMemory>
    ensures { OnOk result (text.new.items ≡ text.old.items ++ node_text (leaf_of leaf.now)) }
{
    match leaf {
        Leaf::Unit => put(text, b"Unit"),
        Leaf::Scan(name, _) => {
            put(text, b"Scan ")?;
            put(text, name.as_bytes())
        }
        Leaf::Values(rows) => {
            put(text, b"Values")?;
            put_row_list(text, rows.as_slice())
        }
    }
}

// Writes what an Apply makes of the rows of its inner plan.
fn put_kind(text: &mut Vec<u8>, kind: &ApplyKind) -> Result<(), NoMemory>
    ensures { OnOk result (text.new.items ≡ text.old.items ++ kind_text (kind_of kind.now)) }
{
    match kind {
        ApplyKind::Single => put(text, b"scalar"),
        ApplyKind::Exists => put(text, b"exists"),
        ApplyKind::Member(scalar) => {
            put(text, b"member ")?;
            put_scalar(scalar, text)
        }
        ApplyKind::Aggregate(aggregates) => {
            put(text, b"aggregate")?;
            put_aggregate_list(text, aggregates.as_slice())
        }
        ApplyKind::Into(_) => put(text, b"into"),
    }
}

// Writes the text of an Extend.
fn put_extend(text: &mut Vec<u8>, scalars: &[Scalar]) -> Result<(), NoMemory>
    ensures { OnOk result (text.new.items ≡ text.old.items ++ node_text
        (extend (scalars_of scalars.now) unit_row)) }
{
    put(text, b"Extend")?;
    put_scalar_list(text, scalars)
}

// Writes the text of a Filter.
fn put_filter(text: &mut Vec<u8>, test: &Scalar) -> Result<(), NoMemory>
    ensures { OnOk result (text.new.items ≡ text.old.items ++ node_text
        (filter (scalar_of test.now) unit_row)) }
{
    put(text, b"Filter ")?;
    put_scalar(test, text)
}

// Writes the text of a Keep.
fn put_keep(text: &mut Vec<u8>, places: &ColumnPlaces) -> Result<(), NoMemory>
    ensures { OnOk result (text.new.items ≡ text.old.items ++ node_text
        (keep places.now unit_row)) }
{
    put(text, b"Keep")?;
    put_place_list(text, places)
}

// Writes the text of a LEFT JOIN.
fn put_left(text: &mut Vec<u8>, test: &Scalar) -> Result<(), NoMemory>
    ensures { OnOk result (text.new.items ≡ text.old.items ++ (codes "Product left " ++ scalar_text
        (scalar_of test.now))) }
{
    put(text, b"Product left ")?;
    put_scalar(test, text)
}

// Writes the text of an Apply.
fn put_apply(text: &mut Vec<u8>, when: &Scalar, kind: &ApplyKind) -> Result<(), NoMemory>
    ensures { OnOk result (text.new.items ≡ text.old.items ++ way_text texts (scalar_of when.now)
        (kind_of kind.now) anew) }
{
    put(text, b"Apply ")?;
    put_scalar(when, text)?;
    put(text, b" ")?;
    put_kind(text, kind)
}

// Writes the text of a Sort.
fn put_sort(text: &mut Vec<u8>, keys: &[SortKey]) -> Result<(), NoMemory>
    ensures { OnOk result (text.new.items ≡ text.old.items ++ node_text (sort keys.now unit_row)) }
{
    put(text, b"Sort")?;
    put_key_list(text, keys)
}

// Writes the text of a Group.
fn put_group(
    text: &mut Vec<u8>,
    places: &[usize],
    aggregates: &[AggregateColumn],
) -> Result<(), NoMemory>
    ensures { OnOk result (text.new.items ≡ text.old.items ++ node_text
        (group places.now (aggregates_of aggregates.now) unit_row)) }
{
    put(text, b"Group [")?;
    put_places(text, places)?;
    put(text, b"]")?;
    put_aggregate_list(text, aggregates)
}

/// Writes the text of a node.
pub(crate) fn put_node(text: &mut Vec<u8>, node: &Node) -> Result<(), NoMemory>
    ensures { OnOk result (text.new.items ≡ text.old.items ++ node_text
        (with_node node.now unit_row)) }
{
    match node {
        Node::Extend(scalars) => put_extend(text, scalars.as_slice()),
        Node::Apply(when, kind, _) => put_apply(text, when, kind),
        Node::Filter(test) => put_filter(text, test),
        Node::Keep(places) => put_keep(text, places),
        Node::Cross(_) => put(text, b"Product cross"),
        Node::LeftOuter(_, test, _, _) => put_left(text, test),
        Node::Settle => put(text, b"Settle"),
        Node::Group(places, aggregates) => {
            put_group(text, places.as_slice(), aggregates.as_slice())
        }
        Node::Sort(keys) => put_sort(text, keys.as_slice()),
    }
}
