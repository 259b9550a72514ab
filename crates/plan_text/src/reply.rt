//! The reply to EXPLAIN.

ghost use Rattle.std.specs.Prelude.{◌≡◌, ◌++◌, decimal, IfOk, OnOk};
ghost use Rattle.std.specs.Option.{option_copied, option_map};
ghost use Rattle.rel_algebra.specs.PlanView.{tree_of};
ghost use Rattle.plan_text.specs.Explained.{by_plan_text, by_row_text, counts_line, explained_text};
ghost use Rattle.plan_text.specs.Explained.{nodes_text, places_text};

use crate::counts::{lookup_count, once_count};
use crate::lines::put_plan;
use rel_algebra::{Plan, apply_count};
use reply_text::{Reply, put, put_count};
use sql_values::NoMemory;
use std::alloc::Global;

// How many nodes of a plan run an inner plan, by how often they do.
#[derive(Clone, Copy)]
struct NodeTotals {
    apply: u64,
    lookup: u64,
    once: u64,
}

// Writes a word and a number.
fn put_named(text: &mut Vec<u8>, word: &[u8], count: u64) -> Result<(), NoMemory>
    ensures { OnOk result (text.new.items ≡ text.old.items ++ (word.now ++ decimal count)) }
{
    put(text, word)?;
    put_count(text, count)
}

// Writes in how many places functions are called.
fn put_places(text: &mut Vec<u8>, inlined: u64, interpreted: u64) -> Result<(), NoMemory>
    ensures { OnOk result (text.new.items ≡ text.old.items ++ places_text inlined interpreted) }
{
    put_named(text, b"inlined ", inlined)?;
    put_named(text, b" interpreted ", interpreted)
}

// Writes how many nodes run an inner plan.
fn put_nodes(text: &mut Vec<u8>, nodes: NodeTotals) -> Result<(), NoMemory>
    ensures { OnOk result (text.new.items ≡ text.old.items ++ nodes_text nodes.apply nodes.lookup
        nodes.once) }
{
    put_named(text, b" apply ", nodes.apply)?;
    put_named(text, b" lookup ", nodes.lookup)?;
    put_named(text, b" once ", nodes.once)
}

// Writes the line of the counts.
fn put_counts(
    text: &mut Vec<u8>,
    inlined: u64,
    interpreted: u64,
    nodes: NodeTotals,
) -> Result<(), NoMemory>
    ensures { OnOk result (text.new.items ≡ text.old.items ++ counts_line inlined interpreted
        nodes.apply nodes.lookup nodes.once) }
{
    put_places(text, inlined, interpreted)?;
    put_nodes(text, nodes)?;
    put(text, b"\n")
}

// Writes that a query is answered row by row.
fn put_by_row(text: &mut Vec<u8>, inlined: u64, interpreted: u64) -> Result<(), NoMemory>
    ensures { OnOk result (text.new.items ≡ text.old.items ++ by_row_text inlined interpreted) }
{
    let none = NodeTotals {
        apply: 0,
        lookup: 0,
        once: 0,
    };
    put_counts(text, inlined, interpreted, none)?;
    put(text, b"row by row\n00000\n")
}

// Writes that a query is answered by a plan.
fn put_by_plan(text: &mut Vec<u8>, inlined: u64, plan: &Plan) -> Result<(), NoMemory>
    ensures { OnOk result (text.new.items ≡ text.old.items ++ by_plan_text inlined
        (tree_of plan.now)) }
{
    let nodes = NodeTotals {
        apply: apply_count(plan),
        lookup: lookup_count(plan),
        once: once_count(plan),
    };
    put_counts(text, inlined, 0, nodes)?;
    put_plan(text, plan)?;
    put(text, b"00000\n")
}

/// The reply to EXPLAIN of a query that calls functions with plans in so many places, and functions
/// without in so many: the counts and the lines of the plan that answers it, or, where there is
/// none, that it is answered row by row.
pub fn plan_reply(
    alloc: Global,
    inlined: u64,
    interpreted: u64,
    plan: Option<&Plan>,
) -> Result<Reply, NoMemory>
    ensures { IfOk result (λ r. r ≡ explained_text inlined interpreted
        (option_map tree_of (option_copied plan.entry))) }
{
    let mut text = Vec::new(alloc);
    match plan {
        Some(plan) => put_by_plan(&mut text, inlined, plan)?,
        None => put_by_row(&mut text, inlined, interpreted)?,
    }
    Ok(Reply::of_bytes(text))
}
