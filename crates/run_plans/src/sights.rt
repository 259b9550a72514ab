//! What is in sight at a place, as kept plans are looked for by it.

ghost use Rattle.std.specs.Prelude.{◌≡◌, ◌++◌, IfOk, OnOk};
ghost use Rattle.rel_algebra.specs.Theorem.{widths};
ghost use Rattle.run_choices.specs.Sight.{seen};
ghost use Rattle.run_plans.specs.Sights.{sight_of};

use kept_queries::InSight;
use run_expressions::RowsInSight;
use sql_values::NoMemory;
use sqlite_items::Items;
use std::alloc::Global;

/// What is in sight where there are so many variables, under these rows.
pub(crate) fn in_sight(
    alloc: Global,
    variables: usize,
    rows: &RowsInSight,
) -> Result<InSight, NoMemory>
    ensures { IfOk result (λ s. s ≡ sight_of variables (seen rows.now)) }
{
    let mut counts = Items::new(alloc);
    add_widths(rows, &mut counts)?;
    Ok(InSight {
        variables,
        rows: counts,
    })
}

// Puts after others how many values each of these rows has.
fn add_widths(rows: &RowsInSight, counts: &mut Items<usize>) -> Result<(), NoMemory>
    ensures { OnOk result (counts.new ≡ counts.old ++ widths (seen rows.now)) }
{
    match rows {
        RowsInSight::NoRow => Ok(()),
        RowsInSight::Row(row, outer) => {
            counts.push(row.len())?;
            add_widths(outer, counts)
        }
    }
}
