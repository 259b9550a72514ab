//! What UPDATE, DELETE and INSERT with a column list mean, as functions on rows and on plain trees.
//! Nothing here knows of a place in a store or of a log. Worked rows hold by computation.
#![tactic(auto)]

ghost use Rattle.data_change.specs.Examples.{KeysOfTheWhole, ListedColumns, NoneMet, RowsGo};
ghost use Rattle.data_change.specs.Examples.{TargetsTakeValues};
ghost use Rattle.data_change.specs.Laws.{InsertWithoutList};
ghost use Rattle.data_change.specs.Met.{MetRowsInOrder};

/// An UPDATE may swap keys: they are judged when all rows are changed, and it is refused whole
/// where a key stands twice then.
pub fn keys_of_the_whole()
    ensures { KeysOfTheWhole }
{}

/// Each target of an UPDATE takes its own value, all of which are of the old row; NOT NULL is
/// judged of the new row.
pub fn targets_take_values()
    ensures { TargetsTakeValues }
{}

/// A DELETE removes the rows that it meets, and no others.
pub fn rows_go()
    ensures { RowsGo }
{}

/// Where no row is met, the table stays and the count is 0.
pub fn none_met()
    ensures { NoneMet }
{}

/// An INSERT with a column list gives NULL to the columns that are left out, and is refused whole
/// where one of these takes none.
pub fn listed_columns()
    ensures { ListedColumns }
{}

/// The rows that a query over a table meets, each with all its columns and then values, stand at
/// increasing places of the table.
pub fn met_rows_in_order()
    ensures { MetRowsInOrder }
{}

/// An INSERT that lists no columns is one of all columns, in their order.
pub fn insert_without_list()
    ensures { InsertWithoutList }
{}
