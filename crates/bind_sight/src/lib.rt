//! The names in sight: columns in rows, FROM items, the queries and the scopes around an
//! expression. What a name stands for among them is sought above. No tree is walked here.
#![tactic(auto)]

ghost use Rattle.bind_sight.specs.Examples.{NamesStandForOne, ItemsHide, GroupsBar, ScopesHide};

mod column_list;
mod item;
mod item_list;
mod key;
mod name_list;
mod output;
mod scope;
mod sight;

pub use column_list::ColumnList;
pub use item::Item;
pub use item_list::ItemList;
pub use key::{GroupingKey, key_of};
pub use name_list::NameList;
pub use output::{Hit, Output, copied};
pub use scope::{
    Cursor, EnclosingRoutine, FoundCursor, Scope, ScopeRef, Variable, empty_scope, entered_scope,
    loop_scope, parameter_scope,
};
pub use sight::{Level, Referent, Sight, entered};

/// A name stands for one column at most, by its place in the row of its query.
pub fn names_stand_for_one()
    ensures { NamesStandForOne }
{}

/// Which items, inside and outside, hide others and variables.
pub fn items_hide()
    ensures { ItemsHide }
{}

/// In a group only grouping columns are in sight but for those of other queries, and in an
/// aggregate all are.
pub fn groups_bar()
    ensures { GroupsBar }
{}

/// Inner scopes hide outer ones, columns hide variables, and a FOR loop hides those of its name.
pub fn scopes_hide()
    ensures { ScopesHide }
{}
