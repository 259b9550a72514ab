//! The catalog: tables, functions and procedures by their names, in the order of their making.
#![tactic(auto)]

mod catalog;
mod entry;
mod names;
mod numbered;
mod user_set;
mod users;

pub use catalog::Catalog;
pub use entry::{
    Body, DataAccess, FunctionHead, FunctionPlan, InterpretedFunction, Object, ParameterMode,
    Procedure, ProcedureHead, RoutineRecord,
};
pub use names::{
    adding_leaves_the_others, calls_after_a_drop, dropping_leaves_the_others, grouped_or_not,
    items_from_the_left, objects_by_name, routines_without_plans, tables_in_bodies, users_of_names,
};
