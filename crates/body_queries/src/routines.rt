//! The routines that a statement of a script calls, directly or in the bodies of others.

ghost use Rattle.std.specs.Prelude.{◌≡◌, None, IfOk, IfSome};
ghost use Rattle.viewing_laws.specs.Standing.{CallsStandBefore};
ghost use Rattle.kept_queries.specs.Keeping.{ArePlans};
ghost use Rattle.body_queries.specs.Bodies.{IsBodyOf, IsFunction, IsProcedure, IsReturning};

use crate::blocks::{in_function, in_procedure, keep_block};
use crate::bodies::keep_body;
use crate::calls::keep_function_call;
use crate::expression_calls::note_query;
use crate::outermost::{keep_asked, keep_returned};
use crate::statement_calls::note_stmt;
use block_plans::{BlockPlans, Functions};
use bound_trees::{BoundExpr, BoundQuery, BoundStmt};
use catalog_store::{Catalog, InterpretedFunction, Object, Procedure, RoutineRecord};
use kept_queries::{Around, KeptPlans, KeptQuery};
use sql_values::{Name, NoMemory};
use sqlite_items::Items;
use std::alloc::Global;

/// A statement of a script, as far as it asks or calls anything: the query that it is, or that an
/// INSERT, an UPDATE or a DELETE has; or a CALL or a compound statement.
#[derive(Clone, Copy)]
pub enum Asking<'a> {
    Query(&'a BoundQuery),
    Statement(&'a BoundStmt),
}

// A routine: a function or a procedure whose body is a statement, or a function that only returns
// an expression.
#[derive(Clone, Copy)]
enum RoutineBody<'a> {
    Function(&'a InterpretedFunction),
    Procedure(&'a Procedure),
    Returning(&'a RoutineRecord),
}

// A routine, its height, and the names that its body uses.
#[derive(Clone, Copy)]
struct Routine<'a> {
    body: RoutineBody<'a>,
    height: u32,
    uses: &'a [Name],
}

// The routine of a name, where it stands for one.
fn named<'a>(name: &Name, catalog: &'a Catalog) -> Option<Routine<'a>>
    ensures { IfSome result (λ r. IsBodyOf catalog.now name.now r.body) }
{
    match catalog.get(name) {
        Some(Object::Function(function)) => Some(Routine {
            body: RoutineBody::Returning(function),
            height: function.head.height,
            uses: function.head.uses.as_slice(),
        }),
        Some(Object::Interpreted(function)) => Some(Routine {
            body: RoutineBody::Function(function),
            height: function.head.height,
            uses: function.head.uses.as_slice(),
        }),
        Some(Object::Procedure(procedure)) => Some(Routine {
            body: RoutineBody::Procedure(procedure),
            height: procedure.head.height,
            uses: procedure.head.uses.as_slice(),
        }),
        Some(Object::Table(_)) => None,
        None => None,
    }
}

// The names of the routines that a statement calls.
fn called_by<'a>(alloc: Global, asking: &Asking<'a>) -> Result<Vec<&'a Name>, NoMemory> {
    let mut names = Vec::new(alloc);
    match asking {
        Asking::Query(query) => note_query(*query, &mut names)?,
        Asking::Statement(stmt) => note_stmt(*stmt, &mut names)?,
    }
    Ok(names)
}

// The plans of the outermost queries of a statement, where its calls run these.
fn asked_among(
    alloc: Global,
    asking: &Asking<'_>,
    functions: &Functions,
) -> Result<Items<KeptQuery>, NoMemory>
    ensures { IfOk result (λ kept. ArePlans functions.now.known None kept) }
{
    let around = Around {
        functions,
        own: None,
    };
    match asking {
        Asking::Query(query) => keep_asked(alloc, *query, &around),
        Asking::Statement(stmt) => keep_body(alloc, *stmt, 0, &around),
    }
}

// The same where its calls run the functions of a catalog and its blocks.
fn asked_by(
    alloc: Global,
    asking: &Asking<'_>,
    catalog: &Catalog,
    blocks: &BlockPlans,
) -> Result<Items<KeptQuery>, NoMemory>
    requires { blocks.now.known ≡ catalog.now }
    ensures { IfOk result (λ kept. ArePlans catalog.now None kept) }
{
    let functions = Functions::with_blocks(catalog, blocks);
    asked_among(alloc, asking, &functions)
}

// The queries in the body of a function, and its plan, where it may have one. In its body no call of
// a query runs it.
fn keep_function(
    alloc: Global,
    name: &Name,
    function: &InterpretedFunction,
    catalog: &Catalog,
    kept: &mut KeptPlans,
) -> Result<(), NoMemory>
    requires catalog { kept.old ≡ catalog.now }
    requires calls { CallsStandBefore catalog.now }
    requires function { IsFunction catalog.now name.now function.now }
    ensures { kept.new ≡ kept.old }
{
    let queries = in_function(alloc, name, function, catalog, kept.blocks())?;
    keep_block(alloc, name, function, catalog, kept)?;
    let name = name.copied()?;
    kept.add(name, queries)
}

// The queries in the body of a procedure.
fn keep_procedure(
    alloc: Global,
    name: &Name,
    procedure: &Procedure,
    catalog: &Catalog,
    kept: &mut KeptPlans,
) -> Result<(), NoMemory>
    requires catalog { kept.old ≡ catalog.now }
    requires calls { CallsStandBefore catalog.now }
    requires procedure { IsProcedure catalog.now name.now procedure.now }
    ensures { kept.new ≡ kept.old }
{
    let queries = in_procedure(alloc, name, procedure, catalog, kept.blocks())?;
    let name = name.copied()?;
    kept.add(name, queries)
}

// Those in what a function returns over so many parameters, where there are so many of others, and
// its calls run these.
fn returned_among(
    alloc: Global,
    returned: &BoundExpr,
    parameters: usize,
    others: usize,
    functions: &Functions,
) -> Result<Items<KeptQuery>, NoMemory>
    ensures { IfOk result (λ kept. ArePlans functions.now.known None kept) }
{
    let around = Around {
        functions,
        own: None,
    };
    keep_returned(alloc, returned, parameters, others, &around)
}

// The same where its calls run the functions of a catalog and its blocks.
fn returned_by(
    alloc: Global,
    returned: &BoundExpr,
    parameters: usize,
    others: usize,
    catalog: &Catalog,
    blocks: &BlockPlans,
) -> Result<Items<KeptQuery>, NoMemory>
    requires { blocks.now.known ≡ catalog.now }
    ensures { IfOk result (λ kept. ArePlans catalog.now None kept) }
{
    let functions = Functions::with_blocks(catalog, blocks);
    returned_among(alloc, returned, parameters, others, &functions)
}

// Those in what a function returns, for where no query calls it.
fn keep_in_returned(
    alloc: Global,
    name: &Name,
    returned: &BoundExpr,
    parameters: usize,
    catalog: &Catalog,
    kept: &mut KeptPlans,
) -> Result<(), NoMemory>
    requires { kept.old ≡ catalog.now }
    ensures { kept.new ≡ kept.old }
{
    let others = kept.returned();
    let queries = returned_by(alloc, returned, parameters, others, catalog, kept.blocks())?;
    let name = name.copied()?;
    kept.add_function(alloc, name, queries)
}

// The plan of the calls of a function that only returns an expression, and the queries in that.
fn keep_returning(
    alloc: Global,
    name: &Name,
    function: &RoutineRecord,
    catalog: &Catalog,
    kept: &mut KeptPlans,
) -> Result<(), NoMemory>
    requires catalog { kept.old ≡ catalog.now }
    requires function { IsReturning catalog.now name.now function.now }
    ensures { kept.new ≡ kept.old }
{
    keep_function_call(alloc, name, function, catalog, kept)?;
    let parameters = function.head.parameters.len();
    match function.body.tree() {
        Some(returned) => keep_in_returned(alloc, name, returned, parameters, catalog, kept),
        None => Ok(()),
    }
}

// What is kept of a routine.
fn keep_of(
    alloc: Global,
    name: &Name,
    routine: &Routine<'_>,
    catalog: &Catalog,
    kept: &mut KeptPlans,
) -> Result<(), NoMemory>
    requires catalog { kept.old ≡ catalog.now }
    requires calls { CallsStandBefore catalog.now }
    requires body { IsBodyOf catalog.now name.now routine.now.body }
    ensures { kept.new ≡ kept.old }
{
    match routine.body {
        RoutineBody::Function(function) => keep_function(alloc, name, function, catalog, kept),
        RoutineBody::Procedure(procedure) => {
            keep_procedure(alloc, name, procedure, catalog, kept)
        }
        RoutineBody::Returning(function) => keep_returning(alloc, name, function, catalog, kept),
    }
}

// What is kept of each routine that a routine uses, and then of itself, where they are lower than
// this and nothing is kept of them yet. A routine is higher than all that it uses.
fn keep_routine(
    alloc: Global,
    name: &Name,
    below: u32,
    catalog: &Catalog,
    kept: &mut KeptPlans,
) -> Result<(), NoMemory>
    requires catalog { kept.old ≡ catalog.now }
    requires calls { CallsStandBefore catalog.now }
    ensures { kept.new ≡ kept.old }
{
    if kept.holds(name) {
        return Ok(());
    }
    match named(name, catalog) {
        Some(routine) => {
            if routine.height >= below {
                return Ok(());
            }
            for used in routine.uses {
                keep_routine(alloc, used, routine.height, catalog, kept)?;
            }
            keep_of(alloc, name, &routine, catalog, kept)
        }
        None => Ok(()),
    }
}

// What is kept of the routines of these names.
fn keep_routines(
    alloc: Global,
    names: &[&Name],
    catalog: &Catalog,
    kept: &mut KeptPlans,
) -> Result<(), NoMemory>
    requires catalog { kept.old ≡ catalog.now }
    requires calls { CallsStandBefore catalog.now }
    ensures { kept.new ≡ kept.old }
{
    for name in names {
        keep_routine(alloc, *name, u32::MAX, catalog, kept)?;
    }
    Ok(())
}

/// Keeps, lowest first, the plan of each function that a statement calls, or that what it calls
/// does, where it may have one, and the queries in the body of each such routine, where nothing is
/// kept of it yet; and then the queries of the statement, in the place of those of the last one.
/// What is missed is only slower.
pub fn keep_called(
    alloc: Global,
    asking: Asking<'_>,
    catalog: &Catalog,
    kept: &mut KeptPlans,
) -> Result<(), NoMemory>
    requires catalog { kept.old ≡ catalog.now }
    requires calls { CallsStandBefore catalog.now }
    ensures { kept.new ≡ kept.old }
{
    let names = called_by(alloc, &asking)?;
    keep_routines(alloc, names.as_slice(), catalog, kept)?;
    let queries = asked_by(alloc, &asking, catalog, kept.blocks())?;
    kept.set_statement(queries);
    Ok(())
}

/// What is kept of the routines that a query calls, and of those that they call, lowest first, and
/// nothing else: the plans of blocks are there.
pub fn keep_blocks(
    alloc: Global,
    query: &BoundQuery,
    catalog: &Catalog,
) -> Result<KeptPlans, NoMemory>
    requires { CallsStandBefore catalog.now }
    ensures { IfOk result (λ kept. kept ≡ catalog.now) }
{
    let mut names = Vec::new(alloc);
    note_query(query, &mut names)?;
    let mut kept = KeptPlans::new(alloc, catalog);
    keep_routines(alloc, names.as_slice(), catalog, &mut kept)?;
    Ok(kept)
}
