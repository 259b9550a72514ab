//! Where a raised area goes (ISO/IEC 9075-4, 14.2): one scalar over all handlers in sight.

ghost use Rattle.std.specs.Prelude.{◌≡◌, ◌++◌, List, [], ◌∷◌, suc, map, IfOk, OnOk};
ghost use Rattle.rel_algebra.specs.BodyDispatch as dispatching;
ghost use Rattle.rel_algebra.specs.BodyDispatch.{Codes};
ghost use Rattle.rel_algebra.specs.BodySteps as steps;
ghost use Rattle.rel_algebra.specs.Plan.{case_word, none, Nodes, on_each, Scalars, unit_row, word};
ghost use Rattle.rel_algebra.specs.PlanView.{scalar_of, scalars_of};
ghost use Rattle.rel_algebra.specs.Tree.{ConditionValue as PlainValue, SqlException};
ghost use Rattle.rel_algebra.specs.WordView.{condition_value as waited_by};
ghost use Rattle.block_plans.specs.Callees.{Callees};
ghost use Rattle.routine_views.specs.Views.{condition_value, handler_type as type_of};
ghost use Rattle.plan_expressions.specs.Drafts.{drafted};
ghost use Rattle.plan_expressions.specs.Emission.{put};
ghost use Rattle.plan_steps.specs.Places.{aimed_by, codes_in, coded_in, codes_of, env_in};
ghost use Rattle.plan_steps.specs.Steps.{Puts, stores_of, untaken};

use crate::place::{Place, code_at};
use crate::sight::Sight;
use crate::step::{Store, act, one_store};
use crate::words::{after, case_of, on_column, sum, tag};
use bound_trees::{BoundConditionValue, BoundHandler, BoundHandlerType};
use plan_expressions::{Draft, unary};
use rel_algebra::{ConditionValue, ConditionWord, ListWord, Scalar, UnaryWord};
use sql_values::NoMemory;
use sqlite_items::Items;
use std::alloc::Global;

/// The codes of the handlers of one compound statement.
#[derive(Clone, Copy)]
pub enum Aim {
    /// A CONTINUE handler has a code of its own, the others that of their compound statement.
    Leaving(usize),
    /// Each has a code of its own.
    Own,
}

/// Where steps stand: the code at which they run, the code at which what follows runs, the first of
/// the codes of the handlers in sight, and how many columns the rows have.
#[derive(Clone, Copy)]
pub struct Spot {
    pub from: usize,
    pub here: usize,
    pub base: usize,
    pub columns: usize,
}

/// Where a statement stands: the code at which it runs, the first code that is free, and how many
/// columns the rows have.
#[derive(Clone, Copy)]
pub struct At {
    pub here: usize,
    pub next: usize,
    pub columns: usize,
}

/// How far tests have come: the code at which the next one runs, and the first code that is free.
#[derive(Clone, Copy)]
pub struct Reached {
    pub from: usize,
    pub free: usize,
}

/// Where the one step of a statement stands.
pub fn spot_of(at: At) -> Spot
    ensures { result ≡ record {
      from = at.here;
      here = at.here;
      base = at.next;
      columns = at.columns;
    } }
{
    Spot {
        from: at.here,
        here: at.here,
        base: at.next,
        columns: at.columns,
    }
}

// ---- tests of the cell of a column

// What a handler waits for, as plans have it.
fn waited(value: &BoundConditionValue) -> ConditionValue
    ensures { waited_by result ≡ condition_value value.now }
{
    match value {
        BoundConditionValue::State(state) => ConditionValue::State(*state),
        BoundConditionValue::SqlException => ConditionValue::SqlException,
        BoundConditionValue::SqlWarning => ConditionValue::SqlWarning,
        BoundConditionValue::NotFound => ConditionValue::NotFound,
    }
}

// Whether a handler value waits for the area in a column.
fn matching(alloc: Global, value: &BoundConditionValue, column: usize) -> Result<Scalar, NoMemory>
    ensures { IfOk result (λ s. scalar_of s ≡ dispatching.matching (condition_value value.now)
        column) }
{
    on_column(alloc, ConditionWord::Matches(waited(value)), column)
}

/// Whether a column has a value.
pub fn is_value(alloc: Global, column: usize) -> Result<Scalar, NoMemory>
    ensures { IfOk result (λ s. scalar_of s ≡ dispatching.is_value column) }
{
    let number = on_column(alloc, ConditionWord::Number, column)?;
    unary(alloc, UnaryWord::NullTest, number)
}

/// The area in a column, as a BOOLEAN; a value gives a harmless one.
pub fn area_in(alloc: Global, column: usize) -> Result<Scalar, NoMemory>
    ensures { IfOk result (λ s. scalar_of s ≡ dispatching.area_in column) }
{
    unary(alloc, UnaryWord::NullTest, Scalar::Column(0, column))
}

// Puts a test of a value after others, where it names a state.
fn put_named_test(
    alloc: Global,
    value: &BoundConditionValue,
    column: usize,
    tests: &mut Items<Scalar>,
) -> Result<(), NoMemory>
    ensures { OnOk result ((others : List PlainValue) → put tests.new
        (dispatching.named_tests others column) ≡ put tests.old (dispatching.named_tests
        (condition_value value.now ∷ others) column)) }
{
    match value {
        BoundConditionValue::State(_) => Ok(tests.push(matching(alloc, value, column)?)?),
        BoundConditionValue::SqlException => Ok(()),
        BoundConditionValue::SqlWarning => Ok(()),
        BoundConditionValue::NotFound => Ok(()),
    }
}

// A test for each state that is named.
fn named_tests(
    alloc: Global,
    values: &[BoundConditionValue],
    column: usize,
) -> Result<Items<Scalar>, NoMemory>
    ensures { IfOk result (λ ss. scalars_of ss ≡ dispatching.named_tests
        (map condition_value values.now) column) }
{
    let mut tests = Items::new(alloc);
    for value in values {
        put_named_test(alloc, value, column, &mut tests)?;
    }
    Ok(tests)
}

// Puts a test of a value after others, where it is a class.
fn put_general_test(
    alloc: Global,
    value: &BoundConditionValue,
    column: usize,
    tests: &mut Items<Scalar>,
) -> Result<(), NoMemory>
    ensures { OnOk result ((others : List PlainValue) → put tests.new
        (dispatching.general_tests others column) ≡ put tests.old (dispatching.general_tests
        (condition_value value.now ∷ others) column)) }
{
    match value {
        BoundConditionValue::State(_) => Ok(()),
        BoundConditionValue::SqlException => Ok(tests.push(matching(alloc, value, column)?)?),
        BoundConditionValue::SqlWarning => Ok(tests.push(matching(alloc, value, column)?)?),
        BoundConditionValue::NotFound => Ok(tests.push(matching(alloc, value, column)?)?),
    }
}

// A test for each class.
fn general_tests(
    alloc: Global,
    values: &[BoundConditionValue],
    column: usize,
) -> Result<Items<Scalar>, NoMemory>
    ensures { IfOk result (λ ss. scalars_of ss ≡ dispatching.general_tests
        (map condition_value values.now) column) }
{
    let mut tests = Items::new(alloc);
    for value in values {
        put_general_test(alloc, value, column, &mut tests)?;
    }
    Ok(tests)
}

// ---- arms

// To a code where one of these tests is true.
fn put_arm(tests: Items<Scalar>, to: usize, arms: &mut Items<Scalar>) -> Result<(), NoMemory>
    ensures { OnOk result ((rest : Scalars) → put arms.new rest ≡ put arms.old
        (dispatching.arm (scalars_of tests) to rest)) }
{
    if tests.is_empty() {
        return Ok(());
    }
    let code = tag(to)?;
    arms.push(Scalar::Listed(ListWord::Or, tests))?;
    arms.push(code)?;
    Ok(())
}

// The code of a handler.
fn aimed(aim: Aim, handler_type: BoundHandlerType, own: usize) -> usize
    ensures { result ≡ aimed_by aim (type_of handler_type) own }
{
    match aim {
        Aim::Own => own,
        Aim::Leaving(exit) => match handler_type {
            BoundHandlerType::Continue => own,
            BoundHandlerType::Exit => exit,
            BoundHandlerType::Undo => exit,
        },
    }
}

// The arms of handlers that name a state; they are numbered from one on.
fn put_named(
    alloc: Global,
    handlers: &[BoundHandler],
    aim: Aim,
    first: usize,
    column: usize,
    arms: &mut Items<Scalar>,
) -> Result<(), NoMemory>
    ensures { OnOk result ((known : Callees) (outer : Codes) (rest : Scalars) →
        put arms.new rest ≡ put arms.old (dispatching.named_arms (aimed_by aim)
        (map (coded_in known outer) handlers.now) first column rest)) }
{
    let mut own = first;
    for handler in handlers {
        let tests = named_tests(alloc, handler.values.as_slice(), column)?;
        put_arm(tests, aimed(aim, handler.handler_type, own), arms)?;
        own = after(own)?;
    }
    Ok(())
}

// The same of those that wait for a class.
fn put_general(
    alloc: Global,
    handlers: &[BoundHandler],
    aim: Aim,
    first: usize,
    column: usize,
    arms: &mut Items<Scalar>,
) -> Result<(), NoMemory>
    ensures { OnOk result ((known : Callees) (outer : Codes) (rest : Scalars) →
        put arms.new rest ≡ put arms.old (dispatching.general_arms (aimed_by aim)
        (map (coded_in known outer) handlers.now) first column rest)) }
{
    let mut own = first;
    for handler in handlers {
        let tests = general_tests(alloc, handler.values.as_slice(), column)?;
        put_arm(tests, aimed(aim, handler.handler_type, own), arms)?;
        own = after(own)?;
    }
    Ok(())
}

/// The arms of the handlers of one compound statement: those that name a state first.
pub fn put_scope(
    alloc: Global,
    handlers: &[BoundHandler],
    aim: Aim,
    first: usize,
    column: usize,
    arms: &mut Items<Scalar>,
) -> Result<(), NoMemory>
    ensures { OnOk result ((known : Callees) (outer : Codes) (rest : Scalars) →
        put arms.new rest ≡ put arms.old (dispatching.scope_arms (aimed_by aim)
        (map (coded_in known outer) handlers.now) first column rest)) }
{
    put_named(alloc, handlers, aim, first, column, arms)?;
    put_general(alloc, handlers, aim, first, column, arms)
}

// What no handler takes goes out where it is an exception, and on at `here` else.
fn put_untaken(
    alloc: Global,
    out: usize,
    here: usize,
    column: usize,
    arms: &mut Items<Scalar>,
) -> Result<(), NoMemory>
    ensures { OnOk result (put arms.new none ≡ put arms.old (untaken
        (dispatching.matching SqlException column) out here)) }
{
    let test = matching(alloc, &BoundConditionValue::SqlException, column)?;
    arms.push(test)?;
    arms.push(tag(out)?)?;
    arms.push(tag(here)?)?;
    Ok(())
}

// The arms of the handlers in sight, and what no handler takes.
fn put_dispatch(
    alloc: Global,
    sight: &Sight,
    place: &Place,
    first: usize,
    here: usize,
    column: usize,
    arms: &mut Items<Scalar>,
) -> Result<(), NoMemory>
    ensures { OnOk result (put arms.new none ≡ put arms.old (dispatching.dispatch
        (codes_in place.now.functions.now sight.now) (env_in place.now) first here column)) }
{
    match sight {
        Sight::Nothing => put_untaken(alloc, place.out, here, column, arms),
        Sight::Scope(scope, outer) => {
            let aim = Aim::Leaving(code_at(place.exits, scope.level));
            put_scope(alloc, scope.handlers, aim, first, column, arms)?;
            let next = sum(first, scope.handlers.len())?;
            put_dispatch(alloc, outer, place, next, here, column, arms)
        }
    }
}

/// The code to which the area in a column goes, whose handlers have codes from one on.
pub fn dispatched(
    alloc: Global,
    place: &Place,
    first: usize,
    here: usize,
    column: usize,
) -> Result<Scalar, NoMemory>
    ensures { IfOk result (λ s. scalar_of s ≡ word case_word (dispatching.dispatch
        (codes_of place.now) (env_in place.now) first here column)) }
{
    let mut arms = Items::new(alloc);
    put_dispatch(alloc, place.sight, place, first, here, column, &mut arms)?;
    Ok(Scalar::Listed(ListWord::Case, arms))
}

// ---- what stands in a column is a value, or an area that goes its way

// A code, where a column is a value, and else that to which its area goes.
fn code_or(
    alloc: Global,
    goes: Scalar,
    spot: &Spot,
    column: usize,
    place: &Place,
) -> Result<Scalar, NoMemory>
    ensures { IfOk result (λ s. scalar_of s ≡ dispatching.code_or (scalar_of goes)
        (codes_of place.now) (env_in place.now) spot.now.base spot.now.here column) }
{
    let mut arms = Items::new(alloc);
    arms.push(is_value(alloc, column)?)?;
    arms.push(goes)?;
    put_dispatch(
        alloc,
        place.sight,
        place,
        spot.base,
        spot.here,
        column,
        &mut arms,
    )?;
    Ok(Scalar::Listed(ListWord::Case, arms))
}

// Stores, and after them those of a code and of an area.
fn with_code(stores: Items<Store>, code: Scalar, area: Scalar) -> Result<Items<Store>, NoMemory>
    ensures { IfOk result (λ ss. stores_of ss ≡ stores_of stores ++
        steps.store 0 (scalar_of code) ∷ steps.store 2 (scalar_of area) ∷ []) }
{
    let mut stores = stores;
    stores.push(Store {
        column: 0,
        new: code,
    })?;
    stores.push(Store {
        column: 2,
        new: area,
    })?;
    Ok(stores)
}

// Other stores, the code and the area.
fn judging(
    alloc: Global,
    goes: Scalar,
    spot: &Spot,
    column: usize,
    stores: Items<Store>,
    place: &Place,
) -> Result<Items<Store>, NoMemory>
    ensures { IfOk result (λ ss. stores_of ss ≡ dispatching.judging (scalar_of goes)
        (codes_of place.now) (env_in place.now) spot.now.base spot.now.here column
        (stores_of stores)) }
{
    let area = area_in(alloc, column)?;
    let code = code_or(alloc, goes, spot, column, place)?;
    with_code(stores, code, area)
}

/// After nodes that make a column the last: these stores, the code and the area, by whether that
/// column has a value.
pub fn judge(
    nodes: Draft,
    goes: Scalar,
    column: usize,
    stores: Items<Store>,
    extra: Items<usize>,
    spot: &Spot,
    place: &Place,
    draft: &mut Draft,
) -> Result<(), NoMemory>
    ensures { OnOk result ((e : Nodes) → (drafted nodes).tree ≡ on_each e unit_row →
        Puts draft.old draft.new (steps.acts spot.now.from e (suc column)
        (dispatching.judging (scalar_of goes) (codes_of place.now) (env_in place.now)
        spot.now.base spot.now.here column (stores_of stores)) spot.now.columns extra ∷ [])) }
{
    let wide = after(column)?;
    let stores = judging(draft.allocator(), goes, spot, column, stores, place)?;
    act(spot.from, nodes, wide, stores, spot.columns, extra, draft)
}

// The code and the area, where a column has an area.
fn raising(
    alloc: Global,
    spot: &Spot,
    column: usize,
    place: &Place,
) -> Result<Items<Store>, NoMemory>
    ensures { IfOk result (λ ss. stores_of ss ≡ dispatching.raising_to (codes_of place.now)
        (env_in place.now) spot.now.base spot.now.here column) }
{
    let area = area_in(alloc, column)?;
    let code = dispatched(alloc, place, spot.base, spot.here, column)?;
    with_code(Items::new(alloc), code, area)
}

/// After nodes that make a column the last, which has an area in any case: the code and the area.
pub fn raise(
    nodes: Draft,
    column: usize,
    spot: &Spot,
    place: &Place,
    draft: &mut Draft,
) -> Result<(), NoMemory>
    ensures { OnOk result ((e : Nodes) → (drafted nodes).tree ≡ on_each e unit_row →
        Puts draft.old draft.new (steps.acts spot.now.from e (suc column)
        (dispatching.raising_to (codes_of place.now) (env_in place.now) spot.now.base
        spot.now.here column) spot.now.columns [] ∷ [])) }
{
    let wide = after(column)?;
    let alloc = draft.allocator();
    let stores = raising(alloc, spot, column, place)?;
    let none = Items::new(alloc);
    act(spot.from, nodes, wide, stores, spot.columns, none, draft)
}

// Where a column has a value, the cell of another, and else what stood there.
fn cell_if(alloc: Global, tested: usize, cell: usize, column: usize) -> Result<Scalar, NoMemory>
    ensures { IfOk result (λ s. scalar_of s ≡ steps.case_of (dispatching.is_value tested)
        (steps.col cell) (steps.col column)) }
{
    let test = is_value(alloc, tested)?;
    case_of(
        alloc,
        test,
        Scalar::Column(0, cell),
        Scalar::Column(0, column),
    )
}

/// Stores, and after them, where a column has a value, that of a cell into a column.
pub fn store_if(
    alloc: Global,
    tested: usize,
    cell: usize,
    column: usize,
    stores: &mut Items<Store>,
) -> Result<(), NoMemory>
    ensures { OnOk result (stores_of stores.new ≡ stores_of stores.old ++
        dispatching.store_if tested cell column ∷ []) }
{
    let new = cell_if(alloc, tested, cell, column)?;
    stores.push(Store { column, new })?;
    Ok(())
}

/// Where a column has a value, a store of that into another column.
pub fn own_store(alloc: Global, tested: usize, column: usize) -> Result<Items<Store>, NoMemory>
    ensures { IfOk result (λ ss. stores_of ss ≡ dispatching.store_if tested tested column ∷ []) }
{
    let new = cell_if(alloc, tested, tested, column)?;
    one_store(alloc, column, new)
}
