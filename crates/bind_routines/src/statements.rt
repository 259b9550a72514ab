//! The binder of statements, which stand in one another (ISO/IEC 9075-4, 14). It goes on after a
//! fault, since the least one counts.

ghost use Rattle.std.specs.Prelude.{◌≡◌, map, IfOk, OnOk};
ghost use Rattle.bound_trees.specs.declared.statement.BoundStmt.TheVariants as bound;
ghost use Rattle.bind_faults.specs.Faults.{noted, taken};
ghost use Rattle.bind_sight.specs.Scopes.{scope_by};
ghost use Rattle.bind_simple.specs.Places.{place_by, within, with_scope, in_action};
ghost use Rattle.bind_rules.specs.Labels.{label_by};
ghost use Rattle.bind_routines.specs.Statements as spec;
ghost use Rattle.bind_routines.specs.Statements.{judge_stmt, judge_labelled, judge_structure};
ghost use Rattle.bind_routines.specs.Statements.{judge_block, judge_branch, judge_case, judge_if};
ghost use Rattle.bind_routines.specs.Statements.{judge_handler, judge_declaration};

use crate::alone::bind_alone;
use bind_declarations::{
    Declared, bind_values, declare_condition, declare_cursor, declare_variables, handler_of,
    next_slot, nothing_declared, scope_of_columns,
};
use bind_faults::Notes;
use bind_kinds::Kind;
use bind_parts::TypedQuery;
use bind_rules::{Label, barred, entered, kind_of_tests, loops, note_end, note_label, note_undo};
use bind_selects::bind_ordered_typed;
use bind_sight::{Output, Scope, ScopeRef, entered_scope};
use bind_simple::{Surroundings, bind_of_kind, bind_value, seen_from, with_labels, with_scopes};
use bound_trees::{BoundBlock, BoundBranch, BoundExpr, BoundHandler, BoundStmt};
use sql_values::NoMemory;
use sqlite_items::Items;
use statement_trees::{
    Block, Branch, Case, Declaration, Handler, If, Labelled as LabelledTree, Stmt, Structure,
};
use std::alloc::Global;
use std::mem::drop;
use syntax_trees::{Expr, Ident, OrderedQuery};

// ---- parts of statements that hold statements

// The same, by how it is judged.
fn is_loop(structure: &Structure) -> bool
    ensures { result ≡ (judge_structure structure.now).is_loop }
{
    loops(structure)
}

fn block_of(atomic: bool, so: Declared, statements: Items<BoundStmt>) -> BoundBlock
    ensures { result ≡ spec.block_of atomic so statements }
{
    let Declared {
        scope,
        variables,
        cursors,
        handlers,
    } = so;
    let first_cursor = scope.first_cursor;
    drop(scope);
    BoundBlock {
        atomic,
        variables,
        first_cursor,
        cursors,
        handlers,
        statements,
    }
}

// ---- statements that hold statements

/// A statement of a routine or a block with its names resolved, and what is noted on the way.
#[cycle(bind)]
pub fn bind_statement(
    alloc: Global,
    stmt: &Stmt,
    place: &Surroundings<'_>,
    notes: &mut Notes,
) -> Result<BoundStmt, NoMemory>
    ensures value { IfOk result (λ b. b ≡ (judge_stmt stmt.now (place_by place.now)).value) }
    ensures notes { OnOk result (notes.new ≡ taken notes.old
        (judge_stmt stmt.now (place_by place.now))) }
{
    match stmt {
        Stmt::Labelled(labelled) => bind_labelled(alloc, labelled, place, notes),
        Stmt::If(branching) => bind_if(alloc, branching, place, notes),
        Stmt::Case(branching) => bind_case(alloc, branching, place, notes),
        _ => bind_alone(alloc, stmt, place, notes),
    }
}

#[cycle(bind)]
fn add_statement(
    alloc: Global,
    stmt: &Stmt,
    place: &Surroundings<'_>,
    so: &mut Items<BoundStmt>,
    notes: &mut Notes,
) -> Result<(), NoMemory>
    ensures value { OnOk result
        (so.new ≡ (spec.one_more (place_by place.now) so.old (judge_stmt stmt.now)).value) }
    ensures notes { OnOk result (notes.new ≡ taken notes.old
        (spec.one_more (place_by place.now) so.old (judge_stmt stmt.now))) }
{
    let bound = bind_statement(alloc, stmt, place, notes)?;
    so.push(bound)?;
    Ok(())
}

// Statements in turn.
#[cycle(bind)]
fn bind_list(
    alloc: Global,
    stmts: &[Stmt],
    place: &Surroundings<'_>,
    notes: &mut Notes,
) -> Result<Items<BoundStmt>, NoMemory>
    ensures value { IfOk result
        (λ bs. bs ≡ (spec.judged_list (map judge_stmt stmts.now) (place_by place.now)).value) }
    ensures notes { OnOk result (notes.new ≡ taken notes.old
        (spec.judged_list (map judge_stmt stmts.now) (place_by place.now))) }
{
    let mut so = Items::new(alloc);
    for stmt in stmts {
        add_statement(alloc, stmt, place, &mut so, notes)?;
    }
    Ok(so)
}

// ---- IF and CASE

#[cycle(bind)]
fn bind_branch(
    alloc: Global,
    kind: Kind,
    branch: &Branch,
    place: &Surroundings<'_>,
    notes: &mut Notes,
) -> Result<BoundBranch, NoMemory>
    ensures value { IfOk result
        (λ b. b ≡ (spec.judged_branch kind (place_by place.now) (judge_branch branch.now)).value) }
    ensures notes { OnOk result (notes.new ≡ taken notes.old
        (spec.judged_branch kind (place_by place.now) (judge_branch branch.now))) }
{
    let test = bind_of_kind(alloc, kind, &branch.test, place, notes)?;
    let body = bind_list(alloc, branch.body.as_slice(), place, notes)?;
    Ok(BoundBranch { test, body })
}

#[cycle(bind)]
fn add_branch(
    alloc: Global,
    kind: Kind,
    branch: &Branch,
    place: &Surroundings<'_>,
    so: &mut Items<BoundBranch>,
    notes: &mut Notes,
) -> Result<(), NoMemory>
    ensures value { OnOk result (so.new ≡ (spec.one_branch kind (place_by place.now) so.old
        (judge_branch branch.now)).value) }
    ensures notes { OnOk result (notes.new ≡ taken notes.old
        (spec.one_branch kind (place_by place.now) so.old (judge_branch branch.now))) }
{
    let bound = bind_branch(alloc, kind, branch, place, notes)?;
    so.push(bound)?;
    Ok(())
}

#[cycle(bind)]
fn bind_branches(
    alloc: Global,
    kind: Kind,
    branches: &[Branch],
    place: &Surroundings<'_>,
    notes: &mut Notes,
) -> Result<Items<BoundBranch>, NoMemory>
    ensures value { IfOk result
        (λ bs. bs ≡ (spec.judged_branches kind (map judge_branch branches.now)
        (place_by place.now)).value) }
    ensures notes { OnOk result (notes.new ≡ taken notes.old
        (spec.judged_branches kind (map judge_branch branches.now) (place_by place.now))) }
{
    let mut so = Items::new(alloc);
    for branch in branches {
        add_branch(alloc, kind, branch, place, &mut so, notes)?;
    }
    Ok(so)
}

#[cycle(bind)]
fn bind_if(
    alloc: Global,
    branching: &If,
    place: &Surroundings<'_>,
    notes: &mut Notes,
) -> Result<BoundStmt, NoMemory>
    ensures value { IfOk result (λ b. b ≡ (judge_if branching.now (place_by place.now)).value) }
    ensures notes { OnOk result (notes.new ≡ taken notes.old
        (judge_if branching.now (place_by place.now))) }
{
    let branches = branching.branches.as_slice();
    let branches = bind_branches(alloc, Kind::Boolean, branches, place, notes)?;
    let otherwise = bind_list(alloc, branching.otherwise.as_slice(), place, notes)?;
    Ok(BoundStmt::If(branches, otherwise))
}

// The branches of a CASE with this operand or none.
#[cycle(bind)]
fn bind_arms(
    alloc: Global,
    operand: Option<BoundExpr>,
    kind: Kind,
    branching: &Case,
    place: &Surroundings<'_>,
    notes: &mut Notes,
) -> Result<BoundStmt, NoMemory>
    ensures value { IfOk result
        (λ b. b ≡ (spec.arms_of operand kind branching.now (place_by place.now)).value) }
    ensures notes { OnOk result (notes.new ≡ taken notes.old
        (spec.arms_of operand kind branching.now (place_by place.now))) }
{
    let branches = bind_branches(alloc, kind, branching.branches.as_slice(), place, notes)?;
    let otherwise = bind_list(alloc, branching.otherwise.as_slice(), place, notes)?;
    Ok(BoundStmt::Case(operand, branches, otherwise))
}

// A CASE with an operand, of whose kind the tests are.
#[cycle(bind)]
fn bind_simple(
    alloc: Global,
    branching: &Case,
    operand: &Expr,
    place: &Surroundings<'_>,
    notes: &mut Notes,
) -> Result<BoundStmt, NoMemory>
    ensures value { IfOk result
        (λ b. b ≡ (spec.judged_simple operand.now branching.now (place_by place.now)).value) }
    ensures notes { OnOk result (notes.new ≡ taken notes.old
        (spec.judged_simple operand.now branching.now (place_by place.now))) }
{
    let typed = bind_value(alloc, operand, place, notes)?;
    let kind = kind_of_tests(Some(typed.head.kind));
    let bound = bind_arms(alloc, Some(typed.tree), kind, branching, place, notes)?;
    Ok(bound)
}

#[cycle(bind)]
fn bind_case(
    alloc: Global,
    branching: &Case,
    place: &Surroundings<'_>,
    notes: &mut Notes,
) -> Result<BoundStmt, NoMemory>
    ensures value { IfOk result (λ b. b ≡ (judge_case branching.now (place_by place.now)).value) }
    ensures notes { OnOk result (notes.new ≡ taken notes.old
        (judge_case branching.now (place_by place.now))) }
{
    match &branching.operand {
        Some(operand) => bind_simple(alloc, branching, operand, place, notes),
        None => bind_arms(alloc, None, kind_of_tests(None), branching, place, notes),
    }
}

// ---- loops

#[cycle(bind)]
fn bind_while(
    alloc: Global,
    body: &[Stmt],
    test: &Expr,
    place: &Surroundings<'_>,
    notes: &mut Notes,
) -> Result<BoundStmt, NoMemory>
    ensures value { IfOk result (λ b. b ≡ (spec.judged_while test.now (map judge_stmt body.now)
        (place_by place.now)).value) }
    ensures notes { OnOk result (notes.new ≡ taken notes.old
        (spec.judged_while test.now (map judge_stmt body.now) (place_by place.now))) }
{
    let test = bind_of_kind(alloc, Kind::Boolean, test, place, notes)?;
    let body = bind_list(alloc, body, place, notes)?;
    Ok(BoundStmt::While(test, body))
}

#[cycle(bind)]
fn bind_repeat(
    alloc: Global,
    body: &[Stmt],
    test: &Expr,
    place: &Surroundings<'_>,
    notes: &mut Notes,
) -> Result<BoundStmt, NoMemory>
    ensures value { IfOk result (λ b. b ≡ (spec.judged_repeat (map judge_stmt body.now) test.now
        (place_by place.now)).value) }
    ensures notes { OnOk result (notes.new ≡ taken notes.old
        (spec.judged_repeat (map judge_stmt body.now) test.now (place_by place.now))) }
{
    let body = bind_list(alloc, body, place, notes)?;
    let test = bind_of_kind(alloc, Kind::Boolean, test, place, notes)?;
    Ok(BoundStmt::Repeat(body, test))
}

// Statements inside a scope.
#[cycle(bind)]
fn bind_inside(
    alloc: Global,
    stmts: &[Stmt],
    scope: &Scope,
    outside: &Surroundings<'_>,
    notes: &mut Notes,
) -> Result<Items<BoundStmt>, NoMemory>
    ensures value { IfOk result (λ bs. bs ≡ (spec.judged_list (map judge_stmt stmts.now)
        (with_scope scope.now (place_by outside.now))).value) }
    ensures notes { OnOk result (notes.new ≡ taken notes.old
        (spec.judged_list (map judge_stmt stmts.now)
        (with_scope scope.now (place_by outside.now)))) }
{
    let scopes = entered_scope(alloc, ScopeRef { scope }, outside.scopes)?;
    let place = with_scopes(&*outside, scopes.as_slice());
    let bound = bind_list(alloc, stmts, &place, notes)?;
    Ok(bound)
}

// A FOR of its query and its statements, where there was memory for these.
fn for_of(
    first: usize,
    typed: TypedQuery,
    body: Result<Items<BoundStmt>, NoMemory>,
) -> Result<BoundStmt, NoMemory>
    ensures { result ≡ spec.made (λ ss. bound.For typed.tree first ss) body }
{
    match body {
        Ok(body) => Ok(BoundStmt::For(typed.tree, first, body)),
        Err(wanting) => {
            drop(typed);
            Err(wanting)
        }
    }
}

// The statements of a FOR over the columns of its query.
#[cycle(bind)]
fn bind_looped(
    alloc: Global,
    body: &[Stmt],
    ident: &Ident,
    query: &OrderedQuery,
    columns: &[Output],
    place: &Surroundings<'_>,
    notes: &mut Notes,
) -> Result<Items<BoundStmt>, NoMemory>
    ensures value { IfOk result (λ ss. ss ≡ (spec.looped_body ident.now query.now
        (map judge_stmt body.now) (place_by place.now) columns.now).value) }
    ensures notes { OnOk result (notes.new ≡ taken notes.old (spec.looped_body ident.now query.now
        (map judge_stmt body.now) (place_by place.now) columns.now)) }
{
    let least = &mut notes.least;
    let scope = scope_of_columns(alloc, ident, &query.query, columns, place.scopes, least)?;
    let bound = bind_inside(alloc, body, &scope, place, notes)?;
    Ok(bound)
}

#[cycle(bind)]
fn bind_for(
    alloc: Global,
    body: &[Stmt],
    ident: &Ident,
    query: &OrderedQuery,
    place: &Surroundings<'_>,
    notes: &mut Notes,
) -> Result<BoundStmt, NoMemory>
    ensures value { IfOk result
        (λ b. b ≡ (spec.judged_for ident.now query.now (map judge_stmt body.now)
        (place_by place.now)).value) }
    ensures notes { OnOk result (notes.new ≡ taken notes.old
        (spec.judged_for ident.now query.now (map judge_stmt body.now) (place_by place.now))) }
{
    let first = next_slot(place.scopes)?;
    let sight = seen_from(place);
    let typed = bind_ordered_typed(alloc, query, &sight, notes)?;
    let columns = typed.columns.as_slice();
    let body = bind_looped(alloc, body, ident, query, columns, place, notes);
    for_of(first, typed, body)
}

// ---- compound statements

// An action, which may not leave the compound statement of its handler.
#[cycle(bind)]
fn bind_action(
    alloc: Global,
    action: &Stmt,
    here: &Surroundings<'_>,
    notes: &mut Notes,
) -> Result<BoundStmt, NoMemory>
    ensures value { IfOk result
        (λ b. b ≡ (judge_stmt action.now (in_action (place_by here.now))).value) }
    ensures notes { OnOk result (notes.new ≡ taken notes.old
        (judge_stmt action.now (in_action (place_by here.now)))) }
{
    let labels = barred(alloc, here.labels)?;
    let place = with_labels(&*here, labels.as_slice());
    let bound = bind_statement(alloc, action, &place, notes)?;
    Ok(bound)
}

// A handler after the declarations of its compound statement.
#[cycle(bind)]
fn bind_handler(
    alloc: Global,
    handler: &Handler,
    handlers: &[BoundHandler],
    here: &Surroundings<'_>,
    notes: &mut Notes,
) -> Result<BoundHandler, NoMemory>
    ensures value { IfOk result
        (λ h. h ≡ (spec.handler_after handler.now handlers.now (place_by here.now)).value) }
    ensures notes { OnOk result (notes.new ≡ taken notes.old
        (spec.handler_after handler.now handlers.now (place_by here.now))) }
{
    let values = handler.values.as_slice();
    let values = bind_values(alloc, values, handlers, here, &mut notes.least)?;
    let action = bind_action(alloc, handler.action.get(), here, notes)?;
    handler_of(alloc, handler.handler_type, values, action)
}

// A handler in sight of what its compound statement declares.
#[cycle(bind)]
fn handler_inside(
    alloc: Global,
    handler: &Handler,
    so: &Declared,
    outside: &Surroundings<'_>,
    notes: &mut Notes,
) -> Result<BoundHandler, NoMemory>
    ensures value { IfOk result (λ h. h ≡ (spec.handler_after handler.now so.now.handlers
        (with_scope so.now.scope (place_by outside.now))).value) }
    ensures notes { OnOk result (notes.new ≡ taken notes.old
        (spec.handler_after handler.now so.now.handlers
        (with_scope so.now.scope (place_by outside.now)))) }
{
    let scope = ScopeRef { scope: &so.scope };
    let scopes = entered_scope(alloc, scope, outside.scopes)?;
    let here = with_scopes(&*outside, scopes.as_slice());
    let bound = bind_handler(alloc, handler, so.handlers.as_slice(), &here, notes)?;
    Ok(bound)
}

#[cycle(bind)]
fn declare_handler(
    alloc: Global,
    handler: &Handler,
    atomic: bool,
    outside: &Surroundings<'_>,
    so: &mut Declared,
    notes: &mut Notes,
) -> Result<(), NoMemory>
    ensures value { OnOk result
        (so.new ≡ (judge_handler handler.now atomic (place_by outside.now) so.old).value) }
    ensures notes { OnOk result (notes.new ≡ taken notes.old
        (judge_handler handler.now atomic (place_by outside.now) so.old)) }
{
    note_undo(
        handler.anchor,
        handler.handler_type,
        atomic,
        &mut notes.least,
    );
    let bound = handler_inside(alloc, handler, so, outside, notes)?;
    so.handlers.push(bound)?;
    Ok(())
}

#[cycle(bind)]
fn declare(
    alloc: Global,
    declaration: &Declaration,
    atomic: bool,
    outside: &Surroundings<'_>,
    so: &mut Declared,
    notes: &mut Notes,
) -> Result<(), NoMemory>
    ensures value { OnOk result (so.new ≡ (judge_declaration declaration.now atomic
        (place_by outside.now) so.old).value) }
    ensures notes { OnOk result (notes.new ≡ taken notes.old
        (judge_declaration declaration.now atomic (place_by outside.now) so.old)) }
{
    match declaration {
        Declaration::Variables(variables) => {
            declare_variables(alloc, variables, outside, so, notes)
        }
        Declaration::Condition(condition) => declare_condition(condition, so, &mut notes.least),
        Declaration::Cursor(cursor) => declare_cursor(alloc, cursor, outside, so, notes),
        Declaration::Handler(handler) => {
            declare_handler(alloc, handler, atomic, outside, so, notes)
        }
    }
}

// Declarations in turn.
#[cycle(bind)]
fn bind_declarations(
    alloc: Global,
    declarations: &[Declaration],
    atomic: bool,
    outside: &Surroundings<'_>,
    notes: &mut Notes,
) -> Result<Declared, NoMemory>
    ensures value { IfOk result (λ so. so ≡ (spec.judged_declarations atomic
        (map judge_declaration declarations.now) (place_by outside.now)).value) }
    ensures notes { OnOk result (notes.new ≡ taken notes.old
        (spec.judged_declarations atomic (map judge_declaration declarations.now)
        (place_by outside.now))) }
{
    let mut so = nothing_declared(alloc, outside)?;
    for declaration in declarations {
        declare(alloc, declaration, atomic, outside, &mut so, notes)?;
    }
    Ok(so)
}

#[cycle(bind)]
fn bind_block(
    alloc: Global,
    block: &Block,
    place: &Surroundings<'_>,
    notes: &mut Notes,
) -> Result<BoundStmt, NoMemory>
    ensures value { IfOk result (λ b. b ≡ (judge_block block.now (place_by place.now)).value) }
    ensures notes { OnOk result (notes.new ≡ taken notes.old
        (judge_block block.now (place_by place.now))) }
{
    let declarations = block.declarations.as_slice();
    let so = bind_declarations(alloc, declarations, block.atomic, place, notes)?;
    let stmts = block.statements.as_slice();
    let statements = bind_inside(alloc, stmts, &so.scope, place, notes)?;
    Ok(BoundStmt::Block(block_of(block.atomic, so, statements)))
}

// ---- labels

// What may have a label, with its label in sight.
#[cycle(bind)]
fn bind_structure(
    alloc: Global,
    structure: &Structure,
    place: &Surroundings<'_>,
    notes: &mut Notes,
) -> Result<BoundStmt, NoMemory>
    ensures value { IfOk result
        (λ b. b ≡ ((judge_structure structure.now).judge (place_by place.now)).value) }
    ensures notes { OnOk result (notes.new ≡ taken notes.old
        ((judge_structure structure.now).judge (place_by place.now))) }
{
    match structure {
        Structure::Block(block) => bind_block(alloc, block, place, notes),
        Structure::Loop(body) => {
            let body = bind_list(alloc, body.as_slice(), place, notes)?;
            Ok(BoundStmt::Loop(body))
        }
        Structure::While(test, body) => bind_while(alloc, body.as_slice(), test, place, notes),
        Structure::Repeat(body, test) => bind_repeat(alloc, body.as_slice(), test, place, notes),
        Structure::For(ident, query, body) => {
            bind_for(alloc, body.as_slice(), ident, query, place, notes)
        }
    }
}

// What stands inside a label.
#[cycle(bind)]
fn bind_within(
    alloc: Global,
    label: Label<'_>,
    structure: &Structure,
    outside: &Surroundings<'_>,
    notes: &mut Notes,
) -> Result<BoundStmt, NoMemory>
    ensures value { IfOk result (λ b. b ≡ ((judge_structure structure.now).judge
        (within (label_by label.entry) (place_by outside.now))).value) }
    ensures notes { OnOk result (notes.new ≡ taken notes.old
        ((judge_structure structure.now).judge
        (within (label_by label.entry) (place_by outside.now)))) }
{
    let labels = entered(alloc, label, outside.labels)?;
    let place = with_labels(&*outside, labels.as_slice());
    let bound = bind_structure(alloc, structure, &place, notes)?;
    Ok(bound)
}

#[cycle(bind)]
fn bind_labelled(
    alloc: Global,
    labelled: &LabelledTree,
    place: &Surroundings<'_>,
    notes: &mut Notes,
) -> Result<BoundStmt, NoMemory>
    ensures value { IfOk result
        (λ b. b ≡ (judge_labelled labelled.now (place_by place.now)).value) }
    ensures notes { OnOk result (notes.new ≡ taken notes.old
        (judge_labelled labelled.now (place_by place.now))) }
{
    note_label(&labelled.label, place.labels, &mut notes.least);
    note_end(&labelled.label, &labelled.end_label, &mut notes.least);
    let label = Label {
        name: &labelled.label,
        is_loop: is_loop(&labelled.structure),
        may_leave: true,
    };
    bind_within(alloc, label, &labelled.structure, place, notes)
}
