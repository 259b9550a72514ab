//! What the catalog knows of each name.

ghost use Rattle.std.specs.Prelude.{◌≡◌, Some};
ghost use Rattle.std.specs.Option.{option_copied};

use bound_trees::{BoundExpr, BoundStmt};
use rel_algebra::{Node, Scalar};
use row_types::RowType;
use sql_values::{Name, SqlType};
use sqlite_items::Items;
use std::marker::Model;

/// What a routine does with SQL data, the least first (ISO/IEC 9075-2, 11.60).
#[derive(Clone, Copy, Debug, PartialEq, Eq)]
pub enum DataAccess {
    ContainsSql,
    ReadsSqlData,
    ModifiesSqlData,
}

/// Which way the value of a parameter goes (11.60).
#[derive(Clone, Copy, Debug, PartialEq, Eq)]
pub enum ParameterMode {
    In,
    Out,
    Inout,
}

/// What is known of a function beside its body: the types of its parameters, that of its result,
/// what it does with SQL data (11.60), its height (one more than that of the highest routine that
/// it calls, itself aside, and one for a function that calls none), the weight of its body (how
/// many statements run in its place at most; 4,097 and no more where it is too heavy, or has a
/// statement of another kind than those that a plan takes), and the names that its body uses: the
/// routines that it calls, itself aside, and the tables that it reads or writes, in whatever order
/// and however often.
#[derive(Drop)]
pub struct FunctionHead {
    pub parameters: Items<SqlType>,
    pub returns: SqlType,
    pub access: DataAccess,
    pub height: u32,
    pub weight: u32,
    pub uses: Items<Name>,
}

/// The same of a procedure, with the modes of its parameters, one for each (11.60).
#[derive(Drop)]
pub struct ProcedureHead {
    pub modes: Items<ParameterMode>,
    pub parameters: Items<SqlType>,
    pub access: DataAccess,
    pub height: u32,
    pub weight: u32,
    pub uses: Items<Name>,
}

/// What a name stands for: a table, a function with a plan, a function without one, or a procedure.
#[derive(Drop)]
pub enum Object {
    Table(RowType),
    Function(RoutineRecord),
    Interpreted(InterpretedFunction),
    Procedure(Procedure),
}

/// A function without a plan: its body is a statement (11.60). No query calls one.
pub struct InterpretedFunction {
    pub head: FunctionHead,
    /// RETURNS NULL ON NULL INPUT.
    pub null_call: bool,
    /// Whether it calls itself.
    pub self_calling: bool,
    pub body: BoundStmt,
}

/// A procedure (11.60).
pub struct Procedure {
    pub head: ProcedureHead,
    /// Whether it calls itself.
    pub self_calling: bool,
    pub body: BoundStmt,
}

// `drop` lets go of a body in a call, so that what drops an object stays short.
impl Drop for InterpretedFunction {
    fn drop(self) {
        let InterpretedFunction {
            head: _head,
            null_call: _,
            self_calling: _,
            body,
        } = self;
        drop(body);
    }
}

impl Drop for Procedure {
    fn drop(self) {
        let Procedure {
            head: _head,
            self_calling: _,
            body,
        } = self;
        drop(body);
    }
}

/// A function: its head, what it returns, and its plan. A function that isn't in a catalog yet may
/// be without it.
#[derive(Drop)]
pub struct RoutineRecord {
    pub head: FunctionHead,
    pub body: Body,
    pub plan: Option<FunctionPlan>,
}

/// The plan of a function by itself: its parameters are the arguments. Nodes that add columns to
/// one row without cells, an Extend or an Apply each, and the scalar over these that is the
/// function's value.
#[derive(Drop)]
pub struct FunctionPlan {
    pub nodes: Items<Node>,
    pub scalar: Scalar,
}

/// What a function returns. Contracts see its tree; a program sees it by `tree` alone.
#[derive(Drop)]
pub struct Body {
    returned: BoundExpr,
}

impl Model for Body {
    ghost use Rattle.bound_trees.specs.declared.expr.BoundExpr.{BoundExpr};
    ghost use Rattle.bound_trees.specs.contracts.expr.BoundExpr as tree;
    ghost use Rattle.std.specs.Coded.{codes};

    ghost Value = { BoundExpr };

    ghost coded = { Prim.hlevel (codes, tree.the_row.coded) };

    ghost view = { λ b. b.returned };
}

impl Body {
    /// A body whose tree is there to run.
    pub fn shown(tree: BoundExpr) -> Body
        ensures { result ≡ tree }
    {
        Body { returned: tree }
    }

    /// The tree.
    pub fn tree(&self) -> Option<&BoundExpr>
        ensures { option_copied result ≡ Some self.now }
    {
        Some(&self.returned)
    }
}
