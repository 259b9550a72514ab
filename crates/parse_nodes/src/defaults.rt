//! What holds where nothing is written, and what may be declared after a declaration.

ghost use Rattle.std.specs.Prelude.{◌≡◌};
ghost use Rattle.grammar_sql.specs.Conditions as conditions;
ghost use Rattle.grammar_sql.specs.Declarations as declarations;
ghost use Rattle.grammar_sql.specs.Definitions as definitions;

use grammar_algebra::Stage;
use statement_trees::{Declaration, DiagnosticsArea, ParameterMode};
use syntax_trees::Anchor;

/// Which way the value of a procedure's parameter goes (ISO/IEC 9075-2, 11.60): as it is written,
/// and IN where nothing is.
pub fn mode_or_in(written: Option<(ParameterMode, Anchor)>) -> ParameterMode
    ensures { result ≡ definitions.mode_or_in written }
{
    match written {
        None => ParameterMode::In,
        Some(mode) => mode.0,
    }
}

/// The area that GET DIAGNOSTICS reads (ISO/IEC 9075-2, 23.1): the one that is written, and the
/// current one where none is.
pub fn area_or_current(written: Option<(DiagnosticsArea, Anchor)>) -> DiagnosticsArea
    ensures { result ≡ conditions.area_or_current written }
{
    match written {
        None => DiagnosticsArea::Current,
        Some(area) => area.0,
    }
}

/// The stage of what stands after a declaration (ISO/IEC 9075-4, 14.1): variables and conditions
/// stand first, then cursors, then handlers.
pub fn next_stage(stage: Stage, declaration: &Declaration) -> Stage
    ensures { result ≡ declarations.next_stage stage declaration.now }
{
    match declaration {
        Declaration::Variables(_) | Declaration::Condition(_) => stage,
        Declaration::Cursor(_) => Stage::Second,
        Declaration::Handler(_) => Stage::Third,
    }
}
