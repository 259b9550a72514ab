//! Where a value may go: into a variable that is stored into, and out of a function by RETURN
//! (ISO/IEC 9075-4, 14.5; ISO/IEC 9075-2, 15.2).

ghost use Rattle.std.specs.Prelude.{◌≡◌};
ghost use Rattle.bind_faults.specs.Faults.{noted};
ghost use Rattle.bind_rules.specs.Targets as spec;

use bind_faults::{Fault, FaultKind, note_if};
use bind_kinds::kind_of_type;
use bind_sight::Variable;
use sql_values::SqlType;
use syntax_trees::{Anchor, Ident};

/// A variable of a type.
pub fn variable_of(data_type: SqlType) -> Variable
    ensures { result ≡ spec.variable_of data_type }
{
    Variable {
        kind: kind_of_type(data_type),
        data_type: Some(data_type),
    }
}

/// A name into which a value is stored: it stands for nothing, or for a column of FOR.
pub fn note_found(ident: &Ident, found: Option<(usize, Variable)>, least: &mut Option<Fault>)
    ensures { least.new ≡ noted least.old (spec.target_faults ident.now found) }
{
    match found {
        Some((_, variable)) => {
            let fixed = variable.data_type.is_none();
            note_if(fixed, FaultKind::NotPermitted, ident.anchor, least);
        }
        None => note_if(true, FaultKind::UnknownName, ident.anchor, least),
    }
}

/// A RETURN where no function is around it.
pub fn note_return(at: Anchor, returns: Option<SqlType>, least: &mut Option<Fault>)
    ensures { least.new ≡ noted least.old (spec.return_faults at returns) }
{
    let barred = returns.is_none();
    note_if(barred, FaultKind::NotPermitted, at, least);
}
