//! Written types (ISO/IEC 9075-2, 6.1).

ghost use Rattle.std.specs.Prelude.{◌≡◌};
ghost use Rattle.bind_faults.specs.Faults.{noted};
ghost use Rattle.bind_kinds.specs.Types as spec;

use bind_faults::{Fault, FaultKind, note_if};
use sql_values::{MOST_TEXT, SqlType};
use syntax_trees::{DataType, TypeName};

fn is_length(number: i64) -> bool
    ensures { result ≡ spec.is_length number }
{
    1 <= number && number <= MOST_TEXT as i64
}

fn length_of(number: i64) -> usize
    ensures { result ≡ spec.length_by (spec.is_length number) number }
{
    if is_length(number) {
        number as usize
    } else {
        1
    }
}

/// The type that is written.
pub fn type_of(data_type: DataType) -> SqlType
    ensures { result ≡ spec.type_of data_type }
{
    match data_type.name {
        TypeName::Integer => SqlType::Integer,
        TypeName::Varchar(_, number) => SqlType::Varchar(length_of(number)),
        TypeName::Boolean => SqlType::Boolean,
    }
}

/// A fault at n of VARCHAR where it is out of range.
pub fn note_type(data_type: DataType, least: &mut Option<Fault>)
    ensures { least.new ≡ noted least.old (spec.type_faults data_type) }
{
    match data_type.name {
        TypeName::Varchar(at, number) => {
            let wrong = !is_length(number);
            note_if(wrong, FaultKind::NotPermitted, at, least);
        }
        TypeName::Integer | TypeName::Boolean => {}
    }
}
