//! What well typed trees and bodies call, and worked rows.

ghost use Rattle.typing_calls.specs.Examples.{BodiesTyped};
ghost use Rattle.typing_calls.specs.Typed.{TypedCallsStand};

/// What is well typed calls what stands around it, and so bodies call what stands before them.
pub fn typed_calls_stand()
    ensures { TypedCallsStand }
{}

/// Bodies that are well typed over what stands before them, and one that is not.
pub fn bodies_typed()
    ensures { BodiesTyped }
{}
