//! What is kept aside.

use crate::cursor::Cursor;
use sql_values::Value;
use std::marker::Model;

/// The variables and cursors of a frame that an action doesn't see.
#[derive(Drop)]
pub struct Aside {
    pub(crate) variables: Vec<Value>,
    pub(crate) cursors: Vec<Cursor>,
}

impl Model for Aside {
    ghost use Rattle.run_frames.specs.Frames.{Kept};

    ghost Value = { Kept };

    ghost view = { λ a. record { variables = a.variables.items; cursors = a.cursors.items } };
}
