//! Which bodies of functions are in form, and which tree of `regions` each of them stands for.
#![tactic(auto)]

mod forming;
mod laws;

pub use forming::in_form;
pub use laws::{
    bodies_formed, bodies_mean, bodies_worked, choices_worked, forms_worked, others_worked,
    regions_agree, regions_embed, regions_worked,
};
