//! Labels: compound statements and loops around a statement, and which of them a name stands for
//! (ISO/IEC 9075-4, 14.1, 14.8 and 14.9).

ghost use Rattle.std.specs.Prelude.{◌≡◌, ◌∷◌, IfOk, map};
ghost use Rattle.bind_faults.specs.Faults.{noted};
ghost use Rattle.bind_rules.specs.Labels.{label_by};
ghost use Rattle.bind_rules.specs.Labels as spec;

use bind_faults::{Fault, FaultKind, note_if};
use sql_values::{Name, NoMemory};
use std::alloc::Global;
use syntax_trees::Ident;

/// A compound statement or a loop around a statement (ISO/IEC 9075-4, 14.1 and 14.10 to 14.13).
#[derive(Clone, Copy)]
pub struct Label<'a> {
    /// Its label, where it has one.
    pub name: &'a Option<Ident>,
    pub is_loop: bool,
    /// Whether what stands here may leave it: an action may not leave the compound statement that
    /// declares it.
    pub may_leave: bool,
}

/// A compound statement or a loop by how many outwards it stands.
#[derive(Clone, Copy)]
pub struct Labelled {
    pub level: usize,
    pub is_loop: bool,
}

/// The labels inside a compound statement or a loop.
pub fn entered<'a>(
    alloc: Global,
    inner: Label<'a>,
    outside: &'a [Label<'a>],
) -> Result<Vec<Label<'a>>, NoMemory>
    ensures { IfOk result (λ ls. map label_by ls.items ≡ label_by inner.entry ∷
        map label_by outside.now) }
{
    let mut labels = Vec::new(alloc);
    labels.push(inner)?;
    for outer in outside {
        labels.push(*outer)?;
    }
    Ok(labels)
}

/// The labels in an action: it may not leave the innermost compound statement.
pub fn barred<'a>(alloc: Global, labels: &'a [Label<'a>]) -> Result<Vec<Label<'a>>, NoMemory>
    ensures { IfOk result (λ ls. map label_by ls.items ≡ spec.barred (map label_by labels.now)) }
{
    match labels {
        [label, outside @ ..] => {
            let inner = Label {
                name: label.name,
                is_loop: label.is_loop,
                may_leave: false,
            };
            let found = entered(alloc, inner, outside)?;
            Ok(found)
        }
        [] => Ok(Vec::new(alloc)),
    }
}

// Whether a label has a name.
fn is_name(name: &Name, label: &Option<Ident>) -> bool
    ensures { result ≡ spec.is_name name.now label.now }
{
    match label {
        Some(ident) => ident.name == *name,
        None => false,
    }
}

fn has_label(name: &Name, labels: &[Label<'_>]) -> bool
    ensures { result ≡ spec.has_label name.now (map label_by labels.now) }
{
    for label in labels {
        if is_name(name, label.name) {
            return true;
        }
    }
    false
}

/// The innermost compound statement or loop that has a label and may be left.
pub fn label_named(name: &Name, labels: &[Label<'_>]) -> Option<Labelled>
    ensures { result ≡ spec.label_named name.now (map label_by labels.now) }
{
    for (level, label) in labels.iter().enumerate() {
        if label.may_leave && is_name(name, label.name) {
            return Some(Labelled {
                level,
                is_loop: label.is_loop,
            });
        }
    }
    None
}

/// A label that one around it has.
pub fn note_label(label: &Option<Ident>, labels: &[Label<'_>], least: &mut Option<Fault>)
    ensures { least.new ≡ noted least.old (spec.label_faults label.now (map label_by labels.now)) }
{
    if let Some(ident) = label {
        let again = has_label(&ident.name, labels);
        note_if(again, FaultKind::DuplicateName, ident.anchor, least);
    }
}

/// An end label that is not the statement's label.
pub fn note_end(label: &Option<Ident>, end_label: &Option<Ident>, least: &mut Option<Fault>)
    ensures { least.new ≡ noted least.old (spec.end_faults label.now end_label.now) }
{
    if let Some(ident) = end_label {
        let other = !is_name(&ident.name, label);
        note_if(other, FaultKind::UnknownName, ident.anchor, least);
    }
}
