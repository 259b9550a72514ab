//! Characteristics of routines (ISO/IEC 9075-2, 11.60).

ghost use Rattle.std.specs.Prelude.{◌≡◌};
ghost use Rattle.catalog_store.specs.Catalog.{object_named};
ghost use Rattle.bind_faults.specs.Faults.{noted};
ghost use Rattle.bind_definitions.specs.Characteristics as spec;

use bind_faults::{Fault, FaultKind, note_if};
use catalog_store::{Catalog, DataAccess, Object};
use sql_values::Name;
use statement_trees::{Characteristic, CharacteristicKind};
use syntax_trees::Anchor;

/// What a characteristic speaks of: a routine has one of each group at most.
#[derive(Clone, Copy, Debug, PartialEq, Eq)]
pub enum Group {
    Language,
    Determinism,
    Access,
    NullCall,
}

/// The groups of which a routine has a characteristic.
#[derive(Clone, Copy, Debug)]
pub struct Groups {
    pub language: bool,
    pub determinism: bool,
    pub access: bool,
    pub null_call: bool,
}

fn group_of(kind: CharacteristicKind) -> Group
    ensures { result ≡ spec.group_of kind }
{
    match kind {
        CharacteristicKind::LanguageSql => Group::Language,
        CharacteristicKind::Deterministic => Group::Determinism,
        CharacteristicKind::NotDeterministic => Group::Determinism,
        CharacteristicKind::ContainsSql => Group::Access,
        CharacteristicKind::ReadsSqlData => Group::Access,
        CharacteristicKind::ModifiesSqlData => Group::Access,
        CharacteristicKind::ReturnsNullOnNullInput => Group::NullCall,
        CharacteristicKind::CalledOnNullInput => Group::NullCall,
    }
}

fn has(groups: Groups, group: Group) -> bool
    ensures { result ≡ spec.has groups group }
{
    match group {
        Group::Language => groups.language,
        Group::Determinism => groups.determinism,
        Group::Access => groups.access,
        Group::NullCall => groups.null_call,
    }
}

fn with_group(groups: Groups, group: Group) -> Groups
    ensures { result ≡ spec.with_group groups group }
{
    let mut found = groups;
    match group {
        Group::Language => found.language = true,
        Group::Determinism => found.determinism = true,
        Group::Access => found.access = true,
        Group::NullCall => found.null_call = true,
    }
    found
}

/// A second characteristic of one group.
pub fn note_groups(characteristics: &[Characteristic], least: &mut Option<Fault>)
    ensures { least.new ≡ noted least.old (spec.group_faults characteristics.now) }
{
    let mut groups = Groups {
        language: false,
        determinism: false,
        access: false,
        null_call: false,
    };
    for characteristic in characteristics {
        let group = group_of(characteristic.kind);
        let again = has(groups, group);
        note_if(
            again,
            FaultKind::DuplicateName,
            characteristic.anchor,
            least,
        );
        groups = with_group(groups, group);
    }
}

fn is_null_call(group: Group) -> bool
    ensures { result ≡ spec.is_null_call group }
{
    match group {
        Group::NullCall => true,
        Group::Language | Group::Determinism | Group::Access => false,
    }
}

/// RETURNS NULL ON NULL INPUT and CALLED ON NULL INPUT, which no procedure has.
pub fn note_null_calls(characteristics: &[Characteristic], least: &mut Option<Fault>)
    ensures { least.new ≡ noted least.old (spec.null_call_faults characteristics.now) }
{
    for characteristic in characteristics {
        let wrong = is_null_call(group_of(characteristic.kind));
        note_if(wrong, FaultKind::NotPermitted, characteristic.anchor, least);
    }
}

fn gives_null(kind: CharacteristicKind) -> bool
    ensures { result ≡ spec.gives_null kind }
{
    match kind {
        CharacteristicKind::ReturnsNullOnNullInput => true,
        _ => false,
    }
}

/// Whether a function is NULL where an argument is.
pub fn is_null_on_null(characteristics: &[Characteristic]) -> bool
    ensures { result ≡ spec.is_null_on_null characteristics.now }
{
    for characteristic in characteristics {
        if gives_null(characteristic.kind) {
            return true;
        }
    }
    false
}

fn rank(access: DataAccess) -> u8
    ensures { result ≡ spec.rank access }
{
    match access {
        DataAccess::ContainsSql => 0,
        DataAccess::ReadsSqlData => 1,
        DataAccess::ModifiesSqlData => 2,
    }
}

fn is_less(one: DataAccess, other: DataAccess) -> bool
    ensures { result ≡ spec.is_less one other }
{
    rank(one) < rank(other)
}

fn greater(one: DataAccess, other: DataAccess) -> DataAccess
    ensures { result ≡ spec.greater one other }
{
    if is_less(one, other) { other } else { one }
}

// What the use of a name needs.
fn access_of(name: &Name, catalog: &Catalog) -> DataAccess
    ensures { result ≡ spec.access_of (object_named name.now catalog.now) }
{
    match catalog.get(name) {
        Some(Object::Table(_)) => DataAccess::ReadsSqlData,
        Some(Object::Function(function)) => function.head.access,
        Some(Object::Interpreted(function)) => function.head.access,
        Some(Object::Procedure(procedure)) => procedure.head.access,
        None => DataAccess::ContainsSql,
    }
}

#[tactic(auto, using(crate::proofs::Access::none_before, crate::proofs::Access::none_after, crate::proofs::Access::greater_assoc))]
fn greatest_access(catalog: &Catalog, names: &[Name]) -> DataAccess
    ensures { result ≡ spec.greatest_access catalog.now names.now }
{
    let mut access = DataAccess::ContainsSql;
    for name in names {
        access = greater(access, access_of(name, catalog));
    }
    access
}

/// What a body needs that uses these names, and perhaps writes.
pub fn need_of(catalog: &Catalog, uses: &[Name], writes: bool) -> DataAccess
    ensures { result ≡ spec.need_of catalog.now uses.now writes }
{
    if writes {
        DataAccess::ModifiesSqlData
    } else {
        greatest_access(catalog, uses)
    }
}

fn written_by(kind: CharacteristicKind) -> Option<DataAccess>
    ensures { result ≡ spec.written_by kind }
{
    match kind {
        CharacteristicKind::ContainsSql => Some(DataAccess::ContainsSql),
        CharacteristicKind::ReadsSqlData => Some(DataAccess::ReadsSqlData),
        CharacteristicKind::ModifiesSqlData => Some(DataAccess::ModifiesSqlData),
        _ => None,
    }
}

fn note_less(at: Anchor, need: DataAccess, written: Option<DataAccess>, least: &mut Option<Fault>)
    ensures { least.new ≡ noted least.old (spec.less_fault at need written) }
{
    if let Some(written) = written {
        let less = is_less(written, need);
        note_if(less, FaultKind::NotPermitted, at, least);
    }
}

/// Data access that is written and is less than what the body needs.
pub fn note_access(need: DataAccess, characteristics: &[Characteristic], least: &mut Option<Fault>)
    ensures { least.new ≡ noted least.old (spec.access_faults need characteristics.now) }
{
    for characteristic in characteristics {
        note_less(
            characteristic.anchor,
            need,
            written_by(characteristic.kind),
            least,
        );
    }
}

/// What a routine does with SQL data: what is written, and else what its body needs.
pub fn access_by(characteristics: &[Characteristic], need: DataAccess) -> DataAccess
    ensures { result ≡ spec.access_by characteristics.now need }
{
    for characteristic in characteristics {
        if let Some(access) = written_by(characteristic.kind) {
            return access;
        }
    }
    need
}
