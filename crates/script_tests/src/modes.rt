//! A case in both modes: as it stands, and with `--plain`, each over databases of its own.

use crate::case::Case;
use crate::ran::{Outcome, run_case};
use psm_session::{Database, Reply};
use std::alloc::{AllocError, Global};

/// The database that the cases left as they stand, and the one that they left with `--plain`.
#[derive(Drop)]
pub struct Databases {
    stated: Database,
    plain: Database,
}

// The dump of a database.
fn dump_of(db: &Database) -> Result<Reply, AllocError> {
    match db.dump() {
        Ok(dump) => Ok(dump),
        Err(_) => Err(AllocError),
    }
}

impl Databases {
    /// Two without tables and routines.
    pub fn new(alloc: Global) -> Databases {
        Databases {
            stated: Database::new(alloc),
            plain: Database::new(alloc),
        }
    }

    // Whether they have the same tables, with the same rows.
    fn agree(&self) -> Result<bool, AllocError> {
        let stated = dump_of(&self.stated)?;
        let plain = dump_of(&self.plain)?;
        Ok(stated.as_bytes() == plain.as_bytes())
    }
}

/// What a case left as it stands, and where something else is left with `--plain`, that.
#[derive(Drop)]
pub struct Both {
    pub stated: Outcome,
    pub otherwise: Option<Outcome>,
}

// Whether two runs wrote the same, flushed the same, and ended the same.
fn is_same(one: &Outcome, other: &Outcome) -> bool {
    one.status.number() == other.status.number()
        && one.out.bytes() == other.out.bytes()
        && one.out.flushed() == other.out.flushed()
        && one.err.bytes() == other.err.bytes()
}

// What a case leaves over the other database, with `--plain` where it has both modes, if that is
// something else.
fn run_again(
    alloc: Global,
    case: Case<'_>,
    stated: &Outcome,
    dbs: &mut Databases,
) -> Result<Option<Outcome>, AllocError> {
    let plain = run_case(alloc, case, case.has_both_modes(), &mut dbs.plain)?;
    let is_one = is_same(stated, &plain) && dbs.agree()?;
    Ok(if is_one { None } else { Some(plain) })
}

/// Runs a case as it stands, and but where it is run once, over the other database: with `--plain`,
/// or where it has one mode as it stands, so that both databases go on.
pub fn run_both(alloc: Global, case: Case<'_>, dbs: &mut Databases) -> Result<Both, AllocError> {
    let stated = run_case(alloc, case, false, &mut dbs.stated)?;
    let otherwise = if case.is_run_once {
        None
    } else {
        run_again(alloc, case, &stated, dbs)?
    };
    Ok(Both { stated, otherwise })
}
