//! Databases that statements make, and queries over their catalogs.

ghost use Rattle.std.specs.Prelude.{◌≡◌, true, IfSome};
ghost use Rattle.catalog_store.specs.View.{query_of};
ghost use Rattle.rel_algebra.specs.Plain.{planned};
ghost use Rattle.psm_session.specs.Bodies.{IsTypedQuery};

use bind_selects::bind_query;
use bind_sight::Sight;
use bound_trees::BoundQuery;
use catalog_store::Catalog;
use parse_changes::parse_query;
use psm_session::{Database, check_next, run_next};
use sql_lex::{Tokens, tokens};
use sql_values::NoMemory;
use std::alloc::Global;
use syntax_trees::Query;

/// What is done with statements.
#[derive(Clone, Copy)]
pub enum Doing {
    /// They run.
    Running,
    /// They are checked alone, which makes what they define.
    Checking,
}

// Does the first statement; says whether memory was there, and a token.
fn does_first(alloc: Global, doing: Doing, list: &Tokens, db: &mut Database) -> bool {
    if list.len() == 0 {
        return false;
    }
    match doing {
        Doing::Running => run_next(alloc, list, 0, false, 1_000_000, db).is_ok(),
        Doing::Checking => check_next(alloc, list, 0, db).is_ok(),
    }
}

/// Does the statement of a text; says whether memory was there.
pub fn does(alloc: Global, doing: Doing, statement: &[u8], db: &mut Database) -> bool {
    match tokens(alloc, statement) {
        Ok(list) => does_first(alloc, doing, &list, db),
        Err(NoMemory) => false,
    }
}

/// The database that statements make, one after another.
pub fn made(alloc: Global, doing: Doing, statements: &[&[u8]]) -> Option<Database> {
    let mut db = Database::new(alloc);
    for statement in statements {
        if !does(alloc, doing, statement, &mut db) {
            return None;
        }
    }
    Some(db)
}

fn bound_tree(alloc: Global, tree: &Query, catalog: &Catalog) -> Option<BoundQuery>
    ensures planned { IfSome result (λ q. planned (query_of catalog.now q) ≡ true) }
    ensures typed { IfSome result (λ q. IsTypedQuery catalog.now q) }
{
    let sight = Sight {
        levels: &[],
        scopes: &[],
        catalog,
        own: &None,
        writing: false,
    };
    let asked = bind_query(alloc, tree, &sight, catalog).ok()?;
    if asked.runs { Some(asked.query) } else { None }
}

fn parsed(alloc: Global, text: &str) -> Option<Query> {
    let list = tokens(alloc, text.as_bytes()).ok()?;
    match parse_query(alloc, &list, 0, 0) {
        Ok((tree, _)) => Some(tree),
        Err(_) => None,
    }
}

/// The query of a text, with its names resolved, where all functions that it calls have plans. It is
/// well typed.
pub fn bound(alloc: Global, text: &str, catalog: &Catalog) -> Option<BoundQuery>
    ensures planned { IfSome result (λ q. planned (query_of catalog.now q) ≡ true) }
    ensures typed { IfSome result (λ q. IsTypedQuery catalog.now q) }
{
    let tree = parsed(alloc, text)?;
    bound_tree(alloc, &tree, catalog)
}
