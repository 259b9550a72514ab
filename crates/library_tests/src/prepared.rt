//! A prepared query, the plan that is told of one, and what a database is made of.

ghost use Rattle.std.specs.Prelude.{◌≡◌};

use crate::databases::{Doing, bound, does, made};
use psm_session::{Answer, Database, Prepared, Reply};
use row_types::Steps;
use sql_values::NoMemory;
use std::alloc::Global;
use std::marker::Brand;
use std::sync::ledger::{Blank, Ledger};
use std::test::Fail;

// How many rows a prepared query has, and none where it raises.
fn rows_of<L: Ledger>(
    blank: Blank,
    prepared: &Prepared,
    db: &Database,
) -> Result<Option<usize>, NoMemory>
    requires name { blank.name ≡ L.name }
    requires parts { blank.parts ≡ L.parts }
    requires some { blank.parts ≡ 1 }
{
    let (book, share) = blank.open();
    let mut steps = Steps::<L>::new(book, share);
    match db.run_prepared(prepared, &mut steps)? {
        Answer::Rows(rows) => Ok(Some(rows.len())),
        Answer::Raised(_) => Ok(None),
    }
}

fn rows_now(prepared: &Prepared, db: &Database) -> Result<Option<usize>, NoMemory> {
    rows_of::<Brand>(Blank::new(1), prepared, db)
}

fn prepared(alloc: Global, text: &str, db: &Database) -> Option<Prepared> {
    let query = bound(alloc, text, db.catalog())?;
    db.prepare(&query).ok()
}

// Whether it has so many rows once the statement has run.
fn has_then(
    alloc: Global,
    statement: &str,
    rows: Option<usize>,
    prepared: &Prepared,
    db: &mut Database,
) -> bool {
    does(alloc, Doing::Running, statement.as_bytes(), db) && rows_now(prepared, db) == Ok(rows)
}

static MADE: [&[u8]; 2] = [
    b"CREATE TABLE t (k INTEGER PRIMARY KEY);",
    b"CREATE FUNCTION inv (x INTEGER) RETURNS INTEGER RETURN 100 / x;",
];

// Statements, and how many rows SELECT inv(k) FROM t has after each.
static ROWS: [(&str, Option<usize>); 5] = [
    ("VALUES (1);", Some(0)),
    ("INSERT INTO t VALUES (1);", Some(1)),
    ("INSERT INTO t VALUES (2), (3);", Some(3)),
    ("INSERT INTO t VALUES (0);", None),
    ("DELETE FROM t WHERE k < 2;", Some(2)),
];

#[test]
fn a_prepared_query_reads_the_tables_of_the_moment(rt: HostRuntime) -> Result<(), Fail> {
    let alloc = rt.alloc();
    let mut db = made(alloc, Doing::Running, &MADE).ok_or("no memory")?;
    let query = prepared(alloc, "SELECT inv(k) FROM t", &db).ok_or("not prepared")?;
    for (statement, rows) in &ROWS {
        assert!(rt;
            has_then(alloc, statement, *rows, &query, &mut db),
            "{statement:?}"
        );
    }
    Ok(())
}

fn explained(alloc: Global, text: &str, db: &Database) -> Option<Reply> {
    let query = bound(alloc, text, db.catalog())?;
    db.explain(&query).ok()
}

// Queries, and the reply to EXPLAIN of each.
static PLANS: [(&str, &[u8]); 2] = [
    (
        "VALUES (1, 'a'), (2, NULL)",
        b"inlined 0 interpreted 0 apply 0 lookup 0 once 0\nValues 1, 'a'; 2, NULL\n00000\n",
    ),
    (
        "SELECT inv(k) FROM t",
        b"inlined 1 interpreted 0 apply 0 lookup 0 once 0\nKeep #2\n  Extend div(100, #1)\n    Extend #0\n      Scan T\n00000\n",
    ),
];

#[test]
fn a_query_is_explained(rt: HostRuntime) -> Result<(), Fail> {
    let alloc = rt.alloc();
    let db = made(alloc, Doing::Running, &MADE).ok_or("no memory")?;
    for (text, told) in &PLANS {
        let reply = explained(alloc, text, &db).ok_or("not explained")?;
        assert_eq!(rt; reply.as_bytes(), *told, "{text:?}");
    }
    Ok(())
}

#[test]
fn a_database_is_a_catalog_and_tables(rt: HostRuntime) -> Result<(), Fail> {
    let db = made(rt.alloc(), Doing::Running, &MADE).ok_or("no memory")?;
    let (catalog, tables) = db.into_parts();
    assert_eq!(rt; catalog.len(), 2);
    assert_eq!(rt; tables.len(), 1);
    Ok(())
}
