//! What the heads of routines say in the records that CREATE makes: height, weight and used names.

use crate::databases::{Doing, made};
use catalog_store::{Catalog, Object};
use sql_values::{Name, NoMemory};
use std::alloc::Global;

// Height, weight, and how many names are used.
fn head_of(object: &Object) -> Option<(u32, u32, usize)> {
    match object {
        Object::Function(made) => Some((made.head.height, made.head.weight, made.head.uses.len())),
        Object::Interpreted(made) => {
            Some((made.head.height, made.head.weight, made.head.uses.len()))
        }
        Object::Procedure(made) => Some((made.head.height, made.head.weight, made.head.uses.len())),
        Object::Table(_) => None,
    }
}

// The same of the routine F.
fn head_of_f(alloc: Global, catalog: &Catalog) -> Option<(u32, u32, usize)> {
    let name = Name::folded(alloc, b"F").ok()?;
    head_of(catalog.get(&name)?)
}

// The same once the statement has made F, beside the table T and the function G, which weighs 3.
fn head(alloc: Global, statement: &[u8]) -> Option<(u32, u32, usize)> {
    let db = made(alloc, Doing::Checking, &[MAKING_T, MAKING_G, statement])?;
    head_of_f(alloc, db.catalog())
}

static MAKING_T: &[u8] = b"CREATE TABLE t (k INTEGER PRIMARY KEY);";

static MAKING_G: &[u8] =
    b"CREATE FUNCTION g (x INTEGER) RETURNS INTEGER BEGIN DECLARE r INTEGER; SET r = x; RETURN r; END;";

// Statements that make F, and its height, its weight and how many names it uses.
static HEADS: [(&str, u32, u32, usize); 13] = [
    (
        "CREATE FUNCTION f (x INTEGER) RETURNS INTEGER RETURN x;",
        1,
        1,
        0,
    ),
    (
        "CREATE FUNCTION f (x INTEGER) RETURNS INTEGER READS SQL DATA RETURNS NULL ON NULL INPUT RETURN (SELECT k FROM t WHERE k = x);",
        1,
        1,
        1,
    ),
    (
        "CREATE FUNCTION f () RETURNS INTEGER BEGIN DECLARE r INTEGER DEFAULT 0; SET r = 1; RETURN r; END;",
        1,
        3,
        0,
    ),
    (
        "CREATE FUNCTION f () RETURNS INTEGER BEGIN DECLARE r INTEGER; DECLARE CONTINUE HANDLER FOR SQLEXCEPTION SET r = 0; SET r = 1; RETURN r; END;",
        1,
        5,
        0,
    ),
    (
        "CREATE FUNCTION f () RETURNS INTEGER BEGIN DECLARE r INTEGER; DECLARE CONTINUE HANDLER FOR SQLEXCEPTION SET r = 0; BEGIN ATOMIC DECLARE s INTEGER; DECLARE EXIT HANDLER FOR NOT FOUND SET r = 2; SET r = 1; END; RETURN r; END;",
        1,
        7,
        0,
    ),
    (
        "CREATE FUNCTION f () RETURNS INTEGER BEGIN DECLARE r INTEGER; DECLARE CONTINUE HANDLER FOR SQLEXCEPTION SET r = 0; BEGIN DECLARE s INTEGER; DECLARE EXIT HANDLER FOR NOT FOUND SET r = 2; SET r = 1; END; RETURN r; END;",
        1,
        9,
        0,
    ),
    (
        "CREATE FUNCTION f (x INTEGER) RETURNS INTEGER BEGIN IF x > 0 THEN RETURN 1; ELSE RETURN 2; END IF; RETURN 3; END;",
        1,
        4,
        0,
    ),
    (
        "CREATE FUNCTION f (x INTEGER) RETURNS INTEGER BEGIN CASE x WHEN 1 THEN RETURN 1; WHEN 2 THEN RETURN 2; END CASE; RETURN 3; END;",
        1,
        4,
        0,
    ),
    (
        "CREATE FUNCTION f () RETURNS INTEGER BEGIN LOOP RETURN 1; END LOOP; END;",
        1,
        4097,
        0,
    ),
    (
        "CREATE FUNCTION f (x INTEGER) RETURNS INTEGER RETURN f(x);",
        1,
        4097,
        0,
    ),
    (
        "CREATE FUNCTION f (x INTEGER) RETURNS INTEGER RETURN g(x);",
        2,
        4,
        1,
    ),
    (
        "CREATE FUNCTION f () RETURNS INTEGER READS SQL DATA RETURN (SELECT g(COUNT(*)) FROM t);",
        2,
        4,
        2,
    ),
    (
        "CREATE PROCEDURE f () MODIFIES SQL DATA DELETE FROM t;",
        1,
        4097,
        1,
    ),
];

#[test]
fn heads_of_routines(rt: HostRuntime) {
    for (statement, height, weight, uses) in &HEADS {
        let found = head(rt.alloc(), statement.as_bytes());
        assert!(rt; found == Some((*height, *weight, *uses)), "{statement:?}");
    }
}

// A body of so many statements SET, with its variable and its RETURN.
fn long_function(alloc: Global, statements: usize) -> Result<Vec<u8>, NoMemory> {
    let mut text = Vec::new(alloc);
    text.extend_from_slice(
        b"CREATE FUNCTION f (x INTEGER) RETURNS INTEGER BEGIN DECLARE r INTEGER DEFAULT 0; ",
    )?;
    for _ in 0..statements {
        text.extend_from_slice(b"SET r = r + 1; ")?;
    }
    text.extend_from_slice(b"RETURN r; END;")?;
    Ok(text)
}

fn long_head(alloc: Global, statements: usize) -> Option<(u32, u32, usize)> {
    let text = long_function(alloc, statements).ok()?;
    head(alloc, text.as_slice())
}

#[test]
fn counting_stops_at_the_greatest_weight(rt: HostRuntime) {
    for (statements, weight) in [(4094, 4096), (4095, 4097), (4096, 4097)] {
        assert_eq!(rt; long_head(rt.alloc(), statements), Some((1, weight, 0)));
    }
}
