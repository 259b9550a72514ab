//! Tokens by their places, and parts of statements where so many constructs are open before them.

use grammar_algebra::{MOST_OPEN, ParseFault};
use parse_changes::{parse_dml, parse_query};
use parse_statements::parse_ddl;
use sql_lex::{Tokens, opens, place, tokens};
use std::alloc::Global;
use std::test::Fail;

// What is read, without a semicolon.
#[derive(Clone, Copy)]
enum Part {
    Query,
    Change,
    Definition,
}

// Where what was read ends, or why nothing was.
fn end_of<T: Drop>(read: Result<(T, usize), ParseFault>) -> Result<usize, ParseFault> {
    match read {
        Ok(found) => Ok(found.1),
        Err(fault) => Err(fault),
    }
}

fn end(part: Part, alloc: Global, read: &Tokens, open: u32) -> Result<usize, ParseFault> {
    let open = open.min(MOST_OPEN);
    match part {
        Part::Query => end_of(parse_query(alloc, read, 0, open)),
        Part::Change => end_of(parse_dml(alloc, read, 0, open)),
        Part::Definition => end_of(parse_ddl(alloc, read, 0, open)),
    }
}

static ROWS: [(&str, Part, u32, Result<usize, ParseFault>); 55] = [
    ("VALUES ((1)))", Part::Query, 22, Ok(6)),
    (
        "VALUES ((1)))",
        Part::Query,
        23,
        Err(ParseFault::TooDeep(2)),
    ),
    (
        "VALUES ((1)))",
        Part::Query,
        24,
        Err(ParseFault::TooDeep(1)),
    ),
    ("SELECT k FROM t WHERE k;", Part::Query, 24, Ok(6)),
    (
        "SELECT k FROM t WHERE;",
        Part::Query,
        0,
        Err(ParseFault::NoStatement(5)),
    ),
    ("SELECT k FROM t WHERE k = 1;", Part::Query, 24, Ok(8)),
    (
        "SELECT a.k AS x, 1 y FROM a, b LEFT OUTER JOIN c ON TRUE CROSS JOIN d WHERE k",
        Part::Query,
        24,
        Ok(24),
    ),
    (
        "SELECT * FROM (SELECT * FROM (VALUES (1)) t) k",
        Part::Query,
        21,
        Ok(16),
    ),
    (
        "SELECT * FROM (SELECT * FROM (VALUES (1)) t) k",
        Part::Query,
        22,
        Err(ParseFault::TooDeep(9)),
    ),
    ("VALUES (1) ORDER BY k;", Part::Query, 23, Ok(4)),
    (
        "SELECT g, COUNT(*) AS n, SUM(v) FROM d GROUP BY d.g, h HAVING MAX(v) > 0",
        Part::Query,
        23,
        Ok(30),
    ),
    (
        "SELECT g, COUNT(*) AS n, SUM(v) FROM d GROUP BY d.g, h HAVING MAX(v) > 0",
        Part::Query,
        24,
        Err(ParseFault::TooDeep(4)),
    ),
    ("INSERT INTO t VALUES (1);", Part::Change, 23, Ok(7)),
    (
        "INSERT INTO t VALUES (1);",
        Part::Change,
        24,
        Err(ParseFault::TooDeep(4)),
    ),
    (
        "INSERT INTO t (1);",
        Part::Change,
        0,
        Err(ParseFault::NoStatement(4)),
    ),
    (
        "INSERT INTO t (a, b) VALUES (1, 2)",
        Part::Change,
        23,
        Ok(14),
    ),
    (
        "INSERT INTO t (a, b) VALUES (1, 2)",
        Part::Change,
        24,
        Err(ParseFault::TooDeep(3)),
    ),
    ("INSERT INTO t SELECT a FROM u;", Part::Change, 24, Ok(7)),
    (
        "UPDATE t SET a = 1, b = a = b WHERE a IN (1)",
        Part::Change,
        23,
        Ok(18),
    ),
    (
        "UPDATE t SET a = 1, b = a = b WHERE a IN (1)",
        Part::Change,
        24,
        Err(ParseFault::TooDeep(15)),
    ),
    (
        "DELETE FROM t WHERE a = (SELECT b FROM u)",
        Part::Change,
        23,
        Ok(12),
    ),
    (
        "DELETE FROM t WHERE a = (SELECT b FROM u)",
        Part::Change,
        24,
        Err(ParseFault::TooDeep(6)),
    ),
    (
        "CREATE TABLE t (a INT NOT NULL, PRIMARY KEY (a, b), b INT PRIMARY KEY)",
        Part::Definition,
        22,
        Ok(22),
    ),
    (
        "CREATE TABLE t (a INT NOT NULL, PRIMARY KEY (a, b), b INT PRIMARY KEY)",
        Part::Definition,
        23,
        Err(ParseFault::TooDeep(11)),
    ),
    (
        "CREATE TABLE t (PRIMARY KEY ())",
        Part::Definition,
        0,
        Err(ParseFault::NoStatement(7)),
    ),
    ("DROP TABLE t", Part::Definition, 24, Ok(3)),
    ("DROP FUNCTION f RESTRICT", Part::Definition, 24, Ok(4)),
    ("CREATE TABLE t (k INT);", Part::Definition, 23, Ok(7)),
    (
        "CREATE TABLE t (k INT);",
        Part::Definition,
        24,
        Err(ParseFault::TooDeep(3)),
    ),
    ("VALUES (a OR b AND NOT c = d)", Part::Query, 23, Ok(11)),
    ("VALUES (a - 'x' || b)", Part::Query, 23, Ok(8)),
    (
        "VALUES (TRUE, FALSE, UNKNOWN, NULL)",
        Part::Query,
        23,
        Ok(10),
    ),
    ("VALUES (a IS NOT UNKNOWN)", Part::Query, 23, Ok(7)),
    ("VALUES (a NOT IN (1, 2))", Part::Query, 22, Ok(11)),
    (
        "VALUES (a NOT IN (1, 2))",
        Part::Query,
        23,
        Err(ParseFault::TooDeep(5)),
    ),
    ("VALUES (COALESCE(a, b, 1))", Part::Query, 22, Ok(11)),
    ("VALUES (MOD(7, 2))", Part::Query, 22, Ok(9)),
    (
        "VALUES (MOD(7))",
        Part::Query,
        22,
        Err(ParseFault::NoStatement(5)),
    ),
    ("VALUES (CHAR_LENGTH('x'))", Part::Query, 22, Ok(7)),
    ("VALUES (SUBSTRING(a FROM 1))", Part::Query, 22, Ok(9)),
    (
        "VALUES (SUBSTRING(a FROM 1 FOR 2))",
        Part::Query,
        22,
        Ok(11),
    ),
    (
        "VALUES (SUBSTRING(a FOR 2 FROM 1))",
        Part::Query,
        22,
        Err(ParseFault::NoStatement(5)),
    ),
    ("VALUES (CAST(a AS VARCHAR(3)))", Part::Query, 21, Ok(12)),
    (
        "VALUES (CASE WHEN a THEN 1 WHEN b THEN 2 END)",
        Part::Query,
        22,
        Ok(13),
    ),
    (
        "VALUES (CASE a WHEN 1 THEN 2 ELSE 3 END)",
        Part::Query,
        22,
        Ok(12),
    ),
    (
        "VALUES (CASE a WHEN 1 THEN 2 ELSE 3 END)",
        Part::Query,
        23,
        Err(ParseFault::TooDeep(2)),
    ),
    (
        "CREATE TABLE t (k VARCHAR(3), b BOOLEAN)",
        Part::Definition,
        22,
        Ok(13),
    ),
    (
        "CREATE FUNCTION f (x VARCHAR(3)) RETURNS BOOLEAN RETURN x = 'a'",
        Part::Definition,
        22,
        Ok(16),
    ),
    (
        "CREATE FUNCTION f (x INT) RETURNS INT NOT DETERMINISTIC BEGIN RETURN x; END",
        Part::Definition,
        23,
        Ok(16),
    ),
    (
        "CREATE FUNCTION f (x INT) RETURNS INT BEGIN RETURN x; END",
        Part::Definition,
        24,
        Err(ParseFault::TooDeep(3)),
    ),
    (
        "CREATE PROCEDURE p () BEGIN IF (TRUE) THEN RESIGNAL; END IF; END",
        Part::Definition,
        21,
        Ok(17),
    ),
    (
        "CREATE PROCEDURE p () BEGIN IF (TRUE) THEN RESIGNAL; END IF; END",
        Part::Definition,
        22,
        Err(ParseFault::TooDeep(7)),
    ),
    (
        "DROP TABLE t",
        Part::Change,
        0,
        Err(ParseFault::NoStatement(0)),
    ),
    (
        "DELETE FROM t",
        Part::Definition,
        0,
        Err(ParseFault::NoStatement(0)),
    ),
    (
        "CALL p (?, 1)",
        Part::Change,
        0,
        Err(ParseFault::NoStatement(0)),
    ),
];

#[test]
fn parts_end_where_they_should(rt: HostRuntime) -> Result<(), Fail> {
    for (text, part, open, want) in &ROWS {
        let read = tokens(rt.alloc(), text.as_bytes())?;
        assert!(rt; end(*part, rt.alloc(), &read, *open) == *want, "{text:?}");
    }
    Ok(())
}

#[test]
fn tokens_have_lines_and_columns(rt: HostRuntime) -> Result<(), Fail> {
    let read = tokens(rt.alloc(), b"a\r\n  bc -- d\n\ne ")?;
    assert_eq!(rt; read.len(), 3);
    for (at, line, column) in [(0, 1, 1), (1, 2, 3), (2, 4, 1), (3, 4, 3)] {
        assert!(rt; at <= 3);
        assert_eq!(rt; place(&read, at), (line, column), "at {at}");
    }
    Ok(())
}

#[test]
fn words_open_constructs_but_after_end(rt: HostRuntime) -> Result<(), Fail> {
    let read = tokens(
        rt.alloc(),
        b"if ( end if case begin loop end loop while repeat for end (",
    )?;
    let want = [
        true, true, false, false, true, true, true, false, false, true, true, false, false, true,
    ];
    assert_eq!(rt; read.len(), 14);
    for (at, opening) in want.iter().enumerate() {
        assert!(rt; at < 14);
        assert_eq!(rt; opens(&read, at), *opening, "at {at}");
    }
    Ok(())
}
