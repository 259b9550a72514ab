//! The bytes of the script.
ghost use Rattle.std.specs.Prelude.{◌≡◌, ◌++◌, IfOk, OnOk, decimal};
ghost use Rattle.demo_script.specs.Demo.{demo_text, function_lines, insert_line, query_lines};
ghost use Rattle.demo_script.specs.Demo.{separator, triple, triples};

use crate::numbers::{a_of, g_of, next_number};
use itoa::Buffer;
use sql_texts::NoMemory;
use std::alloc::Global;

// Writes bytes after the text.
fn put(text: &mut Vec<u8>, bytes: &[u8]) -> Result<(), NoMemory>
    ensures { OnOk result (text.new.items ≡ text.old.items ++ bytes.now) }
{
    text.extend_from_slice(bytes)?;
    Ok(())
}

// Writes a number after the text.
fn put_number(text: &mut Vec<u8>, number: u64) -> Result<(), NoMemory>
    ensures { OnOk result (text.new.items ≡ text.old.items ++ decimal number) }
{
    let mut buffer = Buffer::new();
    put(text, buffer.format(number).as_bytes())
}

// Writes the row with this key and this number.
fn put_triple(text: &mut Vec<u8>, key: u64, x: u64) -> Result<(), NoMemory>
    ensures { OnOk result (text.new.items ≡ text.old.items ++ triple key x) }
{
    put(text, b"(")?;
    put_number(text, key)?;
    put(text, b",")?;
    put_number(text, a_of(x))?;
    put(text, b",")?;
    put_number(text, g_of(x))?;
    put(text, b")")
}

// Writes what stands before a row with so many rows before it.
fn put_separator(text: &mut Vec<u8>, before: u32) -> Result<(), NoMemory>
    ensures { OnOk result (text.new.items ≡ text.old.items ++ separator before) }
{
    if before == 0 { Ok(()) } else { put(text, b",") }
}

// Writes the rows with the keys from 1.
fn put_triples(text: &mut Vec<u8>, seed: u64, rows: u32) -> Result<(), NoMemory>
    ensures { OnOk result (text.new.items ≡ text.old.items ++ triples seed rows) }
{
    let mut x = seed;
    for i in 0..rows {
        x = next_number(x);
        put_separator(text, i)?;
        put_triple(text, i as u64 + 1, x)?;
    }
    Ok(())
}

// Writes the line that inserts the rows.
fn put_insert(text: &mut Vec<u8>, seed: u64, rows: u32) -> Result<(), NoMemory>
    ensures { OnOk result (text.new.items ≡ text.old.items ++ insert_line seed rows) }
{
    put(text, b"INSERT INTO p VALUES ")?;
    put_triples(text, seed, rows)?;
    put(text, b";\n")
}

// Writes the lines that make the functions.
fn put_functions(text: &mut Vec<u8>) -> Result<(), NoMemory>
    ensures { OnOk result (text.new.items ≡ text.old.items ++ function_lines) }
{
    put(
        text,
        b"CREATE FUNCTION safe (x INTEGER) RETURNS INTEGER BEGIN DECLARE EXIT HANDLER FOR SQLSTATE '22012' RETURN -1; RETURN 100 / x; END;\n",
    )?;
    put(
        text,
        b"CREATE FUNCTION grp (x INTEGER) RETURNS INTEGER RETURN (SELECT SUM(a) FROM p WHERE g = x);\n",
    )
}

// Writes the lines that ask.
fn put_queries(text: &mut Vec<u8>) -> Result<(), NoMemory>
    ensures { OnOk result (text.new.items ≡ text.old.items ++ query_lines) }
{
    put(
        text,
        b"SELECT COUNT(*), SUM(safe(a)), MAX(grp(g)) FROM p;\n",
    )?;
    put(
        text,
        b"SELECT g, COUNT(*) AS n, SUM(safe(a)) AS s FROM p GROUP BY g ORDER BY g;\n",
    )
}

/// The script with so many rows, whose numbers begin with the seed.
pub fn demo_script(alloc: Global, seed: u64, rows: u32) -> Result<Vec<u8>, NoMemory>
    ensures { IfOk result (λ t. t.items ≡ demo_text seed rows) }
{
    let mut text = Vec::new(alloc);
    put(
        &mut text,
        b"CREATE TABLE p (k INTEGER PRIMARY KEY, a INTEGER, g INTEGER);\n",
    )?;
    put_insert(&mut text, seed, rows)?;
    put_functions(&mut text)?;
    put_queries(&mut text)?;
    Ok(text)
}
