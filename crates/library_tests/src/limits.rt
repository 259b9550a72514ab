//! Words of no command that a case of a script cannot have, an area that is full, and the same
//! name.

use psm_words::{Command, RunOptions, read_words};
use sql_conditions::{Area, Condition, EngineCondition};
use sql_values::Name;
use std::test::Fail;

// `run` with so many turns, and without its flags.
fn run(budget: u32) -> Option<Command> {
    Some(Command::Run(RunOptions {
        budget,
        dump: false,
        plain: false,
    }))
}

#[test]
fn words_without_a_command(rt: HostRuntime) -> Result<(), Fail> {
    let rows: [(&[&str], Option<Command>); 8] = [
        (&["./a", "run"], run(1_000_000)),
        (&["./a", "run", "--budget", "5"], run(5)),
        (&["psm", "run", "--budget", ""], None),
        (&["", "check"], Some(Command::Check)),
        (&[], None),
        (&["run"], None),
        (&["psm", ""], None),
        (&["psm", "check", ""], None),
    ];
    for (words, command) in rows {
        assert_eq!(rt; read_words(rt.alloc(), words)?, command);
    }
    Ok(())
}

#[test]
fn the_oldest_of_five_goes(rt: HostRuntime) {
    let mut area = Area::of(Condition::of(EngineCondition::DivisionByZero));
    for _ in 0..4 {
        area.push_front(Condition::of(EngineCondition::ConstraintViolated));
    }
    assert_eq!(rt; area.as_slice().len(), 4);
    assert_eq!(rt; area.as_slice()[3].state.as_bytes(), b"23000".as_slice());
    area.push_front(Condition::of(EngineCondition::NumberOutOfRange));
    assert_eq!(rt; area.as_slice()[0].message.as_str(), "number out of range");
}

#[test]
fn a_copied_name_is_the_name(rt: HostRuntime) -> Result<(), Fail> {
    let name = Name::folded(rt.alloc(), b"a_1z").ok().ok_or("no memory")?;
    let copy = name.copied().ok().ok_or("no memory")?;
    assert!(rt; copy.is(&name));
    Ok(())
}
