//! The law on scripts. The function does nothing; its contract is the law.

ghost use Rattle.std.specs.Prelude.{◌≡◌, List, ℕ};
ghost use Rattle.psm_effects.specs.Database.{Plain};
ghost use Rattle.psm_program.specs.Session.{Script};
ghost use Rattle.psm_session.specs.Planned.{EachPlanned};
ghost use Rattle.psm_words.specs.declared.command.Command.{Command};

/// To each command each list of bytes is a script with a run, whatever the database before: there
/// are replies, and a database that it leaves; and it has no other run: no other replies, and no
/// other database.
pub fn each_script_has_one_run()
    ensures some { (command : Command) (bytes : List ℕ) (before : Plain) →
        EachPlanned before.catalog →
        (replies : List (List ℕ)) × (after : Plain) × Script command bytes before replies after }
    ensures no_other { (command : Command) (bytes : List ℕ) (before : Plain)
        (replies others : List (List ℕ)) (after last : Plain)
        → Script command bytes before replies after → Script command bytes before others last →
        (replies ≡ others) × (after ≡ last) }
{}
