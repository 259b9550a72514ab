//! What is raised.

ghost use Rattle.std.specs.Prelude.{◌≡◌, ◌≤◌, IfOk, length, slice_get};
ghost use Rattle.sql_conditions.specs.Conditions.{area_of, state_in, success};

use sql_conditions::{Area, Condition, EngineCondition, SqlState};
use sql_values::NoMemory;
use sqlite_items::at;
use std::alloc::Global;
use std::marker::Model;
use std::rc::Rc;

// Where the area lies: that of success, and the engine's own, are made where they are asked for.
#[derive(Debug, Drop)]
enum Form {
    Success,
    Engine(EngineCondition),
    Held(Rc<Area>),
}

/// What is raised: a diagnostics area (ISO/IEC 9075-2, 4.33). Contracts see the area. Its copies
/// share it, so that a copy takes no memory. One that the engine raises takes none either; another
/// one lies in memory of its own, so that what may stop stays small.
#[derive(Debug, Drop)]
pub struct Raise {
    form: Form,
}

impl Model for Raise {
    ghost use Rattle.sql_conditions.specs.Conditions.{Area as Plain};
    ghost use Rattle.run_choices.specs.Forms.{area_in};

    ghost Value = { Plain };

    ghost view = { λ r. area_in r.form };
}

impl Raise {
    /// The area of what raises nothing. It takes no memory.
    pub fn success() -> Raise
        ensures { result ≡ success }
    {
        Raise {
            form: Form::Success,
        }
    }

    /// What the engine raises. It takes no memory.
    pub fn of(condition: EngineCondition) -> Raise
        ensures { result ≡ area_of condition }
    {
        Raise {
            form: Form::Engine(condition),
        }
    }

    /// What has an area.
    pub fn held(alloc: Global, area: Area) -> Result<Raise, NoMemory>
        ensures { IfOk result (λ r. r ≡ area) }
    {
        Ok(Raise {
            form: Form::Held(Rc::new(alloc, area)?),
        })
    }

    /// The same once more; its area is shared.
    pub fn copied(&self) -> Result<Raise, NoMemory>
        ensures { IfOk result (λ r. r ≡ self.now) }
    {
        match &self.form {
            Form::Success => Ok(Raise::success()),
            Form::Engine(condition) => Ok(Raise::of(*condition)),
            Form::Held(area) => Ok(Raise {
                form: Form::Held(area.clone()?),
            }),
        }
    }

    /// The state of the newest condition.
    pub fn state(&self) -> SqlState
        ensures { result ≡ state_in self.now }
    {
        match &self.form {
            Form::Success => Condition::success().state,
            Form::Engine(condition) => condition.state(),
            Form::Held(area) => *area.as_ref().state(),
        }
    }

    /// How many conditions it has.
    pub fn len(&self) -> usize
        ensures count { result ≡ length self.now }
        ensures within { result ≤ 4 }
    {
        match &self.form {
            Form::Success => 1,
            Form::Engine(_) => 1,
            Form::Held(area) => area.as_ref().len(),
        }
    }

    /// The condition at a place, the newest at 0, where there is one. It takes no memory.
    pub fn condition(&self, place: usize) -> Result<Option<Condition>, NoMemory>
        ensures { IfOk result (λ c. c ≡ slice_get self.now place) }
    {
        match (&self.form, place) {
            (Form::Held(area), place) => copied_at(area.as_ref().as_slice(), place),
            (Form::Success, 0) => Ok(Some(Condition::success())),
            (Form::Engine(condition), 0) => Ok(Some(Condition::of(*condition))),
            _ => Ok(None),
        }
    }

    /// The area, as one of its own, whose texts are shared. It takes no memory.
    pub fn area(&self) -> Result<Area, NoMemory>
        ensures { IfOk result (λ a. a ≡ self.now) }
    {
        match &self.form {
            Form::Success => Ok(Area::of(Condition::success())),
            Form::Engine(condition) => Ok(Area::of(Condition::of(*condition))),
            Form::Held(area) => area.as_ref().copied(),
        }
    }
}

// The condition at a place once more, where there is one.
fn copied_at(conditions: &[Condition], place: usize) -> Result<Option<Condition>, NoMemory>
    ensures { IfOk result (λ c. c ≡ slice_get conditions.now place) }
{
    match at(conditions, place) {
        Some(condition) => Ok(Some(condition.copied()?)),
        None => Ok(None),
    }
}
