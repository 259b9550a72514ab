//! What a judge keeps on its way: the least fault, and the functions that are called.

ghost use Rattle.std.specs.Prelude.{◌≡◌, OnOk};
ghost use Rattle.bind_faults.specs.Faults.{noted_before, using_name};

use crate::Fault;
use sql_texts::{Name, NoMemory};
use sqlite_items::Items;
use std::alloc::Global;

/// The least fault so far, and the names of the functions that are called so far, each as often as
/// it is called.
#[derive(Drop)]
pub struct Notes {
    pub least: Option<Fault>,
    pub uses: Items<Name>,
}

impl Notes {
    /// Nothing noted but the least fault so far.
    pub fn after(alloc: Global, least: Option<Fault>) -> Notes
        ensures { result ≡ noted_before least }
    {
        Notes {
            least,
            uses: Items::new(alloc),
        }
    }

    /// A call of the function of a name.
    pub fn add_use(&mut self, name: &Name) -> Result<(), NoMemory>
        ensures { OnOk result (self.new ≡ using_name name.now self.old) }
    {
        self.uses.push(name.copied()?)?;
        Ok(())
    }
}
