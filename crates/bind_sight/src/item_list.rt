//! The items of FROM in their order, with an index that tells at once whether one has a name.

ghost use Rattle.std.specs.Prelude.{◌≡◌, [], ◌∷◌, ◌++◌, length, OnOk, OnErr};
ghost use Rattle.std.specs.List.{list_any};
ghost use Rattle.bind_sight.specs.Sight.{is_named};

use crate::item::Item;
use indexmap::IndexSet;
use sql_values::{Name, NoMemory};
use sqlite_items::Items;
use std::alloc::Global;
use std::marker::Model;

/// Items in their order, some of them perhaps of the name of another.
#[derive(Drop)]
pub struct ItemList {
    items: Items<Item>,
    names: IndexSet<Name>,
}

impl Model for ItemList {
    ghost use Rattle.std.specs.Prelude.{List};
    ghost use Rattle.bind_sight.specs.ItemNames.{AreNames};
    ghost use Rattle.bind_sight.specs.declared.item.Item.{Item};

    ghost Value = { List Item };

    ghost view = { λ l. l.items };

    ghost invariant = { λ l. AreNames l.names.keys l.items };
}

impl ItemList {
    /// No item.
    pub fn new(alloc: Global) -> ItemList
        ensures { result ≡ [] }
    {
        ItemList {
            items: Items::new(alloc),
            names: IndexSet::new(alloc),
        }
    }

    /// One item more, after the others. Without memory there is none more.
    pub fn push(&mut self, item: Item) -> Result<(), NoMemory>
        ensures ok { OnOk result (self.new ≡ self.old ++ item ∷ []) }
        ensures err { OnErr result (self.new ≡ self.old) }
    {
        let name = item.name.copied()?;
        self.items.push(item)?;
        match self.names.insert(name) {
            Ok(_) => Ok(()),
            Err(_) => {
                let _last = self.items.pop();
                Err(NoMemory)
            }
        }
    }

    /// Whether one of them has this name, in a time that does not grow with their number.
    pub fn has_name(&self, name: &Name) -> bool
        ensures { result ≡ list_any (is_named name.now) self.now }
    {
        self.names.contains(name)
    }

    /// The items in their order.
    pub fn as_slice(&self) -> &[Item]
        ensures { result.now ≡ self.now }
    {
        self.items.as_slice()
    }

    /// How many there are.
    pub fn len(&self) -> usize
        ensures { result ≡ length self.now }
    {
        self.items.len()
    }
}
