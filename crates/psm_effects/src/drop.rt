//! An entry of the catalog goes, with its table where it has one.

ghost use Rattle.std.specs.Prelude.{◌≡◌, IfOk, OnErr, IsSome};
ghost use Rattle.catalog_store.specs.Catalog.{object_named};
ghost use Rattle.catalog_store.specs.Users.{users_of};
ghost use Rattle.psm_effects.specs.Effects.{dropped};
ghost use Rattle.psm_effects.specs.Conclusions.{database, IsEffect};
ghost use Rattle.psm_effects.specs.Shapes.{IsWhole};

use catalog_store::Catalog;
use reply_text::{Reply, done_reply};
use sql_values::{Name, NoMemory};
use std::alloc::Global;
use table_store::Tables;

/// Takes an entry that nothing uses out of the catalog, and its table, where it is one. The reply
/// is made first: without memory nothing changes.
pub fn drop_object(
    alloc: Global,
    name: &Name,
    catalog: &mut Catalog,
    tables: &mut Tables,
) -> Result<Reply, NoMemory>
    requires there { IsSome (object_named name.now catalog.old) }
    requires unused { users_of name.now catalog.old ≡ 0 }
    requires whole { IsWhole (database catalog.old tables.old) }
    ensures ok { IfOk result (λ r. IsEffect (dropped name.now (database catalog.old tables.old)) r
        (database catalog.new tables.new)) }
    ensures err { OnErr result (database catalog.new tables.new ≡ database catalog.old tables.old) }
    ensures whole { IsWhole (database catalog.new tables.new) }
{
    let _entries = catalog.len();
    let reply = done_reply(alloc, &[], None)?;
    catalog.drop_entry(name);
    tables.drop_table(name);
    Ok(reply)
}
