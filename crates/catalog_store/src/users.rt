//! Of each name that is used the set of the entries that use it, so that their number is known at
//! once. A routine may list a name several times, and its own: it is in the set of another name
//! once, and never in that of its own.

ghost use Rattle.std.specs.Prelude.{◌≡◌, ℕ, List, [], ◌∷◌, ◌||◌, ◌&&◌, not, false, length};
ghost use Rattle.std.specs.Prelude.{None, OnOk, OnErr};
ghost use Rattle.std.specs.List.{IsDistinct, list_any};
ghost use Rattle.std.specs.Map.{lookup};
ghost use Rattle.std.specs.Str.{bytes_eq};
ghost use Rattle.catalog_store.specs.Using.{has_user, other_use, users_at};

use crate::user_set::UserSet;
use indexmap::IndexMap;
use sql_values::{Name, NoMemory};
use std::alloc::Global;

/// How many entries use a name.
pub(crate) fn users_of(users: &IndexMap<Name, UserSet>, name: &Name) -> usize
    ensures value { result ≡ length (users_at name.now users.now.entries) }
    ensures distinct { IsDistinct bytes_eq (users_at name.now users.now.entries) }
{
    match users.get(name) {
        Some(set) => set.len(),
        None => 0,
    }
}

// With the first user of a name.
fn add_first(
    alloc: Global,
    users: &mut IndexMap<Name, UserSet>,
    used: &Name,
    user: &Name,
) -> Result<(), NoMemory>
    requires { lookup (bytes_eq used.now) users.old.entries ≡ None }
    ensures ok { OnOk result ((name other : List ℕ) → has_user name other users.new.entries ≡
        (has_user name other users.old.entries || (bytes_eq used.now name &&
        bytes_eq user.now other))) }
    ensures err { OnErr result (users.new.entries ≡ users.old.entries) }
{
    let mut set = UserSet::new(alloc);
    set.insert(user)?;
    users.insert(used.copied()?, set)?;
    Ok(())
}

// With a user of a name, which may be one already.
fn add_user(
    alloc: Global,
    users: &mut IndexMap<Name, UserSet>,
    used: &Name,
    user: &Name,
) -> Result<(), NoMemory>
    ensures ok { OnOk result ((name other : List ℕ) → has_user name other users.new.entries ≡
        (has_user name other users.old.entries || (bytes_eq used.now name &&
        bytes_eq user.now other))) }
    ensures err { OnErr result ((name other : List ℕ) → has_user name other users.new.entries ≡
        has_user name other users.old.entries) }
{
    match users.get_index_of(used) {
        Some(at) => users[at].insert(user),
        None => add_first(alloc, users, used, user),
    }
}

// With a user of a name that is not its own.
fn add_other(
    alloc: Global,
    users: &mut IndexMap<Name, UserSet>,
    used: &Name,
    user: &Name,
) -> Result<(), NoMemory>
    ensures ok { OnOk result ((name other : List ℕ) → has_user name other users.new.entries ≡
        (has_user name other users.old.entries || (bytes_eq user.now other &&
        other_use name user.now (used.now ∷ [])))) }
    ensures err { OnErr result ((name other : List ℕ) → has_user name other users.new.entries ≡
        has_user name other users.old.entries) }
{
    if used == user {
        return Ok(());
    }
    add_user(alloc, users, used, user)
}

// Without a user of a name.
fn remove_user(users: &mut IndexMap<Name, UserSet>, used: &Name, user: &Name)
    ensures { (name other : List ℕ) → has_user name other users.new.entries ≡
        (has_user name other users.old.entries && not (bytes_eq used.now name &&
        bytes_eq user.now other)) }
{
    let Some(at) = users.get_index_of(used) else {
        return;
    };
    users[at].remove(user);
}

/// With a user of each of these names that are not its own. Without memory it may have become one
/// of some of them.
pub(crate) fn add_uses(
    alloc: Global,
    users: &mut IndexMap<Name, UserSet>,
    user: &Name,
    uses: &[Name],
) -> Result<(), NoMemory>
    ensures ok { OnOk result ((name other : List ℕ) → has_user name other users.new.entries ≡
        (has_user name other users.old.entries || (bytes_eq user.now other &&
        other_use name user.now uses.now))) }
    ensures err { OnErr result ((name other : List ℕ) → (bytes_eq user.now other &&
        list_any (λ used. bytes_eq used name) uses.now) ≡ false →
        has_user name other users.new.entries ≡ has_user name other users.old.entries) }
{
    for used in uses {
        add_other(alloc, users, used, user)?;
    }
    Ok(())
}

/// Without a user of each of these names.
pub(crate) fn remove_uses(users: &mut IndexMap<Name, UserSet>, user: &Name, uses: &[Name])
    ensures { (name other : List ℕ) → has_user name other users.new.entries ≡
        (has_user name other users.old.entries && not (bytes_eq user.now other &&
        list_any (λ used. bytes_eq used name) uses.now)) }
{
    for used in uses {
        remove_user(users, used, user);
    }
}
