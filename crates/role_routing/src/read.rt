// Files of roles.

ghost use Rattle.std.specs.Prelude.{◌≡◌, ◌<◌, ◌+◌, [], None, Some, map, length, IfOk, IfSome, option_map, string_bytes};
ghost use Rattle.toml.specs.View.{view, array_view, table_view};
ghost use Rattle.std.specs.List.{list_any};
ghost use Rattle.std.specs.Str.{bytes_eq};
ghost use Rattle.role_routing.specs.Forms.{bad_key};
ghost use Rattle.role_routing.specs.Files as spec;
ghost use Rattle.role_routing.specs.Names as named;
ghost use Rattle.role_routing.specs.Held.{roles_data};
ghost use Rattle.role_routing.specs.Outcomes.{Gives, texts_shown};

use crate::fault::RolesFault;
use crate::forms::{bad_key, value_at};
use crate::roles::Roles;
use std::alloc::{AllocError, Global};
use toml::value::Array;
use toml::{Table, Value, table_from_slice};

/// The greatest length of the file, in bytes.
const MAX_FILE: usize = 1 << 20;

#[tactic(auto, unfolding(crate::specs::Files::parsed))]
fn parsed(alloc: Global, bytes: &[u8]) -> Result<Table, RolesFault>
    ensures { Gives (λ table. table_view table) (spec.parsed bytes.now) result }
{
    match table_from_slice(alloc, bytes) {
        Ok(table) => Ok(table),
        Err(error) => {
            if error.is_memory() {
                return Err(RolesFault::Memory);
            }
            Err(RolesFault::BadToml)
        }
    }
}

#[tactic(auto, unfolding(crate::specs::Files::well_formed))]
fn well_formed(alloc: Global, table: Table) -> Result<Table, RolesFault>
    ensures value { Gives (λ table. table_view table) (spec.well_formed (table_view table)) result }
    ensures formed { IfOk result (λ table. bad_key (table_view table) ≡ None) }
{
    if let Some(key) = bad_key(&table) {
        return Err(RolesFault::BadForm(String::from_str(alloc, key)?));
    }
    Ok(table)
}

fn text_of(value: &Value) -> &str
    ensures { result.now ≡ spec.text_of (view value.now) }
{
    value.as_str().unwrap_or("")
}

fn texts(alloc: Global, items: &Array) -> Result<Vec<String>, AllocError>
    ensures { IfOk result (λ texts. map string_bytes texts.items ≡ spec.texts_of (array_view items.now)) }
{
    let mut texts = Vec::new(alloc);
    'items: for item in items {
        let text = String::from_str(alloc, text_of(item))?;
        texts.push(text)?;
    }
    Ok(texts)
}

fn list_of(alloc: Global, value: Option<&Value>) -> Result<Vec<String>, AllocError>
    ensures { IfOk result (λ texts. map string_bytes texts.items ≡ spec.list_of (option_map (λ v. view v.now) value.entry)) }
{
    let Some(value) = value else {
        return Ok(Vec::new(alloc));
    };
    match value.as_array() {
        Some(items) => {
            let texts = texts(alloc, items)?;
            Ok(texts)
        }
        None => Ok(Vec::new(alloc)),
    }
}

// The name of the guest's role.
fn guest_name(table: &Table) -> Option<&str>
    ensures { option_map (λ name. name.now) result ≡ spec.guest_text (table_view table.now) }
{
    match value_at(table, "guest") {
        Some(value) => Some(text_of(value)),
        None => None,
    }
}

// Whether a name is among others.
fn has_name(names: &[String], name: &[u8]) -> bool
    ensures { result ≡ list_any (bytes_eq name.now) (map string_bytes names.now) }
{
    for own in names {
        if name == own.as_bytes() {
            return true;
        }
    }
    false
}

// The first name that stands again.
fn again(names: &[String]) -> Option<&String>
    ensures { option_map (λ name. string_bytes name.now) result ≡ named.again [] (map string_bytes names.now) }
{
    for place in 0..names.len() {
        let name = &names[place];
        if has_name(names.split_at(place).0, name.as_bytes()) {
            return Some(name);
        }
    }
    None
}

#[tactic(auto, unfolding(crate::specs::Files::role_names))]
fn role_names(alloc: Global, table: &Table) -> Result<Vec<String>, RolesFault>
    ensures { Gives texts_shown (spec.role_names (table_view table.now)) result }
{
    let names = list_of(alloc, value_at(table, "roles"))?;
    if let Some(name) = again(names.as_slice()) {
        return Err(RolesFault::Twice(name.clone()?));
    }
    Ok(names)
}

// The place of a role's name, from 0.
fn place_of(names: &[String], name: &[u8]) -> Option<usize>
    ensures value { option_map (λ i. i + 1) result ≡ spec.number_from 1 name.now (map string_bytes names.now) }
    ensures within { IfSome result (λ i. i < length names.now) }
{
    for place in 0..names.len() {
        if names[place].as_bytes() == name {
            return Some(place);
        }
    }
    None
}

// The number of a role.
#[tactic(auto, unfolding(crate::specs::Files::number_of))]
fn number_of(alloc: Global, names: &[String], name: &str) -> Result<u8, RolesFault>
    requires { length names.now < 256 }
    ensures { Gives (λ n. n) (spec.number_of (map string_bytes names.now) name.now) result }
{
    match place_of(names, name.as_bytes()) {
        Some(place) => Ok(place as u8 + 1),
        None => Err(RolesFault::UnknownRole(String::from_str(alloc, name)?)),
    }
}

// The table that a value is.
fn table_in(value: Option<&Value>) -> Option<&Table>
    ensures { option_map (λ t. table_view t.now) result ≡ spec.table_in (option_map (λ v. view v.now) value.entry) }
{
    match value {
        Some(value) => value.as_table(),
        None => None,
    }
}

fn users_of(
    alloc: Global,
    names: &[String],
    value: Option<&Value>,
) -> Result<Vec<(String, u8)>, RolesFault>
    requires { length names.now < 256 }
    ensures { Gives (λ users. map named.user_of users.items) (spec.users_of (map string_bytes names.now) (spec.table_of (option_map (λ v. view v.now) value.entry))) result }
{
    let mut users = Vec::new(alloc);
    let Some(table) = table_in(value) else {
        return Ok(users);
    };
    'users: for (user, role) in table.iter() {
        let number = number_of(alloc, names, text_of(role))?;
        let name = user.clone()?;
        users.push((name, number))?;
    }
    Ok(users)
}

fn keep_of(
    alloc: Global,
    names: &[String],
    value: Option<&Value>,
) -> Result<Vec<(u8, Vec<String>)>, RolesFault>
    requires { length names.now < 256 }
    ensures { Gives (λ lists. map named.keep_of lists.items) (spec.keep_of (map string_bytes names.now) (spec.table_of (option_map (λ v. view v.now) value.entry))) result }
{
    let mut lists = Vec::new(alloc);
    let Some(table) = table_in(value) else {
        return Ok(lists);
    };
    'lists: for (role, texts) in table.iter() {
        let number = number_of(alloc, names, role.as_str())?;
        let texts = list_of(alloc, Some(texts))?;
        lists.push((number, texts))?;
    }
    Ok(lists)
}

// The roles of a table whose values have their forms.
#[tactic(auto, unfolding(crate::specs::Files::roles_in))]
fn roles_in(alloc: Global, table: &Table) -> Result<Roles, RolesFault>
    requires { bad_key (table_view table.now) ≡ None }
    ensures { Gives roles_data (spec.roles_in (table_view table.now)) result }
{
    let Some(guest) = guest_name(table) else {
        return Err(RolesFault::NoGuest);
    };
    let names = role_names(alloc, table)?;
    let guest = number_of(alloc, names.as_slice(), guest)?;
    let users = users_of(alloc, names.as_slice(), value_at(table, "users"))?;
    let keep = keep_of(alloc, names.as_slice(), value_at(table, "keep"))?;
    Ok(Roles {
        names,
        guest,
        users,
        keep,
    })
}

/// Reads a file of roles: TOML with the keys `guest`, `roles`, `users` and `keep`. Refused are, the first of them told: a
/// file above 1 MiB, a text that is no TOML, the first key in byte order that is unknown or whose value is of another
/// form, no guest, a role that stands twice, and a role that is unknown, as guest, in `users` and in `keep`.
#[tactic(auto, unfolding(crate::specs::Files::roles_of))]
pub fn read_roles(alloc: Global, bytes: &[u8]) -> Result<Roles, RolesFault>
    ensures { Gives roles_data (spec.roles_of bytes.now) result }
{
    if bytes.len() > MAX_FILE {
        return Err(RolesFault::BadForm(String::from_str(alloc, "length")?));
    }
    let table = parsed(alloc, bytes)?;
    let table = well_formed(alloc, table)?;
    let roles = roles_in(alloc, &table)?;
    Ok(roles)
}
