// The forms of what stands in a file of roles.

ghost use Rattle.std.specs.Prelude.{◌≡◌, ◌≤◌, length, option_map};
ghost use Rattle.std.specs.List.{position_or_len};
ghost use Rattle.toml.specs.Data.{get_member};
ghost use Rattle.toml.specs.View.{view, array_view, table_view};
ghost use Rattle.role_routing.specs.Forms as spec;

use less_terms::{is_function_name, is_path, is_role};
use toml::value::Array;
use toml::{Table, Value};

/// The greatest count of roles.
const MAX_ROLES: usize = 16;

// What stands behind a path in a text of a keep list.
fn is_part(part: &[u8]) -> bool
    ensures { result ≡ spec.is_part part.now }
{
    match part {
        [] => true,
        [_, name @ ..] => name == b"*".as_slice() || is_function_name(name),
    }
}

// The place of the first `#`, or the end.
fn hash_place(text: &[u8]) -> usize
    ensures value { result ≡ position_or_len spec.is_hash text.now }
    ensures within { result ≤ length text.now }
{
    text.iter().take_while(|&&byte| byte != b'#').count()
}

fn is_keep_text(text: &[u8]) -> bool
    ensures { result ≡ spec.is_keep_text text.now }
{
    let (path, part) = text.split_at(hash_place(text));
    is_path(path) && is_part(part)
}

fn is_role_value(value: &Value) -> bool
    ensures { result ≡ spec.is_role_value (view value.now) }
{
    match value.as_str() {
        Some(text) => is_role(text.as_bytes()),
        None => false,
    }
}

fn is_keep_value(value: &Value) -> bool
    ensures { result ≡ spec.is_keep_value (view value.now) }
{
    match value.as_str() {
        Some(text) => is_keep_text(text.as_bytes()),
        None => false,
    }
}

fn are_role_values(items: &Array) -> bool
    ensures { result ≡ spec.all_items spec.is_role_value (array_view items.now) }
{
    'items: for item in items {
        if !is_role_value(item) {
            return false;
        }
    }
    true
}

fn are_keep_values(items: &Array) -> bool
    ensures { result ≡ spec.all_items spec.is_keep_value (array_view items.now) }
{
    'items: for item in items {
        if !is_keep_value(item) {
            return false;
        }
    }
    true
}

#[tactic(auto, using(crate::proofs::Formed::count_view))]
fn has_role_count(items: &Array) -> bool
    ensures { result ≡ spec.is_role_count (spec.count_items (array_view items.now)) }
{
    let count = items.len();
    count >= 1 && count <= MAX_ROLES
}

fn is_role_list(value: &Value) -> bool
    ensures { result ≡ spec.is_role_list (view value.now) }
{
    match value.as_array() {
        Some(items) => has_role_count(items) && are_role_values(items),
        None => false,
    }
}

fn is_keep_list(value: &Value) -> bool
    ensures { result ≡ spec.is_keep_list (view value.now) }
{
    match value.as_array() {
        Some(items) => are_keep_values(items),
        None => false,
    }
}

fn are_users(users: &Table) -> bool
    ensures { result ≡ spec.are_users (table_view users.now) }
{
    'members: for (_key, member) in users.iter() {
        if !is_role_value(member) {
            return false;
        }
    }
    true
}

fn are_keep_lists(lists: &Table) -> bool
    ensures { result ≡ spec.are_keep_lists (table_view lists.now) }
{
    'members: for (key, member) in lists.iter() {
        if !is_role(key.as_bytes()) || !is_keep_list(member) {
            return false;
        }
    }
    true
}

fn is_user_table(value: &Value) -> bool
    ensures { result ≡ spec.is_user_table (view value.now) }
{
    match value.as_table() {
        Some(users) => are_users(users),
        None => false,
    }
}

fn is_keep_table(value: &Value) -> bool
    ensures { result ≡ spec.is_keep_table (view value.now) }
{
    match value.as_table() {
        Some(lists) => are_keep_lists(lists),
        None => false,
    }
}

#[tactic(auto, unfolding(crate::specs::Forms::is_well_formed))]
fn is_well_formed(key: &str, value: &Value) -> bool
    ensures { result ≡ spec.is_well_formed key.now (view value.now) }
{
    match key {
        "guest" => is_role_value(value),
        "keep" => is_keep_table(value),
        "roles" => is_role_list(value),
        "users" => is_user_table(value),
        _ => false,
    }
}

// The first key that is unknown or whose value is of another form.
fn bad_member(table: &Table) -> Option<&str>
    ensures { option_map (λ key. key.now) result ≡ spec.bad_member (table_view table.now) }
{
    'members: for (key, member) in table.iter() {
        if !is_well_formed(key.as_str(), member) {
            return Some(key.as_str());
        }
    }
    None
}

// `roles`, or a bad key that stands before it in byte order.
fn before_roles(bad: Option<&str>) -> &str
    ensures { result.now ≡ spec.before_roles (option_map (λ key. key.now) bad.entry) }
{
    let Some(key) = bad else {
        return "roles";
    };
    if key < "roles" { key } else { "roles" }
}

/// The value at a key.
#[tactic(auto, using(toml::proofs::Views::table_get))]
pub(crate) fn value_at<'a>(table: &'a Table, key: &str) -> Option<&'a Value>
    ensures { option_map (λ v. view v.now) result ≡ get_member key.now (table_view table.now) }
{
    table.get(key)
}

/// The first key in byte order that is unknown or whose value is of another form; that `roles` is absent counts as such.
pub(crate) fn bad_key(table: &Table) -> Option<&str>
    ensures { option_map (λ key. key.now) result ≡ spec.bad_key (table_view table.now) }
{
    let bad = bad_member(table);
    match value_at(table, "roles") {
        Some(_) => bad,
        None => Some(before_roles(bad)),
    }
}
