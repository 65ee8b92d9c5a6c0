// Roles.

ghost use Rattle.std.specs.Prelude.{IsTrue};
ghost use Rattle.role_routing.specs.Names.{data_of, are_roles};

/// The roles of an application: their names in the order of the file, and by a role's number, from 1 in that order, the
/// role of those who have none, the role of each user, and the texts of each keep list. There are 1 to 16 names, none
/// of them twice, and each number is that of a name.
#[derive(Debug, Drop)]
pub struct Roles {
    pub names: Vec<String>,
    pub guest: u8,
    pub users: Vec<(String, u8)>,
    pub keep: Vec<(u8, Vec<String>)>,
    ghost sound: { IsTrue (are_roles (data_of names.items guest users.items keep.items)) },
}
