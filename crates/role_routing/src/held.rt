// The role that a session holds.

ghost use Rattle.std.specs.Prelude.{◌≡◌, [], ◌∷◌, codes, length, IsTrue, IfOk, option_map};
ghost use Rattle.role_routing.specs.Held as spec;
ghost use Rattle.role_routing.specs.Held.{roles_data};
ghost use Rattle.role_routing.specs.Names.{is_number};

use crate::roles::Roles;
use session_book::Session;
use std::alloc::{AllocError, Global};

/// The key of a session under which the name of its user stands.
const USER: &[u8] = b"user";

impl Roles {
    /// The one role `guest`, without users and keep lists.
    pub fn guest_only(alloc: Global) -> Result<Roles, AllocError>
        ensures { IfOk result (λ roles. roles_data roles ≡ record { names = codes "guest" ∷ []; guest = 1; users = []; keep = [] }) }
    {
        let mut names = Vec::new(alloc);
        names.push(String::from_str(alloc, "guest")?)?;
        Ok(Roles {
            names,
            guest: 1,
            users: Vec::new(alloc),
            keep: Vec::new(alloc),
        })
    }

    // Whether a number is a role's.
    fn has(&self, number: u8) -> bool
        ensures { result ≡ is_number (length (roles_data self.now).names) number }
    {
        number >= 1 && usize::from(number) <= self.names.len()
    }

    // The role of a session's user, or the guest's.
    fn of_user(&self, user: Option<&[u8]>) -> u8
        ensures { result ≡ spec.user_role (roles_data self.now) (option_map (λ t. t.now) user.entry) }
    {
        let Some(user) = user else {
            return self.guest;
        };
        for (name, role) in &self.users {
            if name.as_bytes() == user {
                return *role;
            }
        }
        self.guest
    }
}

/// The role that a session holds, by its number: that of the guest without a live session; else the pin, where it is a
/// role's number and was set since the session began; else that of the session's user. It takes no memory.
pub fn role_held(roles: &Roles, pin: u8, change: u32, session: Option<&Session>) -> u8
    ensures value { result ≡ spec.role_held (roles_data roles.now) pin change (option_map (λ s. s.now) session.entry) }
    ensures role { IsTrue (is_number (length (roles_data roles.now).names) result) }
{
    let Some(session) = session else {
        return roles.guest;
    };
    if roles.has(pin) && change > session.born {
        return pin;
    }
    roles.of_user(session.value.text_at(USER))
}
