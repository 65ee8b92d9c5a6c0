// Copies of an application.
ghost use Rattle.std.specs.Prelude.{◌≡◌, ◌-◌, length, IsTrue, nat_eq};
ghost use Rattle.role_routing.specs.Held.{roles_data};
ghost use Rattle.role_routing.specs.Names.{is_number};
ghost use Rattle.role_copies.specs.Kept.{AreCopies, program_at};

use app_files::Program;
use role_routing::Roles;

/// A program for each role, in the order of the roles, and the files that are no PHP files, by their paths and bytes. There
/// is one program or more. All have the same paths, and these static files.
#[derive(Drop)]
pub struct Copies {
    pub programs: Vec<Program>,
    pub statics: Vec<(String, Vec<u8>)>,
    ghost sound: { AreCopies programs.items statics.items },
}

impl Copies {
    /// Whether there are as many programs as roles. It takes no memory.
    pub fn has_each(&self, roles: &Roles) -> bool
        ensures { result ≡ nat_eq (length self.now.programs.items) (length (roles_data roles.now).names) }
    {
        self.programs.len() == roles.names.len()
    }

    /// The program of a role, by its number from 1. It takes no memory.
    pub fn program(&self, role: u8) -> &Program
        requires { IsTrue (is_number (length self.now.programs.items) role) }
        ensures { result.now ≡ program_at role self.now.programs.items }
    {
        &self.programs[usize::from(role) - 1]
    }
}
