// Copies that are made of programs.
ghost use Rattle.std.specs.Prelude.{◌≡◌, ◌≤◌, false, length, replicate, IfOk, IsErrOf};
ghost use Rattle.role_routing.specs.Held.{roles_data};
ghost use Rattle.role_copies.specs.Kept.{all_alike};

use crate::alike::{all_alike, statics_of};
use crate::copies::Copies;
use crate::fault::CopiesFault;
use app_files::{App, Program};
use role_routing::Roles;
use std::alloc::{AllocError, Global};

/// Copies of one application, by their programs in the order of the roles. Refused are programs that differ in their paths,
/// or in the bytes of a file that is no PHP file.
pub fn copies_of(alloc: Global, programs: Vec<Program>) -> Result<Copies, CopiesFault>
    requires some { 1 ≤ length programs.items }
    ensures programs { IfOk result (λ copies. copies.programs.items ≡ programs.items) }
    ensures differ { IsErrOf result CopiesFault.Differ → all_alike programs.items ≡ false }
{
    let first = programs[0].files();
    if !all_alike(first, &programs) {
        return Err(CopiesFault::Differ);
    }
    let statics = statics_of(alloc, first)?;
    Ok(Copies { programs, statics })
}

/// An application as a copy of itself for each role: nothing is removed, and all copies share its files.
pub fn unchanged_copies(alloc: Global, app: &App, roles: &Roles) -> Result<Copies, AllocError>
    ensures { IfOk result (λ copies. copies.programs.items ≡ replicate (length (roles_data roles.now).names) app.now) }
{
    let count = roles.names.len();
    let mut programs = Vec::with_capacity(alloc, count)?;
    for _ in 0..count {
        let program = app.as_program()?;
        programs.push(program)?;
    }
    let statics = statics_of(alloc, app.files())?;
    Ok(Copies { programs, statics })
}
