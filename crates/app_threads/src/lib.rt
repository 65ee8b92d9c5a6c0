//! Applications and programs cross threads: they may be moved to another thread, and be used by several at once.
#![tactic(auto)]

ghost use Rattle.std.specs.Prelude.{◌≡◌, length};

use app_files::{App, Program};
use std::thread::{Threads, join};

/// The value itself, where it may cross threads.
pub fn for_threads<T: Send + Sync>(value: &T) -> &T
    ensures { result.now ≡ value.now }
{
    value
}

/// An application may.
pub fn app_for_threads(app: &App) -> &App
    ensures { result.now ≡ app.now }
{
    for_threads(app)
}

/// A program may, of an application or of a copy.
pub fn program_for_threads(program: &Program) -> &Program
    ensures { result.now ≡ program.now }
{
    for_threads(program)
}

/// How many files two threads find in one program, each by itself.
pub fn counted_by_two<R: Threads>(rt: &R, program: &Program) -> (usize, usize)
    ensures first { result.0 ≡ length program.now }
    ensures second { result.1 ≡ length program.now }
{
    let program = program_for_threads(program);
    join(rt, || program.files().len(), || program.files().len())
}

#[cfg(test)]
mod tests;
