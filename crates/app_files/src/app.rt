// Applications, and programs: applications and copies of them that can be run.
ghost use Rattle.std.specs.Prelude.{◌≡◌, IfOk};
ghost use Rattle.app_files.specs.FileSets.{AreWhole};

use crate::file_set::FileSet;
use app_load::AppFile;
use std::alloc::{AllocError, Global};
use std::marker::Model;
use std::sync::Arc;

/// The files of an application.
#[derive(Drop)]
pub struct App {
    files: Arc<FileSet, Global>,
}

impl Model for App {
    ghost use Rattle.std.specs.Prelude.{List};
    ghost use Rattle.std.specs.Arc.{arc_value};
    ghost use Rattle.std.specs.Coded.{codes};
    ghost use Rattle.app_load.specs.declared.app.AppFile.{AppFile};
    ghost use Rattle.app_load.specs.contracts.app.AppFile as e;

    ghost Value = { List AppFile };

    ghost coded = { Prim.hlevel (codes, e.the_row.coded) };

    ghost view = { λ a. arc_value a.files };
}

/// The files of a program: of an application, or of a copy with placeholders.
#[derive(Drop)]
pub struct Program {
    files: Arc<FileSet, Global>,
}

impl Model for Program {
    ghost use Rattle.std.specs.Prelude.{List};
    ghost use Rattle.std.specs.Arc.{arc_value};
    ghost use Rattle.std.specs.Coded.{codes};
    ghost use Rattle.app_load.specs.declared.app.AppFile.{AppFile};
    ghost use Rattle.app_load.specs.contracts.app.AppFile as e;

    ghost Value = { List AppFile };

    ghost coded = { Prim.hlevel (codes, e.the_row.coded) };

    ghost view = { λ p. arc_value p.files };
}

impl App {
    pub fn new(alloc: Global, files: FileSet) -> Result<App, AllocError>
        ensures { IfOk result (λ app. app ≡ files) }
    {
        let files = Arc::new(alloc, files)?;
        Ok(App { files })
    }

    /// The files, in byte order of their paths.
    pub fn files(&self) -> &[AppFile]
        ensures files { result.now ≡ self.now }
        ensures whole { AreWhole result.now }
    {
        self.files.files()
    }

    /// The application as a program of which nothing is removed. Both share the files.
    pub fn as_program(&self) -> Result<Program, AllocError>
        ensures { IfOk result (λ program. program ≡ self.now) }
    {
        let files = Arc::try_clone(&self.files)?;
        Ok(Program { files })
    }
}

impl Program {
    pub fn new(alloc: Global, files: FileSet) -> Result<Program, AllocError>
        ensures { IfOk result (λ program. program ≡ files) }
    {
        let files = Arc::new(alloc, files)?;
        Ok(Program { files })
    }

    /// The files, in byte order of their paths.
    pub fn files(&self) -> &[AppFile]
        ensures files { result.now ≡ self.now }
        ensures whole { AreWhole result.now }
    {
        self.files.files()
    }
}
