// Files that were read and parsed.
ghost use Rattle.std.specs.Prelude.{◌≡◌};
ghost use Rattle.app_files.specs.FileSets.{AreWhole};

use app_load::AppFile;
use std::marker::Model;

/// Files in byte order of their paths, each PHP file with its tree. Contracts see the list of files.
#[derive(Drop)]
pub struct FileSet {
    files: Vec<AppFile>,
}

impl Model for FileSet {
    ghost use Rattle.std.specs.Prelude.{List};
    ghost use Rattle.std.specs.Coded.{codes};
    ghost use Rattle.app_load.specs.declared.app.AppFile.{AppFile};
    ghost use Rattle.app_load.specs.contracts.app.AppFile as e;
    ghost use Rattle.app_files.specs.FileSets.{AreWhole};

    ghost Value = { List AppFile };

    ghost coded = { Prim.hlevel (codes, e.the_row.coded) };

    ghost view = { λ s. s.files.items };

    ghost invariant = { λ s. AreWhole s.files.items };
}

impl FileSet {
    pub fn new(files: Vec<AppFile>) -> FileSet
        requires { AreWhole files.items }
        ensures { result ≡ files.items }
    {
        FileSet { files }
    }

    /// The files, in byte order of their paths. A PHP file's functions stand beside its tree.
    pub fn files(&self) -> &[AppFile]
        ensures files { result.now ≡ self.now }
        ensures whole { AreWhole result.now }
    {
        self.files.as_slice()
    }
}
