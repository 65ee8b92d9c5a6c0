//! Why what stands in a folder is not loaded.

use app_load::{AppKind, CopyKind};

/// `At` comes exactly where the folder's application is not accepted; the first fault counts. The file is empty and the line is
/// 0 where a limit of the whole is passed. `ReadFault` comes only where a list or a read of the folder failed. `Memory` may come
/// at any time.
#[derive(Debug, Drop)]
pub enum AppRefusal {
    At {
        file: String,
        line: u32,
        kind: AppKind,
    },
    ReadFault,
    Memory,
}

/// `At` comes exactly where the folder's copy is not accepted, the others as of an application.
#[derive(Debug, Drop)]
pub enum CopyRefusal {
    At {
        file: String,
        line: u32,
        kind: CopyKind,
    },
    ReadFault,
    Memory,
}
