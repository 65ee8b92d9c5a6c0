//! What a line asks for.

#[derive(Clone, Copy, Debug, Drop)]
pub enum Row<'l> {
    /// An application of one file `index.php` with this text, in which each `~` stands for a line end.
    Text(&'l str),
    /// A guest's copy of the same kind.
    Copy(&'l str),
    /// The entries of such an application, each with its ordinal.
    Entries(&'l str),
    /// So many empty files that are no PHP files.
    Files(u32),
    /// One PHP file of so many bytes.
    Php(u32),
    /// PHP files of so many bytes in all, each of at most 1 MiB.
    Total(u32),
    /// Other files of so many bytes in all, each of at most 1 MiB.
    Static(u32),
    /// PHP files with so many functions in all, at most 1,000 in each.
    Functions(u32),
    /// One empty file whose path has so many bytes.
    Path(u32),
    /// PHP files of more than 8 MiB and other files of more than 32 MiB.
    Both,
}

/// A word, and what follows it after a space.
pub fn parse(line: &str) -> Option<Row<'_>> {
    let (word, rest) = line.split_once(' ')?;
    match word {
        "text" => Some(Row::Text(rest)),
        "copy" => Some(Row::Copy(rest)),
        "entries" => Some(Row::Entries(rest)),
        "both" => Some(Row::Both),
        _ => {
            let number = rest.parse::<u32>().ok()?;
            parse_number(word, number)
        }
    }
}

fn parse_number<'l>(word: &str, number: u32) -> Option<Row<'l>> {
    match word {
        "files" => Some(Row::Files(number)),
        "php" => Some(Row::Php(number)),
        "total" => Some(Row::Total(number)),
        "static" => Some(Row::Static(number)),
        "functions" => Some(Row::Functions(number)),
        "path" => Some(Row::Path(number)),
        _ => None,
    }
}
