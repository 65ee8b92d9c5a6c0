ghost use Rattle.std.specs.Prelude.{IfOk};
ghost use Rattle.std.specs.List.{All};
ghost use Rattle.tables_keeper.specs.Tables.{IsChange};

use super::*;
use std::alloc::{AllocError, Global};
use std::test::Fail;
use std::{fs, process};
use tables_keeper::{Cell, CellText, Change, Column, RowCells, TableOp, TableReply, Tables};

fn text(alloc: Global, bytes: &[u8]) -> Result<CellText, AllocError> {
    CellText::from_slice(alloc, bytes)
}

fn row(alloc: Global, number: i64) -> Result<RowCells, AllocError> {
    let mut row = RowCells::new(alloc);
    row.put(Column {
        name: text(alloc, b"v")?,
        cell: Cell::Text(text(alloc, b"a")?),
    })?;
    row.put(Column {
        name: text(alloc, b"n")?,
        cell: Cell::Int(number),
    })?;
    Ok(row)
}

// The change of one more row of the table `t`; the ids count from 1.
fn inserted(alloc: Global, tables: &mut Tables) -> Result<Vec<Change>, Fail>
    ensures { IfOk result (λ changes. All IsChange changes.items) }
{
    let op = TableOp::Insert {
        table: text(alloc, b"t")?,
        row: row(alloc, 7)?,
        unique: text(alloc, b"")?,
    };
    let (_reply, change) = tables.apply(alloc, &op)?;
    let mut changes = Vec::new(alloc);
    match change {
        Some(change) => changes.push(change)?,
        None => (),
    }
    Ok(changes)
}

/// How many rows the table `t` has.
fn rows(alloc: Global, tables: &mut Tables) -> Result<usize, AllocError> {
    let op = TableOp::All {
        table: text(alloc, b"t")?,
    };
    let (reply, _change) = tables.apply(alloc, &op)?;
    match reply {
        TableReply::Rows(rows) => Ok(rows.len()),
        _ => Ok(0),
    }
}

#[test]
fn a_row_has_its_bytes_and_is_read_back(rt: HostRuntime) -> Result<(), Fail> {
    let alloc = rt.alloc();
    let bytes = row_bytes(alloc, &row(alloc, 7)?)?;
    assert_eq!(rt; bytes.as_slice(), b"1:vs1:a1:ni1:7".as_slice());
    for good in [
        b"".as_slice(),
        b"1:vs1:a1:ni1:7",
        b"0:n",
        b"1:at1:bf1:cn1:di20:-9223372036854775808",
        b"2:ids0:",
    ] {
        let row = match read_row(alloc, good) {
            Ok(row) => row,
            Err(_) => panic!(rt; "no row"),
        };
        let again = row_bytes(alloc, &row)?;
        assert_eq!(rt; again.as_slice(), good);
    }
    Ok(())
}

#[test]
fn bytes_of_no_row_are_bad(rt: HostRuntime) -> Result<(), Fail> {
    let alloc = rt.alloc();
    for bad in [
        b"1:vs2:a".as_slice(),
        b"1:v",
        b"1:vx",
        b"1:vs1:a1:vs1:b",
        b"01:vn",
        b":n",
        b"1:vi1:a",
        b"1:vi2:07",
        b"1:vi2:-0",
        b"1:vi2:+1",
        b"1:vi19:9223372036854775808",
        b"18446744073709551616:vn",
        b"1:vn ",
    ] {
        assert!(rt; matches!(read_row(alloc, bad), Err(RowFault::BadRow)));
    }
    Ok(())
}

#[test]
fn a_journal_cut_anywhere_makes_its_whole_commits(rt: HostRuntime) -> Result<(), Fail> {
    let alloc = rt.alloc();
    let mut bytes = Vec::new(alloc);
    let mut ends = Vec::new(alloc);
    let mut source = Tables::new(alloc);
    for _ in 1..4 {
        let changes = inserted(alloc, &mut source)?;
        bytes.extend_from_slice(commit_bytes(alloc, changes.as_slice())?.as_slice())?;
        ends.push(bytes.len())?;
    }
    assert!(rt;
        bytes
            .as_slice()
            .starts_with(b"c24:p1:t1:114:1:vs1:a1:ni1:7c")
    );
    for length in 0..bytes.len() + 1 {
        let mut whole: usize = 0;
        let mut last: usize = 0;
        for &end in ends.iter() {
            if end <= length {
                whole = whole.saturating_add(1);
                last = end;
            }
        }
        let Loaded {
            mut tables,
            whole: kept,
        } = match read_journal(alloc, &bytes[..length]) {
            Ok(loaded) => loaded,
            Err(_) => panic!(rt; "no journal"),
        };
        assert_eq!(rt; kept, last);
        assert_eq!(rt; rows(alloc, &mut tables)?, whole);
    }
    Ok(())
}

#[test]
fn another_form_is_no_journal(rt: HostRuntime) -> Result<(), Fail> {
    let alloc = rt.alloc();
    for bad in [
        b"x".as_slice(),
        b"c24:q1:t1:114:1:vs1:a1:ni1:7",
        b"c024:p1:t1:114:1:vs1:a1:ni1:7",
        b"c25:p01:t1:114:1:vs1:a1:ni1:7",
        b"c23:p1:t1:114:1:vs1:a1:ni1:7",
        b"c25:p1:t1:114:1:vs1:a1:ni1:7c",
        b"c24:p1:t1:014:1:vs1:a1:ni1:7",
        b"c24:p1:t1:113:1:vs1:a1:ni1:7",
        b"c14:p1:t1:15:2:idn",
        b"c8:d1:t1:1x",
        b"c07",
        b"c:",
        b"c1a",
    ] {
        assert!(rt; matches!(read_journal(alloc, bad), Err(JournalFault::BadForm)));
    }
    Ok(())
}

#[test]
fn a_keeper_in_memory_fails_at_the_calls_of_its_list(rt: HostRuntime) -> Result<(), Fail> {
    let alloc = rt.alloc();
    let mut failing = Vec::new(alloc);
    failing.push(1u64)?;
    failing.push(4)?;
    let mut keeper = KeeperMem::new(Tables::new(alloc), failing);
    let mut source = Tables::new(alloc);
    let changes = inserted(alloc, &mut source)?;
    assert!(rt; keeper.load(alloc).is_ok());
    assert_eq!(rt;
        keeper.commit(alloc, changes.as_slice()),
        Err(KeeperFault::Failed)
    );
    let mut kept = keeper.tables().copy(alloc)?;
    assert_eq!(rt; rows(alloc, &mut kept)?, 0);
    assert_eq!(rt; keeper.commit(alloc, changes.as_slice()), Ok(()));
    let Ok(mut kept) = keeper.load(alloc) else {
        panic!(rt; "the load failed")
    };
    assert_eq!(rt; rows(alloc, &mut kept)?, 1);
    assert!(rt; keeper.load(alloc).is_err());
    assert_eq!(rt; keeper.load_faults(), 1);
    assert_eq!(rt; keeper.commit_faults(), 1);
    Ok(())
}

#[test]
fn a_journal_reads_back_what_was_committed(rt: HostRuntime) -> Result<(), Fail> {
    let alloc = rt.alloc();
    let path = format!(in alloc; "/tmp/tables_journal_{}", process::id(rt.process()))?;
    let _ = fs::remove_file(&rt, path.as_str());
    let mut keeper = JournalKeeper::new(rt.clone()?, alloc, path.as_str())?;
    assert!(rt; keeper.load(alloc).is_ok());
    let mut source = Tables::new(alloc);
    for _ in 1..10_001 {
        let changes = inserted(alloc, &mut source)?;
        assert_eq!(rt; keeper.commit(alloc, changes.as_slice()), Ok(()));
    }
    let mut again = JournalKeeper::new(rt.clone()?, alloc, path.as_str())?;
    let Ok(mut tables) = again.load(alloc) else {
        panic!(rt; "the load failed")
    };
    assert_eq!(rt; rows(alloc, &mut tables)?, 10_000);
    let _ = fs::remove_file(&rt, path.as_str());
    Ok(())
}

#[test]
fn a_commit_that_is_not_whole_is_dropped_from_the_file(rt: HostRuntime) -> Result<(), Fail> {
    let alloc = rt.alloc();
    let path = format!(in alloc; "/tmp/tables_journal_cut_{}", process::id(rt.process()))?;
    let _written = fs::write(&rt, path.as_str(), b"c7:d1:t1:1c26:p1:t1:1");
    let mut keeper = JournalKeeper::new(rt.clone()?, alloc, path.as_str())?;
    assert!(rt; keeper.load(alloc).is_ok());
    let left = fs::read(&rt, path.as_str());
    assert!(rt; matches!(&left, Ok(bytes) if bytes.as_slice() == b"c7:d1:t1:1".as_slice()));
    let _written = fs::write(&rt, path.as_str(), b"other");
    assert!(rt; matches!(keeper.load(alloc), Err(KeeperFault::Failed)));
    assert_eq!(rt; keeper.load_faults(), 1);
    let _ = fs::remove_file(&rt, path.as_str());
    Ok(())
}

#[test]
fn after_an_append_that_failed_commits_fail_until_a_load(rt: HostRuntime) -> Result<(), Fail> {
    let alloc = rt.alloc();
    let folder = format!(in alloc; "/tmp/tables_journal_in_{}", process::id(rt.process()))?;
    let path = format!(in alloc; "{}/tables.journal", folder.as_str())?;
    let _ = fs::remove_dir_all(&rt, folder.as_str());
    let mut keeper = JournalKeeper::new(rt.clone()?, alloc, path.as_str())?;
    let mut source = Tables::new(alloc);
    let changes = inserted(alloc, &mut source)?;
    assert_eq!(rt;
        keeper.commit(alloc, changes.as_slice()),
        Err(KeeperFault::Failed)
    );
    let _made = fs::create_dir_all(&rt, folder.as_str());
    assert_eq!(rt;
        keeper.commit(alloc, changes.as_slice()),
        Err(KeeperFault::Failed)
    );
    assert_eq!(rt; keeper.commit_faults(), 2);
    assert!(rt; keeper.load(alloc).is_ok());
    assert_eq!(rt; keeper.commit(alloc, changes.as_slice()), Ok(()));
    let _ = fs::remove_dir_all(&rt, folder.as_str());
    Ok(())
}
