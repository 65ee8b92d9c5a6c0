ghost use Rattle.tables_keeper.specs.Tables.{IsTop};

use super::*;
use std::alloc::{AllocError, Global};
use std::test::Fail;

fn text(alloc: Global, bytes: &[u8]) -> Result<CellText, AllocError> {
    CellText::from_slice(alloc, bytes)
}

fn row(alloc: Global, cells: &[(&[u8], &[u8])]) -> Result<RowCells, AllocError> {
    let mut row = RowCells::new(alloc);
    for (name, value) in cells {
        row.put(Column {
            name: text(alloc, name)?,
            cell: Cell::Text(text(alloc, value)?),
        })?;
    }
    Ok(row)
}

fn insert(
    alloc: Global,
    tables: &mut Tables,
    cells: RowCells,
    unique: &[u8],
) -> Result<TableReply, AllocError> {
    let op = TableOp::Insert {
        table: text(alloc, b"t")?,
        row: cells,
        unique: text(alloc, unique)?,
    };
    let (reply, _change) = tables.apply(alloc, &op)?;
    Ok(reply)
}

fn find(
    alloc: Global,
    tables: &mut Tables,
    column: &[u8],
    sought: &[u8],
) -> Result<usize, AllocError> {
    let op = TableOp::Find {
        table: text(alloc, b"t")?,
        column: text(alloc, column)?,
        text: text(alloc, sought)?,
    };
    let (reply, _change) = tables.apply(alloc, &op)?;
    Ok(count_of(&reply))
}

/// How many rows a reply has, or 999 where it is none of rows.
fn count_of(reply: &TableReply) -> usize {
    match reply {
        TableReply::Rows(rows) => rows.len(),
        _ => 999,
    }
}

fn id_of(reply: &TableReply) -> i64 {
    match reply {
        TableReply::Id(id) => *id,
        _ => 0,
    }
}

fn why(reply: &TableReply) -> Option<TableRefusal> {
    match reply {
        TableReply::Refused(why) => Some(*why),
        _ => None,
    }
}

/// Whether a reply is a row with these columns, each name with its value's text.
fn shows(reply: &TableReply, wanted: &[(&[u8], &[u8])]) -> bool {
    let got = match reply {
        TableReply::Row(row) => row,
        _ => return false,
    };
    if got.len() != wanted.len() {
        return false;
    }
    for (column, (name, value)) in got.columns().iter().zip(wanted) {
        if column.name.as_slice() != *name || !column.cell.has_text(value) {
            return false;
        }
    }
    true
}

fn add(alloc: Global, tables: &mut Tables) -> Result<TableReply, AllocError> {
    let cells = row(alloc, &[(b"v", b"a")])?;
    insert(alloc, tables, cells, b"v")
}

fn get(alloc: Global, tables: &mut Tables) -> Result<TableReply, AllocError> {
    let op = TableOp::Get {
        table: text(alloc, b"t")?,
        id: 1,
    };
    let (reply, _change) = tables.apply(alloc, &op)?;
    Ok(reply)
}

fn delete(alloc: Global, tables: &mut Tables, id: i64) -> Result<TableReply, AllocError> {
    let op = TableOp::Delete {
        table: text(alloc, b"t")?,
        id,
    };
    let (reply, _change) = tables.apply(alloc, &op)?;
    Ok(reply)
}

#[test]
fn a_second_row_of_a_unique_column_is_a_duplicate(rt: HostRuntime) -> Result<(), Fail> {
    let alloc = rt.alloc();
    let mut tables = Tables::new(alloc);
    assert_eq!(rt; id_of(&add(alloc, &mut tables)?), 1);
    assert_eq!(rt;
        why(&add(alloc, &mut tables)?),
        Some(TableRefusal::Duplicate)
    );
    assert_eq!(rt; find(alloc, &mut tables, b"v", b"a")?, 1);
    Ok(())
}

#[test]
fn an_update_sets_in_place_and_puts_new_columns_last(rt: HostRuntime) -> Result<(), Fail> {
    let alloc = rt.alloc();
    let mut tables = Tables::new(alloc);
    let _made = add(alloc, &mut tables)?;
    let op = TableOp::Update {
        table: text(alloc, b"t")?,
        id: 1,
        row: row(alloc, &[(b"id", b"9"), (b"w", b"c"), (b"v", b"b")])?,
    };
    let (_reply, change) = tables.apply(alloc, &op)?;
    assert!(rt; change.is_some());
    let got = get(alloc, &mut tables)?;
    assert!(rt; shows(&got, &[(b"id", b"1"), (b"v", b"b"), (b"w", b"c")]));
    Ok(())
}

#[test]
fn a_deleted_row_is_gone_and_its_id_is_not_given_again(rt: HostRuntime) -> Result<(), Fail> {
    let alloc = rt.alloc();
    let mut tables = Tables::new(alloc);
    for id in 1..4 {
        assert_eq!(rt; id_of(&add(alloc, &mut tables)?), id);
        assert!(rt; why(&delete(alloc, &mut tables, id)?).is_none());
        assert_eq!(rt;
            why(&delete(alloc, &mut tables, id)?),
            Some(TableRefusal::NoRow)
        );
    }
    assert_eq!(rt;
        why(&delete(alloc, &mut tables, -1)?),
        Some(TableRefusal::NoRow)
    );
    assert_eq!(rt; find(alloc, &mut tables, b"v", b"a")?, 0);
    Ok(())
}

#[test]
fn rows_are_found_by_their_text_forms(rt: HostRuntime) -> Result<(), Fail> {
    let alloc = rt.alloc();
    let mut tables = Tables::new(alloc);
    let mut cells = RowCells::new(alloc);
    for (name, cell) in [
        (b"n", Cell::Int(-70)),
        (b"b", Cell::Bool(true)),
        (b"f", Cell::Bool(false)),
        (b"z", Cell::Null),
    ] {
        cells.put(Column {
            name: text(alloc, name)?,
            cell,
        })?;
    }
    insert(alloc, &mut tables, cells, b"")?;
    for (column, sought, count) in [
        (b"n".as_slice(), b"-70".as_slice(), 1),
        (b"n", b"-070", 0),
        (b"b", b"1", 1),
        (b"f", b"", 1),
        (b"z", b"", 1),
        (b"id", b"1", 1),
        (b"id", b"01", 0),
        (b"no", b"", 0),
    ] {
        assert_eq!(rt; find(alloc, &mut tables, column, sought)?, count);
    }
    Ok(())
}

#[test]
fn each_limit_of_a_row_is_kept(rt: HostRuntime) -> Result<(), Fail> {
    let alloc = rt.alloc();
    let mut tables = Tables::new(alloc);
    // 5 for the column, 1 for its name, and 5 for the text: 11 bytes besides the text's own.
    let most = MAX_ROW_SIZE as usize - 11;
    let fits = vec![in alloc; b'x'; most]?;
    let reply = insert(
        alloc,
        &mut tables,
        row(alloc, &[(b"v", fits.as_slice())])?,
        b"",
    )?;
    assert_eq!(rt; id_of(&reply), 1);
    let over = vec![in alloc; b'x'; most + 1]?;
    let reply = insert(
        alloc,
        &mut tables,
        row(alloc, &[(b"v", over.as_slice())])?,
        b"",
    )?;
    assert_eq!(rt; why(&reply), Some(TableRefusal::Limit));
    let mut cells = RowCells::new(alloc);
    for place in 0..MAX_COLUMNS {
        let name = [place as u8];
        cells.put(Column {
            name: text(alloc, &name)?,
            cell: Cell::Null,
        })?;
    }
    let reply = insert(alloc, &mut tables, cells.copy(alloc)?, b"")?;
    assert_eq!(rt; id_of(&reply), 2);
    cells.put(Column {
        name: text(alloc, b"more")?,
        cell: Cell::Null,
    })?;
    let reply = insert(alloc, &mut tables, cells, b"")?;
    assert_eq!(rt; why(&reply), Some(TableRefusal::Limit));
    Ok(())
}

#[test]
fn there_are_a_hundred_tables_at_most(rt: HostRuntime) -> Result<(), Fail> {
    let alloc = rt.alloc();
    let mut tables = Tables::new(alloc);
    for number in 0..102u8 {
        let op = TableOp::Insert {
            table: text(alloc, &[b'a', number])?,
            row: RowCells::new(alloc),
            unique: text(alloc, b"")?,
        };
        let (reply, _change) = tables.apply(alloc, &op)?;
        if number < 100 {
            assert_eq!(rt; id_of(&reply), 1);
        } else {
            assert_eq!(rt; why(&reply), Some(TableRefusal::Limit));
        }
    }
    let all = TableOp::All {
        table: text(alloc, b"none")?,
    };
    let (reply, _change) = tables.apply(alloc, &all)?;
    assert_eq!(rt; why(&reply), Some(TableRefusal::NoTable));
    Ok(())
}

fn all(alloc: Global, tables: &mut Tables) -> Result<usize, AllocError> {
    let op = TableOp::All {
        table: text(alloc, b"t")?,
    };
    let (reply, _change) = tables.apply(alloc, &op)?;
    Ok(count_of(&reply))
}

fn update(alloc: Global, tables: &mut Tables, id: i64) -> Result<TableReply, AllocError> {
    let op = TableOp::Update {
        table: text(alloc, b"t")?,
        id,
        row: row(alloc, &[(b"v", b"b")])?,
    };
    let (reply, _change) = tables.apply(alloc, &op)?;
    Ok(reply)
}

#[test]
fn a_row_lives_from_its_insert_to_its_delete(rt: HostRuntime) -> Result<(), Fail> {
    let alloc = rt.alloc();
    let mut tables = Tables::new(alloc);
    assert_eq!(rt; id_of(&add(alloc, &mut tables)?), 1);
    assert_eq!(rt;
        why(&add(alloc, &mut tables)?),
        Some(TableRefusal::Duplicate)
    );
    assert_eq!(rt; find(alloc, &mut tables, b"v", b"a")?, 1);
    assert!(rt; why(&update(alloc, &mut tables, 1)?).is_none());
    let got = get(alloc, &mut tables)?;
    assert!(rt; shows(&got, &[(b"id", b"1"), (b"v", b"b")]));
    assert!(rt; why(&delete(alloc, &mut tables, 1)?).is_none());
    assert_eq!(rt; all(alloc, &mut tables)?, 0);
    Ok(())
}

#[test]
fn there_are_a_hundred_thousand_rows_at_most(rt: HostRuntime) -> Result<(), Fail> {
    let alloc = rt.alloc();
    let mut tables = Tables::new(alloc);
    for _ in 0..MAX_ROWS {
        let _reply = insert(alloc, &mut tables, RowCells::new(alloc), b"")?;
    }
    assert_eq!(rt; all(alloc, &mut tables)?, 100_000);
    let reply = insert(alloc, &mut tables, RowCells::new(alloc), b"")?;
    assert_eq!(rt; why(&reply), Some(TableRefusal::Limit));
    Ok(())
}

#[test]
fn all_rows_have_sixty_four_mebibytes_at_most(rt: HostRuntime) -> Result<(), Fail> {
    let alloc = rt.alloc();
    let mut tables = Tables::new(alloc);
    // 11 bytes besides the text's own, so that the rows fill the tables to the last byte.
    let value = vec![in alloc; b'x'; MAX_ROW_SIZE as usize - 11]?;
    for _ in 0..MAX_SIZE / MAX_ROW_SIZE {
        let cells = row(alloc, &[(b"v", value.as_slice())])?;
        let reply = insert(alloc, &mut tables, cells, b"")?;
        assert_eq!(rt; why(&reply), None);
    }
    let cells = row(alloc, &[(b"v", b"")])?;
    let reply = insert(alloc, &mut tables, cells, b"")?;
    assert_eq!(rt; why(&reply), Some(TableRefusal::Limit));
    delete(alloc, &mut tables, 1)?;
    let cells = row(alloc, &[(b"v", value.as_slice())])?;
    let reply = insert(alloc, &mut tables, cells, b"")?;
    assert_eq!(rt; id_of(&reply), 1_025);
    Ok(())
}

fn delete_op(alloc: Global, id: i64) -> Result<TableOp, AllocError> {
    Ok(TableOp::Delete {
        table: text(alloc, b"t")?,
        id,
    })
}

fn insert_op(alloc: Global, name: &[u8]) -> Result<TableOp, AllocError> {
    Ok(TableOp::Insert {
        table: text(alloc, name)?,
        row: row(alloc, &[(b"v", b"d")])?,
        unique: text(alloc, b"")?,
    })
}

fn update_op(alloc: Global, id: i64) -> Result<TableOp, AllocError> {
    Ok(TableOp::Update {
        table: text(alloc, b"t")?,
        id,
        row: row(alloc, &[(b"w", b"e")])?,
    })
}

#[test]
fn changes_are_taken_back(rt: HostRuntime) -> Result<(), Fail> {
    let alloc = rt.alloc();
    let mut tables = Tables::new(alloc);
    let _made = add(alloc, &mut tables)?;
    let mut log = UndoLog::new(alloc);
    let _gone = tables.apply_noted(alloc, &delete_op(alloc, 1)?, &mut log)?;
    let _made = tables.apply_noted(alloc, &insert_op(alloc, b"s")?, &mut log)?;
    let _made = tables.apply_noted(alloc, &insert_op(alloc, b"t")?, &mut log)?;
    let _made = tables.apply_noted(alloc, &update_op(alloc, 2)?, &mut log)?;
    let _none = tables.apply_noted(alloc, &update_op(alloc, 1)?, &mut log)?;
    assert_eq!(rt; log.len(), 4);
    let mut kept = tables.copy(alloc)?;
    assert_eq!(rt; find(alloc, &mut kept, b"w", b"e")?, 1);
    tables.take_back(log);
    assert_eq!(rt; find(alloc, &mut tables, b"v", b"a")?, 1);
    assert_eq!(rt; all(alloc, &mut tables)?, 1);
    assert_eq!(rt; find(alloc, &mut tables, b"w", b"e")?, 0);
    Ok(())
}

#[test]
fn the_largest_id_ever_given_stays(rt: HostRuntime) -> Result<(), Fail> {
    let alloc = rt.alloc();
    let mut tables = Tables::new(alloc);
    tables.redo_owned(Change::Put {
        table: text(alloc, b"t")?,
        id: 5,
        row: RowCells::new(alloc),
    })?;
    assert_eq!(rt; all(alloc, &mut tables)?, 1);
    let gone = Change::Drop {
        table: text(alloc, b"t")?,
        id: 5,
    };
    tables.redo(&gone)?;
    tables.redo(&gone)?;
    assert_eq!(rt; all(alloc, &mut tables)?, 0);
    assert_eq!(rt; id_of(&add(alloc, &mut tables)?), 6);
    Ok(())
}

/// The reply to an insert into a table whose largest id ever given was set.
fn insert_after(alloc: Global, top: i64) -> Result<TableReply, AllocError>
    requires { IsTop top }
{
    let mut tables = Tables::new(alloc);
    tables.set_top(&text(alloc, b"t")?, top)?;
    add(alloc, &mut tables)
}

#[test]
fn a_largest_id_is_set(rt: HostRuntime) -> Result<(), Fail> {
    let alloc = rt.alloc();
    assert_eq!(rt; id_of(&insert_after(alloc, 0)?), 1);
    assert_eq!(rt; id_of(&insert_after(alloc, 10)?), 11);
    assert_eq!(rt; id_of(&insert_after(alloc, i64::MAX - 1)?), i64::MAX);
    assert_eq!(rt;
        why(&insert_after(alloc, i64::MAX)?),
        Some(TableRefusal::Limit)
    );
    Ok(())
}
