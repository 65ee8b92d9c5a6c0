//! The loads.
ghost use Rattle.std.specs.Prelude.{◌≡◌, None, codes, false, IfOk, OnOk};
ghost use Rattle.std.specs.List.{position};
ghost use Rattle.std.specs.Str.{bytes_eq};
ghost use Rattle.tables_keeper.specs.Rows.{is_named};
ghost use Rattle.tables_keeper.specs.Tables.{IsChange};

use crate::plan::{Plan, Work};
use std::alloc::{AllocError, Global};
use std::rt::Files;
use tables_journal::{JournalKeeper, Keeper, KeeperFault, KeeperMem};
use tables_keeper::{Cell, CellText, Change, Column, RowCells, TableOp, TableReply, Tables};

const TABLE: &[u8] = b"notes";

const JOURNAL: &str = "tables.journal";

fn text(alloc: Global, bytes: &[u8]) -> Result<CellText, AllocError>
    ensures { IfOk result (λ text. text ≡ bytes.now) }
{
    CellText::from_slice(alloc, bytes)
}

/// Puts a column that is not called `id` into a row that has no such column.
fn put_cell(alloc: Global, row: &mut RowCells, name: &[u8], cell: Cell) -> Result<(), AllocError>
    requires plain { position (is_named (codes "id")) row.old ≡ None }
    requires name { bytes_eq name.now (codes "id") ≡ false }
    ensures { OnOk result (position (is_named (codes "id")) row.new ≡ None) }
{
    let name = text(alloc, name)?;
    row.put(Column { name, cell })?;
    Ok(())
}

/// A row of three columns, as a note of a small application has them.
fn note(alloc: Global, number: u32) -> Result<RowCells, AllocError>
    ensures { IfOk result (λ row. position (is_named (codes "id")) row ≡ None) }
{
    let title = Cell::Text(text(alloc, b"A note of twenty-four b.")?);
    let mut row = RowCells::new(alloc);
    put_cell(alloc, &mut row, b"title", title)?;
    put_cell(alloc, &mut row, b"number", Cell::Int(number as i64))?;
    put_cell(alloc, &mut row, b"read", Cell::Bool(false))?;
    Ok(row)
}

fn with_rows(alloc: Global, rows: u32) -> Result<Tables, AllocError> {
    let mut tables = Tables::new(alloc);
    for number in 0..rows {
        let op = TableOp::Insert {
            table: text(alloc, TABLE)?,
            row: note(alloc, number)?,
            unique: text(alloc, b"")?,
        };
        tables.apply(alloc, &op)?;
    }
    Ok(tables)
}

/// How many rows a reply shows.
fn shown(reply: &TableReply) -> u64 {
    match reply {
        TableReply::Row(_) | TableReply::Done => 1,
        TableReply::Rows(rows) => rows.len() as u64,
        TableReply::Id(_) | TableReply::Refused(_) => 0,
    }
}

fn operation(alloc: Global, plan: &Plan, time: u32) -> Result<TableOp, AllocError> {
    let id = match time.checked_rem(plan.rows) {
        Some(place) => place as i64 + 1,
        None => 1,
    };
    let table = text(alloc, TABLE)?;
    Ok(match plan.work {
        Work::Find => TableOp::Find {
            table,
            column: text(alloc, b"number")?,
            text: text(alloc, b"7")?,
        },
        Work::Update => TableOp::Update {
            table,
            id,
            row: note(alloc, time)?,
        },
        _ => TableOp::Get { table, id },
    })
}

fn operations(alloc: Global, plan: &Plan) -> Result<u64, AllocError> {
    let mut tables = with_rows(alloc, plan.rows)?;
    let mut count = 0u64;
    for time in 0..plan.times {
        let op = operation(alloc, plan, time)?;
        let (reply, _change) = tables.apply(alloc, &op)?;
        count = count.wrapping_add(shown(&reply));
    }
    Ok(count)
}

/// Makes the rows over and over, and counts how often the last one was there.
fn inserts(alloc: Global, plan: &Plan) -> Result<u64, AllocError> {
    let mut count = 0u64;
    for _ in 0..plan.times {
        let mut tables = with_rows(alloc, plan.rows)?;
        let op = TableOp::Get {
            table: text(alloc, TABLE)?,
            id: plan.rows as i64,
        };
        let (reply, _change) = tables.apply(alloc, &op)?;
        count = count.wrapping_add(shown(&reply));
    }
    Ok(count)
}

fn rows_of(alloc: Global, tables: &mut Tables) -> Result<u64, AllocError> {
    let op = TableOp::All {
        table: text(alloc, TABLE)?,
    };
    let (reply, _change) = tables.apply(alloc, &op)?;
    Ok(shown(&reply))
}

/// A row is put, one after another, and over again.
fn change(alloc: Global, plan: &Plan, time: u32) -> Result<Change, AllocError>
    ensures { IfOk result IsChange }
{
    let id = match time.checked_rem(plan.rows) {
        Some(place) => place as i64 + 1,
        None => 1,
    };
    Ok(Change::Put {
        table: text(alloc, TABLE)?,
        id,
        row: note(alloc, time)?,
    })
}

/// Commits of one change each.
fn commits<K: Keeper>(alloc: Global, keeper: &mut K, plan: &Plan) -> Result<u64, KeeperFault> {
    for time in 0..plan.times {
        let changes = [change(alloc, plan, time)?];
        keeper.commit(alloc, &changes)?;
    }
    Ok(plan.times as u64)
}

/// Does a load, and tells what was counted: rows that were shown, or commits.
pub fn run<R: Files + AllocGlobal + Clone + Drop>(
    rt: &R,
    alloc: Global,
    plan: &Plan,
) -> Result<u64, KeeperFault> {
    match plan.work {
        Work::Rows => {
            let mut tables = with_rows(alloc, plan.rows)?;
            Ok(rows_of(alloc, &mut tables)?)
        }
        Work::Insert => Ok(inserts(alloc, plan)?),
        Work::Get | Work::Find | Work::Update => Ok(operations(alloc, plan)?),
        Work::Memory => {
            let mut keeper = KeeperMem::new(Tables::new(alloc), Vec::new(alloc));
            commits(alloc, &mut keeper, plan)
        }
        Work::Commit => {
            let mut keeper = JournalKeeper::new(rt.clone()?, alloc, JOURNAL)?;
            commits(alloc, &mut keeper, plan)
        }
        Work::Load => {
            let mut keeper = JournalKeeper::new(rt.clone()?, alloc, JOURNAL)?;
            let mut tables = keeper.load(alloc)?;
            Ok(rows_of(alloc, &mut tables)?)
        }
    }
}
