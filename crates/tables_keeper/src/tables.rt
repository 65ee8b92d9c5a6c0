// All tables, in the order of their names.
ghost use Rattle.std.specs.Prelude.{◌≡◌, ◌==◌, [], ◌+◌, ◌-◌, ◌≤◌, ◌<◌, length, codes, None, Some, IsTrue, IfOk, IfSome, OnErr, OnOk, ◌++◌, nat_abs, option_to_list, slice_set, ◌^◌};
ghost use Rattle.std.specs.List.{position, insert, remove, All};
ghost use Rattle.tables_keeper.specs.Rows.{is_named, merged, row_size, without_id};
ghost use Rattle.tables_keeper.specs.TableData.{IsTable, with_new_row, with_cells, without_row, with_row_at, with_raised, with_put};
ghost use Rattle.tables_keeper.specs.Tables.{HasRisingNames, tables_of, tables_before, table_place, table_at, row_at, got, all_of, found, answered, inserted, insert_first, insert_next, updated, update_at, deleted, step, IsStep, row_fits, fits_first, fits_next, fits_in_place, fits_one_more, total_size, new_table, IsId, IsChange, CanSetTop, redone, all_redone, top_set, put_again, drop_again};
ghost use Rattle.tables_keeper.specs.Undo.{Grown, IsUndoOf, Undoes, CanUndo, CanTakeBack, CanCount, CanDropTable, CanDropRow, CanPutBack, undone, taken_back, change_at, without_put, with_row_back};

use crate::list::{
    copied, drop_from, empty_table, first_table, insert_into, place_of, push_into, put_back_into,
    put_into, remove_from, replace_in, set_top_in,
};
use crate::reads::{all_rows, is_duplicate, rows_with_text};
use crate::table::Table;
use crate::{
    CellText, Change, MAX_COLUMNS, MAX_ID, MAX_ROW_SIZE, MAX_ROWS, MAX_SIZE, MAX_TABLES, RowCells,
    Step, TableOp, TableRefusal, TableReply, Undo, UndoLog,
};
use std::alloc::{AllocError, Global};
use std::marker::Model;

/// The application's tables. Contracts see them in the order of their names, each with its largest id ever given and
/// its rows in the order of their ids.
#[derive(Debug, Drop)]
pub struct Tables {
    alloc: Global,
    list: Vec<Table>,
    rows: usize,
    size: u64,
}

impl Model for Tables {
    ghost use Rattle.std.specs.Prelude.{List};
    ghost use Rattle.tables_keeper.specs.TableData.{TableView};
    ghost use Rattle.tables_keeper.specs.Tables.{IsTables, tables_of};

    ghost Value = { List TableView };

    ghost view = { λ tables. tables.list.items };

    ghost invariant = { λ tables. IsTables (tables_of tables.list.items) tables.rows tables.size };
}

impl Tables {
    /// No tables.
    pub fn new(alloc: Global) -> Self
        ensures { result ≡ [] }
    {
        Tables {
            alloc,
            list: Vec::new(alloc),
            rows: 0,
            size: 0,
        }
    }

    pub fn copy(&self, alloc: Global) -> Result<Self, AllocError>
        ensures { IfOk result (λ tables. tables_of tables ≡ tables_of self.now) }
    {
        Ok(Tables {
            alloc,
            list: copied(alloc, &self.list)?,
            rows: self.rows,
            size: self.size,
        })
    }

    fn place_of(&self, name: &[u8]) -> Option<usize>
        ensures { result ≡ table_place name.now (tables_of self.now) }
    {
        place_of(&self.list, name)
    }

    pub(crate) fn get(
        &self,
        alloc: Global,
        name: &CellText,
        id: i64,
    ) -> Result<TableReply, AllocError>
        ensures { IfOk result (λ reply. got name.now id (tables_of self.now) ≡ answered reply (tables_of self.now)) }
    {
        let Some(place) = self.place_of(name.as_slice()) else {
            return Ok(TableReply::Refused(TableRefusal::NoTable));
        };
        let table = &self.list[place];
        let Some(row) = table.place_of(id) else {
            return Ok(TableReply::Refused(TableRefusal::NoRow));
        };
        Ok(TableReply::Row(table.shown(alloc, row)?))
    }

    pub(crate) fn all(&self, alloc: Global, name: &CellText) -> Result<TableReply, AllocError>
        ensures { IfOk result (λ reply. all_of name.now (tables_of self.now) ≡ answered reply (tables_of self.now)) }
    {
        let Some(place) = self.place_of(name.as_slice()) else {
            return Ok(TableReply::Refused(TableRefusal::NoTable));
        };
        Ok(TableReply::Rows(all_rows(alloc, &self.list[place])?))
    }

    pub(crate) fn find(
        &self,
        alloc: Global,
        name: &CellText,
        column: &CellText,
        text: &CellText,
    ) -> Result<TableReply, AllocError>
        ensures { IfOk result (λ reply. found name.now column.now text.now (tables_of self.now)
            ≡ answered reply (tables_of self.now)) }
    {
        let Some(place) = self.place_of(name.as_slice()) else {
            return Ok(TableReply::Refused(TableRefusal::NoTable));
        };
        let table = &self.list[place];
        Ok(TableReply::Rows(rows_with_text(alloc, table, column.as_slice(), text.as_slice())?))
    }

    /// Does one operation. Contracts see the tables, the answer and the change by the definition `step`. Where there was
    /// no memory, nothing has changed.
    pub fn apply(
        &mut self,
        alloc: Global,
        op: &TableOp,
    ) -> Result<(TableReply, Option<Change>), AllocError>
        ensures reply { IfOk result (λ answer. answer.0 ≡ (step op.now (tables_of self.old)).reply) }
        ensures change { IfOk result (λ answer. answer.1 ≡ (step op.now (tables_of self.old)).change) }
        ensures tables { OnOk result (tables_of self.new ≡ (step op.now (tables_of self.old)).tables) }
        ensures err { OnErr result (tables_of self.new ≡ tables_of self.old) }
        ensures sound { IfOk result (λ answer. IfSome answer.1 IsChange) }
    {
        let Step {
            reply,
            change,
            undo: _,
        } = self.perform(alloc, op)?;
        Ok((reply, change))
    }

    /// Does one operation as `apply` does, and notes what takes it back: what the log leaves of the tables stays.
    pub fn apply_noted(
        &mut self,
        alloc: Global,
        op: &TableOp,
        log: &mut UndoLog,
    ) -> Result<(TableReply, Option<Change>), AllocError>
        requires { CanUndo log.old self.old }
        ensures reply { IfOk result (λ answer. answer.0 ≡ (step op.now (tables_of self.old)).reply) }
        ensures change { IfOk result (λ answer. answer.1 ≡ (step op.now (tables_of self.old)).change) }
        ensures tables { OnOk result (tables_of self.new ≡ (step op.now (tables_of self.old)).tables) }
        ensures err { OnErr result (tables_of self.new ≡ tables_of self.old) }
        ensures sound { IfOk result (λ answer. IfSome answer.1 IsChange) }
        ensures can { CanUndo log.new self.new }
        ensures back { tables_of (undone log.new self.new) ≡ tables_of (undone log.old self.old) }
    {
        let Step {
            reply,
            change,
            undo,
        } = self.perform(alloc, op)?;
        self.note(undo, log)?;
        Ok((reply, change))
    }

    /// Notes a change, or takes it back where there is no memory for the note.
    fn note(&mut self, undo: Option<Undo>, log: &mut UndoLog) -> Result<(), AllocError>
        requires { IfSome undo (λ undo. CanTakeBack undo self.old) }
        ensures ok { OnOk result (self.new ≡ self.old) }
        ensures noted { OnOk result (log.new ≡ option_to_list undo ++ log.old) }
        ensures err { OnErr result (self.new ≡ undone (option_to_list undo) self.old) }
        ensures same { OnErr result (log.new ≡ log.old) }
    {
        let Some(undo) = undo else {
            return Ok(());
        };
        if let Err(undo) = log.note(undo) {
            self.take_back_one(undo);
            return Err(AllocError);
        }
        Ok(())
    }

    /// Takes the changes of a log back, the newest first. It takes no memory.
    pub fn take_back(&mut self, log: UndoLog)
        requires { CanUndo log self.old }
        ensures { self.new ≡ undone log self.old }
    {
        let mut left = log;
        while let Some(undo) = left.pop() {
            self.take_back_one(undo);
        }
    }

    fn take_back_one(&mut self, undo: Undo)
        requires { CanTakeBack undo self.old }
        ensures { self.new ≡ taken_back undo self.old }
    {
        match undo {
            Undo::Table { table } => self.drop_table(table),
            Undo::Row { table, row, top } => self.drop_row(table, row, top),
            Undo::Cells { table, row, cells } => {
                let _new = self.replace_cells(table, row, cells);
            }
            Undo::Gone {
                table,
                row,
                id,
                cells,
            } => self.put_back(table, row, id, cells),
        }
    }

    /// Does a change again. A `Put` makes a missing table and raises a lower largest id to its own, a `Drop` of a row that
    /// is not there changes nothing. No limit is tested.
    pub fn redo(&mut self, change: &Change) -> Result<(), AllocError>
        requires { IsChange change.now }
        ensures ok { OnOk result (tables_of self.new ≡ redone change.now (tables_of self.old)) }
        ensures err { OnErr result (tables_of self.new ≡ tables_of self.old) }
    {
        let _undo = self.redo_one(change)?;
        Ok(())
    }

    /// Does a change again as `redo` does, without a copy of its row.
    pub fn redo_owned(&mut self, change: Change) -> Result<(), AllocError>
        requires { IsChange change }
        ensures ok { OnOk result (tables_of self.new ≡ redone change (tables_of self.old)) }
        ensures err { OnErr result (tables_of self.new ≡ tables_of self.old) }
    {
        match change {
            Change::Put { table, id, row } => {
                let _undo = self.put_again(&table, id.unsigned_abs(), row)?;
            }
            Change::Drop { table, id } => {
                let _undo = self.drop_again(&table, id);
            }
        }
        Ok(())
    }

    /// Does several changes again, all or none.
    pub fn redo_all(&mut self, alloc: Global, changes: &[Change]) -> Result<(), AllocError>
        requires { All IsChange changes.now }
        ensures ok { OnOk result (tables_of self.new ≡ all_redone changes.now (tables_of self.old)) }
        ensures err { OnErr result (tables_of self.new ≡ tables_of self.old) }
    {
        let mut log = UndoLog::new(alloc);
        for change in changes {
            if self.redo_noted(change, &mut log).is_err() {
                self.take_back(log);
                return Err(AllocError);
            }
        }
        Ok(())
    }

    /// Sets a table's largest id ever given, and makes the table where it is not there.
    pub fn set_top(&mut self, table: &CellText, top: i64) -> Result<(), AllocError>
        requires { CanSetTop table.now top (tables_of self.old) }
        ensures ok { OnOk result (tables_of self.new ≡ top_set (table_place table.now (tables_of self.old)) table.now (nat_abs top) (tables_of self.old)) }
        ensures err { OnErr result (tables_of self.new ≡ tables_of self.old) }
    {
        let top = top.unsigned_abs();
        match self.place_of(table.as_slice()) {
            Some(place) => set_top_in(&mut self.list, place, top),
            None => {
                let new = empty_table(self.alloc, table.copy(self.alloc)?, top);
                insert_into(&mut self.list, new)?;
            }
        }
        Ok(())
    }

    /// Does a change again as `redo` does, and notes what takes it back.
    pub fn redo_noted(&mut self, change: &Change, log: &mut UndoLog) -> Result<(), AllocError>
        requires change { IsChange change.now }
        requires log { CanUndo log.old self.old }
        ensures ok { OnOk result (tables_of self.new ≡ redone change.now (tables_of self.old)) }
        ensures err { OnErr result (tables_of self.new ≡ tables_of self.old) }
        ensures can { CanUndo log.new self.new }
        ensures back { tables_of (undone log.new self.new) ≡ tables_of (undone log.old self.old) }
    {
        let undo = self.redo_one(change)?;
        self.note(undo, log)?;
        Ok(())
    }

    fn redo_one(&mut self, change: &Change) -> Result<Option<Undo>, AllocError>
        requires { IsChange change.now }
        ensures ok { OnOk result (tables_of self.new ≡ redone change.now (tables_of self.old)) }
        ensures undo { IfOk result (λ undo. Undoes undo self.old self.new) }
        ensures err { OnErr result (Grown self.old self.new) }
    {
        match change {
            Change::Put { table, id, row } => {
                let cells = row.copy(self.alloc)?;
                self.put_again(table, id.unsigned_abs(), cells)
            }
            Change::Drop { table, id } => Ok(self.drop_again(table, *id)),
        }
    }

    fn put_again(
        &mut self,
        name: &CellText,
        id: u64,
        cells: RowCells,
    ) -> Result<Option<Undo>, AllocError>
        requires positive { 0 < id }
        requires small { id < 2 ^ 63 }
        requires plain { position (is_named (codes "id")) cells ≡ None }
        ensures ok { OnOk result (tables_of self.new ≡ put_again (table_place name.now (tables_of self.old)) name.now id cells (tables_of self.old)) }
        ensures undo { IfOk result (λ undo. Undoes undo self.old self.new) }
        ensures err { OnErr result (Grown self.old self.new) }
    {
        if !self.can_count(&cells) {
            return Err(AllocError);
        }
        match self.place_of(name.as_slice()) {
            Some(place) => self.put_at(place, id, cells),
            None => {
                let table = self.add_table(name.copy(self.alloc)?, id, cells)?;
                Ok(Some(Undo::Table { table }))
            }
        }
    }

    fn put_at(&mut self, place: usize, id: u64, cells: RowCells) -> Result<Option<Undo>, AllocError>
        requires place { place < length self.old }
        requires positive { 0 < id }
        requires small { id < 2 ^ 63 }
        requires plain { position (is_named (codes "id")) cells ≡ None }
        requires room { CanCount cells (tables_of self.old) }
        ensures ok { OnOk result (tables_of self.new ≡ slice_set (tables_of self.old) place (with_put id cells (table_at place (tables_of self.old)))) }
        ensures undo { IfOk result (λ undo. Undoes undo self.old self.new) }
        ensures err { OnErr result (Grown self.old self.new) }
    {
        match self.list[place].place_of(id as i64) {
            Some(row) => {
                let cells = self.replace_cells(place, row, cells);
                Ok(Some(Undo::Cells {
                    table: place,
                    row,
                    cells,
                }))
            }
            None => {
                let top = self.list[place].top();
                let row = self.put_row(place, id, cells)?;
                Ok(Some(Undo::Row {
                    table: place,
                    row,
                    top,
                }))
            }
        }
    }

    fn drop_again(&mut self, name: &CellText, id: i64) -> Option<Undo>
        ensures tables { tables_of self.new ≡ drop_again (table_place name.now (tables_of self.old)) id (tables_of self.old) }
        ensures undo { Undoes result self.old self.new }
    {
        let place = self.place_of(name.as_slice())?;
        let row = self.list[place].place_of(id)?;
        Some(self.take_row(place, row))
    }

    /// Takes a row away, and gives what takes that back.
    fn take_row(&mut self, place: usize, row: usize) -> Undo
        requires place { place < length self.old }
        requires row { row < length (table_at place (tables_of self.old)).rows }
        ensures tables { tables_of self.new ≡ slice_set (tables_of self.old) place
            (without_row row (table_at place (tables_of self.old))) }
        ensures undo { IsUndoOf result self.old self.new }
    {
        let id = self.list[place].id_at(row);
        let cells = self.remove_row(place, row);
        Undo::Gone {
            table: place,
            row,
            id,
            cells,
        }
    }

    fn perform(&mut self, alloc: Global, op: &TableOp) -> Result<Step, AllocError>
        ensures ok { IfOk result (λ answer. IsStep (step op.now (tables_of self.old)) answer (tables_of self.new)) }
        ensures undo { IfOk result (λ answer. Undoes answer.undo self.old self.new) }
        ensures sound { IfOk result (λ answer. IfSome answer.change IsChange) }
        ensures err { OnErr result (Grown self.old self.new) }
    {
        match op {
            TableOp::Get { table, id } => Ok(answer(self.get(alloc, table, *id)?)),
            TableOp::All { table } => Ok(answer(self.all(alloc, table)?)),
            TableOp::Find {
                table,
                column,
                text,
            } => Ok(answer(self.find(alloc, table, column, text)?)),
            TableOp::Insert { table, row, unique } => self.insert(alloc, table, row, unique),
            TableOp::Update { table, id, row } => self.update(alloc, table, *id, row),
            TableOp::Delete { table, id } => self.delete(alloc, table, *id),
        }
    }

    fn insert(
        &mut self,
        alloc: Global,
        name: &CellText,
        given: &RowCells,
        unique: &CellText,
    ) -> Result<Step, AllocError>
        ensures ok { IfOk result (λ answer.
            IsStep (inserted name.now given.now unique.now (tables_of self.old)) answer (tables_of self.new)) }
        ensures undo { IfOk result (λ answer. Undoes answer.undo self.old self.new) }
        ensures sound { IfOk result (λ answer. IfSome answer.change IsChange) }
        ensures err { OnErr result (Grown self.old self.new) }
    {
        let cells = given.without_id(alloc)?;
        match self.place_of(name.as_slice()) {
            Some(place) => self.insert_next(alloc, place, name, cells, unique),
            None => self.insert_first(alloc, name, cells),
        }
    }

    /// Makes a table with its first row.
    fn insert_first(
        &mut self,
        alloc: Global,
        name: &CellText,
        cells: RowCells,
    ) -> Result<Step, AllocError>
        requires absent { table_place name.now (tables_of self.old) ≡ None }
        requires plain { position (is_named (codes "id")) cells ≡ None }
        ensures ok { IfOk result (λ answer.
            IsStep (insert_first name.now cells (tables_of self.old)) answer (tables_of self.new)) }
        ensures undo { IfOk result (λ answer. Undoes answer.undo self.old self.new) }
        ensures sound { IfOk result (λ answer. IfSome answer.change IsChange) }
        ensures err { OnErr result (Grown self.old self.new) }
    {
        if !self.fits_first(&cells) {
            return Ok(refused(TableRefusal::Limit));
        }
        let change = put(alloc, name, 1, &cells)?;
        let table = self.add_table(name.copy(alloc)?, 1, cells)?;
        Ok(changed(TableReply::Id(1), change, Undo::Table { table }))
    }

    /// Puts a row last in the table at a place.
    fn insert_next(
        &mut self,
        alloc: Global,
        place: usize,
        name: &CellText,
        cells: RowCells,
        unique: &CellText,
    ) -> Result<Step, AllocError>
        requires place { place < length self.old }
        requires plain { position (is_named (codes "id")) cells ≡ None }
        ensures ok { IfOk result (λ answer.
            IsStep (insert_next place name.now cells unique.now (tables_of self.old)) answer (tables_of self.new)) }
        ensures undo { IfOk result (λ answer. Undoes answer.undo self.old self.new) }
        ensures sound { IfOk result (λ answer. IfSome answer.change IsChange) }
        ensures err { OnErr result (Grown self.old self.new) }
    {
        if is_duplicate(unique.as_slice(), &cells, self.list[place].rows()) {
            return Ok(refused(TableRefusal::Duplicate));
        }
        if !self.fits_next(place, &cells) {
            return Ok(refused(TableRefusal::Limit));
        }
        let top = self.list[place].top();
        let id = (top + 1) as i64;
        let change = put(alloc, name, id, &cells)?;
        let row = self.push_row(place, cells)?;
        Ok(changed(
            TableReply::Id(id),
            change,
            Undo::Row {
                table: place,
                row,
                top,
            },
        ))
    }

    fn update(
        &mut self,
        alloc: Global,
        name: &CellText,
        id: i64,
        given: &RowCells,
    ) -> Result<Step, AllocError>
        ensures ok { IfOk result (λ answer.
            IsStep (updated name.now id given.now (tables_of self.old)) answer (tables_of self.new)) }
        ensures undo { IfOk result (λ answer. Undoes answer.undo self.old self.new) }
        ensures sound { IfOk result (λ answer. IfSome answer.change IsChange) }
        ensures err { OnErr result (Grown self.old self.new) }
    {
        let Some(place) = self.place_of(name.as_slice()) else {
            return Ok(refused(TableRefusal::NoTable));
        };
        let Some(row) = self.list[place].place_of(id) else {
            return Ok(refused(TableRefusal::NoRow));
        };
        self.update_at(alloc, place, row, name, id, given)
    }

    /// Puts the columns of a given row into a row of the table at a place.
    fn update_at(
        &mut self,
        alloc: Global,
        place: usize,
        row: usize,
        name: &CellText,
        id: i64,
        given: &RowCells,
    ) -> Result<Step, AllocError>
        requires place { place < length self.old }
        requires row { row < length (table_at place (tables_of self.old)).rows }
        requires id { IsId id }
        ensures ok { IfOk result (λ answer. IsStep (update_at place row name.now id
            (row_at row (table_at place (tables_of self.old))).cells
            (merged (row_at row (table_at place (tables_of self.old))).cells given.now)
            (tables_of self.old)) answer (tables_of self.new)) }
        ensures undo { IfOk result (λ answer. Undoes answer.undo self.old self.new) }
        ensures sound { IfOk result (λ answer. IfSome answer.change IsChange) }
        ensures err { OnErr result (Grown self.old self.new) }
    {
        let new = self.list[place].merged(alloc, row, given)?;
        if !self.fits_in_place(place, row, &new) {
            return Ok(refused(TableRefusal::Limit));
        }
        let change = put(alloc, name, id, &new)?;
        let cells = self.replace_cells(place, row, new);
        Ok(changed(
            TableReply::Done,
            change,
            Undo::Cells {
                table: place,
                row,
                cells,
            },
        ))
    }

    fn delete(&mut self, alloc: Global, name: &CellText, id: i64) -> Result<Step, AllocError>
        ensures ok { IfOk result (λ answer.
            IsStep (deleted name.now id (tables_of self.old)) answer (tables_of self.new)) }
        ensures undo { IfOk result (λ answer. Undoes answer.undo self.old self.new) }
        ensures sound { IfOk result (λ answer. IfSome answer.change IsChange) }
        ensures err { OnErr result (Grown self.old self.new) }
    {
        let Some(place) = self.place_of(name.as_slice()) else {
            return Ok(refused(TableRefusal::NoTable));
        };
        let Some(row) = self.list[place].place_of(id) else {
            return Ok(refused(TableRefusal::NoRow));
        };
        let change = Change::Drop {
            table: name.copy(alloc)?,
            id,
        };
        let undo = self.take_row(place, row);
        Ok(changed(TableReply::Done, change, undo))
    }

    fn fits_one_more(&self, cells: &RowCells) -> bool
        ensures { result ≡ fits_one_more (tables_of self.now) cells.now }
    {
        self.rows < MAX_ROWS && self.size.saturating_add(cells.size()) <= MAX_SIZE
    }

    fn fits_first(&self, cells: &RowCells) -> bool
        ensures { result ≡ fits_first (tables_of self.now) cells.now }
    {
        self.list.len() < MAX_TABLES && row_fits(cells) && self.fits_one_more(cells)
    }

    fn fits_next(&self, place: usize, cells: &RowCells) -> bool
        requires { place < length self.now }
        ensures { result ≡ fits_next place (tables_of self.now) cells.now }
    {
        self.list[place].top() < MAX_ID && row_fits(cells) && self.fits_one_more(cells)
    }

    fn fits_in_place(&self, place: usize, row: usize, new: &RowCells) -> bool
        requires place { place < length self.now }
        requires row { row < length (table_at place (tables_of self.now)).rows }
        ensures { result ≡ fits_in_place (row_at row (table_at place (tables_of self.now))).cells new.now (tables_of self.now) }
    {
        let old = self.list[place].size_at(row);
        row_fits(new) && self.size.saturating_sub(old).saturating_add(new.size()) <= MAX_SIZE
    }

    /// Whether one row more can be counted.
    fn can_count(&self, cells: &RowCells) -> bool
        ensures { IsTrue result → CanCount cells.now (tables_of self.now) }
    {
        self.rows < usize::MAX && self.size < u64::MAX - cells.size()
    }

    /// Puts a row last in the table at a place, under the next id, and tells its place.
    fn push_row(&mut self, place: usize, cells: RowCells) -> Result<usize, AllocError>
        requires place { place < length self.old }
        requires plain { position (is_named (codes "id")) cells ≡ None }
        requires ids { (table_at place (tables_of self.old)).top < MAX_ID }
        requires room { IsTrue (fits_one_more (tables_of self.old) cells) }
        ensures ok { OnOk result (tables_of self.new ≡ slice_set (tables_of self.old) place
            (with_new_row cells (table_at place (tables_of self.old)))) }
        ensures undo { IfOk result (λ row. IsUndoOf (Undo.Row place row (table_at place (tables_of self.old)).top) self.old self.new) }
        ensures err { OnErr result (Grown self.old self.new) }
    {
        let size = cells.size();
        let row = self.list[place].rows().len();
        push_into(&mut self.list, place, cells)?;
        self.rows += 1;
        self.size += size;
        Ok(row)
    }

    /// Puts a new row into the table at a place, and tells the row's place.
    fn put_row(&mut self, place: usize, id: u64, cells: RowCells) -> Result<usize, AllocError>
        requires place { place < length self.old }
        requires positive { 0 < id }
        requires small { id < 2 ^ 63 }
        requires plain { position (is_named (codes "id")) cells ≡ None }
        requires absent { position (λ row. row.id == id) (table_at place (tables_of self.old)).rows ≡ None }
        requires room { CanCount cells (tables_of self.old) }
        ensures ok { OnOk result (tables_of self.new ≡ slice_set (tables_of self.old) place
            (with_row_at id cells (with_raised id (table_at place (tables_of self.old))))) }
        ensures undo { IfOk result (λ row. IsUndoOf (Undo.Row place row (table_at place (tables_of self.old)).top) self.old self.new) }
        ensures err { OnErr result (Grown self.old self.new) }
    {
        let size = cells.size();
        let row = put_into(&mut self.list, place, id, cells)?;
        self.rows += 1;
        self.size += size;
        Ok(row)
    }

    /// Puts other cells into a row, and gives those that it had.
    fn replace_cells(&mut self, place: usize, row: usize, cells: RowCells) -> RowCells
        requires place { place < length self.old }
        requires row { row < length (table_at place (tables_of self.old)).rows }
        requires plain { position (is_named (codes "id")) cells ≡ None }
        requires fits { total_size (tables_of self.old) - row_size (row_at row (table_at place (tables_of self.old))).cells
            + row_size cells < 2 ^ 64 }
        ensures views { self.new ≡ change_at place (with_cells row cells) self.old }
        ensures tables { tables_of self.new ≡ slice_set (tables_of self.old) place
            (with_cells row cells (table_at place (tables_of self.old))) }
        ensures cells { result ≡ (row_at row (table_at place (tables_of self.old))).cells }
        ensures undo { IsUndoOf (Undo.Cells place row result) self.old self.new }
        ensures held { IsTable (table_at place (tables_of self.old)).top (table_at place (tables_of self.old)).rows }
    {
        let size = cells.size();
        let old = replace_in(&mut self.list, place, row, cells);
        self.size = self.size - old.size() + size;
        old
    }

    /// Takes a row away, and gives its cells.
    fn remove_row(&mut self, place: usize, row: usize) -> RowCells
        requires place { place < length self.old }
        requires row { row < length (table_at place (tables_of self.old)).rows }
        ensures tables { tables_of self.new ≡ slice_set (tables_of self.old) place
            (without_row row (table_at place (tables_of self.old))) }
        ensures cells { result ≡ (row_at row (table_at place (tables_of self.old))).cells }
        ensures undo { IsUndoOf (Undo.Gone place row (row_at row (table_at place (tables_of self.old))).id result) self.old self.new }
    {
        let old = remove_from(&mut self.list, place, row);
        self.rows -= 1;
        self.size -= old.size();
        old
    }

    /// Takes a row away that was put in, and sets the largest id ever given back.
    fn drop_row(&mut self, place: usize, row: usize, top: u64)
        requires { CanDropRow place row top self.old }
        ensures { self.new ≡ change_at place (without_put row top) self.old }
    {
        let old = drop_from(&mut self.list, place, row, top);
        self.rows -= 1;
        self.size -= old.size();
    }

    /// Puts a row back that was taken away.
    fn put_back(&mut self, place: usize, row: usize, id: u64, cells: RowCells)
        requires { CanPutBack place row id cells self.old }
        ensures { self.new ≡ change_at place (with_row_back row id cells) self.old }
    {
        let size = cells.size();
        put_back_into(&mut self.list, place, row, id, cells);
        self.rows += 1;
        self.size += size;
    }

    /// Takes a table away that has one row.
    fn drop_table(&mut self, place: usize)
        requires { CanDropTable place self.old }
        ensures { self.new ≡ remove self.old place }
    {
        let table = self.list.remove(place);
        self.rows -= 1;
        self.size -= table.size_at(0);
    }

    /// Puts a table with one row among the others, and tells its place.
    fn add_table(&mut self, name: CellText, id: u64, cells: RowCells) -> Result<usize, AllocError>
        requires absent { table_place name (tables_of self.old) ≡ None }
        requires positive { 0 < id }
        requires small { id < 2 ^ 63 }
        requires plain { position (is_named (codes "id")) cells ≡ None }
        requires room { CanCount cells (tables_of self.old) }
        ensures ok { OnOk result (tables_of self.new ≡ insert (tables_of self.old) (tables_before name (tables_of self.old))
            (with_put id cells (new_table name))) }
        ensures undo { IfOk result (λ table. IsUndoOf (Undo.Table table) self.old self.new) }
        ensures err { OnErr result (Grown self.old self.new) }
    {
        let size = cells.size();
        let table = first_table(self.alloc, name, id, cells)?;
        let place = insert_into(&mut self.list, table)?;
        self.rows += 1;
        self.size += size;
        Ok(place)
    }
}

/// Whether a row is within the limits of a row.
fn row_fits(cells: &RowCells) -> bool
    ensures { result ≡ row_fits cells.now }
{
    cells.len() <= MAX_COLUMNS && cells.size() <= MAX_ROW_SIZE
}

fn put(alloc: Global, name: &CellText, id: i64, cells: &RowCells) -> Result<Change, AllocError>
    ensures { IfOk result (λ change. change ≡ Change.Put name.now id cells.now) }
{
    Ok(Change::Put {
        table: name.copy(alloc)?,
        id,
        row: cells.copy(alloc)?,
    })
}

fn answer(reply: TableReply) -> Step
    ensures { result ≡ record { reply = reply; change = None; undo = None } }
{
    Step {
        reply,
        change: None,
        undo: None,
    }
}

fn refused(why: TableRefusal) -> Step
    ensures { result ≡ record { reply = TableReply.Refused why; change = None; undo = None } }
{
    answer(TableReply::Refused(why))
}

fn changed(reply: TableReply, change: Change, undo: Undo) -> Step
    ensures { result ≡ record { reply = reply; change = Some change; undo = Some undo } }
{
    Step {
        reply,
        change: Some(change),
        undo: Some(undo),
    }
}
