//! The table.

ghost use Rattle.std.specs.Prelude.{◌≡◌, ◌^◌, ◌<◌, [], false, true, Some, length, slice_get, slice_set, IfOk, OnOk, OnErr};
ghost use Rattle.reader_table.specs.Rows.{is_open, is_active, first_closed, opened, horizon_of, oldest_of};

use crate::Row;
use crate::index::Index;
use crate::least::Least;
use graph_model::NoMemory;
use std::alloc::Global;
use std::marker::Model;

/// The rows, by number from 0. Contracts see the list of them.
#[derive(Drop)]
pub struct ReaderTable {
    rows: Vec<Row>,
    index: Index,
}

impl Model for ReaderTable {
    ghost use Rattle.std.specs.Prelude.{List};
    ghost use Rattle.reader_table.specs.declared.row.Row.{Row};
    ghost use Rattle.reader_table.specs.KeptRows.{rows_of, IsKept};

    ghost Value = { List Row };

    ghost view = { rows_of };

    ghost invariant = { IsKept };
}

impl ReaderTable {
    /// No rows. It takes no memory.
    pub fn new(alloc: Global) -> ReaderTable
        ensures { result ≡ [] }
    {
        ReaderTable {
            rows: Vec::new(alloc),
            index: Index::new(alloc),
        }
    }

    /// What a row is; none where there never was a row of this number. There are fewer than 2^32. Time: constant.
    pub fn row(&self, row: u32) -> Option<Row>
        ensures row { result ≡ slice_get self.now row }
        ensures few { length self.now < 2 ^ 32 }
    {
        self.rows.get(row as usize).copied()
    }

    /// Opens the first closed row, or a new one where none is closed. After NoMemory all is as before; it is the
    /// answer only where no row is closed, and then always if there are 2^32 - 1 rows. All memory that the
    /// row will need is taken now.
    ///
    /// Time: one step for each doubling of the number of rows; where that number has doubled, as much for each
    /// row.
    pub fn open_row(&mut self) -> Result<u32, NoMemory>
        ensures row { IfOk result (λ row. row ≡ first_closed self.old) }
        ensures opened { OnOk result (self.new ≡ opened self.old) }
        ensures not_open { IfOk result (λ row. is_open (slice_get self.old row) ≡ false) }
        ensures limit { length self.new < 2 ^ 32 }
        ensures no_memory { OnErr result (first_closed self.old ≡ length self.old) }
        ensures unchanged { OnErr result (self.new ≡ self.old) }
    {
        let closed = self.index.least().closed;
        if closed < u32::MAX {
            self.mark(closed, Row::Idle);
            return Ok(closed);
        }
        let row = self.rows.len();
        if row == u32::MAX as usize {
            return Err(NoMemory);
        }
        self.index.reserve()?;
        self.rows.push(Row::Idle)?;
        let row = row as u32;
        self.index.push(Least::of(row, Row::Idle));
        Ok(row)
    }

    /// Notes that a transaction runs in an open row. It takes no memory. Time: one step for each doubling of the
    /// number of rows.
    pub fn enter(&mut self, row: u32, tid: u64, read: u64)
        requires { slice_get self.old row ≡ Some Row.Idle }
        ensures { self.new ≡ slice_set self.old row (Row.Active tid read) }
    {
        self.mark(row, Row::Active { tid, read });
    }

    /// Notes that the transaction of a row is over. It takes no memory. Time: as that of `enter`.
    pub fn leave(&mut self, row: u32)
        requires { is_active (slice_get self.old row) ≡ true }
        ensures { self.new ≡ slice_set self.old row Row.Idle }
    {
        self.mark(row, Row::Idle);
    }

    /// Closes a row in which no transaction runs. It takes no memory. Time: as that of `enter`.
    pub fn close_row(&mut self, row: u32)
        requires { slice_get self.old row ≡ Some Row.Idle }
        ensures { self.new ≡ slice_set self.old row Row.Closed }
    {
        self.mark(row, Row::Closed);
    }

    /// The least of `visible` and of the read epochs of the active rows. Time: constant.
    pub fn horizon(&self, visible: u64) -> u64
        ensures { result ≡ horizon_of visible self.now }
    {
        visible.min(self.index.least().read)
    }

    /// The least of `next` and of the transaction numbers of the active rows. Time: constant.
    pub fn oldest(&self, next: u64) -> u64
        ensures { result ≡ oldest_of next self.now }
    {
        next.min(self.index.least().tid)
    }

    // Sets what a row is.
    fn mark(&mut self, number: u32, row: Row)
        requires { number < length self.old }
        ensures { self.new ≡ slice_set self.old number row }
    {
        self.rows[number as usize] = row;
        self.index.set(number as usize, Least::of(number, row));
    }
}
