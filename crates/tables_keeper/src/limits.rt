// How much the tables may hold. The limits are kept by `Tables::apply` alone.

/// The greatest count of tables.
pub const MAX_TABLES: usize = 100;

/// The greatest count of rows in all tables together.
pub const MAX_ROWS: usize = 100_000;

/// The greatest count of columns of a row.
pub const MAX_COLUMNS: usize = 64;

/// The greatest size of a row, in bytes as `RowCells::size` counts them.
pub const MAX_ROW_SIZE: u64 = 65_536;

/// The greatest size of all rows together, in such bytes.
pub const MAX_SIZE: u64 = 67_108_864;

/// The greatest id of a row.
pub const MAX_ID: u64 = 9_223_372_036_854_775_807;
