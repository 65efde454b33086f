// The largest sheet.
pub const MAX_ROWS: usize = 256;

pub const MAX_COLUMNS: usize = 8;
