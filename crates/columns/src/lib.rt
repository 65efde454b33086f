// The size of a sheet, and the checks of its columns. The k columns of n rows are one run, column after column.
#![tactic(auto)]

ghost use Rattle.std.specs.Prelude.{◌≡◌, MatchResult};
ghost use Rattle.columns.specs.Sheet.{size_of, over, columns_of, too_few_rows, Design};

use floats::limits::{MAX_COLUMNS, MAX_ROWS};
use floats::search::first_bad;

// Rows and columns of a sheet, within the limits of the sheet itself. With no ghost field: definitions write such a record by its two numbers, and
// that it is within the limits is part of Sheet's fact.
#[derive(Clone, Copy)]
pub struct SheetSize {
    pub rows: usize,
    pub columns: usize,
}

// Which limit is passed; of both, that of rows.
#[derive(Clone, Copy, Debug, PartialEq, Eq)]
pub enum SizeError {
    TooManyRows,
    TooManyColumns,
}

impl SheetSize {
    pub const MAX_ROWS: usize = MAX_ROWS;

    pub const MAX_COLUMNS: usize = MAX_COLUMNS;

    pub fn new(n: usize, k: usize) -> Result<SheetSize, SizeError>
        ensures { result ≡ size_of n k }
    {
        if n > SheetSize::MAX_ROWS {
            return Err(SizeError::TooManyRows);
        }
        if k > SheetSize::MAX_COLUMNS {
            return Err(SizeError::TooManyColumns);
        }
        Ok(SheetSize {
            rows: n,
            columns: k,
        })
    }
}

// What is wrong with the columns first.
#[derive(Clone, Copy, Debug, PartialEq, Eq)]
pub enum ColumnsError {
    NoColumn,
    RowsOver,
    ColumnsOver,
    WrongLength,
    NotFinite(usize),
}

impl From<SizeError> for ColumnsError {
    ghost from_gives = { λ why error. error ≡ over why };

    fn from(why: SizeError) -> ColumnsError {
        match why {
            SizeError::TooManyRows => ColumnsError::RowsOver,
            SizeError::TooManyColumns => ColumnsError::ColumnsOver,
        }
    }
}

// The size of sound columns, or what is wrong with them.
pub fn check_columns(columns: &[f64], n: usize, k: usize) -> Result<SheetSize, ColumnsError>
    ensures { result ≡ columns_of columns.now n k }
{
    if k == 0 {
        return Err(ColumnsError::NoColumn);
    }
    let size = SheetSize::new(n, k)?;
    if columns.len() != size.columns * size.rows {
        return Err(ColumnsError::WrongLength);
    }
    match first_bad(columns) {
        Some(t) => Err(ColumnsError::NotFinite(t)),
        None => Ok(size),
    }
}

// Sound columns with their size: k columns of n rows within the limits.
#[derive(Clone, Copy)]
pub struct Sheet<'a> {
    pub run: &'a [f64],
    pub size: SheetSize,
    pub ghost design: { Design size run.now },
}

impl<'a> Sheet<'a> {
    // The sheet, or what is wrong with its columns.
    pub fn new(run: &'a [f64], n: usize, k: usize) -> Result<Sheet<'a>, ColumnsError>
        ensures { MatchResult result (λ sheet. (sheet.run ≡ run.entry) × (columns_of run.entry.now n k ≡ Ok sheet.size)) (λ why. columns_of run.entry.now n k ≡ Err why) }
    {
        let size = check_columns(run, n, k)?;
        Ok(Sheet { run, size })
    }
}

// No more rows than columns: then nothing is left to test.
pub fn too_few_rows(size: SheetSize) -> bool
    ensures { result ≡ too_few_rows size.rows size.columns }
{
    size.rows <= size.columns
}
