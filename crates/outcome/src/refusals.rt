// Document 01's refusals: why the test refuses a sheet, and the numbers and places of that.
ghost use Rattle.std.specs.Prelude.{◌≡◌, ◌≤◌};
ghost use Rattle.floats.specs.Limits.{max_rows, max_columns};
ghost use Rattle.outcome.specs.Refusals.{refusal_of, law_error, spectrum_error, records_error, rows_of, inverse_in, rooms_of};
ghost use Rattle.outcome.specs.Rooms.{room_of};
ghost use Rattle.outcome.specs.declared.refusals.Stage.TheVariants.{Integral};
ghost use Rattle.outcome.specs.declared.refusals.TestError.TheVariants as error;

use super::Refusal;
use super::rooms::matrix_room;
use autocorrelation::StatisticError;
use columns::{ColumnsError, SheetSize};
use design::{FailedPivot, LawError, Matrix};
use eigen::SpectrumError;
use records::RecordsError;

// Where on the way a number is not finite.
#[derive(Clone, Copy, Debug, PartialEq, Eq)]
pub enum Stage {
    Inverse,
    Product,
    Eigenvalues,
    Integral,
    Law,
}

// Why a sheet is refused, in the order tried.
#[derive(Clone, Copy, Debug, PartialEq, Eq)]
pub enum TestError {
    Columns(ColumnsError),
    Statistic(StatisticError),
    // No more rows than columns.
    FewRows,
    Pivot(FailedPivot),
    // The room lent for the matrix, or for the parts, is too small.
    MatrixRoom,
    PartRoom,
    NotFinite(Stage),
    // The law's variance is not above 0.
    NotSpread,
}

impl From<ColumnsError> for TestError {
    ghost from_gives = { λ why e. e ≡ error.Columns why };

    fn from(why: ColumnsError) -> TestError {
        TestError::Columns(why)
    }
}

impl From<StatisticError> for TestError {
    ghost from_gives = { λ why e. e ≡ error.Statistic why };

    fn from(why: StatisticError) -> TestError {
        TestError::Statistic(why)
    }
}

impl From<FailedPivot> for TestError {
    ghost from_gives = { λ why e. e ≡ error.Pivot why };

    fn from(why: FailedPivot) -> TestError {
        TestError::Pivot(why)
    }
}

impl From<SpectrumError> for TestError {
    ghost from_gives = { λ why e. e ≡ spectrum_error why };

    fn from(why: SpectrumError) -> TestError {
        match why {
            SpectrumError::MatrixNotFinite => TestError::NotFinite(Stage::Product),
            SpectrumError::NumberNotFinite => TestError::NotFinite(Stage::Eigenvalues),
        }
    }
}

impl From<imhof::NotFinite> for TestError {
    ghost from_gives = { λ _ e. e ≡ error.NotFinite Integral };

    fn from(_why: imhof::NotFinite) -> TestError {
        TestError::NotFinite(Stage::Integral)
    }
}

impl From<RecordsError> for TestError {
    ghost from_gives = { λ why e. e ≡ records_error why };

    fn from(why: RecordsError) -> TestError {
        match why {
            RecordsError::RoomShort => TestError::PartRoom,
            RecordsError::NotFinite => TestError::NotFinite(Stage::Integral),
        }
    }
}

impl From<LawError> for TestError {
    ghost from_gives = { λ why e. e ≡ law_error why };

    fn from(why: LawError) -> TestError {
        match why {
            LawError::NotFinite => TestError::NotFinite(Stage::Law),
            LawError::NotSpread => TestError::NotSpread,
        }
    }
}

// Document 01's table.
impl From<TestError> for Refusal {
    ghost from_gives = { λ why refusal. refusal ≡ refusal_of why };

    fn from(why: TestError) -> Refusal {
        let (number, place) = match why {
            TestError::Columns(ColumnsError::NoColumn) => (1, 0),
            TestError::Columns(ColumnsError::RowsOver) => (2, 0),
            TestError::Columns(ColumnsError::ColumnsOver) => (2, 1),
            TestError::Columns(ColumnsError::WrongLength) => (3, 0),
            TestError::Columns(ColumnsError::NotFinite(t)) => (4, t),
            TestError::Statistic(StatisticError::Empty) => (5, 0),
            TestError::Statistic(StatisticError::Single) => (6, 0),
            TestError::Statistic(StatisticError::NotFinite(t)) => (7, t),
            TestError::Statistic(StatisticError::ZeroSum) => (8, 0),
            TestError::Statistic(StatisticError::Overflow) => (9, 0),
            TestError::FewRows => (10, 0),
            TestError::Pivot(FailedPivot(i)) => (11, i),
            TestError::MatrixRoom => (12, 1),
            TestError::PartRoom => (12, 2),
            TestError::NotFinite(Stage::Inverse) => (13, 1),
            TestError::NotFinite(Stage::Product) => (13, 2),
            TestError::NotFinite(Stage::Eigenvalues) => (13, 3),
            TestError::NotFinite(Stage::Integral) => (13, 4),
            TestError::NotFinite(Stage::Law) => (13, 5),
            TestError::NotSpread => (14, 0),
        };
        Refusal { number, place }
    }
}

// More rows than columns.
pub fn check_rows(size: SheetSize) -> Result<(), TestError>
    ensures { result ≡ rows_of size.rows size.columns }
{
    if columns::too_few_rows(size) {
        return Err(TestError::FewRows);
    }
    Ok(())
}

// An inverse of k columns whose entries are finite.
pub fn check_inverse(inverse: Matrix, k: usize) -> Result<Matrix, TestError>
    requires { k ≤ max_columns }
    ensures { result ≡ inverse_in k inverse }
{
    if design::inverse_is_finite(inverse, k) {
        return Ok(inverse);
    }
    Err(TestError::NotFinite(Stage::Inverse))
}

// Rooms of these lengths that suffice for n rows.
pub fn check_rooms(n: usize, matrix: usize, parts: usize) -> Result<(), TestError>
    requires { n ≤ max_rows }
    ensures { result ≡ rooms_of (room_of n) matrix parts }
{
    if matrix < matrix_room(n) {
        return Err(TestError::MatrixRoom);
    }
    if parts < imhof::PART_ROOM {
        return Err(TestError::PartRoom);
    }
    Ok(())
}
