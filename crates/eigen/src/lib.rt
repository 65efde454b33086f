// The eigenvalues of M A that the exact test uses: in falling order, cut to n - k, above 1e-10.
#![tactic(auto)]

ghost use Rattle.std.specs.Prelude.{◌≡◌, ◌++◌, ◌≤◌, length, take, drop};
ghost use Rattle.floats.specs.Tables.{triangle};
ghost use Rattle.floats.specs.Matrix.{whole, half_of};
ghost use Rattle.floats.specs.Limits.{max_rows, matrix_room};
ghost use Rattle.projection.specs.Projection.{residual_maker};
ghost use Rattle.tridiagonal.specs.Reflection.{tridiagonal_of};
ghost use Rattle.eigen.specs.Spectrum.{delivered_of, delivered_numbers, spectrum_of, kept_numbers, front_of};

pub mod order;

use columns::{Sheet, SheetSize};
use design::Matrix;
use floats::limits::MAX_ROWS;
use floats::tally::Tally;
use ql::Swept;

// How many eigenvalues are kept, the sweeps that they took, and whether an index of the QL step still had a coupling left after its turn.
#[derive(Clone, Copy)]
pub struct Numbers {
    pub count: usize,
    pub work: Tally,
    // kept as a flag: the count and the work beside it are there whether or not a coupling was left
    pub stuck: bool,
}

#[derive(Clone, Copy, Debug, PartialEq, Eq)]
pub enum SpectrumError {
    // An entry of M A M is not finite.
    MatrixNotFinite,
    // One of the n numbers that the QL step delivers is not finite.
    NumberNotFinite,
}

// The eigenvalues of the symmetric matrix of n rows whose lower triangle is in the front of the room. `d` and `e` are room for its bands, n numbers each.
fn delivered(
    room: &mut [f64],
    size: SheetSize,
    d: &mut [f64],
    e: &mut [f64],
    kept: &mut [f64],
) -> Result<Numbers, SpectrumError>
    requires { (triangle size.rows ≤ length room.old) × (size.rows ≤ max_rows) × (size.columns ≤ size.rows) × (length d.old ≡ size.rows) × (length e.old ≡ size.rows) × (size.rows ≤ length kept.old) }
    ensures value { result ≡ delivered_of size.rows size.columns (whole size.rows (take (triangle size.rows) room.old)) }
    ensures room_after { room.new ≡ half_of size.rows (tridiagonal_of size.rows (whole size.rows (take (triangle size.rows) room.old))) ++ drop (triangle size.rows) room.old }
    ensures kept_after { kept.new ≡ delivered_numbers size.rows size.columns (whole size.rows (take (triangle size.rows) room.old)) ++ drop (length (delivered_numbers size.rows size.columns (whole size.rows (take (triangle size.rows) room.old)))) kept.old }
{
    let n = size.rows;
    let k = size.columns;
    let half = halves::place(n, 0);
    tridiagonal::tridiagonalize(&mut room[..half], n);
    tridiagonal::bands(&room[..half], n, d, e);
    let Swept { work, stuck } = ql::ql(d, e, n, Tally::new());
    if floats::search::first_bad(d).is_some() {
        return Err(SpectrumError::NumberNotFinite);
    }
    order::order(d, n);
    let count = order::keep(d, n - k, kept);
    Ok(Numbers { count, work, stuck })
}

// The kept eigenvalues into the front of `kept`, how many, and the sweeps. The first n (n + 1) numbers of the room are worked in. A function of its
// own in what is compiled too, so that only exact calls have its runs on their stack.
#[inline(never)]
pub fn ma_eigenvalues(
    sheet: Sheet,
    inverse: Matrix,
    room: &mut [f64],
    kept: &mut [f64],
) -> Result<Numbers, SpectrumError>
    requires { (sheet.size.columns ≤ sheet.size.rows) × (matrix_room sheet.size.rows ≤ length room.old) × (sheet.size.rows ≤ length kept.old) }
    ensures value { result ≡ spectrum_of sheet.entry.run.now inverse sheet.entry.size.rows sheet.entry.size.columns }
    ensures kept_after { kept.new ≡ kept_numbers sheet.entry.run.now inverse sheet.entry.size.rows sheet.entry.size.columns ++ drop (length (kept_numbers sheet.entry.run.now inverse sheet.entry.size.rows sheet.entry.size.columns)) kept.old }
    ensures room_after { room.new ≡ front_of sheet.entry.run.now inverse sheet.entry.size.rows sheet.entry.size.columns ++ (half_of sheet.entry.size.rows (residual_maker sheet.entry.run.now inverse sheet.entry.size.rows sheet.entry.size.columns) ++ drop (matrix_room sheet.entry.size.rows) room.old) }
{
    let n = sheet.size.rows;
    if projection::mam(room, sheet, inverse).is_some() {
        return Err(SpectrumError::MatrixNotFinite);
    }
    let mut d = [0.0f64; MAX_ROWS];
    let mut e = [0.0f64; MAX_ROWS];
    delivered(room, sheet.size, &mut d[..n], &mut e[..n], kept)
}
