// What the columns decide beside the eigenvalues: the inverse and the law.
ghost use Rattle.std.specs.Prelude.{◌≡◌, IfOk};
ghost use Rattle.design.specs.Inverse.{inverse_of};
ghost use Rattle.outcome.specs.Refusals.{first_of, refusal_in};
ghost use Rattle.dwtest.specs.Layout.{design_checks, layout_from};

use columns::Sheet;
use design::{LawError, Matrix};
use elementary::NormalLaw;
use floats::limits::MAX_COLUMNS;
use outcome::refusals::{TestError, check_inverse};

// (X'X)^-1, where nothing is refused.
pub fn invert(sheet: Sheet) -> Result<Matrix, TestError>
    ensures refusal { refusal_in result ≡ first_of (design_checks sheet.entry.run.now sheet.entry.size.rows sheet.entry.size.columns) }
    ensures inverse { IfOk result (λ found. found ≡ inverse_of sheet.entry.run.now sheet.entry.size.rows sheet.entry.size.columns) }
{
    let mut l = [[0.0f64; MAX_COLUMNS]; MAX_COLUMNS];
    design::factor(sheet, &mut l)?;
    check_inverse(
        design::inverse_of_factor(l, sheet.size.columns),
        sheet.size.columns,
    )
}

// The normal law, or why it does not serve.
pub fn law_of(sheet: Sheet, inverse: Matrix) -> Result<NormalLaw, LawError>
    ensures { result ≡ (layout_from sheet.entry.run.now sheet.entry.size.rows sheet.entry.size.columns inverse).law }
{
    design::check_law(design::normal_law(sheet, inverse))
}
