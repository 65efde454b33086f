// The Durbin-Watson statistic of a run of residuals.
#![tactic(auto)]

ghost use Rattle.std.specs.Prelude.{◌≡◌, ◌≤◌, length};
ghost use Rattle.autocorrelation.specs.Statistic.{differences, durbin_watson_answer};
ghost use Rattle.autocorrelation.specs.Bound.{Told};

// Why there is no statistic: no residual; only one; the first that is not finite, with its place; squares that sum to 0 as
// computed; a sum that is not finite.
#[derive(Clone, Copy, Debug, PartialEq, Eq)]
pub enum StatisticError {
    Empty,
    Single,
    NotFinite(usize),
    ZeroSum,
    Overflow,
}

// The squared differences of neighbours.
fn sum_squared_differences(e: &[f64]) -> f64
    requires { 1 ≤ length e.now }
    ensures { result ≡ differences e.now }
{
    e.iter().zip(&e[1..]).fold(-0.0, |s, (before, here)| {
        let d = *here - *before;
        // the Rust's powi(2): one product
        s + d * d
    })
}

// Durbin and Watson's d, the statistic that R's `lmtest::dwtest` reports.
#[tactic(auto, unfolding(crate::specs::Statistic::durbin_watson_answer))]
pub fn durbin_watson(residuals: &[f64]) -> Result<f64, StatisticError>
    ensures value { result ≡ durbin_watson_answer residuals.now }
    ensures told { Told result residuals.now }
{
    if residuals.is_empty() {
        return Err(StatisticError::Empty);
    }
    if residuals.len() == 1 {
        return Err(StatisticError::Single);
    }
    if let Some(t) = floats::search::first_bad(residuals) {
        return Err(StatisticError::NotFinite(t));
    }
    let squares = floats::sums::sum_squares(residuals);
    if squares == 0.0 {
        return Err(StatisticError::ZeroSum);
    }
    if !floats::signs::is_finite(squares) {
        return Err(StatisticError::Overflow);
    }
    let differences = sum_squared_differences(residuals);
    if !floats::signs::is_finite(differences) {
        return Err(StatisticError::Overflow);
    }
    Ok(differences / squares)
}
