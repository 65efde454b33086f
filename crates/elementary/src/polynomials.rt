// Polynomials by Horner's rule (specs/Horner.antt).
ghost use Rattle.std.specs.Prelude.{◌≡◌};
ghost use Rattle.elementary.specs.Horner.{horner};

// The polynomial with the coefficients of `table`, that of the highest power first. The compiler works the chain out
// where the table is known.
pub fn horner(table: &[f64], x: f64) -> f64
    ensures { result ≡ horner table.now x }
{
    table
        .iter()
        .copied()
        .reduce(|p, c| p * x + c)
        .unwrap_or(0.0)
}
