// The test for callers in C or Rust: numbers and runs only. link/dwexport.h says the same for C.
#![tactic(auto)]

ghost use Rattle.std.specs.Prelude.{◌≡◌, ◌+◌, length, drop, IfOk};
ghost use Rattle.outcome.specs.Codes.{alternative_of, choice_of};
ghost use Rattle.dwexport.specs.Call.{error_number, status_in, status_of, result_of, matrix_after, parts_after};

use lines::{WORDS, fields_of};
use outcome::{Alternative, Choice};

// Why a call is not answered: a result of another length, no such alternative, no such choice.
#[derive(Clone, Copy, Debug, PartialEq, Eq)]
enum CallError {
    Words,
    Alternative,
    Choice,
}

// What the call returns then.
impl From<CallError> for u32 {
    ghost from_gives = { λ why number. number ≡ error_number why };

    fn from(why: CallError) -> u32 {
        match why {
            CallError::Words => 1,
            CallError::Alternative => 2,
            CallError::Choice => 3,
        }
    }
}

// The alternative and the choice of a call whose result has `words` words.
fn asked(words: usize, alternative: u32, choice: u32) -> Result<(Alternative, Choice), CallError>
    ensures status { status_in result ≡ status_of words alternative choice }
    ensures codes { IfOk result (λ asked. (asked.0 ≡ alternative_of alternative) × (asked.1 ≡ choice_of choice)) }
{
    if words != WORDS {
        return Err(CallError::Words);
    }
    let alternative = Alternative::try_from(alternative).map_err(|_| CallError::Alternative)?;
    let choice = Choice::try_from(choice).map_err(|_| CallError::Choice)?;
    Ok((alternative, choice))
}

// Puts the words behind the first into a run of just as many.
fn put_words(words: &[u64], answer: &mut [u64])
    requires { length words.now ≡ length answer.old + 1 }
    ensures { answer.new ≡ drop 1 words.now }
{
    answer.copy_from_slice(&words[1..]);
}

// The Durbin-Watson test of the residuals and of the k columns, which stand one after another in `columns`. Codes: alternative 0 greater, 1 less, 2
// two-sided; choice 0 default, 1 exact, 2 normal. Answers 0, and `answer` holds the fields of the sheet program's line from the refusal on, one word
// each. Else `answer` and both rooms stay as they were: 1 `answer` has not WORDS words, 2 no such alternative, 3 no such choice.
#[unsafe(no_mangle)]
pub extern "C" fn dwexport_test(
    residuals: &[f64],
    columns: &[f64],
    k: usize,
    alternative: u32,
    choice: u32,
    matrix: &mut [f64],
    parts: &mut [f64],
    answer: &mut [u64],
) -> u32
    ensures value { result ≡ status_of (length answer.old) alternative choice }
    ensures answer_after { answer.new ≡ result_of residuals.now columns.now k alternative choice matrix.old parts.old answer.old }
    ensures matrix_after { matrix.new ≡ matrix_after residuals.now columns.now k alternative choice matrix.old parts.old answer.old }
    ensures parts_after { parts.new ≡ parts_after residuals.now columns.now k alternative choice matrix.old parts.old answer.old }
{
    match asked(answer.len(), alternative, choice) {
        Ok((alternative, choice)) => {
            let outcome = dwtest::durbin_watson_test(
                residuals,
                columns,
                k,
                alternative,
                choice,
                matrix,
                parts,
            );
            put_words(&fields_of(0, outcome), answer);
            0
        }
        Err(why) => why.into(),
    }
}
