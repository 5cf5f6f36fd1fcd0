//! How much is printed.

ghost use Rattle.std.specs.Prelude.{◌≡◌, ◌≤◌, ◌==◌, length, take};
ghost use Rattle.lgp_when.specs.When.{return_code, rows_in};
ghost use Rattle.lgp_when.specs.Meeting.{IsPaperOf};

use lgp_flexo::Code;

/// How many codes are printed, and how many rows they end.
#[derive(Clone, Copy)]
pub(crate) struct Paper {
    pub(crate) codes: usize,
    pub(crate) rows: usize,
}

/// The code of the carriage return.
const RETURN_CODE: u8 = 16;

/// Whether a code ends a row.
fn ends_row(code: &Code) -> bool
    ensures { result ≡ (code.now == return_code) }
{
    code.number() == RETURN_CODE
}

/// How many rows codes end.
fn rows_in(codes: &[Code]) -> usize
    ensures { result ≡ rows_in codes.now }
{
    codes.iter().filter(|code| ends_row(code)).count()
}

impl Paper {
    /// What these printed codes are.
    pub(crate) fn of(printed: &[Code]) -> Paper
        ensures { IsPaperOf result printed.now }
    {
        Paper {
            codes: printed.len(),
            rows: rows_in(printed),
        }
    }

    /// What these printed codes are, of which the first were looked at already.
    pub(crate) fn with_more(self, printed: &[Code]) -> Paper
        requires within { self.codes ≤ length printed.now }
        requires first { IsPaperOf self (take self.codes printed.now) }
        ensures { IsPaperOf result printed.now }
    {
        Paper {
            codes: printed.len(),
            rows: self.rows + rows_in(&printed[self.codes..]),
        }
    }
}
