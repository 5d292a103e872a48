//! Where a test is.
use std::fmt::{Display, Formatter, Result, Write};

/// A row of a case, or another number that says where in the case a test is. A failing test prints it.
#[derive(Clone, Copy)]
pub struct At<'a> {
    pub case: &'a str,
    pub row: u64,
}

impl<'a> At<'a> {
    /// Row `row` of a case.
    pub fn new(case: &'a str, row: usize) -> At<'a> {
        At {
            case,
            row: row as u64,
        }
    }

    /// Row 0 of a round of a case. The rows of round r count from 1,000 * r.
    pub fn of_round(case: &'a str, round: usize) -> At<'a> {
        At {
            case,
            row: (round as u64).wrapping_mul(1_000),
        }
    }

    /// The row that is `rows` rows further.
    pub fn after(self, rows: usize) -> At<'a> {
        At {
            case: self.case,
            row: self.row.wrapping_add(rows as u64),
        }
    }
}

impl Display for At<'_> {
    fn fmt<W: Write>(&self, f: &mut Formatter<W>) -> Result {
        write!(f, "{}, row {}", self.case, self.row)
    }
}
