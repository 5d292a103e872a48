//! How it reads who says that a page was built.
ghost use Rattle.std.specs.Prelude.{Some};
ghost use Rattle.comp_audit.specs.Wording.{claim_line, claim_lines, claims_text};

use crate::explanation::Claims;
use std::fmt::{Display, Formatter, Result, Write};

// The line of a mutator whose list of builds names a page so many times, if it names it.
#[derive(Clone, Copy)]
struct ClaimLine {
    mutator: usize,
    times: u32,
}

impl Display for ClaimLine {
    ghost output = { λ line. Some (claim_line line.mutator line.times) };

    fn fmt<W: Write>(&self, f: &mut Formatter<W>) -> Result {
        if self.times == 0 {
            return Ok(());
        }
        let (mutator, times) = (self.mutator, self.times);
        write!(f, "\nmutator {mutator} names it {times} times")
    }
}

// The lines of all mutators, of which each names a page so many times.
#[derive(Clone, Copy)]
struct ClaimLines<'a>(&'a [u32; 64]);

impl Display for ClaimLines<'_> {
    ghost output = { λ lines. Some (claim_lines lines.0.now) };

    fn fmt<W: Write>(&self, f: &mut Formatter<W>) -> Result {
        for (mutator, &times) in self.0.iter().enumerate() {
            let line = ClaimLine { mutator, times };
            write!(f, "{line}")?;
        }
        Ok(())
    }
}

impl Display for Claims {
    ghost output = { λ claims. Some (claims_text claims) };

    fn fmt<W: Write>(&self, f: &mut Formatter<W>) -> Result {
        let built = if self.is_built { "built" } else { "not built" };
        let lines = ClaimLines(&self.by);
        write!(
            f,
            "page {} is {built}, and named {} times{lines}",
            self.page, self.named
        )
    }
}
