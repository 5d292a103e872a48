//! How an explanation reads: a few lines in plain words, with numbers, without a line feed at the end.
ghost use Rattle.std.specs.Prelude.{◌≡◌, Some};
ghost use Rattle.heap_layout.specs.Versions.{version_of};
ghost use Rattle.comp_audit.specs.Wording.{counts_text, explanation_text, head_text, lost_text, missing_text, root_text, totals_text, uses_text};

mod claims;
mod entries;
mod words;

use crate::explanation::{
    DumpCounts, Explanation, HeadCause, MissingPage, RootAt, StampLost, StampUses, Totals,
};
use heap_layout::Edition;
use std::fmt::{Display, Formatter, Result, Write};

impl Display for DumpCounts {
    ghost output = { λ counts. Some (counts_text counts.built counts.pages counts.entries) };

    fn fmt<W: Write>(&self, f: &mut Formatter<W>) -> Result {
        write!(
            f,
            "built {} of {} pages\nentries {}",
            self.built, self.pages, self.entries
        )
    }
}

impl Display for RootAt {
    ghost output = { λ root. Some (root_text root) };

    fn fmt<W: Write>(&self, f: &mut Formatter<W>) -> Result {
        write!(
            f,
            "root {} is {}, not {}",
            self.number, self.is, self.should_be
        )
    }
}

impl Display for HeadCause {
    ghost output = { λ cause. Some (head_text cause) };

    fn fmt<W: Write>(&self, f: &mut Formatter<W>) -> Result {
        match self {
            HeadCause::Edition(is, should_be) => {
                write!(
                    f,
                    "edition {}, not {}",
                    edition_number(*is),
                    edition_number(*should_be)
                )
            }
            HeadCause::Pages(is, should_be) => write!(f, "pages {is}, not {should_be}"),
            HeadCause::Roots(is, should_be) => write!(f, "roots {is}, not {should_be}"),
            HeadCause::Root(root) => write!(f, "{root}"),
        }
    }
}

impl Display for Totals {
    ghost output = { λ totals. Some (totals_text totals) };

    fn fmt<W: Write>(&self, f: &mut Formatter<W>) -> Result {
        write!(f, "live words {}, not {}", self.is, self.should_be)
    }
}

impl Display for StampUses {
    ghost output = { λ uses. Some (uses_text uses) };

    fn fmt<W: Write>(&self, f: &mut Formatter<W>) -> Result {
        write!(
            f,
            "{} entries have stamp {}, the first on page {}, the last on page {}",
            self.entries, self.stamp, self.first_page, self.last_page
        )
    }
}

impl Display for StampLost {
    ghost output = { λ lost. Some (lost_text lost) };

    fn fmt<W: Write>(&self, f: &mut Formatter<W>) -> Result {
        write!(
            f,
            "none of {} entries has stamp {}",
            self.entries, self.stamp
        )
    }
}

impl Display for MissingPage {
    ghost output = { λ missing. Some (missing_text missing) };

    fn fmt<W: Write>(&self, f: &mut Formatter<W>) -> Result {
        write!(
            f,
            "page {} of {} was never built",
            self.page, self.compacted
        )
    }
}

impl Display for Explanation {
    ghost output = { λ explanation. Some (explanation_text explanation) };

    fn fmt<W: Write>(&self, f: &mut Formatter<W>) -> Result {
        match self {
            Explanation::WrongWord(word) => write!(f, "{word}"),
            Explanation::LooseReference(word) => write!(f, "{word}"),
            Explanation::BadEntry(entry) => write!(f, "{entry}"),
            Explanation::StampRepeated(uses) => write!(f, "{uses}"),
            Explanation::StampMissing(lost) => write!(f, "{lost}"),
            Explanation::WrongTotal(totals) => write!(f, "{totals}"),
            Explanation::BuildUnclaimed(claims) => write!(f, "{claims}"),
            Explanation::WrongHead(cause) => write!(f, "{cause}"),
            Explanation::PageMissing(missing) => write!(f, "{missing}"),
            Explanation::NoSuchFault => f.write_str("the dump does not have this fault"),
        }
    }
}

// The number of an edition.
fn edition_number(edition: Edition) -> u32
    ensures { result ≡ version_of edition }
{
    match edition {
        Edition::One => 1,
        Edition::Two => 2,
        Edition::Three => 3,
        Edition::Four => 4,
    }
}
