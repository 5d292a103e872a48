//! To-space, cut into pages.
ghost use Rattle.std.specs.Prelude.{◌≡◌, ◌<◌, length, min, IfOk};
ghost use Rattle.first_touch.specs.Asked.{IsCutIn};
ghost use Rattle.first_touch.specs.Rows.{AreRows};

use crate::source::Source;
use std::alloc::{AllocError, Global};

/// How many words the next page has, if so many words are left.
pub(crate) fn page_size(size: usize, left: usize) -> usize
    ensures { result ≡ min size left }
{
    if size < left { size } else { left }
}

/// Cuts to-space into pages, of which the last one may be shorter.
pub(crate) fn rows<'m>(
    alloc: Global,
    source: &Source<'m>,
    to: &'m mut [u64],
) -> Result<Vec<Option<&'m mut [u64]>>, AllocError>
    requires some { 0 < source.now.size }
    requires room { length to.old ≡ length source.now.found.indices }
    ensures rows { IfOk result (λ rows. AreRows source.now rows.items) }
    ensures cut { IfOk result (λ rows. IsCutIn source.now (length rows.items)) }
{
    let size = source.size();
    let mut rows = Vec::new(alloc);
    let mut rest = to;
    while rest.len() > 0 {
        let n = page_size(size, rest.len());
        let (page, behind) = rest.split_at_mut(n);
        rows.push(Some(page))?;
        rest = behind;
    }
    Ok(rows)
}
