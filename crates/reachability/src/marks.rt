//! The marks, read off the bits of the objects that were met.
ghost use Rattle.std.specs.Prelude.{◌≡◌, ◌+◌, ◌*◌, ◌^◌, ◌<◌, ◌≤◌, length, IfOk, OnOk};
ghost use Rattle.reachability.specs.Queue.{met_below};

use std::alloc::AllocError;

// Puts the indices of the objects of block `b` that were met after those of the blocks before it.
fn push_block(
    list: &mut Vec<u32>,
    starts: &[u64],
    unmet: &[u64],
    b: usize,
) -> Result<(), AllocError>
    requires inside { b < length starts.now }
    requires same { length unmet.now ≡ length starts.now }
    requires few { length starts.now ≤ 2 ^ 25 }
    requires before { list.old.items ≡ met_below starts.now unmet.now (64 * b) }
    ensures { OnOk result (list.new.items ≡ met_below starts.now unmet.now (64 * (b + 1))) }
{
    let mut rest = starts[b] & !unmet[b];
    let mut i = 64 * b;
    while rest != 0 {
        let gap = rest.trailing_zeros();
        i += gap as usize;
        list.push(i as u32)?;
        rest = (rest >> gap) >> 1;
        i += 1;
    }
    Ok(())
}

/// The indices of the objects that were met, rising. `starts` has the bits of all objects, `unmet` those of the others.
/// The answer takes the place of what is in `list`, and its memory. Blocks where no object was met are skipped.
pub(crate) fn indices(
    mut list: Vec<u32>,
    starts: &[u64],
    unmet: &[u64],
) -> Result<Vec<u32>, AllocError>
    requires same { length unmet.now ≡ length starts.now }
    requires few { length starts.now ≤ 2 ^ 25 }
    ensures { IfOk result (λ list. list.items ≡ met_below starts.now unmet.now (64 * length starts.now)) }
{
    list.clear();
    for b in 0..starts.len() {
        push_block(&mut list, starts, unmet, b)?;
    }
    Ok(list)
}
