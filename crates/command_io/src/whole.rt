//! Reads whole files.
ghost use Rattle.std.specs.Prelude.{◌≡◌, ◌-◌, ◌^◌, ◌<◌, length, IfOk, IfSome};
ghost use Rattle.heap_layout.specs.Counted.{inner_of, failures_of};
ghost use Rattle.command_io.specs.Reading.{CountsUnread};

use crate::texts::{PIECE, Unread};
use heap_layout::Counted;
use std::alloc::Global;
use std::io::Read;

/// Reads to the end of the reader, whatever its lines are. The first call of the reader that returns an error ends the
/// reading, an interrupted call too.
pub(crate) fn whole_in<S: Read>(alloc: Global, r: &mut Counted<S>) -> Result<Vec<u8>, Unread>
    requires read { failures_of r.old < 2 ^ 64 - 1 }
    ensures whole { IfOk result (λ whole. IfSome (S.remaining (inner_of r.old)) (λ bytes. bytes ≡ whole.items)) }
    ensures reads { CountsUnread (failures_of r.old) (failures_of r.new) result }
{
    let Ok(mut piece) = vec![in alloc; 0u8; PIECE] else {
        return Err(Unread::OutOfMemory);
    };
    whole_by(alloc, r, &mut piece)
}

// The same, in pieces of this buffer.
fn whole_by<S: Read>(alloc: Global, r: &mut Counted<S>, piece: &mut [u8]) -> Result<Vec<u8>, Unread>
    requires read { failures_of r.old < 2 ^ 64 - 1 }
    requires room { 0 < length piece.old }
    ensures whole { IfOk result (λ whole. IfSome (S.remaining (inner_of r.old)) (λ bytes. bytes ≡ whole.items)) }
    ensures reads { CountsUnread (failures_of r.old) (failures_of r.new) result }
{
    let mut whole = Vec::new(alloc);
    for _turn in 0..u64::MAX {
        match r.read(piece) {
            Ok(0) => return Ok(whole),
            Ok(n) => {
                if whole.extend_from_slice(&piece[..n]).is_err() {
                    return Err(Unread::OutOfMemory);
                }
            }
            Err(_) => return Err(Unread::Failed),
        }
    }
    unreachable!()
}
