//! Reads texts, up to a line that is too long.
ghost use Rattle.std.specs.Prelude.{◌≡◌, ◌-◌, ◌^◌, ◌<◌, ◌≤◌, ◌++◌, ℕ, List, None, length, take, IfOk, IfSome};
ghost use Rattle.heap_layout.specs.Counted.{inner_of, failures_of};
ghost use Rattle.command_io.specs.LongLines.{longest, read_by, read_of};
ghost use Rattle.command_io.specs.Reading.{CountsUnread};

use heap_layout::Counted;
use std::alloc::Global;
use std::io::Read;

/// Why a text was not read.
#[derive(Clone, Copy, Debug, PartialEq, Eq)]
pub(crate) enum Unread {
    /// A call of the reader returned an error.
    Failed,
    /// An allocation failed.
    OutOfMemory,
}

// The greatest number of bytes that one call of the reader fetches.
pub(crate) const PIECE: usize = 65_536;

// The greatest number of bytes of a line, its line feed not counted.
const LONGEST: usize = 1_024;

/// Reads to the end of the reader, or up to the byte by which a line is longer than 1,024 bytes: that byte is the last
/// of the text, and more may be left. The first call of the reader that returns an error ends the reading, an
/// interrupted call too.
pub(crate) fn text_in<S: Read>(alloc: Global, r: &mut Counted<S>) -> Result<Vec<u8>, Unread>
    requires read { failures_of r.old < 2 ^ 64 - 1 }
    ensures text { IfOk result (λ text. IfSome (S.remaining (inner_of r.old)) (λ bytes. read_of bytes ≡ text.items)) }
    ensures reads { CountsUnread (failures_of r.old) (failures_of r.new) result }
{
    let Ok(mut piece) = vec![in alloc; 0u8; PIECE] else {
        return Err(Unread::OutOfMemory);
    };
    text_by(alloc, r, &mut piece)
}

// The same, in pieces of this buffer.
fn text_by<S: Read>(alloc: Global, r: &mut Counted<S>, piece: &mut [u8]) -> Result<Vec<u8>, Unread>
    requires read { failures_of r.old < 2 ^ 64 - 1 }
    requires room { 0 < length piece.old }
    ensures text { IfOk result (λ text. IfSome (S.remaining (inner_of r.old)) (λ bytes. read_of bytes ≡ text.items)) }
    ensures reads { CountsUnread (failures_of r.old) (failures_of r.new) result }
{
    let mut text = Vec::new(alloc);
    let mut room = LONGEST;
    for _turn in 0..u64::MAX {
        match r.read(piece) {
            Ok(0) => return Ok(text),
            Ok(n) => {
                let fetched = &piece[..n];
                let kept = kept_of(fetched, room);
                if text.extend_from_slice(&fetched[..kept.count]).is_err() {
                    return Err(Unread::OutOfMemory);
                }
                match kept.room {
                    None => return Ok(text),
                    Some(left) => room = left,
                }
            }
            Err(_) => return Err(Unread::Failed),
        }
    }
    unreachable!()
}

// How many bytes of a piece are read, and for how many more bytes its last line has room: None if the last byte that
// is read has no room.
#[derive(Clone, Copy)]
struct Kept {
    count: usize,
    room: Option<usize>,
}

// What is read of a piece whose first line has room for this many bytes.
fn kept_of(piece: &[u8], room: usize) -> Kept
    requires { room ≤ longest }
    ensures within { result.count ≤ length piece.now }
    ensures cut { result.room ≡ None → (more : List ℕ) → read_by longest room (piece.now ++ more) ≡ take result.count piece.now }
    ensures goes_on { IfSome result.room (λ left. (left ≤ longest) × (result.count ≡ length piece.now)
        × ((more : List ℕ) → read_by longest room (piece.now ++ more) ≡ piece.now ++ read_by longest left more)) }
{
    let mut left = room;
    for i in 0..piece.len() {
        if piece[i] == b'\n' {
            left = LONGEST;
        } else if left == 0 {
            return Kept {
                count: i + 1,
                room: None,
            };
        } else {
            left -= 1;
        }
    }
    Kept {
        count: piece.len(),
        room: Some(left),
    }
}
