//! Reads and writes whole parts, of many bytes, by as many calls as the device needs.
ghost use Rattle.std.specs.Prelude.{◌≡◌, ℕ, ◌^◌, ◌-◌, ◌<◌, length, slice_index, IfErr, IfSome, OnOk};
ghost use Rattle.std.specs.Io.KnownBytes.{Consumes};
ghost use Rattle.heap_layout.specs.Counted.{inner_of, failures_of};
ghost use Rattle.heap_layout.specs.Parts.{CutsBefore, CountsCut};
ghost use Rattle.heap_layout.specs.Writing.{Writes, CountsOne};
ghost use Rattle.heap_layout.specs.declared.parts.Cut.TheVariants as cuts;

use crate::counted::Counted;
use std::io::{Error, ErrorKind, Read, Write};

/// Why a part was not read whole.
#[derive(Clone, Copy, Debug, PartialEq, Eq)]
pub enum Cut {
    /// The bytes of the reader ended within it.
    Ended,
    /// A call of the reader failed, even if it was only interrupted.
    Failed,
}

/// Fills the buffer. The first call of the reader that fails ends it. After an Err the bytes that were read are lost,
/// and the buffer may have changed. Fewer than `u64::MAX` calls of the reader may have failed before.
pub fn fill<R: Read>(r: &mut Counted<R>, buf: &mut [u8]) -> Result<(), Cut>
    requires { failures_of r.old < 2 ^ 64 - 1 }
    ensures read { OnOk result (Consumes (R.remaining (inner_of r.old)) (R.remaining (inner_of r.new)) buf.new) }
    ensures small { (i : ℕ) → slice_index buf.new i < 2 ^ 8 }
    ensures cut { IfErr result (λ cut. IfSome (R.remaining (inner_of r.old)) (CutsBefore (length buf.old) cut)) }
    ensures ended { IfErr result (λ cut. cut ≡ cuts.Ended → IfSome (R.remaining (inner_of r.old)) (λ bytes. (i : ℕ) → slice_index bytes i < 2 ^ 8)) }
    ensures counts { CountsCut (failures_of r.old) (failures_of r.new) result }
{
    let mut filled = 0;
    while filled < buf.len() {
        match r.read(&mut buf[filled..]) {
            Ok(0) => return Err(Cut::Ended),
            Ok(n) => filled += n,
            Err(_) => return Err(Cut::Failed),
        }
    }
    Ok(())
}

/// Writes a whole part. The first call of the writer that fails ends it, even if it was only interrupted, and also one
/// that takes no byte. What was taken before stays written.
pub fn write_part<W: Write>(w: &mut Counted<W>, part: &[u8]) -> std::io::Result<()>
    ensures writes { Writes (W.contents (inner_of w.old)) (W.contents (inner_of w.new)) part.now result }
    ensures counts { CountsOne (failures_of w.old) (failures_of w.new) result }
{
    let mut taken = 0;
    while taken < part.len() {
        let n = w.write(&part[taken..])?;
        if n == 0 {
            return Err(Error::from(ErrorKind::WriteZero));
        }
        taken += n;
    }
    Ok(())
}
