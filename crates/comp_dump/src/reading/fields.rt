//! Reads the numbers and the fixed bytes of a dump, and of other files that are read as it. After an Err the bytes that
//! were read are lost. Fewer than `u64::MAX` calls of the reader must have failed before each call.
ghost use Rattle.std.specs.Prelude.{◌≡◌, ℕ, ◌-◌, ◌^◌, ◌<◌, ◌≤◌, IfOk, IfErr, IfSome, OnOk, length, slice_index};
ghost use Rattle.std.specs.Io.KnownBytes.{Consumes, IsAtEnd};
ghost use Rattle.byteorder.specs.Endian.{little_bytes};
ghost use Rattle.heap_layout.specs.Counted.{inner_of, failures_of};
ghost use Rattle.heap_layout.specs.Versions.{version_of, IsRead};
ghost use Rattle.comp_dump.specs.DumpEncoding.{four_bytes};
ghost use Rattle.comp_dump.specs.DumpReading as reading;
ghost use Rattle.comp_dump.specs.DumpReading.{expected, number, word, CountsFailure, EndsBefore, RefusesEnd, Stops};
ghost use Rattle.comp_dump.specs.declared.fault.DumpFault.TheVariants.{Truncated};

use crate::fault::DumpFault;
use byteorder::{ByteOrder, LittleEndian};
use heap_layout::{Counted, Cut, Edition, edition_of, fill};
use std::io::Read;

/// The first bytes of a dump.
pub(crate) const MAGIC: [u8; 8] = *b"COMPDUMP";

/// Fills the buffer.
pub(crate) fn read_part<R: Read>(r: &mut Counted<R>, buf: &mut [u8]) -> Result<(), DumpFault>
    requires { failures_of r.old < 2 ^ 64 - 1 }
    ensures read { OnOk result (Consumes (R.remaining (inner_of r.old)) (R.remaining (inner_of r.new)) buf.new) }
    ensures small { (i : ℕ) → slice_index buf.new i < 2 ^ 8 }
    ensures cut { IfErr result (λ fault. IfSome (R.remaining (inner_of r.old)) (EndsBefore (length buf.old) fault)) }
    ensures ended { IfErr result (λ fault. fault ≡ Truncated → IfSome (R.remaining (inner_of r.old)) (λ bytes. (i : ℕ) → slice_index bytes i < 2 ^ 8)) }
    ensures counts { CountsFailure (failures_of r.old) (failures_of r.new) result }
{
    match fill(r, buf) {
        Ok(()) => Ok(()),
        Err(Cut::Ended) => Err(DumpFault::Truncated),
        Err(Cut::Failed) => Err(DumpFault::Device),
    }
}

/// Reads a number of one byte, at most `high`.
pub(crate) fn read_one<R: Read>(r: &mut Counted<R>, high: u8) -> Result<u8, DumpFault>
    requires { failures_of r.old < 2 ^ 64 - 1 }
    ensures read { IfOk result (λ n. Consumes (R.remaining (inner_of r.old)) (R.remaining (inner_of r.new)) (little_bytes 1 n)) }
    ensures within { IfOk result (λ n. n ≤ high) }
    ensures cause { IfErr result (Stops (number 1 0 high) (R.remaining (inner_of r.old))) }
    ensures counts { CountsFailure (failures_of r.old) (failures_of r.new) result }
{
    let mut bytes = [0; 1];
    read_part(r, &mut bytes)?;
    let n = bytes[0];
    if high < n {
        return Err(DumpFault::BadField);
    }
    Ok(n)
}

/// Reads a number of 4 bytes, from `low` to `high`.
pub fn read_four<R: Read>(r: &mut Counted<R>, low: u32, high: u32) -> Result<u32, DumpFault>
    requires { failures_of r.old < 2 ^ 64 - 1 }
    ensures read { IfOk result (λ n. Consumes (R.remaining (inner_of r.old)) (R.remaining (inner_of r.new)) (little_bytes 4 n)) }
    ensures within { IfOk result (λ n. (low ≤ n) × (n ≤ high)) }
    ensures cause { IfErr result (Stops (number 4 low high) (R.remaining (inner_of r.old))) }
    ensures counts { CountsFailure (failures_of r.old) (failures_of r.new) result }
{
    let mut bytes = [0; 4];
    read_part(r, &mut bytes)?;
    let n = LittleEndian::read_u32(&bytes);
    if n < low || high < n {
        return Err(DumpFault::BadField);
    }
    Ok(n)
}

/// Reads any number of 8 bytes.
pub(crate) fn read_eight<R: Read>(r: &mut Counted<R>) -> Result<u64, DumpFault>
    requires { failures_of r.old < 2 ^ 64 - 1 }
    ensures read { IfOk result (λ n. Consumes (R.remaining (inner_of r.old)) (R.remaining (inner_of r.new)) (little_bytes 8 n)) }
    ensures cause { IfErr result (Stops word (R.remaining (inner_of r.old))) }
    ensures counts { CountsFailure (failures_of r.old) (failures_of r.new) result }
{
    let mut bytes = [0; 8];
    read_part(r, &mut bytes)?;
    Ok(LittleEndian::read_u64(&bytes))
}

/// Reads exactly these bytes, at most 8.
pub fn expect<R: Read>(r: &mut Counted<R>, wanted: &[u8]) -> Result<(), DumpFault>
    requires room { failures_of r.old < 2 ^ 64 - 1 }
    requires few { length wanted.now ≤ 8 }
    ensures read { OnOk result (Consumes (R.remaining (inner_of r.old)) (R.remaining (inner_of r.new)) wanted.now) }
    ensures cause { IfErr result (Stops (expected wanted.now) (R.remaining (inner_of r.old))) }
    ensures counts { CountsFailure (failures_of r.old) (failures_of r.new) result }
{
    let mut bytes = [0; 8];
    let found = &mut bytes[..wanted.len()];
    read_part(r, found)?;
    if *found != *wanted {
        return Err(DumpFault::BadMagic);
    }
    Ok(())
}

/// Reads the version, and answers its edition: three or four only if `large`.
pub fn read_edition<R: Read>(r: &mut Counted<R>, large: bool) -> Result<Edition, DumpFault>
    requires { failures_of r.old < 2 ^ 64 - 1 }
    ensures read { IfOk result (λ edition. Consumes (R.remaining (inner_of r.old)) (R.remaining (inner_of r.new)) (four_bytes (version_of edition))) }
    ensures edition { IfOk result (IsRead large) }
    ensures cause { IfErr result (Stops (reading.edition large) (R.remaining (inner_of r.old))) }
    ensures counts { CountsFailure (failures_of r.old) (failures_of r.new) result }
{
    let mut bytes = [0; 4];
    read_part(r, &mut bytes)?;
    match edition_of(LittleEndian::read_u32(&bytes), large) {
        Some(edition) => Ok(edition),
        None => Err(DumpFault::BadMagic),
    }
}

/// Refuses if the reader has a byte left.
pub fn expect_end<R: Read>(r: &mut Counted<R>) -> Result<(), DumpFault>
    requires { failures_of r.old < 2 ^ 64 - 1 }
    ensures end { OnOk result (IsAtEnd (R.remaining (inner_of r.old))) }
    ensures cause { IfErr result (λ fault. IfSome (R.remaining (inner_of r.old)) (RefusesEnd fault)) }
    ensures counts { CountsFailure (failures_of r.old) (failures_of r.new) result }
{
    let mut byte = [0; 1];
    match r.read(&mut byte) {
        Ok(0) => Ok(()),
        Ok(_) => Err(DumpFault::TrailingBytes),
        Err(_) => Err(DumpFault::Device),
    }
}
