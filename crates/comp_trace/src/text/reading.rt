//! Reads the lines of a trace.
ghost use Rattle.std.specs.Prelude.{◌≡◌, ◌+◌, ◌<◌, Some, Ok, Err, length, nat_le, if◌then◌else◌, IfErr, IfNone, IfOk, IfSome, IsTrue};
ghost use Rattle.comp_trace.specs.declared.text.fault.TraceFault.TheVariants as faults;
ghost use Rattle.comp_trace.specs.declared.text.line.Action.TheVariants as actions;
ghost use Rattle.comp_trace.specs.Grammar.{is_within, judged, parts, read_from};
ghost use Rattle.comp_trace.specs.Fronts.{line_before, size, written, HasNoAction, ReadsLine};

use crate::text::fault::TraceFault;
use crate::text::line::{Action, Line};
use crate::text::name::{Name, read_name};
use crate::text::numbers::{
    Number, below, five_numbers, four_numbers, number_before, one_number, three_numbers,
    two_numbers,
};

// The number of registers of a mutator.
const REGISTERS: u64 = 16;

// The number of a register, or a fault of line `n` if there is no such register.
fn register(number: Number, n: u64) -> Result<u8, TraceFault>
    ensures { result ≡ (if nat_le 16 (size number) then Err (faults.NoSuchRegister n) else Ok (size number)) }
{
    match below(number, REGISTERS) {
        Some(register) => Ok(register as u8),
        None => Err(TraceFault::NoSuchRegister(n)),
    }
}

// The number of a field or a count of fields, or a fault of line `n` if it is 65,536 or more.
fn read_field(number: Number, n: u64) -> Result<u16, TraceFault>
    ensures { result ≡ (if nat_le 65536 (size number) then Err (faults.NumberTooLarge n) else Ok (size number)) }
{
    match below(number, 1 << 16) {
        Some(field) => Ok(field as u16),
        None => Err(TraceFault::NumberTooLarge(n)),
    }
}

// A tag, or a fault of line `n` if the number is 2^32 or more.
fn read_tag(number: Number, n: u64) -> Result<u32, TraceFault>
    ensures { result ≡ (if nat_le 4294967296 (size number) then Err (faults.NumberTooLarge n) else Ok (size number)) }
{
    match below(number, 1 << 32) {
        Some(tag) => Ok(tag as u32),
        None => Err(TraceFault::NumberTooLarge(n)),
    }
}

// The value of a word, or a fault of line `n` if the number is 2^64 or more.
fn read_value(number: Number, n: u64) -> Result<u64, TraceFault>
    ensures { result ≡ (if nat_le 18446744073709551616 (size number) then Err (faults.NumberTooLarge n) else Ok (size number)) }
{
    match number {
        Number::Small(value) => Ok(value),
        Number::Large => Err(TraceFault::NumberTooLarge(n)),
    }
}

// The payload of an immediate, or a fault of line `n` if the number is 2^63 or more.
fn read_payload(number: Number, n: u64) -> Result<u64, TraceFault>
    ensures { result ≡ (if nat_le 9223372036854775808 (size number) then Err (faults.NumberTooLarge n) else Ok (size number)) }
{
    match below(number, 1 << 63) {
        Some(payload) => Ok(payload),
        None => Err(TraceFault::NumberTooLarge(n)),
    }
}

// The number of a root, or a fault of line `n` if there is no such root.
fn root_number(number: Number, roots: u32, n: u64) -> Result<u32, TraceFault>
    ensures { result ≡ (if nat_le roots (size number) then Err (faults.NoSuchRoot n) else Ok (size number)) }
{
    match below(number, u64::from(roots)) {
        Some(root) => Ok(root as u32),
        None => Err(TraceFault::NoSuchRoot(n)),
    }
}

// The number of a mutator, or a fault of line `n` if there is no such mutator.
fn mutator_number(number: Number, mutators: u8, n: u64) -> Result<u8, TraceFault>
    ensures { result ≡ (if nat_le mutators (size number) then Err (faults.NoSuchMutator n) else Ok (size number)) }
{
    match below(number, u64::from(mutators)) {
        Some(mutator) => Ok(mutator as u8),
        None => Err(TraceFault::NoSuchMutator(n)),
    }
}

// The bounds for the numbers of a line, and the number `n` of the line.
#[derive(Clone, Copy)]
struct Limits {
    mutators: u8,
    roots: u32,
    n: u64,
}

// The line that sets register `to` to a root, or its first fault.
fn root_line(mutator: Number, to: Number, root: Number, by: Limits) -> Result<Line, TraceFault>
    ensures { result ≡ judged by.mutators by.roots by.n (Some (record { mutator = size mutator; action = actions.Root (size to) (size root) })) }
{
    let mutator = mutator_number(mutator, by.mutators, by.n)?;
    let action = Action::Root {
        to: register(to, by.n)?,
        root: root_number(root, by.roots, by.n)?,
    };
    Ok(Line { mutator, action })
}

// The line that sets register `to` to a reference field, or to a weak field if `weak`, or its first fault.
fn load_line(
    mutator: Number,
    weak: bool,
    to: Number,
    object: Number,
    field: Number,
    by: Limits,
) -> Result<Line, TraceFault>
    ensures { result ≡ judged by.mutators by.roots by.n (Some (record { mutator = size mutator; action = actions.Load weak (size to) (size object) (size field) })) }
{
    let mutator = mutator_number(mutator, by.mutators, by.n)?;
    let action = Action::Load {
        weak,
        to: register(to, by.n)?,
        object: register(object, by.n)?,
        field: read_field(field, by.n)?,
    };
    Ok(Line { mutator, action })
}

// The line that shows a data field, or its first fault.
fn get_line(mutator: Number, object: Number, field: Number, by: Limits) -> Result<Line, TraceFault>
    ensures { result ≡ judged by.mutators by.roots by.n (Some (record { mutator = size mutator; action = actions.Get (size object) (size field) })) }
{
    let mutator = mutator_number(mutator, by.mutators, by.n)?;
    let action = Action::Get {
        object: register(object, by.n)?,
        field: read_field(field, by.n)?,
    };
    Ok(Line { mutator, action })
}

// The line that writes a register into a reference field, or into a weak field if `weak`, or its first fault.
fn store_line(
    mutator: Number,
    weak: bool,
    object: Number,
    field: Number,
    value: Number,
    by: Limits,
) -> Result<Line, TraceFault>
    ensures { result ≡ judged by.mutators by.roots by.n (Some (record { mutator = size mutator; action = actions.Store weak (size object) (size field) (size value) })) }
{
    let mutator = mutator_number(mutator, by.mutators, by.n)?;
    let action = Action::Store {
        weak,
        object: register(object, by.n)?,
        value: register(value, by.n)?,
        field: read_field(field, by.n)?,
    };
    Ok(Line { mutator, action })
}

// The line that writes a value into a data field, or its first fault.
fn put_line(
    mutator: Number,
    object: Number,
    field: Number,
    value: Number,
    by: Limits,
) -> Result<Line, TraceFault>
    ensures { result ≡ judged by.mutators by.roots by.n (Some (record { mutator = size mutator; action = actions.Put (size object) (size field) (size value) })) }
{
    let mutator = mutator_number(mutator, by.mutators, by.n)?;
    let action = Action::Put {
        object: register(object, by.n)?,
        field: read_field(field, by.n)?,
        value: read_value(value, by.n)?,
    };
    Ok(Line { mutator, action })
}

// The line that makes an object and sets register `to` to it, or its first fault.
fn new_line(
    mutator: Number,
    to: Number,
    refs: Number,
    weak: Number,
    data_words: Number,
    tag: Number,
    by: Limits,
) -> Result<Line, TraceFault>
    ensures { result ≡ judged by.mutators by.roots by.n (Some (record { mutator = size mutator; action = actions.New (size to) (size refs) (size weak) (size data_words) (size tag) })) }
{
    let mutator = mutator_number(mutator, by.mutators, by.n)?;
    let action = Action::New {
        to: register(to, by.n)?,
        refs: read_field(refs, by.n)?,
        weak: read_field(weak, by.n)?,
        data_words: read_field(data_words, by.n)?,
        tag: read_tag(tag, by.n)?,
    };
    Ok(Line { mutator, action })
}

// The line that sets register `to` to null, or its first fault.
fn nil_line(mutator: Number, to: Number, by: Limits) -> Result<Line, TraceFault>
    ensures { result ≡ judged by.mutators by.roots by.n (Some (record { mutator = size mutator; action = actions.Nil (size to) })) }
{
    let mutator = mutator_number(mutator, by.mutators, by.n)?;
    let action = Action::Nil {
        to: register(to, by.n)?,
    };
    Ok(Line { mutator, action })
}

// The line that sets register `to` to the immediate with this payload, or its first fault.
fn immediate_line(
    mutator: Number,
    to: Number,
    payload: Number,
    by: Limits,
) -> Result<Line, TraceFault>
    ensures { result ≡ judged by.mutators by.roots by.n (Some (record { mutator = size mutator; action = actions.Immediate (size to) (size payload) })) }
{
    let mutator = mutator_number(mutator, by.mutators, by.n)?;
    let action = Action::Immediate {
        to: register(to, by.n)?,
        payload: read_payload(payload, by.n)?,
    };
    Ok(Line { mutator, action })
}

// Reads the numbers after a name. Answers the line or its first fault, and the text after the line; or `None` if the
// name has no line with the numbers there.
fn numbered_line(
    mutator: Number,
    name: Name,
    text: &[u8],
    by: Limits,
) -> Option<(Result<Line, TraceFault>, &[u8])>
    ensures some { IfSome result (λ read. ReadsLine by.mutators by.roots by.n (size mutator) (written name) text.now read.0 read.1.now) }
    ensures none { IfNone result (HasNoAction (written name) text.now) }
{
    match name {
        Name::Root => {
            let Some((to, root, rest)) = two_numbers(text) else {
                return None;
            };
            Some((root_line(mutator, to, root, by), rest))
        }
        Name::Load => {
            let Some((to, object, field, rest)) = three_numbers(text) else {
                return None;
            };
            Some((load_line(mutator, false, to, object, field, by), rest))
        }
        Name::Get => {
            let Some((object, field, rest)) = two_numbers(text) else {
                return None;
            };
            Some((get_line(mutator, object, field, by), rest))
        }
        Name::Store => {
            let Some((object, field, value, rest)) = three_numbers(text) else {
                return None;
            };
            Some((store_line(mutator, false, object, field, value, by), rest))
        }
        Name::Put => {
            let Some((object, field, value, rest)) = three_numbers(text) else {
                return None;
            };
            Some((put_line(mutator, object, field, value, by), rest))
        }
        Name::New => {
            let Some((to, refs, data_words, tag, rest)) = four_numbers(text) else {
                return None;
            };
            Some((
                new_line(mutator, to, refs, Number::Small(0), data_words, tag, by),
                rest,
            ))
        }
        Name::Nil => {
            let Some((to, rest)) = one_number(text) else {
                return None;
            };
            Some((nil_line(mutator, to, by), rest))
        }
        Name::Immediate => {
            let Some((to, payload, rest)) = two_numbers(text) else {
                return None;
            };
            Some((immediate_line(mutator, to, payload, by), rest))
        }
        Name::WeakLoad => {
            let Some((to, object, field, rest)) = three_numbers(text) else {
                return None;
            };
            Some((load_line(mutator, true, to, object, field, by), rest))
        }
        Name::WeakStore => {
            let Some((object, field, value, rest)) = three_numbers(text) else {
                return None;
            };
            Some((store_line(mutator, true, object, field, value, by), rest))
        }
        Name::WeakNew => {
            let Some((to, refs, weak, data_words, tag, rest)) = five_numbers(text) else {
                return None;
            };
            Some((new_line(mutator, to, refs, weak, data_words, tag, by), rest))
        }
    }
}

/// Reads the line at the front of a text, which must not be empty. Answers it and the text after it, or the first fault
/// of the line, as line `n`.
pub(crate) fn read_line(
    text: &[u8],
    mutators: u8,
    roots: u32,
    n: u64,
) -> Result<(Line, &[u8]), TraceFault>
    requires { 0 < length text.now }
    ensures line { IfOk result (λ read. read_from mutators roots n (parts 10 text.now) ≡ line_before read.0 (read_from mutators roots (n + 1) (parts 10 read.1.now))) }
    ensures within { IfOk result (λ read. IsTrue (is_within mutators roots read.0)) }
    ensures less { IfOk result (λ read. length read.1.now < length text.now) }
    ensures fault { IfErr result (λ fault. read_from mutators roots n (parts 10 text.now) ≡ Err fault) }
{
    let Some((mutator, rest)) = number_before(text, b' ') else {
        return Err(TraceFault::BadLine(n));
    };
    let Some((name, rest)) = read_name(rest) else {
        return Err(TraceFault::BadLine(n));
    };
    let by = Limits { mutators, roots, n };
    let Some((line, rest)) = numbered_line(mutator, name, rest, by) else {
        return Err(TraceFault::BadLine(n));
    };
    Ok((line?, rest))
}
