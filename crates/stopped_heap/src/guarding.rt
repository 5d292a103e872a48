//! A survey with ephemerons and guardians by one call. A guarded object that nothing else holds is lost: its guardian
//! is told, and the object lives on, with all that it reaches, so that it is seen once more.
ghost use Rattle.std.specs.Prelude.{◌≡◌, ℕ, ◌+◌, ◌<◌, ◌≤◌, ◌^◌, ◌++◌, filter, length, All, IfErr, IfOk, OnOk};
ghost use Rattle.heap_layout.specs.Heap.{is_value, IsValue};
ghost use Rattle.heap_layout.specs.Limits.{most_roots};
ghost use Rattle.rest_marks.specs.Growing.{roots_on};
ghost use Rattle.stopped_heap.specs.Guarded.{is_lost, numbered, AreHeldFrom, AreParted, IsGuardedFaultOf, IsOnFaultOf};
ghost use Rattle.rest_marks.specs.declared.fault.SurveyFault.TheVariants as survey;

use crate::growing::Growing;
use crate::survey::Survey;
use heap_layout::Edition;
use rest_marks::{SurveyFault, check_leads};
use std::alloc::{AllocError, Global};

/// What is found with guarded words.
#[derive(Drop)]
pub struct Guarded<'w> {
    /// The survey of all that is held, by the guarded words too.
    pub survey: Survey<'w>,
    /// The guarded words, those first that are lost.
    pub order: Vec<u64>,
    /// How many are lost.
    pub lost: usize,
}

// The fault, whose bad root is numbered from `first` on.
fn number_from(first: usize, fault: SurveyFault) -> SurveyFault
    requires { (k : ℕ) → fault ≡ survey.BadRoot k → first + k < 2 ^ 64 }
    ensures { result ≡ numbered first fault }
{
    match fault {
        SurveyFault::BadRoot(k) => SurveyFault::BadRoot(first as u64 + k),
        other => other,
    }
}

// Keeps what more roots hold with these ephemerons. In a fault the words of the ephemerons are numbered from `first`
// on.
fn hold_more<'w>(
    growing: Growing<'w>,
    more: &[u64],
    ephemerons: &[u64],
    first: usize,
) -> Result<Growing<'w>, SurveyFault>
    requires { first + length ephemerons.now < 2 ^ 64 }
    ensures held { IfOk result (λ after. AreHeldFrom growing.entry.edition growing.entry.words (roots_on growing.entry.marks more.now) ephemerons.now after.marks) }
    ensures leads { IfOk result (λ after. All (IsValue growing.entry.edition after.marks) more.now) }
    ensures words { IfOk result (λ after. after.words ≡ growing.entry.words) }
    ensures edition { IfOk result (λ after. after.edition ≡ growing.entry.edition) }
    ensures room { IfOk result (λ after. after.room ≡ growing.entry.room) }
    ensures fault { IfErr result (IsOnFaultOf growing.entry.edition growing.entry.words growing.entry.marks more.now ephemerons.now first) }
{
    let reached = match growing.also(more) {
        Ok(reached) => reached,
        Err(refused) => return Err(refused.fault),
    };
    match reached.also_values(ephemerons) {
        Ok(held) => Ok(held),
        Err(refused) => Err(number_from(first, refused.fault)),
    }
}

/// Puts those of these words that are lost behind the words in `order`.
pub(crate) fn push_lost(
    growing: &Growing<'_>,
    guarded: &[u64],
    order: &mut Vec<u64>,
) -> Result<(), AllocError>
    ensures { OnOk result (order.new.items ≡ order.old.items ++ filter (is_lost growing.now.edition growing.now.marks) guarded.now) }
{
    for k in 0..guarded.len() {
        if !growing.keeps(guarded[k]) {
            order.push(guarded[k])?;
        }
    }
    Ok(())
}

// And the other ones.
fn push_kept(growing: &Growing<'_>, guarded: &[u64], order: &mut Vec<u64>) -> Result<(), AllocError>
    ensures { OnOk result (order.new.items ≡ order.old.items ++ filter (is_value growing.now.edition growing.now.marks) guarded.now) }
{
    for k in 0..guarded.len() {
        if growing.keeps(guarded[k]) {
            order.push(guarded[k])?;
        }
    }
    Ok(())
}

/// Guarded words, the lost ones first, and how many are lost.
#[derive(Drop)]
pub(crate) struct Parted {
    pub order: Vec<u64>,
    pub lost: usize,
}

/// These guarded words, the lost ones first.
pub(crate) fn part(
    alloc: Global,
    growing: &Growing<'_>,
    guarded: &[u64],
) -> Result<Parted, AllocError>
    ensures order { IfOk result (λ parted. parted.order.items ≡ filter (is_lost growing.now.edition growing.now.marks) guarded.now ++ filter (is_value growing.now.edition growing.now.marks) guarded.now) }
    ensures count { IfOk result (λ parted. parted.lost ≡ length (filter (is_lost growing.now.edition growing.now.marks) guarded.now)) }
{
    let mut order = Vec::with_capacity(alloc, guarded.len())?;
    push_lost(growing, guarded, &mut order)?;
    let lost = order.len();
    push_kept(growing, guarded, &mut order)?;
    Ok(Parted { order, lost })
}

/// Surveys what roots, ephemerons and guarded words hold, and tells the guarded words apart that lead to no object that
/// roots and ephemerons hold without them: these are lost. A word that is null or an immediate is never lost. The lost
/// ones come first in the answer, and the other ones behind them, both in the order that they had. What a lost one
/// leads to is held all the same, with all that it reaches and the values of ephemerons that it brings back, so that it
/// is seen once more.
///
/// An ephemeron is three words, holder, key and value: the value is held as soon as the holder and the key are. A
/// holder or key that is null is not held; words behind the last three are not looked at.
///
/// Err with `TooLarge` if there are more words or roots than the edition allows; if not, with a fault that is there, or
/// with `OutOfMemory`. `TooLarge` comes also if more words are lost than there may be roots. `BadRoot` has the number
/// of a word among the roots, the ephemerons and the guarded words, counted one behind the other; of the ephemerons it
/// is a value.
pub fn survey_guarded<'w>(
    alloc: Global,
    edition: Edition,
    words: &'w [u64],
    roots: &[u64],
    ephemerons: &[u64],
    guarded: &[u64],
) -> Result<Guarded<'w>, SurveyFault>
    ensures held { IfOk result (λ found. AreHeldFrom edition words.now (roots.now ++ guarded.now) ephemerons.now found.survey.marks) }
    ensures leads { IfOk result (λ found. All (IsValue edition found.survey.marks) (roots.now ++ guarded.now)) }
    ensures parted { IfOk result (λ found. AreParted edition words.now roots.now ephemerons.now guarded.now found.order.items found.lost) }
    ensures words { IfOk result (λ found. found.survey.words ≡ words.now) }
    ensures edition { IfOk result (λ found. found.survey.edition ≡ edition) }
    ensures room { IfOk result (λ found. found.survey.room ≡ 0) }
    ensures few_roots { IfOk result (λ _. length roots.now ≤ most_roots edition) }
    ensures fault { IfErr result (IsGuardedFaultOf edition words.now roots.now ephemerons.now guarded.now) }
{
    if words.len() > edition.max_words() || roots.len() > edition.max_roots() {
        return Err(SurveyFault::TooLarge);
    }
    if let Err(k) = check_leads(edition, words.len(), guarded) {
        return Err(SurveyFault::BadRoot((roots.len() + ephemerons.len() + k) as u64));
    }
    let none = match Growing::begin(alloc, edition, words) {
        Ok(none) => none,
        Err(fault) => return Err(fault),
    };
    let kept = match hold_more(none, roots, ephemerons, roots.len()) {
        Ok(kept) => kept,
        Err(fault) => return Err(fault),
    };
    let parted = part(alloc, &kept, guarded)?;
    let lost = &parted.order[..parted.lost];
    let all = match hold_more(kept, lost, ephemerons, roots.len()) {
        Ok(all) => all,
        Err(fault) => return Err(fault),
    };
    Ok(Guarded {
        survey: all.settle(),
        order: parted.order,
        lost: parted.lost,
    })
}
