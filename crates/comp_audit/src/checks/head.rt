//! The first check: the edition, the number of pages, and the roots.
ghost use Rattle.std.specs.Prelude.{◌≡◌, OnOk, length};
ghost use Rattle.comp_history.specs.Setup.{pages};
ghost use Rattle.comp_audit.specs.Checks.{head_faults, is_edition};
ghost use Rattle.comp_audit.specs.Reported.{Reports};
ghost use Rattle.comp_audit.specs.Noted.{setup_at};

use crate::checks::fault::CheckEnd;
use crate::checks::setting::Setting;
use comp_dump::AuditFault;
use heap_layout::Edition;
use std::alloc::Global;

/// Checks that the dump is of the plan's edition, that it has one record for each compacted and each fresh page, and
/// that its roots are those that the plan forwards.
pub fn check_head(alloc: Global, setting: Setting<'_>) -> Result<(), CheckEnd>
    ensures reported { Reports (head_faults (setup_at setting.entry) setting.entry.dump.now.edition setting.entry.dump.now.roots setting.entry.dump.now.pages) result }
    ensures slots { OnOk result (length setting.entry.dump.now.pages ≡ pages (setup_at setting.entry)) }
{
    let Setting { plan, dump } = setting;
    if !is_edition(dump.edition(), plan.heap().edition()) {
        return Err(CheckEnd::Fault(AuditFault::WrongHead));
    }
    if dump.pages().len() as u64 != plan.pages() + u64::from(dump.fresh_pages()) {
        return Err(CheckEnd::Fault(AuditFault::WrongHead));
    }
    let forwarded = plan.forward_roots(alloc)?;
    if dump.roots() != forwarded.as_slice() {
        return Err(CheckEnd::Fault(AuditFault::WrongHead));
    }
    Ok(())
}

// Whether the two editions are equal.
fn is_edition(edition: Edition, other: Edition) -> bool
    ensures { result ≡ is_edition edition other }
{
    matches!(
        (edition, other),
        (Edition::One, Edition::One)
            | (Edition::Two, Edition::Two)
            | (Edition::Three, Edition::Three)
            | (Edition::Four, Edition::Four)
    )
}
