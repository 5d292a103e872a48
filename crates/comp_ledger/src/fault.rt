use thiserror::Error;

/// Why a ledger refused a call. If both causes hold, it is `ShareMissing`.
#[derive(Clone, Copy, Debug, PartialEq, Eq, Error)]
pub enum LedgerFault {
    /// The total would exceed the capacity.
    #[error("L1 OverCapacity")]
    OverCapacity,
    /// The share with this number was not handed in. All shares with lower numbers were.
    #[error("L2 ShareMissing({0})")]
    ShareMissing(u8),
}
