use thiserror::Error;

/// Why a text was refused, or no CSN was drawn.
#[derive(Clone, Copy, Debug, PartialEq, Eq, Error)]
pub enum CookieFault {
    #[error("the text is no change sequence number")]
    NotACsn,
    #[error("the text is no cookie")]
    NotACookie,
    /// The last CSN is the greatest one.
    #[error("the change sequence numbers are spent")]
    CsnsSpent,
}
