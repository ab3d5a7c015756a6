//! Answers of the source, with where they stand.

use ovs_authority::Response;
use ovs_data::TxnId;

/// An answer of the source, and where it stands: the id up to which the session with the source had told the chain when the
/// answer came. What was committed for the answer is on the chain up to there (ovsdb-server(7), section 4.1.6).
#[derive(Drop)]
pub struct StandingAnswer {
    /// The answer.
    pub answer: Response,
    /// Where it stands: 0, or the id of a commit.
    pub standing: TxnId,
}
