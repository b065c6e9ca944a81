use sat_proof::Step;
use vkb_bytes::Listed;

/// What solving clauses comes to.
#[derive(Drop)]
pub enum Outcome {
    /// A value for each variable; together they satisfy all clauses.
    Model(Listed<bool>),
    /// Steps that refute the clauses, so that no set of variables satisfies them.
    Refuted(Listed<Step>),
}
