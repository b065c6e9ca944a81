use sat_cnf::Lit;
use vkb_bytes::Listed;

/// A clause, and the clauses from which it follows, in the order in which they become units.
///
/// A hint below the number of clauses means that clause, and any other hint the step that it exceeds that number by.
#[derive(Drop)]
pub struct Step {
    pub clause: Listed<Lit>,
    pub hints: Listed<u64>,
}
