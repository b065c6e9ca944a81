use sat_cnf::Lit;

/// A literal of a trail.
#[derive(Clone, Copy)]
pub struct Entry {
    pub lit: Lit,
    /// The number of the decision under which it stands, from 1, and 0 for what holds without any.
    pub decision: u32,
    /// The clause of which it was the only literal that wasn't false. A literal that was decided has none.
    pub reason: Option<u64>,
}
