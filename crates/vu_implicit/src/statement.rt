//! What a statement is.
use vkb_bytes::Bytes;
use vkb_formula::NameId;

/// A valid usage statement.
#[derive(Debug, Drop)]
pub struct Statement {
    /// The id of its anchor.
    pub tag: Bytes,
    /// Its text, without the anchor.
    pub text: Bytes,
    /// The declared name without which the statement isn't there.
    pub needs: Option<NameId>,
}
