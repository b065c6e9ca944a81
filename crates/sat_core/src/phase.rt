/// Where a search is.
#[derive(Clone, Copy, Debug, PartialEq, Eq)]
pub enum Phase {
    /// Something has changed since the last propagation.
    Fresh,
    /// Propagation has found nothing more.
    Quiet,
    /// Propagation has found that all literals of this clause are false.
    Struck(u64),
}
