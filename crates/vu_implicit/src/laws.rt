//! Where chains of aliases end. It does nothing, and its clause is what is proved.
ghost use Rattle.vu_implicit.specs.Laws.{ChainsEnd};

/// A law: a chain of aliases that ends at all has no more steps than there are names, so its end is what the statements are of.
pub fn chains_of_aliases_end()
    ensures { ChainsEnd }
{}
