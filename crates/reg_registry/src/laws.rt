//! What is true of any naming: none of these does anything, and its clause is what is proved.
ghost use Rattle.reg_registry.specs.Laws.{HasACircleOrNot, LeadsOrNot};

/// A law: a chain of naming leads from a name to another, or none does.
pub fn names_lead_or_not()
    ensures { LeadsOrNot }
{}

/// A law: some names are a circle, through the first that lies on any, or no name lies on one.
pub fn circles_are_there_or_not()
    ensures { HasACircleOrNot }
{}
