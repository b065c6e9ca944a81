//! Choices that are always permitted: none of these does anything, and its clause is what is proved.
ghost use Rattle.reg_permit.specs.Existence.{PermittedOrFirst};
ghost use Rattle.reg_permit.specs.Laws.{BareIsFree, LowestIsPermitted, PermittedOrNot};

use reg_closure::names_are_declared_or_not;

/// A law: the choice that has the feature of the lowest number and nothing else is permitted.
pub fn lowest_is_permitted()
    ensures { LowestIsPermitted }
{}

/// A law: every choice of options that ask for nothing is permitted.
pub fn bare_is_free()
    ensures { BareIsFree }
{}

/// A law: a choice is permitted, or it isn't.
pub fn choices_are_permitted_or_not()
    ensures { PermittedOrNot }
{
    names_are_declared_or_not();
}

/// A law: a choice is permitted, or there is a first option whose rule it breaks.
pub fn choices_are_permitted_or_break_one_first()
    ensures { PermittedOrFirst }
{
    names_are_declared_or_not();
}
