//! What closures and orders are, in other words: none of these does anything, and its clause is what is proved.
ghost use Rattle.reg_closure.specs.Existence.{ClosuresAreThere, OrdersAreThere, OrdersHaveAll};
ghost use Rattle.reg_closure.specs.Laws.{ClosuresAreClosed, ClosuresAreOne, InClosureOrNot, OrdersAreOne, OrdersAreWhole, OrdersOfParts};

use reg_registry::names_lead_or_not;

/// A law: there is one closure at a choice.
pub fn one_closure()
    ensures { ClosuresAreOne }
{}

/// A law: a closure has all that its names name.
pub fn closures_are_closed()
    ensures { ClosuresAreClosed }
{}

/// A law: the closure at a choice has a name, or it hasn't.
pub fn names_are_declared_or_not()
    ensures { InClosureOrNot }
{
    names_lead_or_not();
}

/// A law: a set has one order.
pub fn one_order()
    ensures { OrdersAreOne }
{}

/// A law: the order of a closed set of names has each of them once, behind all that it names.
pub fn orders_are_whole()
    ensures { OrdersAreWhole }
{}

/// A law: the order of a closed part is the order of the whole, without the names that aren't in the part.
pub fn orders_of_parts()
    ensures { OrdersOfParts }
{}

/// A law: each choice has a closure.
pub fn closures_are_there()
    ensures { ClosuresAreThere }
{
    names_are_declared_or_not();
}

/// A law: each set has an order.
pub fn orders_are_there()
    ensures { OrdersAreThere }
{}

/// A law: the order of a closed set of names that lie on no circle has each of them once, behind all that it names.
pub fn orders_have_all()
    ensures { OrdersHaveAll }
{}
