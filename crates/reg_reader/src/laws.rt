//! What is true of all texts, whatever reads them: none does anything, and its clause is what is proved.
ghost use Rattle.reg_reader.specs.Laws.{OneAnswer, FrontsEndAtTheStop, CharactersAreNoLonger, CharactersAreUndone, OneElement, PlacesRise, AttributesDiffer, ElementsAreNoLarger};

/// Each text spells a tree, stops, or is too deep: one of the three holds, and at one place.
pub fn one_answer()
    ensures { OneAnswer }
{}

/// Up to its stop a text begins a tree, and with one byte more it begins none.
pub fn fronts_end_at_the_stop()
    ensures { FrontsEndAtTheStop }
{}

/// Characters stand for no more bytes than they have, so `chars_of` gives no more.
pub fn characters_are_no_longer()
    ensures { CharactersAreNoLonger }
{}

/// The characters of an element as plain data are those that the rule says.
pub fn characters_are_undone()
    ensures { CharactersAreUndone }
{}

/// Bytes spell at most one element.
pub fn one_element()
    ensures { OneElement }
{}

/// The places of a tree's elements rise in the order of the text.
pub fn places_rise()
    ensures { PlacesRise }
{}

/// No element of a tree has two attributes of one name.
pub fn attributes_differ()
    ensures { AttributesDiffer }
{}

/// An element is no larger than the text that spells it.
pub fn elements_are_no_larger()
    ensures { ElementsAreNoLarger }
{}
