//! What is true of all that registries come to: none of these does anything, and its clause is what is proved.
ghost use Rattle.reg_forms.specs.Laws.{DeclarationsRise, OnlyCommandsMentionCommands};

use reg_reader::places_rise;

/// A law: declarations stand in the order of the text of a registry, and no two at one place.
pub fn declarations_rise()
    ensures { DeclarationsRise }
{
    places_rise();
}

/// A law: what a type or a constant mentions has to be a type or a constant, so that only commands mention commands.
pub fn only_commands_mention_commands()
    ensures { OnlyCommandsMentionCommands }
{}
