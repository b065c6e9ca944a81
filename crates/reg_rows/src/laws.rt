//! What is answered for any registry: none of these does anything, and its clause is what is proved.
ghost use Rattle.reg_rows.specs.Commands.{OnlyCommandsNameCommands};
ghost use Rattle.reg_rows.specs.Laws.{AnswersAreOne, EachIsAnswered, RowsAreWithin};

use reg_forms::{declarations_rise, only_commands_mention_commands};
use reg_registry::circles_are_there_or_not;
use vkb_formula::{a_text_is_one_expression, each_text_is_read};

/// A law: whatever a registry comes to, it has rows, or something is wrong with it.
pub fn each_registry_is_answered()
    ensures { EachIsAnswered }
{
    each_text_is_read();
    circles_are_there_or_not();
}

/// A law: there is one answer for a registry, but for which of several circles through the first name on any is told.
pub fn answers_are_one()
    ensures { AnswersAreOne }
{
    a_text_is_one_expression();
}

/// A law: what the rows of a registry name is there.
pub fn rows_are_within()
    ensures { RowsAreWithin }
{}

/// A law: in the rows of a registry only commands name commands. What a type or a constant mentions has to be a type or a constant, and no
/// name is declared both as one of these and as a command.
pub fn only_commands_name_commands()
    ensures { OnlyCommandsNameCommands }
{
    declarations_rise();
    only_commands_mention_commands();
}
