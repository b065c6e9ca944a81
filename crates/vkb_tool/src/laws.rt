//! What the definitions say, in other words: none does anything, and its clause is what is proved. A law that is called is one
//! that the proof cites.
ghost use Rattle.std.specs.Prelude.{◌≡◌, ◌≢◌, ◌⊎◌, ℕ, List};
ghost use Rattle.vkb_outside.specs.Shelf.{Files};
ghost use Rattle.vkb_tool.specs.Fault.{Fault};
ghost use Rattle.vkb_tool.specs.Laws.{HeadersAreWhole};
ghost use Rattle.vkb_tool.specs.Outcome.{Effect, IsFirstFault, NameOneCircle, NameOnePlace, Outcome, determined};
ghost use Rattle.vkb_tool.specs.Words.{Spells, IsMisplaced};
ghost use Rattle.vkb_tool.specs.declared.status.Status.TheVariants.{Broken};

use crate::Request;
use doc_tree::{files_have_sources, one_walk};
use lift_check::one_verdict;
use reg_closure::{
    closures_are_closed, closures_are_there, one_closure, one_order, orders_are_there,
    orders_have_all,
};
use reg_permit::{choices_are_permitted_or_break_one_first, choices_are_permitted_or_not};
use reg_reader::one_answer;
use reg_rows::{
    answers_are_one, each_registry_is_answered, only_commands_name_commands, rows_are_within,
};
use vu_tags::pages_are_one;

/// Words ask for one request at most, and where they ask for none, one position at most is that of the first that has no place.
pub fn one_reading()
    ensures request { (words : List (List ℕ)) (request other : Request) → Spells words request → Spells words other → request ≡ other }
    ensures position { (words : List (List ℕ)) (position other : ℕ) → IsMisplaced words position → IsMisplaced words other → position ≡ other }
    ensures apart { (words : List (List ℕ)) (request : Request) (position : ℕ) → Spells words request → ¬ (IsMisplaced words position) }
{}

/// One named fault at most is the first in what a request asks of the files, but for the further names of a circle of names: of several circles
/// through the first name on any it is open which is told.
pub fn one_fault()
    ensures { (request : Request) (files : Files) (fault other : Fault) → IsFirstFault request files fault → IsFirstFault request files other
        → determined fault ≡ determined other }
{
    one_walk();
    one_answer();
    answers_are_one();
}

/// The words and the files come to one outcome, but for the choice that a `no` names, and the id and the count there: two that
/// say `no` name one place of a document; and but for which of several circles of names is told: two such tell of one first name. What else is
/// left open to a run, as the steps of a proof that it writes, is to be excepted here as these are.
pub fn one_outcome()
    ensures status { (words : List (List ℕ)) (files : Files) (effect other : Effect) → Outcome words files effect → Outcome words files other → effect.status ≡ other.status }
    ensures same { (words : List (List ℕ)) (files : Files) (effect other : Effect) → Outcome words files effect → Outcome words files other → effect.status ≢ Broken
        → (effect ≡ other) ⊎ NameOneCircle words files effect other }
    ensures place { (words : List (List ℕ)) (files : Files) (effect other : Effect) → Outcome words files effect → Outcome words files other → effect.status ≡ Broken
        → NameOnePlace words files effect.output other.output }
{
    one_walk();
    one_answer();
    answers_are_one();
    one_verdict();
    one_closure();
    one_order();
    pages_are_one();
}

/// Whatever the words and the files are, they come to an outcome.
pub fn each_has_an_outcome()
    ensures { (words : List (List ℕ)) (files : Files) → (effect : Effect) × Outcome words files effect }
{
    files_have_sources();
    one_walk();
    pages_are_one();
    one_answer();
    answers_are_one();
    each_registry_is_answered();
    rows_are_within();
    choices_are_permitted_or_not();
    choices_are_permitted_or_break_one_first();
    closures_are_there();
    orders_are_there();
}

/// A header that is written declares each name of the closure, once, and no other, in the order that is told, in which each stands behind all that it
/// names. That commands stand behind all others leaves it so, since only commands name commands.
pub fn headers_are_whole()
    ensures { HeadersAreWhole }
{
    closures_are_closed();
    orders_have_all();
    only_commands_name_commands();
}
