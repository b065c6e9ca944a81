//! What the definitions say, in other words: none does anything, and its clause is what is proved. A law that is called is one
//! that the proof cites.
ghost use Rattle.std.specs.Prelude.{◌≡◌, ◌+◌, ◌<◌, ℕ, List, All, IfSome};
ghost use Rattle.std.specs.List.{flat_map};
ghost use Rattle.vu_tags.specs.Kept.{Adds, Keeps};
ghost use Rattle.vu_tags.specs.Statements.{needed_of};
ghost use Rattle.vu_tags.specs.Tagged.{CanTag, Names, TellsPages, tagged_file, tagged_of};
ghost use Rattle.vu_tags.specs.Tags.{number_of, start_of, tags_of};

use doc_cond::{each_line_is_read, one_kind};

/// Each line that includes a generated page has one page, so there is one name for each such line and for no other.
pub fn pages_are_one()
    ensures some { (names : Names) × TellsPages names }
    ensures one { (names others : Names) → TellsPages names → TellsPages others → names ≡ others }
{
    each_line_is_read();
    one_kind();
}

/// A file that is tagged is the old file with pieces put in, each of which is a tag, a line feed and four spaces.
pub fn old_bytes_stay()
    ensures { (names : Names) (number : ℕ) (file : List ℕ) → Keeps file (tagged_file names number file) }
{}

/// All tags of the old files stand in the new ones, in order. The new ones among them have numbers one after another from the
/// start on, which differ from each other so, and from those of the old tags, which are below the start.
pub fn old_tags_stand()
    ensures stand { (names : Names) (first : ℕ) (files : List (List ℕ)) → TellsPages names → CanTag first files
        → Adds (start_of first files) (flat_map tags_of files) (flat_map tags_of (tagged_of names first files)) (start_of first files + needed_of files) }
    ensures below { (first : ℕ) (files : List (List ℕ)) → All (λ tag. IfSome (number_of tag) (λ number. number < start_of first files)) (flat_map tags_of files) }
{}

/// Files that were tagged can be tagged again, from any number on, and it changes nothing.
pub fn tagging_again_changes_nothing()
    ensures { (names : Names) (first again : ℕ) (files : List (List ℕ)) → TellsPages names → CanTag first files
        → CanTag again (tagged_of names first files) × (tagged_of names again (tagged_of names first files) ≡ tagged_of names first files) }
{}
