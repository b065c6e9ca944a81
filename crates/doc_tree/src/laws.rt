//! What the definitions say, in other words: none does anything, and its clause is what is proved. A law that is called is one
//! that the proof cites.
ghost use Rattle.std.specs.Prelude.{◌≡◌};
ghost use Rattle.vkb_outside.specs.Shelf.{Files};
ghost use Rattle.doc_tree.specs.Sources.{AreSources, Sources};

use doc_cond::{each_line_is_read, each_list_is_paired, one_closer, one_kind};

/// Something is found under each name of any files: no file falls through the definitions.
pub fn files_have_sources()
    ensures { (files : Files) → (sources : Sources) × AreSources files sources }
{
    each_line_is_read();
    each_list_is_paired();
}

/// One thing is found under each name of files, so that there is one walk over them from a root, and it has one first fault or
/// one list of lines.
pub fn one_walk()
    ensures { (files : Files) (sources others : Sources) → AreSources files sources → AreSources files others → sources ≡ others }
{
    one_kind();
    one_closer();
}
