//! What the definitions of choices, pieces and ids say, in other words: none of these calls does anything, and its clauses are
//! what is proved.
ghost use Rattle.std.specs.Prelude.{◌≡◌, ℕ, ◌<◌, false, not, ◌&&◌, List, [], ◌++◌, Some, length, filter, replicate, slice_get, All, AllPairs};
ghost use Rattle.std.specs.List.{flat_map};
ghost use Rattle.vkb_formula.specs.Names.{AreDifferent};
ghost use Rattle.doc_tree.specs.Flat.{FlatLine, is_among};
ghost use Rattle.doc_tree.specs.Names.{each_once, names_in};
ghost use Rattle.reg_registry.specs.Rows.{Rows};
ghost use Rattle.doc_build.specs.Choices.{Choice, bare_setting, chosen_of, free_names, names_set, pageless_setting};
ghost use Rattle.doc_build.specs.Ids.{id_at};
ghost use Rattle.doc_build.specs.Keeping.{LinesAreKeptByNumber, OptionsAreSet};
ghost use Rattle.doc_build.specs.Laws.{AnchorsFollowTheClosure, IsBefore, LinesStandWhereKept, SetsNoPage, TextsAreOfNamesAsked, is_kept_at};
ghost use Rattle.doc_build.specs.Settings.{PagesAreOfNames};
ghost use Rattle.doc_build.specs.Sites.{LinksStandWithTheirLines, MarksAtSomeChoice, MarksFollowTheChoice, SitesInOrder};
ghost use Rattle.doc_build.specs.Pieces.{Link, all_links, all_pieces, anchors_of, links_of, pieces_of};

use reg_permit::bare_is_free;

/// Over a registry of whose names no page is included, the anchors and the links of the built text are those of the document whose
/// lines are kept, in order.
pub fn kept_marks()
    ensures anchors { (always : List (List ℕ)) (r : Rows) (lines : List FlatLine) (choice : Choice)
        → anchors_of (pieces_of (pageless_setting always r) lines choice)
        ≡ filter (λ anchor. is_kept_at (names_set (pageless_setting always r) choice) lines anchor.line) (anchors_of (all_pieces (pageless_setting always r) lines)) }
    ensures links { (always : List (List ℕ)) (r : Rows) (lines : List FlatLine) (choice : Choice)
        → links_of (pieces_of (pageless_setting always r) lines choice)
        ≡ filter (λ link. is_kept_at (names_set (pageless_setting always r) choice) lines link.place.line) (all_links (pageless_setting always r) lines) }
{}

/// Over such a registry, each anchor and each link of a document is in one of its lines.
pub fn marks_in_lines()
    ensures anchors { (always : List (List ℕ)) (r : Rows) (lines : List FlatLine)
        → All (λ anchor. anchor.line < length lines) (anchors_of (all_pieces (pageless_setting always r) lines)) }
    ensures links { (always : List (List ℕ)) (r : Rows) (lines : List FlatLine)
        → All (λ link. link.place.line < length lines) (all_links (pageless_setting always r) lines) }
{}

/// Over such a registry, the links of a document stand in the order of their places, so no two have the same place.
pub fn links_in_order()
    ensures order { (always : List (List ℕ)) (r : Rows) (lines : List FlatLine)
        → AllPairs (λ link later. IsBefore link.place later.place) (all_links (pageless_setting always r) lines) }
    ensures apart { (always : List (List ℕ)) (r : Rows) (lines : List FlatLine) (i j : ℕ) (link other : Link)
        → slice_get (all_links (pageless_setting always r) lines) i ≡ Some link → slice_get (all_links (pageless_setting always r) lines) j ≡ Some other
        → link.place ≡ other.place → i ≡ j }
{}

/// Where no line sets the page, each id is as it is written.
pub fn ids_as_written()
    ensures { (lines : List FlatLine) (set : List (List ℕ)) (place : ℕ) (written : List ℕ) → SetsNoPage lines → id_at lines set place written ≡ written }
{}

/// Over no registry, the options are the names that conditions mention and that aren't always set, each once, in the order of
/// first mention: further names, and further lines, add behind the others those that are new.
pub fn options_follow_the_rule()
    ensures different { (always : List (List ℕ)) (lines : List FlatLine) → AreDifferent (free_names always lines) }
    ensures members { (always : List (List ℕ)) (lines : List FlatLine) (name : List ℕ)
        → is_among (free_names always lines) name ≡ (is_among (flat_map (λ line. names_in line.kind) lines) name && not (is_among always name)) }
    ensures order { (names more : List (List ℕ))
        → each_once (names ++ more) ≡ each_once names ++ filter (λ name. not (is_among names name)) (each_once more) }
    ensures longer { (always : List (List ℕ)) (lines more : List FlatLine)
        → free_names always (lines ++ more) ≡ free_names always lines ++ filter (λ name. not (is_among (free_names always lines) name)) (free_names always more) }
{}

/// Over no registry, every choice that has a value for each option is permitted. So there is a permitted choice: the one that chooses
/// nothing.
pub fn permitted_choices()
    ensures every { (always : List (List ℕ)) (lines : List FlatLine) (choice : Choice)
        → length choice ≡ length (free_names always lines) → (bare_setting always lines).Permits choice }
    ensures permitted { (always : List (List ℕ)) (lines : List FlatLine)
        → (bare_setting always lines).Permits (replicate (length (free_names always lines)) false) }
    ensures nothing { (options : List (List ℕ)) → chosen_of options (replicate (length options) false) ≡ [] }
{
    bare_is_free();
}

/// Whether a line of a loaded document is kept is told by what is made of its conditions, one after another: each is met by itself, and
/// so are those round it.
pub fn lines_are_kept_by_number()
    ensures { LinesAreKeptByNumber }
{}

/// A name is set at a choice where it always is, or where it is an option that is chosen.
pub fn options_are_set()
    ensures { OptionsAreSet }
{}

/// The text at a choice has of each line of the document what the line gives, where the line is kept, and else nothing.
pub fn lines_stand_where_kept()
    ensures { LinesStandWhereKept }
{}

/// The include of a declared name's page gives the anchor of the page exactly where the closure has the name, and no other anchor.
pub fn anchors_follow_the_closure()
    ensures { AnchorsFollowTheClosure }
{}

/// Over no registry, choices that set the same of the names that a document asks for give the same text.
pub fn texts_are_of_names_asked()
    ensures { TextsAreOfNamesAsked }
{}

/// Where no line of a document includes the page of a declared name, its text is that over a registry whose pages give nothing.
pub fn pages_are_of_names()
    ensures { PagesAreOfNames }
{}

/// Over a registry, the anchors and the links of the text at a choice are those of the lines with marks that stand there, in order: of the
/// lines that a document gives at some choice or other, those whose flat line is kept and for which the closure has the names that they need.
pub fn marks_follow_the_choice()
    ensures { MarksFollowTheChoice }
{}

/// What a document gives at some choice or other has the anchors and the links of these lines, in order.
pub fn marks_at_some_choice()
    ensures { MarksAtSomeChoice }
{}

/// Each of these lines is of a line of the document, and their links stand in the order of their places, so no two have the same place.
pub fn sites_in_order()
    ensures { SitesInOrder }
{}

/// A link of one of these lines is in the text at a choice exactly where the line stands there.
pub fn links_stand_with_their_lines()
    ensures { LinksStandWithTheirLines }
{}
