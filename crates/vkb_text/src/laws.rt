//! What the definitions say, in other words: none does anything, and its clause is what is proved.
ghost use Rattle.std.specs.Prelude.{◌≡◌, ℕ, false, List, ◌∷◌, [], ◌++◌, ◌+◌, length, All, if◌then◌else◌};
ghost use Rattle.std.specs.List.{flat_map, list_any};
ghost use Rattle.vkb_text.specs.Lines.{ends_a_line, is_line_feed, lines_of};
ghost use Rattle.vkb_text.specs.Spans.{IsWithin, slice_at};
ghost use Rattle.vkb_text.specs.declared.Span.{Span};

/// Whatever is added to a text, an old span has the same bytes, and the span of what is added has its bytes.
pub fn spans_stay()
    ensures within { (text more : List ℕ) (span : Span) → IsWithin text span → IsWithin (text ++ more) span }
    ensures kept { (text more : List ℕ) (span : Span) → IsWithin text span → slice_at (text ++ more) span ≡ slice_at text span }
    ensures added { (text more : List ℕ) (span : Span) → span ≡ record { from = length text; to = length text + length more }
        → IsWithin (text ++ more) span × (slice_at (text ++ more) span ≡ more) }
{}

/// No line has a line feed, and the lines with one after each are the text, or the text with one at its end where none ends it.
/// No other list of lines is so.
pub fn lines_join()
    ensures unfed { (text : List ℕ) → All (λ line. list_any is_line_feed line ≡ false) (lines_of text) }
    ensures joined { (text : List ℕ) → flat_map (λ line. line ++ 10 ∷ []) (lines_of text) ≡ (if ends_a_line text then text else text ++ 10 ∷ []) }
    ensures only { (text : List ℕ) (lines : List (List ℕ)) → All (λ line. list_any is_line_feed line ≡ false) lines
        → flat_map (λ line. line ++ 10 ∷ []) lines ≡ (if ends_a_line text then text else text ++ 10 ∷ []) → lines ≡ lines_of text }
{}
