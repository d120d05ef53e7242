//! What is said of each line of a text that is made ready. The function only carries its law.

ghost use Rattle.std.specs.Prelude.{◌≡◌, ℕ, List, Some, slice_get, length};
ghost use Rattle.bstr.specs.Text.{lines_of as pieces_in};
ghost use Rattle.mw_text.specs.declared.words.Line.{Line};
ghost use Rattle.mw_text.specs.Words.{text_lines};
ghost use Rattle.config_prepare.specs.Laws.{place_at};
ghost use Rattle.config_prepare.specs.Places.{left_out_by};
ghost use Rattle.config_prepare.specs.Prepared.{out_line, prepared};

/// A text that is made ready has as many lines as the text, and line k of it is line k of the text, with what ends it, or
/// the comment that this becomes; which of both is the table's answer on that line where it stands.
pub fn lines_law()
    ensures count { (bytes : List ℕ) → length (pieces_in (prepared bytes)) ≡ length (pieces_in bytes) }
    ensures each { (bytes : List ℕ) (k : ℕ) (line : Line) (piece : List ℕ) → slice_get (text_lines bytes) k ≡ Some line →
        slice_get (pieces_in bytes) k ≡ Some piece → slice_get (pieces_in (prepared bytes)) k
        ≡ Some (out_line (left_out_by (place_at (text_lines bytes) k) line) piece) }
{}
