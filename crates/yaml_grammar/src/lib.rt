//! Which events a YAML text has: a definition over the places of a text, and no parser.
#![tactic(auto)]

ghost use Rattle.std.specs.Prelude.{◌≡◌, ◌≢◌, ℕ, false, true, ◌+◌, List, ◌∷◌, ◌++◌, Some, drop, length};
ghost use Rattle.std.specs.List.{list_all};
ghost use Rattle.yaml_base.specs.QuotedLines.{undoubled, unescaped};
ghost use Rattle.yaml_base.specs.declared.event.ScalarStyle.TheVariants as style;
ghost use Rattle.yaml_grammar.specs.Bytes.{at, is_gap, is_text};
ghost use Rattle.yaml_grammar.specs.Examples.{TheseTextsStand};
ghost use Rattle.yaml_grammar.specs.Leaves.{in_style, leaf_at};
ghost use Rattle.yaml_grammar.specs.Plain.{Context, as_key, begins_plain, by_columns};
ghost use Rattle.yaml_grammar.specs.PlainLines.{fits_line, is_less_in, is_plain_line, item_lines};
ghost use Rattle.yaml_grammar.specs.Shown.{HasEvents, list_words};

/// A law, and nothing to be run: ten texts of several kinds have the events that are written beside them, and one the
/// marks, so that the definition leaves none of them out.
pub fn these_texts_stand()
    ensures { TheseTextsStand }
{}

/// A law: what stands between quotes in one line, and is a text there by the definition of `yaml_base`, is a leaf that
/// says this text, wherever it stands. What an emitter prints between quotes is such.
pub fn a_quoted_text_is_a_leaf()
    ensures single { (source inside after text : List ℕ) (context : Context) (i : ℕ)
        → drop i source ≡ 39 ∷ (inside ++ 39 ∷ after) → at after 0 ≢ 39 → undoubled inside ≡ Some text
        → leaf_at source context i ≡ Some (in_style style.SingleQuoted text, i + length inside + 2) }
    ensures double { (source inside after text : List ℕ) (context : Context) (i : ℕ)
        → drop i source ≡ 34 ∷ (inside ++ 34 ∷ after) → unescaped inside ≡ Some text
        → leaf_at source context i ≡ Some (in_style style.DoubleQuoted text, i + length inside + 2) }
{}

/// A law: a text that fits in one line without quotes, and may begin there, is a leaf that says it: as a key before its
/// `:`, and in a line behind which the next text stands less far in.
pub fn a_plain_text_is_a_leaf()
    ensures key { (source after text : List ℕ) (d i : ℕ) → drop i source ≡ text ++ 58 ∷ d ∷ after
        → is_gap d ≡ true → begins_plain source false i ≡ true → fits_line false text ≡ true
        → leaf_at source as_key i ≡ Some (in_style style.Plain text, i + length text) }
    ensures line { (source after text : List ℕ) (least i : ℕ) → drop i source ≡ text ++ 10 ∷ after
        → is_less_in least 0 after ≡ true → begins_plain source false i ≡ true → fits_line false text ≡ true
        → leaf_at source (by_columns least) i ≡ Some (in_style style.Plain text, i + length text) }
{}

/// A law: texts that fit in lines without quotes, each behind `-` in a line of its own, are a document that is the list
/// of them.
pub fn lines_of_items_are_a_list()
    ensures { (text : List ℕ) (texts : List (List ℕ)) → list_all is_plain_line (text ∷ texts) ≡ true
        → is_text (item_lines (text ∷ texts)) ≡ true
        → HasEvents (item_lines (text ∷ texts)) (list_words (text ∷ texts)) }
{}
