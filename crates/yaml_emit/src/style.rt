//! The style in which a scalar is printed.

ghost use Rattle.std.specs.Prelude.{◌≡◌};
ghost use Rattle.yaml_emit.specs.Styles.{chosen_style, plain_or_quotes, quotes_of};

use crate::fit::{fits_block, fits_plain, fits_single_quotes};
use yaml_base::emitter::AskedStyle;

/// How a scalar is printed.
#[derive(Clone, Copy, PartialEq, Eq)]
pub enum Style {
    Plain,
    SingleQuoted,
    DoubleQuoted,
    Literal,
}

// The quotes that the text may stand between.
fn quotes_of(text: &str) -> Style
    ensures { result ≡ quotes_of text.now }
{
    if fits_single_quotes(text) {
        Style::SingleQuoted
    } else {
        Style::DoubleQuoted
    }
}

// No quotes where the text may stand so: a key only where it is not empty.
fn plain_or_quotes(text: &str, key: bool) -> Style
    ensures { result ≡ plain_or_quotes text.now key }
{
    if fits_plain(text) && !(key && text.is_empty()) {
        Style::Plain
    } else {
        quotes_of(text)
    }
}

// The style of a text that was asked for in this one: what is asked for where the text may stand so, else quotes. A key
// stands in its line, and is never a block nor empty.
pub(crate) fn chosen_style(text: &str, asked: AskedStyle, key: bool) -> Style
    ensures { result ≡ chosen_style text.now asked key }
{
    match asked {
        AskedStyle::Any | AskedStyle::Plain => plain_or_quotes(text, key),
        AskedStyle::SingleQuoted => quotes_of(text),
        AskedStyle::Literal => {
            if !key && fits_block(text) {
                Style::Literal
            } else {
                Style::DoubleQuoted
            }
        }
    }
}
