//! The texts of paths.

ghost use Rattle.std.specs.Prelude.{◌≡◌, Some, true};
ghost use Rattle.std.specs.Fmt.{WritesOnOk};
ghost use Rattle.std.specs.List.{flat_map, list_all};
ghost use Rattle.std.specs.Str.{chars};
ghost use Rattle.yaml_query.specs.Steps.{plain_step, plain_steps};
ghost use Rattle.yaml_query.specs.StepsText.{is_mark, is_plain, is_plain_key, key_text, steps_from};
ghost use Rattle.yaml_query.specs.StepsText.{quoted_character, quoted_key, step_text, steps_text};

use crate::step::Step;
use std::fmt;
use std::fmt::Write;

// Whether a character is of the path's own, a quote or a backquote.
fn is_mark(c: char) -> bool
    ensures { result ≡ is_mark c }
{
    matches!(c, '.' | '[' | ']' | '"' | '\'' | '`')
}

// Whether a character stands for itself in a key without quotes.
fn is_plain(c: char) -> bool
    ensures { result ≡ is_plain c }
{
    !is_mark(c) && !c.is_control() && !c.is_whitespace()
}

// Whether each character of a text stands for itself.
fn is_plain_text(text: &str) -> bool
    ensures { result ≡ list_all is_plain (chars text.now) }
{
    text.chars().all(|c| is_plain(c))
}

// Whether a key stands without quotes.
fn is_plain_key(key: &str) -> bool
    ensures { result ≡ is_plain_key key.now }
{
    !key.is_empty() && is_plain_text(key)
}

// Writes a character as it stands between quotes.
fn write_quoted_character<W: fmt::Write>(c: char, f: &mut fmt::Formatter<W>) -> fmt::Result
    ensures { WritesOnOk W.write_str_gives f.old result (quoted_character c) f.new }
{
    if c == '"' {
        return f.write_str("\"\"");
    }
    f.write_char(c)
}

// Writes the characters of a key as they stand between quotes.
fn write_quoted_characters<W: fmt::Write>(key: &str, f: &mut fmt::Formatter<W>) -> fmt::Result
    ensures { WritesOnOk W.write_str_gives f.old result (flat_map quoted_character (chars key.now)) f.new }
{
    for c in key.chars() {
        write_quoted_character(c, f)?;
    }
    Ok(())
}

// Writes a key between quotes, of which two stand for one.
fn write_quoted<W: fmt::Write>(key: &str, f: &mut fmt::Formatter<W>) -> fmt::Result
    ensures { WritesOnOk W.write_str_gives f.old result (quoted_key key.now) f.new }
{
    f.write_str("\"")?;
    write_quoted_characters(key, f)?;
    f.write_str("\"")
}

fn write_key<W: fmt::Write>(key: &str, f: &mut fmt::Formatter<W>) -> fmt::Result
    ensures { WritesOnOk W.write_str_gives f.old result (key_text key.now) f.new }
{
    if is_plain_key(key) {
        f.write_str(key)
    } else {
        write_quoted(key, f)
    }
}

// Writes a step.
fn write_step<W: fmt::Write>(is_first: bool, step: &Step, f: &mut fmt::Formatter<W>) -> fmt::Result
    ensures { WritesOnOk W.write_str_gives f.old result (step_text is_first (plain_step step.now)) f.new }
{
    match step {
        Step::Key(key) => {
            f.write_str(if is_first { "" } else { "." })?;
            write_key(key.as_str(), f)
        }
        Step::Index(place) => {
            f.write_str(if is_first { "." } else { "" })?;
            write!(f, "[{place}]")
        }
    }
}

// Writes steps, the first of a path.
fn write_steps<W: fmt::Write>(steps: &[Step], f: &mut fmt::Formatter<W>) -> fmt::Result
    ensures { WritesOnOk W.write_str_gives f.old result (steps_from true (plain_steps steps.now)) f.new }
{
    for i in 0..steps.len() {
        write_step(i == 0, &steps[i], f)?;
    }
    Ok(())
}

/// Prints the text of a path with these steps: `servers[1].port`, and a dot before a place that is first, or for none.
#[derive(Clone, Copy)]
pub struct Steps<'a>(pub &'a [Step]);

impl fmt::Display for Steps<'_> {
    ghost output = { λ steps. Some (steps_text (plain_steps steps.0.now)) };

    fn fmt<W: fmt::Write>(&self, f: &mut fmt::Formatter<W>) -> fmt::Result {
        if self.0.is_empty() {
            return f.write_str(".");
        }
        write_steps(self.0, f)
    }
}
