//! The input cut into tables and cases.

ghost use Rattle.std.specs.Prelude.{◌≡◌, ◌≤◌, ◌-◌, ◌++◌, length, IfOk};

use crate::answer::append_answer;
use crate::case::is_case;
use probe_writing::Table;
use std::alloc::{AllocError, Global};
use yaml_lines::first_line;

// The line that begins a further table.
const NEXT_TABLE: &[u8] = b"%%";

// Whether a line begins a case or a further table.
fn begins_part(line: &[u8]) -> bool {
    line == NEXT_TABLE || is_case(line)
}

// The lines of a table, and what stands behind them and the empty line that ends them.
fn cut_table(text: &[u8]) -> (&[u8], &[u8])
    ensures { length result.1.now ≤ length text.now }
{
    let mut rest = text;
    'lines: while !rest.is_empty() {
        let (line, after) = first_line(rest);
        if line.is_empty() {
            return (&text[..text.len() - rest.len()], after);
        }
        if begins_part(line) {
            return text.split_at(text.len() - rest.len());
        }
        rest = after;
    }
    (text, rest)
}

// The lines up to the next case or table, and what begins with it.
fn cut_case(text: &[u8]) -> (&[u8], &[u8])
    ensures { text.now ≡ result.0.now ++ result.1.now }
{
    let mut rest = text;
    'rest: while !rest.is_empty() {
        let (line, after) = first_line(rest);
        if begins_part(line) {
            return text.split_at(text.len() - rest.len());
        }
        rest = after;
    }
    (text, &[])
}

// Answers the cases of a table, and gives what stands behind the line that begins the next table.
fn answer_cases<'a>(
    alloc: Global,
    table: &Table,
    text: &'a [u8],
    out: &mut String,
) -> Result<&'a [u8], AllocError>
    ensures { IfOk result (λ rest. length rest.now ≤ length text.now - 1) }
{
    let mut rest = text;
    'cases: while !rest.is_empty() {
        let (header, after) = first_line(rest);
        if header == NEXT_TABLE {
            return Ok(after);
        }
        let (lines, next) = cut_case(after);
        append_answer(alloc, table, header, lines, out)?;
        rest = next;
    }
    Ok(rest)
}

/// Appends a line for each case of an input, and gives whether each table is a schema.
pub fn answer_all(alloc: Global, input: &[u8], out: &mut String) -> Result<bool, AllocError> {
    let mut accepted = true;
    let mut rest = input;
    'tables: while !rest.is_empty() {
        let (lines, cases) = cut_table(rest);
        let table = Table::parse(alloc, lines)?;
        accepted = accepted && table.schema().is_some();
        rest = answer_cases(alloc, &table, cases, out)?;
    }
    Ok(accepted)
}
