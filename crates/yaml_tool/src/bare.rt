//! Scalars by themselves.

ghost use Rattle.std.specs.Prelude.{◌≡◌, option_map, string_bytes, IfOk};
ghost use Rattle.yaml_query.specs.JsonOf.{IsNameOf, boolean_text};
ghost use Rattle.yaml_query.specs.PairFaults.{IsNameOrNone};
ghost use Rattle.yaml_value.specs.View.{plain, plain_number};

use ryu::Buffer;
use std::alloc::{AllocError, Global};
use yaml_float::print_f64;
use yaml_value::{Number, Value};

fn boolean_text(truth: bool) -> &'static str
    ensures { result.now ≡ boolean_text truth }
{
    if truth { "true" } else { "false" }
}

// The text of a number, as YAML has it.
fn number_text(alloc: Global, number: Number) -> Result<String, AllocError>
    ensures { IfOk result (λ text. IsNameOf (plain_number number) (string_bytes text)) }
{
    match number.as_f64() {
        Some(x) if number.is_float() => String::from_str(alloc, print_f64(&mut Buffer::new(), x)),
        _ => format!(in alloc; "{number}"),
    }
}

/// The text of a scalar, without its quotes and tags; of what is none, `None`.
pub fn scalar_text(alloc: Global, value: &Value) -> Result<Option<String>, AllocError>
    ensures { IfOk result (λ text. IsNameOrNone (plain value.now) (option_map (λ s. string_bytes s) text)) }
{
    match value {
        Value::Null => Ok(Some(String::from_str(alloc, "null")?)),
        Value::Bool(truth) => Ok(Some(String::from_str(alloc, boolean_text(*truth))?)),
        Value::Number(number) => Ok(Some(number_text(alloc, *number)?)),
        Value::String(text) => Ok(Some(text.clone()?)),
        Value::Sequence(_) | Value::Mapping(_) => Ok(None),
        Value::Tagged(tagged) => scalar_text(alloc, &tagged.value),
    }
}
