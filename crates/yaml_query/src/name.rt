//! The names that stand for keys.

ghost use Rattle.std.specs.Prelude.{◌≡◌, option_map, string_bytes, IfOk};
ghost use Rattle.yaml_query.specs.JsonOf.{boolean_text, IsNameOf};
ghost use Rattle.yaml_query.specs.PairFaults.{IsNameOrNone};
ghost use Rattle.yaml_value.specs.View.{plain, plain_number};

use ryu::Buffer;
use std::alloc::{AllocError, Global};
use yaml_float::print_f64;
use yaml_value::{Number, Value};

fn boolean_text(truth: bool) -> &'static str
    ensures { result.now ≡ boolean_text truth }
{
    if truth { "true" } else { "false" }
}

// The text of a number, as YAML has it.
fn number_text(alloc: Global, number: Number) -> Result<String, AllocError>
    ensures { IfOk result (λ text. IsNameOf (plain_number number) (string_bytes text)) }
{
    match number.as_f64() {
        Some(x) if number.is_float() => String::from_str(alloc, print_f64(&mut Buffer::new(), x)),
        _ => format!(in alloc; "{number}"),
    }
}

/// The name that stands for a key, unless it is a collection.
pub(crate) fn name_of(alloc: Global, key: &Value) -> Result<Option<String>, AllocError>
    ensures { IfOk result (λ name. IsNameOrNone (plain key.now) (option_map (λ s. string_bytes s) name)) }
{
    match key {
        Value::Null => Ok(Some(String::from_str(alloc, "null")?)),
        Value::Bool(truth) => Ok(Some(String::from_str(alloc, boolean_text(*truth))?)),
        Value::Number(number) => Ok(Some(number_text(alloc, *number)?)),
        Value::String(text) => Ok(Some(text.clone()?)),
        Value::Sequence(_) | Value::Mapping(_) => Ok(None),
        Value::Tagged(tagged) => name_of(alloc, &tagged.value),
    }
}
