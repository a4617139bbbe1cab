//! What is printed of documents that are read as values: a part, as it is asked for.

ghost use Rattle.std.specs.Prelude.{◌≡◌, ◌++◌, ◌∷◌, [], false, string_bytes, IfErr, IfOk, IsOk, OnOk};
ghost use Rattle.yaml.specs.OneDocument.{IsOneDocument};
ghost use Rattle.yaml_base.specs.Answer.{is_memory};
ghost use Rattle.yaml_documents.specs.TextDocuments.{IsParsed};
ghost use Rattle.yaml_query.specs.NoJson.{is_scalar};
ghost use Rattle.yaml_tool.specs.Asked.{Adds, AnswersText, HasNoForm, IsFormOf, IsPrinted, IsRefused};
ghost use Rattle.yaml_tool.specs.declared.question.Form.TheVariants as form;
ghost use Rattle.yaml_value.specs.PlainValue.{PlainValue};
ghost use Rattle.yaml_value.specs.View.{plain};

use crate::answered::is_memory;
use crate::bare::scalar_text;
use crate::characters::bare_line;
use crate::json_text::as_json;
use crate::part::part_of;
use crate::question::{Form, Question};
use std::alloc::{AllocError, Global};
use yaml::{Documents, from_slice, to_string};
use yaml_base::Result;
use yaml_run::Shown;
use yaml_value::Value;

// A part of a document: a scalar by its text, and anything else as YAML.
fn plainly(alloc: Global, part: &Value) -> Result<String>
    ensures text { IfOk result (λ text. IsFormOf form.Plain (plain part.now) (string_bytes text)) }
    ensures fault { IfErr result (λ cause. is_memory cause ≡ false → is_scalar (plain part.now) ≡ false) }
{
    match scalar_text(alloc, part)? {
        Some(text) => Ok(bare_line(alloc, text.as_str())?),
        None => to_string(alloc, part),
    }
}

// A part of a document, as it is asked for.
fn in_form(alloc: Global, question: &Question, part: &Value) -> Result<String>
    ensures text { IfOk result (λ text. IsFormOf question.now.form (plain part.now) (string_bytes text)) }
    ensures without { IfErr result (λ cause. is_memory cause ≡ false
        → HasNoForm question.now.form (plain part.now)) }
{
    match question.form {
        Form::Plain => plainly(alloc, part),
        Form::Json => as_json(alloc, &question.path, false, part),
        Form::PrettyJson => as_json(alloc, &question.path, true, part),
    }
}

// What is printed of a value that was read.
fn of_value(alloc: Global, question: &Question, value: &Value) -> Result<String>
    ensures printed { IfOk result (λ text. IsPrinted question.now (plain value.now) (string_bytes text)) }
    ensures refused { IfErr result (λ cause. is_memory cause ≡ false → IsRefused question.now (plain value.now)) }
{
    match part_of(alloc, value, &question.path) {
        Ok(part) => in_form(alloc, question, part),
        Err(fault) => Err(fault),
    }
}

/// What is printed of the one document of a text.
pub fn asked(alloc: Global, question: &Question, text: &[u8]) -> Result<String>
    ensures { IfOk result (λ printed. IsParsed text.now IsOneDocument
        × ((v : PlainValue) × IsPrinted question.now v (string_bytes printed))) }
{
    let value: Value = from_slice(alloc, text)?;
    of_value(alloc, question, &value)
}

// What is printed of a document that was read, or not.
fn of_document(alloc: Global, question: &Question, read: Result<Value>) -> Result<String>
    ensures { IfOk result (λ printed. IsOk read
        × ((v : PlainValue) × IsPrinted question.now v (string_bytes printed))) }
{
    let value = read?;
    of_value(alloc, question, &value)
}

// Adds what is printed of a document to what was of those before it, or its fault to theirs. The only error is want of
// memory, as it is where the fault says so.
fn push(all: &mut Shown, one: Result<String>) -> std::result::Result<(), AllocError>
    ensures { OnOk result (Adds one (string_bytes all.old.text) all.old.faults.items
        (string_bytes all.new.text) all.new.faults.items) }
{
    match one {
        Ok(text) => all.text.push_str(text.as_str()),
        Err(fault) => {
            if is_memory(&fault) {
                return Err(AllocError);
            }
            all.faults.push(fault)?;
            Ok(())
        }
    }
}

/// What is printed of each document of a text.
pub fn asked_in_turn(
    alloc: Global,
    question: &Question,
    text: &[u8],
) -> std::result::Result<Shown, AllocError>
    ensures { IfOk result (λ shown. AnswersText question.now text.now (string_bytes shown.text) shown.faults.items) }
{
    let Ok(stream) = Documents::from_slice(alloc, text) else {
        return Err(AllocError);
    };
    let mut documents = stream;
    let mut all = Shown {
        text: String::new(alloc),
        faults: Vec::new(alloc),
    };
    while let Some(read) = documents.read_next::<Value>() {
        push(&mut all, of_document(alloc, question, read))?;
    }
    Ok(all)
}
