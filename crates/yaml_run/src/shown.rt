//! What people are shown of a reading: a line for data, and faults, which are told beside the lines.

ghost use Rattle.std.specs.Prelude.{◌≡◌, ◌<◌, ◌∷◌, ◌++◌, [], false, length, string_bytes, IfOk, OnOk, Some};
ghost use Rattle.yaml_base.specs.Answer.{is_memory};
ghost use Rattle.yaml_base.specs.PlainDocument.{PlainDocument};
ghost use Rattle.yaml_shape.specs.DataView.{data_of};
ghost use Rattle.yaml_shape.specs.PlainShape.{PlainShape, shape_at};
ghost use Rattle.serde_yaml.specs.PlainStream.{document_alone};
ghost use Rattle.yaml_run.specs.Shown.{AreShown, data_line, ended_by, IsOneShown, IsShown, Shows};

use crate::status::Status;
use crate::told::data_text;
use serde_yaml::{Deserializer, Limits, data_from_slice};
use std::alloc::{AllocError, Global};
use yaml_base::{Cause, Error, Visible};
use yaml_shape::{Data, Schema, ShapeId};

/// What people are shown of a reading.
#[derive(Drop)]
pub struct Shown {
    /// The lines, each with its line feed.
    pub text: String,
    /// Why what has no line has none.
    pub faults: Vec<Error>,
}

impl Shown {
    /// How the reading ended: as a fault where it has one.
    pub fn ended(&self) -> Status
        ensures { result ≡ ended_by self.now.faults.items }
    {
        match self.faults.as_slice() {
            [] => Status::Read,
            _ => Status::Fault,
        }
    }
}

// The line that shows data.
fn data_line(alloc: Global, content: &Data<'_>) -> Result<String, AllocError>
    ensures { IfOk result (λ line. string_bytes line ≡ data_line (data_of content.now)) }
{
    let text = data_text(alloc, content)?;
    let visible = Visible(text.as_str());
    format!(in alloc; "{visible}\n")
}

// Whether a fault tells of want of memory.
fn is_memory(fault: &Error) -> bool
    ensures { result ≡ is_memory fault.now }
{
    matches!(fault.cause(), Cause::Memory)
}

// A fault alone.
fn only_fault(alloc: Global, fault: Error) -> Result<Vec<Error>, AllocError>
    ensures { IfOk result (λ faults. faults.items ≡ fault ∷ []) }
{
    Ok(vec![in alloc; fault]?)
}

// What people are shown of data, or of a fault. The only error is that memory runs out, as it has where the fault says
// so.
fn shown_of(alloc: Global, found: yaml_base::Result<Data<'_>>) -> Result<Shown, AllocError>
    ensures { IfOk result (λ shown. Shows found.entry (string_bytes shown.text) shown.faults.items) }
{
    match found {
        Ok(content) => Ok(Shown {
            text: data_line(alloc, &content)?,
            faults: Vec::new(alloc),
        }),
        Err(fault) => {
            if is_memory(&fault) {
                return Err(AllocError);
            }
            Ok(Shown {
                text: String::new(alloc),
                faults: only_fault(alloc, fault)?,
            })
        }
    }
}

/// What people are shown of the one document of a text, read under the shape with this number and within limits. The
/// only error is that memory runs out.
pub fn show_text(
    alloc: Global,
    schema: &Schema,
    id: ShapeId,
    limits: Limits,
    text: &[u8],
) -> Result<Shown, AllocError>
    requires { id.0 < length schema.now }
    ensures { (s : PlainShape) → shape_at schema.now id.0 ≡ Some s → IfOk result (λ shown.
        IsShown limits schema.now s text.now (string_bytes shown.text) shown.faults.items) }
{
    let found = data_from_slice(alloc, text, schema, id, limits);
    shown_of(alloc, found)
}

// What people are shown of a document.
fn show_document(
    alloc: Global,
    document: Deserializer<'_>,
    schema: &Schema,
    id: ShapeId,
    limits: Limits,
) -> Result<Shown, AllocError>
    requires { id.0 < length schema.now }
    ensures { (s : PlainShape) (d : PlainDocument) → shape_at schema.now id.0 ≡ Some s
        → document.entry ≡ document_alone d → IfOk result (λ shown.
        IsOneShown limits schema.now s d (string_bytes shown.text) shown.faults.items) }
{
    let found = document.deserialize_limited(alloc, schema, id, limits);
    shown_of(alloc, found)
}

// Appends what is shown of one more.
fn push_shown(all: &mut Shown, one: Shown) -> Result<(), AllocError>
    ensures text { OnOk result (string_bytes all.new.text ≡ string_bytes all.old.text ++ string_bytes one.text) }
    ensures faults { OnOk result (all.new.faults.items ≡ all.old.faults.items ++ one.faults.items) }
{
    let Shown { text, faults } = one;
    let mut faults = faults;
    all.text.push_str(text.as_str())?;
    all.faults.append(&mut faults)?;
    Ok(())
}

/// What people are shown of each document of a stream, read under the shape with this number and within limits, one
/// behind the other. The only error is that memory runs out.
pub fn show_in_turn(
    alloc: Global,
    stream: Deserializer<'_>,
    schema: &Schema,
    id: ShapeId,
    limits: Limits,
) -> Result<Shown, AllocError>
    requires { id.0 < length schema.now }
    ensures { (s : PlainShape) → shape_at schema.now id.0 ≡ Some s → stream.entry.is_document ≡ false
        → IfOk result (λ shown. AreShown limits schema.now s stream.entry.documents (string_bytes shown.text)
        shown.faults.items) }
{
    let mut documents = stream;
    let mut all = Shown {
        text: String::new(alloc),
        faults: Vec::new(alloc),
    };
    while let Some(document) = documents.next() {
        let one = show_document(alloc, document, schema, id, limits)?;
        push_shown(&mut all, one)?;
    }
    Ok(all)
}
