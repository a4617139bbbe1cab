//! What is told of a reading: data by its text, and a fault by its message.

ghost use Rattle.std.specs.Prelude.{◌≡◌, ◌∷◌, ◌++◌, [], string_bytes, Err, IfOk};
ghost use Rattle.yaml_lines.specs.DataText.{data_text};
ghost use Rattle.yaml_shape.specs.DataView.{data_of};
ghost use Rattle.yaml_run.specs.Audiences.{data_told, is_told, told_for};
ghost use Rattle.yaml_run.specs.Told.{Tells, TellsBadLine};

use crate::audience::Audience;
use crate::faults::fault_told;
use crate::status::Status;
use std::alloc::{AllocError, Global};
use yaml_base::{Cause, Error, Visible};
use yaml_lines::show;
use yaml_shape::Data;

/// How a reading ended, and what is told of it.
#[derive(Drop)]
pub struct Told {
    /// How it ended.
    pub ended: Status,
    /// What is told.
    pub text: String,
}

impl Told {
    /// The same with a line feed behind it. The only error is that memory runs out.
    pub fn with_line_feed(self) -> Result<Told, AllocError>
        ensures { IfOk result (λ line. (line.ended ≡ self.ended)
            × (string_bytes line.text ≡ string_bytes self.text ++ 10 ∷ [])) }
    {
        let Told { ended, text } = self;
        let mut text = text;
        text.push('\n')?;
        Ok(Told { ended, text })
    }
}

/// The text as an audience is told it: as it is, or for people without control characters, so that it stands in one
/// line. The only error is that memory runs out.
pub fn told_for(alloc: Global, audience: Audience, text: String) -> Result<String, AllocError>
    ensures { IfOk result (λ told. string_bytes told ≡ told_for audience (string_bytes text)) }
{
    match audience {
        Audience::Programs => Ok(text),
        Audience::People => {
            let visible = Visible(text.as_str());
            format!(in alloc; "{visible}")
        }
    }
}

// The text of data.
pub(crate) fn data_text(alloc: Global, content: &Data<'_>) -> Result<String, AllocError>
    ensures { IfOk result (λ text. string_bytes text ≡ data_text (data_of content.now)) }
{
    let mut text = String::new(alloc);
    show(&mut text, content)?;
    Ok(text)
}

// The text that tells data.
fn data_told(alloc: Global, audience: Audience, content: &Data<'_>) -> Result<String, AllocError>
    ensures { IfOk result (λ text. string_bytes text ≡ data_told audience (data_of content.now)) }
{
    let text = data_text(alloc, content)?;
    told_for(alloc, audience, text)
}

// Whether a fault is told as one.
fn is_told(audience: Audience, fault: &Error) -> bool
    ensures { result ≡ is_told audience fault.now }
{
    match audience {
        Audience::Programs => true,
        Audience::People => !matches!(fault.cause(), Cause::Memory),
    }
}

// What is told of a fault.
fn told_of_fault(alloc: Global, audience: Audience, fault: &Error) -> Result<Told, AllocError>
    ensures { IfOk result (λ told. Tells audience (Err fault.now) told.ended (string_bytes told.text)) }
{
    if !is_told(audience, fault) {
        return Err(AllocError);
    }
    Ok(Told {
        ended: Status::Fault,
        text: fault_told(alloc, audience, fault)?,
    })
}

/// What an audience is told of data, or of a fault. No line feed stands behind it. The only error is that memory runs
/// out, as it has where people would be told of a fault that says so.
pub fn told_of(
    alloc: Global,
    audience: Audience,
    found: yaml_base::Result<Data<'_>>,
) -> Result<Told, AllocError>
    ensures { IfOk result (λ told. Tells audience found.entry told.ended (string_bytes told.text)) }
{
    match found {
        Ok(content) => Ok(Told {
            ended: Status::Read,
            text: data_told(alloc, audience, &content)?,
        }),
        Err(fault) => told_of_fault(alloc, audience, &fault),
    }
}

/// What is told of an input whose line with this number, counted from 1, is the first that says nothing. No line feed
/// stands behind it. The only error is that memory runs out.
pub fn told_of_bad_line(alloc: Global, number: usize) -> Result<Told, AllocError>
    ensures { IfOk result (λ told. TellsBadLine number told.ended (string_bytes told.text)) }
{
    Ok(Told {
        ended: Status::Refused,
        text: format!(in alloc; "bad line {number}")?,
    })
}
