//! All documents of a text.

ghost use Rattle.std.specs.Prelude.{◌≡◌, ◌<◌, ◌^◌, IfNone, IfOk, IfSome, length, true};
ghost use Rattle.yaml_direct.specs.Documents.{IsWholeStream, SaysDocuments};
ghost use Rattle.yaml_grammar.specs.Bytes.{is_text};
ghost use Rattle.yaml_reading.specs.Refused.{NothingStands};
ghost use Rattle.yaml_tape.specs.Pushes.{marked_on};

use crate::document::{Documents, Step};
use std::alloc::{AllocError, Global};
use yaml_tape::Tape;

/// The events of a text, or none where it can't be read so. Of a text that has only characters of the grammar they are
/// those of the documents that stand in it, and where there are none and the text has fewer than 2^32 bytes, no documents
/// stand in it.
#[tactic(auto, using(crate::proofs::Growing::begun_document, crate::proofs::Growing::whole_stream))]
pub fn parse<'a>(alloc: Global, text: &'a [u8]) -> Result<Option<Tape<'a>>, AllocError>
    ensures text { IfOk result (λ o. IfSome o (λ t. t.text.now ≡ text.now)) }
    ensures whole { IfOk result (λ o. IfSome o (λ t. IsWholeStream (marked_on t))) }
    ensures stands { is_text text.now ≡ true → IfOk result (λ o. IfSome o (λ t. SaysDocuments text.now (marked_on t))) }
    ensures left { is_text text.now ≡ true → length text.now < 2 ^ 32
        → IfOk result (λ o. IfNone o (NothingStands text.now)) }
{
    let Some(mut documents) = Documents::new(alloc, text)? else {
        return Ok(None);
    };
    'documents: for _ in 0..text.len() + 2 {
        match documents.advance()? {
            Step::Document => {}
            Step::End => return Ok(Some(documents.into_tape())),
            Step::Elsewhere => return Ok(None),
        }
    }
    Ok(None)
}
