//! Writing several values as YAML text, a document for each.

ghost use Rattle.std.specs.Prelude.{length, string_bytes, IfOk};
ghost use Rattle.yaml.specs.WrittenDocument.{IsTextOfDocuments};

use crate::printer::Printer;
use crate::write::print_document;
use serde::Serialize;
use std::alloc::Global;
use yaml_base::Result;

/// The values as YAML text, a document for each, with `---` between: what `emit` prints for a stream of the documents
/// that `to_string` writes of each alone. Without values it is the empty text. The first value that `to_string` refuses
/// is refused so. No events are held, but the text of those before.
pub fn documents_to_string<T: Serialize>(alloc: Global, values: &[T]) -> Result<String>
    ensures documents { IfOk result (λ text. IsTextOfDocuments (length values.now) (string_bytes text)) }
{
    let mut printer = Printer::new(alloc)?;
    for value in values {
        printer = print_document(printer, value)?;
    }
    printer.finish()
}
