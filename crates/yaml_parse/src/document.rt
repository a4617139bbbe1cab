//! Where documents begin and end.

ghost use Rattle.std.specs.Prelude.{◌≡◌};
ghost use Rattle.yaml_parse.specs.Kept.{Keeps};

use crate::machine::Machine;
use crate::node::Nodes;
use yaml_scan::{Span, Stop, Token};

// Whether a document's node can't begin so.
fn ends_content(token: &Token) -> bool {
    matches!(
        token,
        Token::VersionDirective { .. }
            | Token::TagDirective { .. }
            | Token::DocumentStart
            | Token::DocumentEnd
            | Token::StreamEnd
    )
}

impl<'a> Machine<'a> {
    // A document, which needs no `---` where it is the first, or the end of the stream.
    pub(crate) fn document_start(
        &mut self,
        first: bool,
        token: &mut Token,
        at: &Span,
    ) -> Result<bool, Stop>
        ensures { Keeps self.old.stream self.new.stream }
    {
        match token {
            Token::DocumentEnd if !first => Ok(true),
            Token::StreamEnd => {
                self.stream.end_stream(at.start)?;
                Ok(true)
            }
            Token::VersionDirective { .. } | Token::TagDirective { .. } | Token::DocumentStart => {
                self.stream.begin_directives(at.start);
                Ok(false)
            }
            _ if first => {
                self.stream.begin_document(at.start, false)?;
                Ok(false)
            }
            _ => {
                self.stream.begin_directives(at.start);
                Ok(false)
            }
        }
    }

    // The node of a document without `---`.
    pub(crate) fn root(&mut self, token: &mut Token, at: &Span) -> Result<bool, Stop>
        ensures { Keeps self.old.stream self.new.stream }
    {
        self.node(Nodes::Block, token, at)
    }

    // The node of a document behind `---`, which may be empty.
    pub(crate) fn content(&mut self, token: &mut Token, at: &Span) -> Result<bool, Stop>
        ensures { Keeps self.old.stream self.new.stream }
    {
        if self.properties.is_none() && ends_content(token) {
            self.nothing(at.start)
        } else {
            self.node(Nodes::Block, token, at)
        }
    }

    // The end of a document, with `...` or without.
    pub(crate) fn document_end(&mut self, token: &mut Token, at: &Span) -> Result<bool, Stop>
        ensures { Keeps self.old.stream self.new.stream }
    {
        self.stream.end_document(at.start)?;
        self.has_version = false;
        self.handles.clear();
        Ok(matches!(token, Token::DocumentEnd))
    }
}
