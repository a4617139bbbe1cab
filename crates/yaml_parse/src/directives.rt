//! The directives of a document.

ghost use Rattle.std.specs.Prelude.{◌≡◌};
ghost use Rattle.yaml_parse.specs.Kept.{Keeps};

use crate::fault::fault;
use crate::machine::Machine;
use crate::properties::Handle;
use std::mem;
use yaml_base::Mark;
use yaml_scan::{Problem, Span, Stop, Token};

// Whether a handle has a directive.
fn is_known(handles: &[Handle], handle: &[u8]) -> bool {
    for known in handles {
        if known.handle.as_slice() == handle {
            return true;
        }
    }
    false
}

impl<'a> Machine<'a> {
    // A directive, or the `---` behind all of them.
    pub(crate) fn directive(&mut self, token: &mut Token, at: &Span) -> Result<bool, Stop>
        ensures { Keeps self.old.stream self.new.stream }
    {
        match token {
            Token::VersionDirective { major, minor } => self.version(*major, *minor, at.start),
            Token::TagDirective { handle, prefix } => {
                let handle = mem::replace(handle, Vec::new(self.alloc));
                let prefix = mem::replace(prefix, Vec::new(self.alloc));
                self.tag_handle(Handle { handle, prefix }, at.start)
            }
            Token::DocumentStart => {
                let opened = self.stream.opened();
                self.stream.begin_document(opened, true)?;
                Ok(true)
            }
            _ => Err(
                self.stream
                    .stop(fault(Problem::DidNotFindExpectedDocumentStart, at.start)),
            ),
        }
    }

    // `%YAML`, once, with 1.1 or 1.2.
    fn version(&mut self, major: u32, minor: u32, mark: Mark) -> Result<bool, Stop>
        ensures { Keeps self.old.stream self.new.stream }
    {
        if self.has_version {
            return Err(
                self.stream
                    .stop(fault(Problem::FoundDuplicateVersionDirective, mark)),
            );
        }
        if major != 1 || (minor != 1 && minor != 2) {
            return Err(
                self.stream
                    .stop(fault(Problem::FoundIncompatibleYamlDocument, mark)),
            );
        }
        self.has_version = true;
        Ok(true)
    }

    // `%TAG`, once for each handle.
    fn tag_handle(&mut self, handle: Handle, mark: Mark) -> Result<bool, Stop>
        ensures { Keeps self.old.stream self.new.stream }
    {
        if is_known(self.handles.as_slice(), handle.handle.as_slice()) {
            return Err(
                self.stream
                    .stop(fault(Problem::FoundDuplicateHandleDirective, mark)),
            );
        }
        self.handles.push(handle)?;
        Ok(true)
    }
}
