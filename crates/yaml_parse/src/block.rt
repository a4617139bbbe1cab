//! Collections by indentation.

ghost use Rattle.std.specs.Prelude.{◌≡◌};
ghost use Rattle.yaml_parse.specs.Kept.{Keeps};

use crate::frame::Frame;
use crate::machine::Machine;
use crate::node::Nodes;
use yaml_scan::{Context, Problem, Span, Stop, Token};

impl<'a> Machine<'a> {
    // `-`, or the end of the sequence.
    pub(crate) fn block_entry(&mut self, token: &mut Token, at: &Span) -> Result<bool, Stop>
        ensures { Keeps self.old.stream self.new.stream }
    {
        match token {
            Token::BlockEntry => self.pass(Frame::BlockNode, at),
            Token::BlockEnd => {
                self.stream.end_sequence(at.start)?;
                Ok(true)
            }
            _ => Err(self.fault_within(
                Context::ParsingABlockCollection,
                Problem::DidNotFindExpectedDashIndicator,
                at.start,
            )),
        }
    }

    // A node behind `-`, which may be empty.
    pub(crate) fn block_node(&mut self, token: &mut Token, at: &Span) -> Result<bool, Stop>
        ensures { Keeps self.old.stream self.new.stream }
    {
        let ends = matches!(token, Token::BlockEntry | Token::BlockEnd);
        if ends && self.properties.is_none() {
            let indicator = self.indicator;
            self.nothing_behind(&indicator)
        } else {
            self.node(Nodes::Block, token, at)
        }
    }

    // `-` at the column of the key, or else the sequence ends.
    pub(crate) fn indentless_entry(&mut self, token: &mut Token, at: &Span) -> Result<bool, Stop>
        ensures { Keeps self.old.stream self.new.stream }
    {
        match token {
            Token::BlockEntry => self.pass(Frame::IndentlessNode, at),
            _ => {
                self.stream.end_sequence(at.start)?;
                Ok(false)
            }
        }
    }

    // A node behind `-` at the column of the key, which may be empty.
    pub(crate) fn indentless_node(&mut self, token: &mut Token, at: &Span) -> Result<bool, Stop>
        ensures { Keeps self.old.stream self.new.stream }
    {
        let ends = matches!(
            token,
            Token::BlockEntry | Token::Key | Token::Value | Token::BlockEnd
        );
        if ends && self.properties.is_none() {
            let indicator = self.indicator;
            self.nothing_behind(&indicator)
        } else {
            self.node(Nodes::Block, token, at)
        }
    }

    // The place of a key, or the end of the mapping.
    pub(crate) fn block_key(&mut self, token: &mut Token, at: &Span) -> Result<bool, Stop>
        ensures { Keeps self.old.stream self.new.stream }
    {
        match token {
            Token::Key => self.pass(Frame::BlockKeyNode, at),
            Token::BlockEnd => {
                self.stream.end_mapping(at.start)?;
                Ok(true)
            }
            _ => Err(self.fault_within(
                Context::ParsingABlockMapping,
                Problem::DidNotFindExpectedKey,
                at.start,
            )),
        }
    }

    // A key behind `?`, or a value behind `:`, which may be empty.
    pub(crate) fn block_part(&mut self, token: &mut Token, at: &Span) -> Result<bool, Stop>
        ensures { Keeps self.old.stream self.new.stream }
    {
        let ends = matches!(token, Token::Key | Token::Value | Token::BlockEnd);
        if ends && self.properties.is_none() {
            let indicator = self.indicator;
            self.nothing_behind(&indicator)
        } else {
            self.node(Nodes::Indentless, token, at)
        }
    }

    // `:`, or else the value is empty.
    pub(crate) fn block_value(&mut self, token: &mut Token, at: &Span) -> Result<bool, Stop>
        ensures { Keeps self.old.stream self.new.stream }
    {
        match token {
            Token::Value => self.pass(Frame::BlockValueNode, at),
            _ => self.nothing(at.start),
        }
    }
}
