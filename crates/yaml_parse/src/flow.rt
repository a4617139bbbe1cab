//! Collections within brackets.

ghost use Rattle.std.specs.Prelude.{◌≡◌};
ghost use Rattle.yaml_parse.specs.Kept.{Keeps};

use crate::frame::Frame;
use crate::machine::Machine;
use crate::node::Nodes;
use yaml_base::MappingStart;
use yaml_scan::{Context, Problem, Span, Stop, Token};

impl<'a> Machine<'a> {
    // A node, a pair, or the end of the sequence.
    pub(crate) fn flow_node(&mut self, token: &mut Token, at: &Span) -> Result<bool, Stop>
        ensures { Keeps self.old.stream self.new.stream }
    {
        let waits = self.properties.is_some();
        match token {
            Token::FlowSequenceEnd if !waits => {
                self.stream.end_sequence(at.start)?;
                Ok(true)
            }
            Token::Key if !waits => {
                let pair = MappingStart {
                    anchor: None,
                    tag: None,
                };
                self.stream
                    .begin_mapping(pair, at.start, Frame::PairKey, at.start)?;
                Ok(true)
            }
            _ => self.node(Nodes::Flow, token, at),
        }
    }

    // `,`, or the end of the sequence.
    pub(crate) fn flow_entry(&mut self, token: &mut Token, at: &Span) -> Result<bool, Stop>
        ensures { Keeps self.old.stream self.new.stream }
    {
        match token {
            Token::FlowSequenceEnd => {
                self.stream.end_sequence(at.start)?;
                Ok(true)
            }
            Token::FlowEntry => self.pass(Frame::FlowNode, at),
            _ => Err(self.fault_within(
                Context::ParsingAFlowSequence,
                Problem::DidNotFindExpectedCommaOrBracket,
                at.start,
            )),
        }
    }

    // The key of a pair. Behind an empty one the token is swallowed, as libyaml does: `[? ]` does not end there.
    pub(crate) fn pair_key(&mut self, token: &mut Token, at: &Span) -> Result<bool, Stop>
        ensures { Keeps self.old.stream self.new.stream }
    {
        let ends = matches!(
            token,
            Token::Value | Token::FlowEntry | Token::FlowSequenceEnd
        );
        if ends && self.properties.is_none() {
            self.nothing_behind(at)?;
            Ok(true)
        } else {
            self.node(Nodes::Flow, token, at)
        }
    }

    // `:`, or else the value of the pair is empty.
    pub(crate) fn pair_value(&mut self, token: &mut Token, at: &Span) -> Result<bool, Stop>
        ensures { Keeps self.old.stream self.new.stream }
    {
        match token {
            Token::Value => self.pass(Frame::PairValueNode, at),
            _ => self.nothing(at.start),
        }
    }

    // The value of a pair behind `:`, which may be empty.
    pub(crate) fn pair_value_node(&mut self, token: &mut Token, at: &Span) -> Result<bool, Stop>
        ensures { Keeps self.old.stream self.new.stream }
    {
        let ends = matches!(token, Token::FlowEntry | Token::FlowSequenceEnd);
        if ends && self.properties.is_none() {
            self.nothing(at.start)
        } else {
            self.node(Nodes::Flow, token, at)
        }
    }

    // The end of a pair.
    pub(crate) fn pair_end(&mut self, at: &Span) -> Result<bool, Stop>
        ensures { Keeps self.old.stream self.new.stream }
    {
        self.stream.end_mapping(at.start)?;
        Ok(false)
    }

    // A key, or the end of the mapping.
    pub(crate) fn map_key(&mut self, token: &mut Token, at: &Span) -> Result<bool, Stop>
        ensures { Keeps self.old.stream self.new.stream }
    {
        let waits = self.properties.is_some();
        match token {
            Token::FlowMappingEnd if !waits => {
                self.stream.end_mapping(at.start)?;
                Ok(true)
            }
            Token::Key if !waits => self.pass(Frame::MapKeyNode, at),
            _ => self.node(Nodes::Flow, token, at),
        }
    }

    // A key behind `?` or before `:`, which may be empty.
    pub(crate) fn map_key_node(&mut self, token: &mut Token, at: &Span) -> Result<bool, Stop>
        ensures { Keeps self.old.stream self.new.stream }
    {
        let ends = matches!(
            token,
            Token::Value | Token::FlowEntry | Token::FlowMappingEnd
        );
        if ends && self.properties.is_none() {
            self.nothing(at.start)
        } else {
            self.node(Nodes::Flow, token, at)
        }
    }

    // `:`, or else the value is empty.
    pub(crate) fn map_value(&mut self, token: &mut Token, at: &Span) -> Result<bool, Stop>
        ensures { Keeps self.old.stream self.new.stream }
    {
        match token {
            Token::Value => self.pass(Frame::MapValueNode, at),
            _ => self.nothing(at.start),
        }
    }

    // A value behind `:`, which may be empty.
    pub(crate) fn map_value_node(&mut self, token: &mut Token, at: &Span) -> Result<bool, Stop>
        ensures { Keeps self.old.stream self.new.stream }
    {
        let ends = matches!(token, Token::FlowEntry | Token::FlowMappingEnd);
        if ends && self.properties.is_none() {
            self.nothing(at.start)
        } else {
            self.node(Nodes::Flow, token, at)
        }
    }

    // `,`, or the end of the mapping.
    pub(crate) fn map_entry(&mut self, token: &mut Token, at: &Span) -> Result<bool, Stop>
        ensures { Keeps self.old.stream self.new.stream }
    {
        match token {
            Token::FlowMappingEnd => {
                self.stream.end_mapping(at.start)?;
                Ok(true)
            }
            Token::FlowEntry => self.pass(Frame::MapKey, at),
            _ => Err(self.fault_within(
                Context::ParsingAFlowMapping,
                Problem::DidNotFindExpectedCommaOrBrace,
                at.start,
            )),
        }
    }
}
