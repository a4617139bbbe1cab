//! A JSON text that is being written.

ghost use Rattle.std.specs.Prelude.{◌≡◌, ◌++◌, ◌∷◌, [], string_bytes, OnOk};
ghost use Rattle.json.specs.Lex.{tokens};
ghost use Rattle.json.specs.Print.{IsPrintable};
ghost use Rattle.json.specs.Reads.{token_of};
ghost use Rattle.yaml_query.specs.JsonText.{printed};
ghost use Rattle.yaml_query.specs.Out.{frame_in, tokens_in};

use json::{Pretty, Token, Writer};
use std::alloc::{AllocError, Global};

/// How JSON is laid out.
#[derive(Clone, Copy)]
pub(crate) enum Layout {
    /// In a line, without a space.
    Line,
    /// With a line for each item and member, two spaces deeper for each bracket.
    Lines,
}

/// A JSON text that is being written.
#[derive(Drop)]
pub(crate) enum Out {
    Line(Writer),
    Lines(Pretty),
}

impl Out {
    /// The text before anything is written.
    pub(crate) fn new(alloc: Global, layout: Layout) -> Out
        ensures frame { frame_in result ≡ (layout, []) }
        ensures tokens { tokens_in result ≡ [] }
    {
        match layout {
            Layout::Line => Out::Line(Writer::new(Vec::new(alloc))),
            Layout::Lines => Out::Lines(Pretty::new(alloc)),
        }
    }

    /// Writes a token.
    pub(crate) fn token(&mut self, token: Token<'_>) -> Result<(), AllocError>
        requires { IsPrintable (token_of token) }
        ensures tokens { OnOk result (tokens_in self.new ≡ tokens_in self.old ++ token_of token.entry ∷ []) }
        ensures frame { frame_in self.new ≡ frame_in self.old }
    {
        match self {
            Out::Line(writer) => writer.token(token),
            Out::Lines(pretty) => pretty.token(token),
        }
    }

    /// The text.
    pub(crate) fn finish(self, alloc: Global) -> String
        requires { (frame_in self).1 ≡ [] }
        ensures text { string_bytes result ≡ printed (frame_in self).0 (tokens_in self) }
        ensures read { tokens (string_bytes result) ≡ tokens_in self }
    {
        let bytes = match self {
            Out::Line(writer) => writer.into_inner(),
            Out::Lines(pretty) => pretty.into_inner(),
        };
        match String::from_utf8(bytes) {
            Ok(text) => text,
            Err(_) => String::new(alloc),
        }
    }
}
