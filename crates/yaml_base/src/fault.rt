//! What a parser says of input that it can't read.

ghost use Rattle.std.specs.Prelude.{◌≡◌, IfOk, string_bytes};
ghost use Rattle.std.specs.Option.{option_map};

mod print;

use crate::mark::Mark;
use std::alloc::{AllocError, Global};
use std::marker::Model;

/// Which part of a parser or an emitter failed.
#[derive(Clone, Copy, PartialEq, Eq)]
pub enum FaultKind {
    /// Memory ran out.
    Memory,
    /// The bytes could not be read.
    Reader,
    /// The bytes are no tokens.
    Scanner,
    /// The tokens are no events.
    Parser,
    /// The events are no document.
    Composer,
    /// The output could not be written.
    Writer,
    /// The events can't be emitted.
    Emitter,
    /// Anything else.
    Other,
}

/// A fault of the parser: a problem, and what was being read there.
///
/// A mark whose line and column are both 0 stands for an unknown place.
#[derive(Drop)]
pub struct ParserFault {
    kind: FaultKind,
    problem: String,
    offset: u64,
    mark: Mark,
    context: Option<String>,
    context_mark: Mark,
}

impl Model for ParserFault {
    ghost use Rattle.std.specs.Prelude.{string_bytes};
    ghost use Rattle.std.specs.Option.{option_map};
    ghost use Rattle.yaml_base.specs.PlainFault.{PlainFault};

    ghost Value = { PlainFault };

    ghost view = { λ f. record {
      kind = f.kind;
      problem = string_bytes f.problem;
      offset = f.offset;
      mark = f.mark;
      context = option_map string_bytes f.context;
      context_mark = f.context_mark;
    } };
}

impl ParserFault {
    /// The fault with this problem, found at the byte `offset` and the mark, while doing what `context` says, which
    /// began at `context_mark`. Takes no memory.
    pub fn new(
        kind: FaultKind,
        problem: String,
        offset: u64,
        mark: Mark,
        context: Option<String>,
        context_mark: Mark,
    ) -> ParserFault
        ensures { result ≡ (record {
          kind = kind;
          problem = string_bytes problem;
          offset = offset;
          mark = mark;
          context = option_map string_bytes context;
          context_mark = context_mark;
        }) }
    {
        ParserFault {
            kind,
            problem,
            offset,
            mark,
            context,
            context_mark,
        }
    }

    /// Which part of the parser failed.
    pub fn kind(&self) -> FaultKind
        ensures { result ≡ self.now.kind }
    {
        self.kind
    }

    /// What is wrong.
    pub fn problem(&self) -> &str
        ensures { result.now ≡ self.now.problem }
    {
        self.problem.as_str()
    }

    /// The byte where the problem is, counted from 0, where it has no mark.
    pub fn offset(&self) -> u64
        ensures { result ≡ self.now.offset }
    {
        self.offset
    }

    /// Where the problem is.
    pub fn mark(&self) -> Mark
        ensures { result ≡ self.now.mark }
    {
        self.mark
    }

    /// What was being read there, if that is known.
    pub fn context(&self) -> Option<&str>
        ensures { option_map (λ text. text.now) result ≡ self.now.context }
    {
        match &self.context {
            Some(context) => Some(context.as_str()),
            None => None,
        }
    }

    /// Where the context began.
    pub fn context_mark(&self) -> Mark
        ensures { result ≡ self.now.context_mark }
    {
        self.context_mark
    }

    // The same fault. The only error is want of memory.
    pub(crate) fn copy(&self, alloc: Global) -> Result<ParserFault, AllocError>
        ensures { IfOk result (λ fault. fault ≡ self.now) }
    {
        let problem = String::from_str(alloc, self.problem.as_str())?;
        let context = match &self.context {
            Some(context) => Some(String::from_str(alloc, context.as_str())?),
            None => None,
        };
        Ok(ParserFault {
            kind: self.kind,
            problem,
            offset: self.offset,
            mark: self.mark,
            context,
            context_mark: self.context_mark,
        })
    }
}
