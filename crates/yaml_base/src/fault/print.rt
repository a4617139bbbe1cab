//! The printed texts of a parser's fault.

ghost use Rattle.std.specs.Prelude.{Some, string_bytes};
ghost use Rattle.std.specs.Option.{option_map};
ghost use Rattle.yaml_base.specs.ParserFaultText.{context_debug_part, context_part, fault_debug_text};
ghost use Rattle.yaml_base.specs.ParserFaultText.{parser_fault_text};
ghost use Rattle.yaml_base.specs.ParserFaultText.{kind_debug_part, problem_debug_part, problem_part};

use crate::fault::{FaultKind, ParserFault};
use crate::mark::Mark;
use std::error::Error;
use std::fmt;
use yaml_tree::Quoted;

// Where a problem is: its mark, or else its offset.
#[derive(Drop)]
struct ProblemPlace(Mark, u64);

impl fmt::Display for ProblemPlace {
    ghost output = { λ place. Some (problem_part place.0 place.1) };

    fn fmt<W: fmt::Write>(&self, f: &mut fmt::Formatter<W>) -> fmt::Result {
        let (mark, offset) = (self.0, self.1);
        if !mark.is_start() {
            write!(f, " at {mark}")
        } else if offset != 0 {
            write!(f, " at position {offset}")
        } else {
            Ok(())
        }
    }
}

// The context of a problem at the first mark. It began at the second.
#[derive(Drop)]
struct Context<'a>(Mark, Mark, &'a Option<String>);

impl fmt::Display for Context<'_> {
    ghost output = { λ context.
        Some (context_part context.0 context.1 (option_map string_bytes context.2.now)) };

    fn fmt<W: fmt::Write>(&self, f: &mut fmt::Formatter<W>) -> fmt::Result {
        let (problem_mark, mark) = (self.0, self.1);
        match self.2 {
            Some(context) => {
                if mark.is_start() || mark.is_beside(problem_mark) {
                    write!(f, ", {context}")
                } else {
                    write!(f, ", {context} at {mark}")
                }
            }
            None => Ok(()),
        }
    }
}

impl fmt::Display for ParserFault {
    ghost output = { λ fault. Some (parser_fault_text fault) };

    fn fmt<W: fmt::Write>(&self, f: &mut fmt::Formatter<W>) -> fmt::Result {
        let problem = self.problem.as_str();
        let place = ProblemPlace(self.mark, self.offset);
        let context = Context(self.mark, self.context_mark, &self.context);
        write!(f, "{problem}{place}{context}")
    }
}

// The kind of a fault in debug, with what follows it.
#[derive(Drop)]
struct DebugKind(FaultKind);

impl fmt::Display for DebugKind {
    ghost output = { λ kind. Some (kind_debug_part kind.0) };

    fn fmt<W: fmt::Write>(&self, f: &mut fmt::Formatter<W>) -> fmt::Result {
        match self.0 {
            FaultKind::Memory => f.write_str("kind: MEMORY, "),
            FaultKind::Reader => f.write_str("kind: READER, "),
            FaultKind::Scanner => f.write_str("kind: SCANNER, "),
            FaultKind::Parser => f.write_str("kind: PARSER, "),
            FaultKind::Composer => f.write_str("kind: COMPOSER, "),
            FaultKind::Writer => f.write_str("kind: WRITER, "),
            FaultKind::Emitter => f.write_str("kind: EMITTER, "),
            FaultKind::Other => Ok(()),
        }
    }
}

// Where a problem is, in debug.
#[derive(Drop)]
struct DebugProblem(Mark, u64);

impl fmt::Display for DebugProblem {
    ghost output = { λ problem. Some (problem_debug_part problem.0 problem.1) };

    fn fmt<W: fmt::Write>(&self, f: &mut fmt::Formatter<W>) -> fmt::Result {
        let (mark, offset) = (self.0, self.1);
        if !mark.is_start() {
            write!(f, ", problem_mark: {mark:?}")
        } else if offset != 0 {
            write!(f, ", problem_offset: {offset}")
        } else {
            Ok(())
        }
    }
}

// The context of a problem in debug.
#[derive(Drop)]
struct DebugContext<'a>(Mark, &'a Option<String>);

impl fmt::Display for DebugContext<'_> {
    ghost output = { λ context.
        Some (context_debug_part context.0 (option_map string_bytes context.1.now)) };

    fn fmt<W: fmt::Write>(&self, f: &mut fmt::Formatter<W>) -> fmt::Result {
        let mark = self.0;
        match self.1 {
            Some(context) => {
                let context = Quoted(context.as_str());
                write!(f, ", context: {context}")?;
                if !mark.is_start() {
                    write!(f, ", context_mark: {mark:?}")?;
                }
                Ok(())
            }
            None => Ok(()),
        }
    }
}

impl fmt::Debug for ParserFault {
    ghost debug_output = { λ fault. Some (fault_debug_text fault) };

    fn fmt<W: fmt::Write>(&self, f: &mut fmt::Formatter<W>) -> fmt::Result {
        let kind = DebugKind(self.kind);
        let problem = Quoted(self.problem.as_str());
        let place = DebugProblem(self.mark, self.offset);
        let context = DebugContext(self.context_mark, &self.context);
        write!(f, "Error {{ {kind}problem: {problem}{place}{context} }}")
    }
}

impl Error for ParserFault {}
