//! Faults of the parser.

use crate::texts::{owned, shows};
use std::process::Abort;
use yaml_base::{Error, FaultKind, Mark, ParserFault};

// A kind, an offset, the line of a mark, the column of the context's mark, if there is a context, and what a copy of
// such a fault shows in debug.
type Row = (FaultKind, u64, u64, Option<u64>, &'static str);

const ROWS: &[Row] = &[
    (
        FaultKind::Memory,
        0,
        0,
        None,
        "Error { kind: MEMORY, problem: \"no\" }",
    ),
    (
        FaultKind::Reader,
        10,
        0,
        None,
        "Error { kind: READER, problem: \"no\", problem_offset: 10 }",
    ),
    (
        FaultKind::Scanner,
        10,
        1,
        Some(2),
        "Error { kind: SCANNER, problem: \"no\", problem_mark: Mark { line: 2, column: 1 }, context: \"in it\", \
            context_mark: Mark { line: 1, column: 3 } }",
    ),
    (
        FaultKind::Parser,
        10,
        1,
        Some(0),
        "Error { kind: PARSER, problem: \"no\", problem_mark: Mark { line: 2, column: 1 }, context: \"in it\" }",
    ),
    (
        FaultKind::Composer,
        0,
        0,
        None,
        "Error { kind: COMPOSER, problem: \"no\" }",
    ),
    (
        FaultKind::Writer,
        0,
        0,
        None,
        "Error { kind: WRITER, problem: \"no\" }",
    ),
    (
        FaultKind::Emitter,
        0,
        0,
        None,
        "Error { kind: EMITTER, problem: \"no\" }",
    ),
    (FaultKind::Other, 0, 0, None, "Error { problem: \"no\" }"),
];

// The fault of a row.
fn fault(rt: &(impl Abort + AllocGlobal), row: &Row) -> ParserFault {
    let context = match row.3 {
        Some(_) => Some(owned(rt, "in it")),
        None => None,
    };
    let mark = Mark::new(0, row.2, 0).expect(rt, "a mark");
    let context_mark = Mark::new(0, 0, row.3.unwrap_or(0)).expect(rt, "a mark");
    ParserFault::new(row.0, owned(rt, "no"), row.1, mark, context, context_mark)
}

// Whether a fault has the parts of a row.
fn has_parts(fault: &ParserFault, row: &Row) -> bool {
    fault.kind() == row.0
        && fault.problem() == "no"
        && fault.offset() == row.1
        && fault.mark().line() == row.2
        && fault.context().is_some() == row.3.is_some()
        && fault.context_mark().column() == row.3.unwrap_or(0)
}

#[test]
fn faults_of_the_parser_tell_their_parts(rt: HostRuntime) {
    for row in ROWS {
        let fault = fault(&rt, row);
        assert!(rt; has_parts(&fault, row), "{}", row.4);
        let fault = Error::from(fault).copy(rt.alloc()).expect(&rt, "memory");
        shows(&rt, &fault, row.4);
    }
}
