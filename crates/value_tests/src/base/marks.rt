//! Marks, as people count.

use crate::texts::{prints, shows};
use yaml_base::Mark;

// The index, the line and the column of a mark, and what it prints and shows in debug; nothing where there is no mark.
const ROWS: &[(u64, u64, u64, &str, &str)] = &[
    (0, 0, 0, "position 0", "Mark { index: 0 }"),
    (4, 0, 4, "line 1 column 5", "Mark { line: 1, column: 5 }"),
    (0, 3, 0, "line 4 column 1", "Mark { line: 4, column: 1 }"),
    (7, 0, 0, "position 7", "Mark { index: 7 }"),
    (
        18446744073709551615,
        18446744073709551614,
        18446744073709551614,
        "line 18446744073709551615 column 18446744073709551615",
        "Mark { line: 18446744073709551615, column: 18446744073709551615 }",
    ),
    (0, 18446744073709551615, 0, "", ""),
    (0, 0, 18446744073709551615, "", ""),
];

#[test]
fn marks_count_from_one(rt: HostRuntime) {
    for &(index, line, column, printed, shown) in ROWS {
        match Mark::new(index, line, column) {
            Some(mark) => {
                assert!(rt;
                    mark.index() == index && mark.line() == line && mark.column() == column
                );
                prints(&rt, &mark, printed);
                shows(&rt, &mark, shown);
            }
            None => assert!(rt; printed.is_empty(), "{printed}"),
        }
    }
}
