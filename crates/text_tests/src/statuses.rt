// Statuses and last lines, written out by hand.

use oz_grammar::{FaultKind, TextFault, What};
use oz_show::{Status, fixed_piece, last_line};
use std::alloc::{AllocError, Global};
use std::test::Fail;
use tree_node::Line;

// A status, its number, its last line, and the piece that takes no memory, where it has one.
static STATUSES: [(Status, u8, &str, Option<&str>); 20] = [
    (
        Status::Quiescent {
            ended: 5,
            waiting: 0,
        },
        0,
        "quiescent ended=5 waiting=0",
        None,
    ),
    (
        Status::Quiescent {
            ended: 0,
            waiting: 1,
        },
        1,
        "quiescent ended=0 waiting=1",
        None,
    ),
    (Status::Usage, 2, "usage", Some("usage\n")),
    (
        Status::Refused(TextFault {
            kind: FaultKind::Expected(What::StatementOrEndOfText),
            line: 1,
            column: 11,
        }),
        3,
        "refused 1:11 expected a statement or the end of the text",
        None,
    ),
    (
        Status::Refused(TextFault {
            kind: FaultKind::Unbound,
            line: 1,
            column: 9,
        }),
        3,
        "refused 1:9 undeclared",
        None,
    ),
    (
        Status::Refused(TextFault {
            kind: FaultKind::Twice,
            line: 1,
            column: 22,
        }),
        3,
        "refused 1:22 given twice",
        None,
    ),
    (
        Status::Refused(TextFault {
            kind: FaultKind::Expected(What::Value),
            line: 1,
            column: 16,
        }),
        3,
        "refused 1:16 expected a value",
        None,
    ),
    (
        Status::Refused(TextFault {
            kind: FaultKind::Expected(What::StatementOrEnd),
            line: 1,
            column: 18,
        }),
        3,
        "refused 1:18 expected a statement or end",
        None,
    ),
    (Status::NotUtf8(4), 3, "refused byte 4 not UTF-8", None),
    (
        Status::TooLong,
        3,
        "refused text too long",
        Some("refused text too long\n"),
    ),
    (Status::StepLimit(1), 4, "stopped steps site=1", None),
    (Status::StepLimit(64), 4, "stopped steps site=64", None),
    (
        Status::MessageLimit,
        5,
        "stopped messages",
        Some("stopped messages\n"),
    ),
    (Status::ReadFault, 6, "read fault", Some("read fault\n")),
    (Status::WriteFault, 7, "", None),
    (Status::Memory, 8, "out of memory", Some("out of memory\n")),
    (
        Status::Quiescent {
            ended: u64::MAX,
            waiting: 20,
        },
        1,
        "quiescent ended=18446744073709551615 waiting=20",
        None,
    ),
    (
        Status::Checked {
            entries: 1,
            picks: 7,
        },
        0,
        "checked entries=1 picks=7",
        None,
    ),
    (Status::Wrong(0), 9, "wrong entry=0", None),
    (Status::BadFile(6), 10, "bad run file byte 6", None),
];

fn line_of(alloc: Global, status: &Status) -> Result<Line, AllocError> {
    match status {
        Status::WriteFault => Ok(Line::from_vec(Vec::new(alloc))?),
        other => last_line(alloc, other),
    }
}

fn piece_of(status: Status) -> Option<&'static [u8]> {
    match status {
        Status::WriteFault => None,
        other => fixed_piece(other),
    }
}

#[test]
fn statuses_have_numbers_and_last_lines(rt: HostRuntime) -> Result<(), Fail> {
    for (status, number, line, piece) in STATUSES {
        assert_eq!(rt; status.number(), number, "at {status:?}");
        assert!(rt;
            line_of(rt.alloc(), &status)?.as_slice() == line.as_bytes(),
            "at {status:?}"
        );
        assert!(rt;
            piece_of(status) == piece.map(str::as_bytes),
            "at {status:?}"
        );
    }
    Ok(())
}
