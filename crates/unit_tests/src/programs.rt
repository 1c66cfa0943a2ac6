// A program and its free positions, its first state, and what a run prints.

use kernel_syntax::{Program, Stmt};
use oz_model::{Plain, is_name_of, output, start};
use std::process::Abort;
use std::test::Fail;
use tree_node::{CellName, CodeId, Line, Name, ThreadName, VarName};

#[test]
fn a_program_tells_its_statements_and_free_positions(rt: HostRuntime) -> Result<(), Fail> {
    let local = Stmt::Local {
        first: 0,
        count: 1,
        body: CodeId(1),
    };
    let program = Program::try_from_vec(rt.alloc(), vec![in rt.alloc(); local, Stmt::Browse(0)]?)?;
    assert_eq!(rt; program.len(), 2);
    assert!(rt; program.free(CodeId(0)).is_empty());
    assert_eq!(rt; program.free(CodeId(1)), [0].as_slice());
    assert!(rt; matches!(program.code(CodeId(1)), Stmt::Browse(0)));
    Ok(())
}

static NAMES: [(Name, bool); 4] = [
    (Name::Thread(ThreadName { site: 1, num: 0 }), true),
    (Name::Thread(ThreadName { site: 1, num: 1 }), false),
    (Name::Var(VarName { site: 1, num: 0 }), false),
    (
        Name::Cell(CellName {
            site: 1,
            at: 0,
            num: 0,
        }),
        false,
    ),
];

fn is_first<R: Abort>(rt: &R, state: &Plain) {
    for (name, occurs) in NAMES.as_slice() {
        assert_eq!(rt; is_name_of(state, name), *occurs);
    }
    assert_eq!(rt; state.ended, 0);
    assert!(rt; state.lines.as_slice().is_empty());
}

#[test]
fn a_first_state_has_the_name_of_its_thread_alone(rt: HostRuntime) -> Result<(), Fail> {
    let program = Program::try_from_vec(rt.alloc(), vec![in rt.alloc(); Stmt::Skip]?)?;
    let state = start(rt.alloc(), &program)?;
    is_first(&rt, &state);
    Ok(())
}

#[test]
fn the_lines_come_before_the_end_line(rt: HostRuntime) -> Result<(), Fail> {
    let lines = vec![in rt.alloc();
        Line::from_vec(Vec::from_slice(rt.alloc(), b"1")?)?,
        Line::from_vec(Vec::from_slice(rt.alloc(), b"f(a)")?)?,
    ]?;
    let bytes = output(rt.alloc(), lines.as_slice(), b"quiescent ended=1 waiting=0")?;
    assert_eq!(rt;
        bytes.as_slice(),
        b"1\nf(a)\nquiescent ended=1 waiting=0\n".as_slice()
    );
    Ok(())
}
