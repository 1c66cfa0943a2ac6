// The operators at both ends of 128 bits, and where signs differ.

use int_ops::{OpFault, Value, apply};
use kernel_syntax::Op;

// An operator, its operands, and what it answers.
type Row = (Op, i128, i128, Result<Value, OpFault>);

static ROWS: [Row; 28] = [
    (
        Op::Add,
        9223372036854775807,
        1,
        Ok(Value::Int(9223372036854775808)),
    ),
    (Op::Add, i128::MAX, 1, Err(OpFault::Overflow)),
    (Op::Add, i128::MAX, i128::MIN, Ok(Value::Int(-1))),
    (Op::Add, i128::MIN, -1, Err(OpFault::Overflow)),
    (Op::Sub, i128::MIN, 1, Err(OpFault::Overflow)),
    (Op::Sub, -1, i128::MAX, Ok(Value::Int(i128::MIN))),
    (Op::Sub, 0, i128::MIN, Err(OpFault::Overflow)),
    (Op::Mul, i128::MIN, -1, Err(OpFault::Overflow)),
    (
        Op::Mul,
        18446744073709551616,
        9223372036854775808,
        Err(OpFault::Overflow),
    ),
    (
        Op::Mul,
        -18446744073709551616,
        9223372036854775808,
        Ok(Value::Int(i128::MIN)),
    ),
    (Op::Div, i128::MIN, -1, Err(OpFault::Overflow)),
    (Op::Div, i128::MIN, 1, Ok(Value::Int(i128::MIN))),
    (Op::Div, -7, 2, Ok(Value::Int(-3))),
    (Op::Div, 7, -2, Ok(Value::Int(-3))),
    (Op::Div, 0, 0, Err(OpFault::Zero)),
    (Op::Mod, i128::MIN, -1, Ok(Value::Int(0))),
    (Op::Mod, -7, 2, Ok(Value::Int(-1))),
    (Op::Mod, 7, -2, Ok(Value::Int(1))),
    (Op::Mod, i128::MIN, i128::MAX, Ok(Value::Int(-1))),
    (Op::Mod, i128::MIN, 0, Err(OpFault::Zero)),
    (Op::Le, 3, 3, Ok(Value::Bool(true))),
    (Op::Le, 4, 3, Ok(Value::Bool(false))),
    (Op::Lt, 3, 3, Ok(Value::Bool(false))),
    (Op::Lt, i128::MIN, i128::MAX, Ok(Value::Bool(true))),
    (Op::Ge, 3, 3, Ok(Value::Bool(true))),
    (Op::Ge, i128::MIN, i128::MAX, Ok(Value::Bool(false))),
    (Op::Gt, 3, 3, Ok(Value::Bool(false))),
    (Op::Gt, i128::MAX, i128::MIN, Ok(Value::Bool(true))),
];

#[test]
fn operators_are_exact(rt: HostRuntime) {
    for row in ROWS.as_slice() {
        let (op, a, b, want) = *row;
        assert_eq!(rt; apply(op, a, b), want, "at {op:?} of {a} and {b}");
    }
}
