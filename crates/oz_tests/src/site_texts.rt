//! Texts whose threads run at several sites, with all that may be printed of them.

use crate::rows::COUNTER;

// The words after the name, a text, all outputs that the language allows, and the status' number.
pub type SiteText = (
    &'static [&'static str],
    &'static str,
    &'static [&'static str],
    u8,
);

// Two sites tell one variable two values.
pub const RACE: &str = "local X in thread at 2 X = 1 end thread at 3 X = 2 end {Browse X} end";

// The first line of each output of the race.
const FIRST_LINES: [&str; 3] = ["1\n", "2\n", "uncaught failure(tell)\n"];

// Both lines of each.
const BOTH_LINES: [&str; 4] = [
    "1\nuncaught failure(tell)\n",
    "2\nuncaught failure(tell)\n",
    "uncaught failure(tell)\n1\n",
    "uncaught failure(tell)\n2\n",
];

// The call of the sink that fails, and what may be taken of the race then.
pub static FRONTS: [(&[u64], &[&str]); 3] = [
    (&[1], &[""]),
    (&[2], &FIRST_LINES),
    (&[3], &BOTH_LINES),
];

// Seeds, from the least to the greatest.
pub static SEEDS: [&str; 12] = [
    "0",
    "1",
    "2",
    "3",
    "4",
    "5",
    "6",
    "7",
    "8",
    "9",
    "10",
    "18446744073709551615",
];

// The outputs of the race.
pub const RACED: [&str; 4] = [
    "1\nuncaught failure(tell)\nquiescent ended=3 waiting=0\n",
    "2\nuncaught failure(tell)\nquiescent ended=3 waiting=0\n",
    "uncaught failure(tell)\n1\nquiescent ended=3 waiting=0\n",
    "uncaught failure(tell)\n2\nquiescent ended=3 waiting=0\n",
];

// A line is printed at site 3.
pub const THIRD: &str = "local X in X = 7 thread at 9 {Browse X} end end";

pub static SITED: [SiteText; 20] = [
    (&["--sites", "3"], RACE, &RACED, 0),
    (
        &["--sites", "2"],
        "local X Z in
          thread at 2 local Y in Z = p(Y) Y = X {Browse Y} end end
          case Z of p(Y) then X = Y Y = 7 else skip end
        end",
        &["7\nquiescent ended=2 waiting=0\n"],
        0,
    ),
    (
        &["--sites", "3"],
        "local X Y in
          thread at 2 X = f(Y) end
          thread at 3 Y = f(X) end
          X = Y
          {Browse X}
        end",
        &[
            "f(f(f(f(f(f(f(f(f(f(f(f(f(f(f(f(f(f(f(f(,,,))))))))))))))))))))\nquiescent ended=3 waiting=0\n",
        ],
        0,
    ),
    (
        &["--sites", "1"],
        COUNTER,
        &["100\nquiescent ended=5 waiting=0\n"],
        0,
    ),
    (
        &["--sites", "3"],
        COUNTER,
        &["100\nquiescent ended=5 waiting=0\n"],
        0,
    ),
    (
        &["--sites", "64"],
        COUNTER,
        &["100\nquiescent ended=5 waiting=0\n"],
        0,
    ),
    (
        &["--steps", "1"],
        "local X in {Wait X} end",
        &["stopped steps site=1\n"],
        4,
    ),
    (
        &["--steps", "1", "--seed", "3"],
        "local X in {Wait X} end",
        &["stopped steps site=1\n"],
        4,
    ),
    (
        &["--steps", "100", "--sites", "2", "--seed", "3"],
        "local P in P = proc {$} {P} end thread at 2 {P} end end",
        &["stopped steps site=1\n", "stopped steps site=2\n"],
        4,
    ),
    (
        &["--messages", "0", "--seed", "3"],
        "thread at 2 skip end",
        &["stopped messages\n"],
        5,
    ),
    (
        &["--steps", "1", "central"],
        "local X in {Wait X} end",
        &["quiescent ended=0 waiting=1\n"],
        1,
    ),
    (
        &["--steps", "100", "--sites", "2"],
        "local P in P = proc {$} {P} end thread at 2 {P} end end",
        &["stopped steps site=1\n", "stopped steps site=2\n"],
        4,
    ),
    (
        &["--messages", "0"],
        "thread at 2 skip end",
        &["stopped messages\n"],
        5,
    ),
    (
        &["--messages", "1"],
        "thread at 2 skip end",
        &["quiescent ended=2 waiting=0\n"],
        0,
    ),
    (
        &["--messages", "0", "--sites", "1"],
        "thread at 2 skip end",
        &["quiescent ended=2 waiting=0\n"],
        0,
    ),
    (
        &["--messages", "0", "central"],
        "thread at 2 skip end",
        &["quiescent ended=2 waiting=0\n"],
        0,
    ),
    (
        &["--messages", "4000000000", "--sites", "64"],
        "thread at 2 skip end",
        &["quiescent ended=2 waiting=0\n"],
        0,
    ),
    (
        &["--sites", "3"],
        THIRD,
        &["7\nquiescent ended=2 waiting=0\n"],
        0,
    ),
    (
        &["--sites", "1"],
        THIRD,
        &["7\nquiescent ended=2 waiting=0\n"],
        0,
    ),
    (
        &["--sites", "64", "central"],
        THIRD,
        &["7\nquiescent ended=2 waiting=0\n"],
        0,
    ),
];
