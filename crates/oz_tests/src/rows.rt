//! Words and texts, with what they print.

const FIVE: &str = "local X in X = 5 {Browse X} end";

const LOOP: &str = "local P in P = proc {$} {P} end {P} end";

// A cell counts to a hundred over four threads.
pub const COUNTER: &str = "local C Z One L N D1 D2 D3 D4 U in
  Z = 0 One = 1 N = 25 U = done
  {NewCell Z C}
  L = proc {$ K D}
    local B in
      B = K =< Z
      if B then D = U
      else local O M K1 in
        {Exchange C O M} M = O + One K1 = K - One {L K1 D}
      end end
    end
  end
  thread at 1 {L N D1} end thread at 2 {L N D2} end
  thread at 3 {L N D3} end thread at 4 {L N D4} end
  {Wait D1} {Wait D2} {Wait D3} {Wait D4}
  local V in {Exchange C V V} {Browse V} end
end";

// A record whose field is known, and a thread that shows it.
pub const KNOWN: &str = "local X Y in Y = 5 X = f(Y) thread at 2 {Browse X} end end";

// A list of N atoms is made. How many that is stands before it, and who shows it behind it.
pub const LIST: &str = "
  Mk = proc {$ K R}
    local B in
      B = K =< Zero
      if B then R = nil
      else local K1 T in K1 = K - One R = A|T {Mk K1 T} end end
    end
  end
  {Mk N L} ";

// The words after the name, how many atoms a list has, who shows it, the end of its line, the last line, and the status'
// number. Where the run is stopped there is no line before the last.
pub type Listed = (
    &'static [&'static str],
    u64,
    &'static str,
    &'static str,
    &'static str,
    u8,
);

// A list that is shown at another site goes there with what is known of it: 256 equations a message.
pub static LISTED: [Listed; 5] = [
    (
        &[],
        500,
        "{Browse L} end",
        ",,,",
        "quiescent ended=1 waiting=0",
        0,
    ),
    (
        &[],
        499,
        "{Browse L} end",
        "nil",
        "quiescent ended=1 waiting=0",
        0,
    ),
    (
        &["--sites", "2", "--messages", "3"],
        500,
        "thread at 2 {Browse L} end end",
        ",,,",
        "quiescent ended=2 waiting=0",
        0,
    ),
    (
        &["--sites", "2", "--messages", "2"],
        500,
        "thread at 2 {Browse L} end end",
        "",
        "stopped messages",
        5,
    ),
    // The machine alone makes more than 8,000 steps, which take more than 1,500 names.
    (
        &["central"],
        500,
        "{Browse L} end",
        ",,,",
        "quiescent ended=1 waiting=0",
        0,
    ),
];

// A text, the bytes that are taken, and the status' number.
type Run = (&'static str, &'static str, u8);

pub static RUNS: [Run; 55] = [
    (FIVE, "5\nquiescent ended=1 waiting=0\n", 0),
    ("skip", "quiescent ended=1 waiting=0\n", 0),
    (
        "local F in fun {F N} if N =< 1 then 1 else N * {F N - 1} end end {Browse {F 20}} end",
        "2432902008176640000\nquiescent ended=1 waiting=0\n",
        0,
    ),
    (
        "local X in try X = 1 X = 2 catch E then {Browse E} finally {Browse X} end end",
        "failure(tell)\n1\nquiescent ended=1 waiting=0\n",
        0,
    ),
    (
        "local L in L = a|b|nil case L of nil then skip [] H|T then {Browse T} else skip end end",
        "b|nil\nquiescent ended=1 waiting=0\n",
        0,
    ),
    (
        "try raise 1 end finally {Browse 2} end",
        "2\nuncaught 1\nquiescent ended=1 waiting=0\n",
        0,
    ),
    (
        "local X Y in X = f(5) Y = case X of f(X) then X else X end {Browse Y} end",
        "5\nquiescent ended=1 waiting=0\n",
        0,
    ),
    (
        "local F X in proc {F X ?R} {Browse X} R = X end X = f({F 1} {F 2} + {F 3} {F 4}|nil) {Browse X} end",
        "1\n2\n3\n4\nf(1 5 4|nil)\nquiescent ended=1 waiting=0\n",
        0,
    ),
    (
        "local X in X = 1 X = 2 end",
        "uncaught failure(tell)\nquiescent ended=1 waiting=0\n",
        0,
    ),
    (
        "local X in {Browse X} end",
        "quiescent ended=0 waiting=1\n",
        1,
    ),
    (
        "local X Y in X = Y Y = a {Browse X} end",
        "a\nquiescent ended=1 waiting=0\n",
        0,
    ),
    (
        "local X Y in X = f(Y) Y = f(X) X = Y {Browse X} end",
        "f(f(f(f(f(f(f(f(f(f(f(f(f(f(f(f(f(f(f(f(,,,))))))))))))))))))))\nquiescent ended=1 waiting=0\n",
        0,
    ),
    (
        "local P Q X A F B in A = 1 B = 2 F = 5 P = p(X A) Q = p(F B) try P = Q catch E then {Browse X} end end",
        "5\nquiescent ended=1 waiting=0\n",
        0,
    ),
    (COUNTER, "100\nquiescent ended=5 waiting=0\n", 0),
    (
        "local X in if X then skip else skip end end",
        "quiescent ended=0 waiting=1\n",
        1,
    ),
    (
        "local X in thread at 2 {Wait X} end end",
        "quiescent ended=1 waiting=1\n",
        1,
    ),
    (
        "local X in thread at 2 {Wait X} end thread at 3 X = 1 end end",
        "quiescent ended=3 waiting=0\n",
        0,
    ),
    (
        "local X Y Z in X = 9223372036854775807 Y = 1 Z = X + Y {Browse Z} end",
        "9223372036854775808\nquiescent ended=1 waiting=0\n",
        0,
    ),
    (
        "local X Y Z in X = 170141183460469231731687303715884105727 Y = 1 Z = X + Y {Browse Z} end",
        "uncaught error(overflow)\nquiescent ended=1 waiting=0\n",
        0,
    ),
    (
        "local X in X = ~170141183460469231731687303715884105728 {Browse X} end",
        "~170141183460469231731687303715884105728\nquiescent ended=1 waiting=0\n",
        0,
    ),
    (
        "local X Y Z in X = ~170141183460469231731687303715884105728 Y = 1 try Z = X - Y catch E then {Browse E} end end",
        "error(overflow)\nquiescent ended=1 waiting=0\n",
        0,
    ),
    (
        "local X Y Z in X = ~170141183460469231731687303715884105728 Y = ~1 try Z = X div Y catch E then {Browse E} end end",
        "error(overflow)\nquiescent ended=1 waiting=0\n",
        0,
    ),
    (
        "local X Y Z in X = ~170141183460469231731687303715884105728 Y = ~1 Z = X mod Y {Browse Z} end",
        "0\nquiescent ended=1 waiting=0\n",
        0,
    ),
    (
        "local X Y A in A = 1 X = f(~170141183460469231731687303715884105728:A 170141183460469231731687303715884105727:Y) thread at 2 Y = ~170141183460469231731687303715884105728 end {Browse X} end",
        "f(~170141183460469231731687303715884105728:1 170141183460469231731687303715884105727:~170141183460469231731687303715884105728)\nquiescent ended=2 waiting=0\n",
        0,
    ),
    (
        "local X Y Z A in A = 170141183460469231731687303715884105727 X = f(170141183460469231731687303715884105727:A) Y = X.170141183460469231731687303715884105727 case Y of 170141183460469231731687303715884105727 then Z = X.Y else Z = 0 end {Browse Z} end",
        "170141183460469231731687303715884105727\nquiescent ended=1 waiting=0\n",
        0,
    ),
    (
        "local X Y Z A in A = ~170141183460469231731687303715884105728 X = f(~170141183460469231731687303715884105728:A) Y = X.~170141183460469231731687303715884105728 case Y of ~170141183460469231731687303715884105728 then case X of f(~170141183460469231731687303715884105728:B) then Z = B else Z = 0 end else Z = 1 end {Browse Z} end",
        "~170141183460469231731687303715884105728\nquiescent ended=1 waiting=0\n",
        0,
    ),
    (
        "local X in thread at 170141183460469231731687303715884105727 X = 1 end {Browse X} end",
        "1\nquiescent ended=2 waiting=0\n",
        0,
    ),
    (
        "local X in thread at 2 X = stop end raise X end end",
        "uncaught stop\nquiescent ended=2 waiting=0\n",
        0,
    ),
    (
        "local X in raise X end end",
        "quiescent ended=0 waiting=1\n",
        1,
    ),
    (
        "local X Y Z in Y = ~3 Z = 'two words' X = f(b:Y a:Z Y) {Browse X} end",
        "f(~3 a:'two words' b:~3)\nquiescent ended=1 waiting=0\n",
        0,
    ),
    (
        "local L M N A in A = a N = nil M = A|N L = M|N {Browse L} end",
        "(a|nil)|nil\nquiescent ended=1 waiting=0\n",
        0,
    ),
    (
        "local P in proc {P X} skip end {Browse P} end",
        "<P/1>\nquiescent ended=1 waiting=0\n",
        0,
    ),
    (
        "local X in try raise X end catch E then X = done {Browse E} end end",
        "done\nquiescent ended=1 waiting=0\n",
        0,
    ),
    (
        "local X in X = 5 {X} end",
        "uncaught error(apply)\nquiescent ended=1 waiting=0\n",
        0,
    ),
    (
        "local P in P = proc {$ A} skip end {P} end",
        "uncaught error(arity)\nquiescent ended=1 waiting=0\n",
        0,
    ),
    (
        "local X in X = 5 if X then skip else skip end end",
        "uncaught error(type)\nquiescent ended=1 waiting=0\n",
        0,
    ),
    (
        "local X Y in X = f(X) Y = X.2 end",
        "uncaught error(feature)\nquiescent ended=1 waiting=0\n",
        0,
    ),
    (
        "local X Y Z in X = 7 Y = 0 Z = X div Y end",
        "uncaught error(zero)\nquiescent ended=1 waiting=0\n",
        0,
    ),
    // Two are equal or different as soon as what is told of them tells that.
    (
        "local X in X = X == X end",
        "quiescent ended=1 waiting=0\n",
        0,
    ),
    (
        "local X Y A B One Two R in
          One = 1 Two = 2 X = f(A One) Y = f(B Two) R = X == Y {Browse R}
        end",
        "false\nquiescent ended=1 waiting=0\n",
        0,
    ),
    (
        "local A B R in thread at 2 R = A == B end B = A {Browse R} end",
        "true\nquiescent ended=2 waiting=0\n",
        0,
    ),
    (
        "local A B R in R = A \\= B {Browse R} end",
        "quiescent ended=0 waiting=1\n",
        1,
    ),
    (
        "local A B R in A = B R = A == B {Browse R} end",
        "true\nquiescent ended=1 waiting=0\n",
        0,
    ),
    (
        "local A B R in A = 1 B = 2 R = A \\= B {Browse R} end",
        "true\nquiescent ended=1 waiting=0\n",
        0,
    ),
    (
        "local A B U V R in A = f(a:U) B = f(b:V) R = A == B {Browse R} end",
        "false\nquiescent ended=1 waiting=0\n",
        0,
    ),
    (
        "local A B C D E R in A = f(B) B = f(A) C = f(D) D = f(E) E = f(C) R = A == C {Browse R} end",
        "true\nquiescent ended=1 waiting=0\n",
        0,
    ),
    (
        "local P Q R in P = proc {$} skip end Q = proc {$} skip end R = P == Q {Browse R} end",
        "false\nquiescent ended=1 waiting=0\n",
        0,
    ),
    (
        "local A B R in A = 1 thread R = A == B end thread R = B == A end B = 1 {Browse R} end",
        "true\nquiescent ended=3 waiting=0\n",
        0,
    ),
    (
        "local C D X R in {NewCell X C} {NewCell X D} R = C == D {Browse R} end",
        "false\nquiescent ended=1 waiting=0\n",
        0,
    ),
    (
        "local C D X R in {NewCell X C} D = C R = C == D {Browse R} end",
        "true\nquiescent ended=1 waiting=0\n",
        0,
    ),
    (
        "local A B U R in A = f(U) B = g(U) R = A == B {Browse R} end",
        "false\nquiescent ended=1 waiting=0\n",
        0,
    ),
    (
        "local A B R in A = 1 B = '1' R = A == B {Browse R} end",
        "false\nquiescent ended=1 waiting=0\n",
        0,
    ),
    (
        "local A R in R = false R = A == A end",
        "uncaught failure(tell)\nquiescent ended=1 waiting=0\n",
        0,
    ),
    (
        "local A B C R in thread R = A == B {Browse R} end A = C B = C end",
        "true\nquiescent ended=2 waiting=0\n",
        0,
    ),
    (
        "local A B One Two R in
          One = 1 Two = 2
          A = f(One One One One One One One One One One One One One One One One
            One One One One One One One One One One One One One One One One
            One One One One One One One One One One One One One One One One
            One One One One One One One One One One One One One One One One)
          B = f(One One One One One One One One One One One One One One One One
            One One One One One One One One One One One One One One One One
            One One One One One One One One One One One One One One One One
            One One One One One One One Two One One One One One One One One)
          R = A == B {Browse R}
        end",
        "false\nquiescent ended=1 waiting=0\n",
        0,
    ),
];

// The words after the name, a text, the bytes that are taken, and the status' number.
pub type Worded = (&'static [&'static str], &'static str, &'static str, u8);

pub static WORDED: [Worded; 24] = [
    (&["run"], FIVE, "5\nquiescent ended=1 waiting=0\n", 0),
    (&["central"], FIVE, "5\nquiescent ended=1 waiting=0\n", 0),
    (
        &["central"],
        COUNTER,
        "100\nquiescent ended=5 waiting=0\n",
        0,
    ),
    (&["--steps", "100"], LOOP, "stopped steps site=1\n", 4),
    (
        &["--seed", "0"],
        FIVE,
        "5\nquiescent ended=1 waiting=0\n",
        0,
    ),
    (
        &["--seed", "+1", "run"],
        FIVE,
        "5\nquiescent ended=1 waiting=0\n",
        0,
    ),
    (
        &["--seed", "18446744073709551615"],
        COUNTER,
        "100\nquiescent ended=5 waiting=0\n",
        0,
    ),
    (
        &["--seed", "7", "--sites", "64"],
        COUNTER,
        "100\nquiescent ended=5 waiting=0\n",
        0,
    ),
    (
        &["--seed", "7", "central"],
        COUNTER,
        "100\nquiescent ended=5 waiting=0\n",
        0,
    ),
    (
        &["--seed", "7", "--steps", "100"],
        LOOP,
        "stopped steps site=1\n",
        4,
    ),
    (
        &["--seed", "7", "--sites", "2", "--messages", "1"],
        KNOWN,
        "f(5)\nquiescent ended=2 waiting=0\n",
        0,
    ),
    (
        &["central", "--steps", "100"],
        LOOP,
        "stopped steps site=1\n",
        4,
    ),
    (
        &["--steps", "1"],
        "skip",
        "quiescent ended=1 waiting=0\n",
        0,
    ),
    (&["--steps", "1"], FIVE, "stopped steps site=1\n", 4),
    (&["--steps", "6"], FIVE, "stopped steps site=1\n", 4),
    (
        &["--steps", "7"],
        FIVE,
        "5\nquiescent ended=1 waiting=0\n",
        0,
    ),
    (
        &["--steps", "1000000000"],
        "skip",
        "quiescent ended=1 waiting=0\n",
        0,
    ),
    (
        &["central"],
        "local A B R in thread R = A == B end B = A {Browse R} end",
        "true\nquiescent ended=2 waiting=0\n",
        0,
    ),
    (
        &["central"],
        "local A B R in R = A == B end",
        "quiescent ended=0 waiting=1\n",
        1,
    ),
    (
        &["--sites", "2"],
        "local X Y A B R in
          X = f(A) Y = f(B) thread at 2 R = X == Y end A = 1 B = 1 {Browse R}
        end",
        "true\nquiescent ended=2 waiting=0\n",
        0,
    ),
    (
        &["run"],
        "local X in",
        "refused 1:11 expected a statement\n",
        3,
    ),
    // What is known goes out with a thread, with a request to bind, and with the token of a cell.
    (
        &["--sites", "2", "--messages", "1"],
        KNOWN,
        "f(5)\nquiescent ended=2 waiting=0\n",
        0,
    ),
    (
        &["--sites", "2", "--messages", "4"],
        "local X in thread at 2 local Y in Y = 5 X = f(Y) end end {Browse X} end",
        "f(5)\nquiescent ended=2 waiting=0\n",
        0,
    ),
    (
        &["--sites", "2", "--messages", "3"],
        "local C X Y in
          Y = 5 X = f(Y) {NewCell X C}
          thread at 2 local V W in {Exchange C V W} {Browse V} end end
        end",
        "f(5)\nquiescent ended=2 waiting=0\n",
        0,
    ),
];

// A thread that begins at the last site long after its worker has found nothing to do.
const LATE: &str = "local Go X Y D Z One N in
  Z = 0 One = 1 N = 20000
  proc {Go K E}
    local B in
      B = K =< Z
      if B then E = Z else local J in J = K - One {Go J E} end end
    end
  end
  {Go N D} {Wait D}
  thread at 64 X = f(Y) end
  case X of f(W) then W = 5 {Browse X} else skip end
end";

// As many workers as there may be.
pub static WIDE: [Worded; 2] = [
    (
        &["--sites", "64", "--workers", "64", "--steps", "100"],
        LOOP,
        "stopped steps site=1\n",
        4,
    ),
    (
        &["--sites", "64", "--workers", "64"],
        LATE,
        "f(5)\nquiescent ended=2 waiting=0\n",
        0,
    ),
];

// Words that are refused.
pub static USAGE: [&[&str]; 37] = [
    &["gen"],
    &["gen", "0"],
    &["gen", "1001"],
    &["gen", "x"],
    &["gen", "1", "2"],
    &["run", "4"],
    &["central", "4"],
    &["4"],
    &["walk"],
    &["run", "central"],
    &["save", "4"],
    &["check", "4"],
    &["save", "check"],
    &["--steps", "0"],
    &["--steps", "1000000001"],
    &["--steps", "many"],
    &["--steps"],
    &["--steps", "1", "--steps", "2"],
    &["--sites", "0"],
    &["--sites", "65"],
    &["--sites", "-1"],
    &["--sites", "x"],
    &["--sites", "2", "--sites", "3"],
    &["--workers", "65"],
    &["--workers", "-1"],
    &["--workers", "x"],
    &["--workers", "2", "--workers", "3"],
    &["--messages", "4000000001"],
    &["--messages", "-1"],
    &["--seed", "18446744073709551616"],
    &["--seed", "-1"],
    &["--seed", "x"],
    &["--seed", ""],
    &["--seed"],
    &["--seed", "1", "--seed", "2"],
    &["--help"],
    &["--version"],
];

// A text that is refused, and the end line.
pub static REFUSED: [(&str, &str); 21] = [
    ("", "refused 1:1 expected a statement"),
    ("loc", "refused 1:1 expected a statement"),
    ("local", "refused 1:6 expected a variable"),
    ("local X in X", "refused 1:13 expected ="),
    ("local X in X = 5 {Brows", "refused 1:19 undeclared"),
    ("local X in X = 5 {Browse", "refused 1:25 expected a value"),
    ("local X in X = 5 {Browse X", "refused 1:27 expected }"),
    (
        "local X in X = 5 {Browse X}",
        "refused 1:28 expected a statement or end",
    ),
    (
        "local X in X = 5 {Browse X} e",
        "refused 1:29 expected a statement or end",
    ),
    ("local X in", "refused 1:11 expected a statement"),
    (
        "local X in X = 170141183460469231731687303715884105728 end",
        "refused 1:16 bad number",
    ),
    ("local X in X = 007 end", "refused 1:16 bad number"),
    (
        "skip skip }",
        "refused 1:11 expected a statement or the end of the text",
    ),
    ("{Browse X}", "refused 1:9 undeclared"),
    ("local X in X = f(1:X X) end", "refused 1:22 given twice"),
    ("local X in X = fun", "refused 1:19 expected {"),
    ("local X in X = X \\= end", "refused 1:21 expected a value"),
    ("local X Y in X == Y end", "refused 1:16 expected ="),
    ("thread at 0 skip end", "refused 1:11 site below 1"),
    ("local A in A = 'x", "refused 1:16 open quote"),
    ("/* /* */", "refused 1:1 open comment"),
];

// The words after the name, a text, the calls of the source and of the sink that fail, the bytes that are taken, and the
// status' number.
type Failing = (
    &'static [&'static str],
    &'static str,
    &'static [u64],
    &'static [u64],
    &'static str,
    u8,
);

pub static FAILING: [Failing; 7] = [
    (&[], "skip", &[1], &[], "read fault\n", 6),
    (&[], FIVE, &[1], &[], "read fault\n", 6),
    (&[], COUNTER, &[1], &[], "read fault\n", 6),
    (&[], COUNTER, &[2], &[], "read fault\n", 6),
    (&[], FIVE, &[], &[2], "5\n", 7),
    (&[], FIVE, &[], &[1], "", 7),
    (&["walk"], "skip", &[], &[1], "", 7),
];
