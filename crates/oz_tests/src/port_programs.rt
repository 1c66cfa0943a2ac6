//! Programs with ports and stationary cells, which are the same on any number of sites, and saved runs of such.

use crate::site_programs::SiteProgram;
use crate::site_texts::SiteText;

// Two messages of two threads stand in the stream of the port in some order.
pub const RACED: &str = "local S P A B in
  A = a B = b {NewPort S P}
  thread at 2 {Send P A} end
  thread at 3 {Send P B} end
  case S of H|T then {Browse H} case T of I|U then {Browse I} else skip end else skip end
end";

// A count to a hundred over four threads, by a cell that stays at the first site.
pub const STATIONARY: &str = "local C Z One L N D1 D2 D3 D4 U in
  Z = 0 One = 1 N = 25 U = done
  {NewCellAt Z C One}
  L = proc {$ K D}
    local B in
      B = K =< Z
      if B then D = U
      else local O M K1 in
        {Exchange C O M} M = O + One K1 = K - One {L K1 D}
      end end
    end
  end
  thread at 1 {L N D1} end thread at 2 {L N D2} end
  thread at 3 {L N D3} end thread at 4 {L N D4} end
  {Wait D1} {Wait D2} {Wait D3} {Wait D4}
  local V in {Exchange C V V} {Browse V} end
end";

// A send to a port of another site, and an exchange of a cell whose home is another site. Either takes two messages, after the one that
// brings the thread there. The end of the port is told to the site that sends, which asks its owner for it.
const SENT: &str = "local S P A in A = a {NewPort S P} thread at 2 {Send P A} {Browse A} end end";

const ASKED: &str =
    "local C X K in X = 1 K = 1 {NewCellAt X C K} thread at 2 local Y Z in Z = 5 {Exchange C Y Z} {Browse Y} end end end";

// The same, where the site that is asked has a thread without an end.
const SENT_BESIDE_LOOP: &str = "local S P A L in
  A = a {NewPort S P} thread at 2 {Send P A} {Browse A} end
  proc {L} {L} end {L}
end";

const ASKED_BESIDE_LOOP: &str = "local C X K L in
  X = 1 K = 1 {NewCellAt X C K}
  thread at 2 local Y Z in Z = 5 {Exchange C Y Z} {Browse Y} end end
  proc {L} {L} end {L}
end";

// Two sends to an own port, each a step: 26 in all.
const SENT_AT_OWNER: &str = "local S P in {NewPort S P} {Send P a} {Send P b} end";

// Runs that a limit ends before a request, between a request and its answer, or behind it; and in the midst of sends at the port's owner.
pub static LIMITED: [SiteText; 10] = [
    (
        &["--sites", "2", "--messages", "1"],
        SENT,
        &["stopped messages\n"],
        5,
    ),
    (
        &["--sites", "2", "--messages", "2"],
        SENT,
        &["stopped messages\n"],
        5,
    ),
    (
        &["--sites", "2", "--messages", "20"],
        SENT,
        &["a\nquiescent ended=2 waiting=0\n"],
        0,
    ),
    (
        &["--sites", "2", "--messages", "1"],
        ASKED,
        &["stopped messages\n"],
        5,
    ),
    (
        &["--sites", "2", "--messages", "2"],
        ASKED,
        &["stopped messages\n"],
        5,
    ),
    (
        &["--sites", "2", "--messages", "3"],
        ASKED,
        &["1\nquiescent ended=2 waiting=0\n"],
        0,
    ),
    (
        &["--sites", "4", "--steps", "25"],
        SENT_AT_OWNER,
        &["stopped steps site=1\n"],
        4,
    ),
    (
        &["--sites", "4", "--steps", "26"],
        SENT_AT_OWNER,
        &["quiescent ended=1 waiting=0\n"],
        0,
    ),
    (
        &["--sites", "2", "--steps", "200"],
        SENT_BESIDE_LOOP,
        &["stopped steps site=1\n", "a\nstopped steps site=1\n"],
        4,
    ),
    (
        &["--sites", "2", "--steps", "200"],
        ASKED_BESIDE_LOOP,
        &["stopped steps site=1\n", "1\nstopped steps site=1\n"],
        4,
    ),
];

// Ports.
pub static PORTS: [SiteProgram; 10] = [
    (
        RACED,
        &[
            "a\nb\nquiescent ended=3 waiting=0\n",
            "b\na\nquiescent ended=3 waiting=0\n",
        ],
        0,
    ),
    // Those of one thread stand in its order.
    (
        "local S P A B in
          A = a B = b {NewPort S P}
          thread at 2 {Send P A} {Send P B} end
          case S of H|T then {Browse H} case T of I|U then {Browse I} else skip end else skip end
        end",
        &["a\nb\nquiescent ended=2 waiting=0\n"],
        0,
    ),
    (
        "local P X in P = x {Send P X} end",
        &["uncaught error(type)\nquiescent ended=1 waiting=0\n"],
        0,
    ),
    (
        "local S P in {NewPort S P} {Browse P} end",
        &["<Port>\nquiescent ended=1 waiting=0\n"],
        0,
    ),
    // A send waits for its port.
    (
        "local S P X in X = 1 thread at 2 {Send P X} {Browse X} end {NewPort S P} end",
        &["1\nquiescent ended=2 waiting=0\n"],
        0,
    ),
    (
        "local P X in thread at 2 {Send P X} end end",
        &["quiescent ended=1 waiting=1\n"],
        1,
    ),
    // The end was bound by somebody else.
    (
        "local S P X in X = 1 {NewPort S P} S = foo {Send P X} end",
        &["uncaught failure(tell)\nquiescent ended=1 waiting=0\n"],
        0,
    ),
    // A port in a message.
    (
        "local S P in
          {NewPort S P}
          thread at 2
            local Q T in
              {NewPort T Q} {Send P ask(Q)}
              case T of A|U then {Browse A} else skip end
            end
          end
          case S of M|R then case M of ask(Q) then {Send Q answer} else skip end else skip end
        end",
        &["answer\nquiescent ended=2 waiting=0\n"],
        0,
    ),
    // Two ports are equal where they are one.
    (
        "local S T P Q C in
          {NewPort S P} {NewPort T Q} {NewCell 1 C}
          {Browse P == P} {Browse P == Q} {Browse P == C} {Browse S == T}
        end",
        &["true\nfalse\nfalse\nquiescent ended=0 waiting=1\n"],
        1,
    ),
    // Ports and cells are shown as such, and are equal to themselves alone.
    (
        "local S T P Q C in
          {NewPort S P} {NewPort T Q} {NewCellAt 1 C 2}
          P = P {Browse P} {Browse C}
          try P = Q catch X then {Browse X} end
          try C = P catch X then {Browse X} end
        end",
        &["<Port>\n<Cell>\nfailure(tell)\nfailure(tell)\nquiescent ended=1 waiting=0\n"],
        0,
    ),
];

// Stationary cells.
pub static HOMES: [SiteProgram; 9] = [
    (STATIONARY, &["100\nquiescent ended=5 waiting=0\n"], 0),
    (
        "local X C K in X = 1 K = 0 {NewCellAt X C K} end",
        &["uncaught error(type)\nquiescent ended=1 waiting=0\n"],
        0,
    ),
    (
        "local X C K in X = 1 K = ~1 {NewCellAt X C K} end",
        &["uncaught error(type)\nquiescent ended=1 waiting=0\n"],
        0,
    ),
    (
        "local X C K in X = 1 K = a {NewCellAt X C K} end",
        &["uncaught error(type)\nquiescent ended=1 waiting=0\n"],
        0,
    ),
    // The number of its home goes round the sites, however great it is.
    (
        "local C X Y Z in
          X = 1 {NewCellAt X C 170141183460469231731687303715884105727}
          Z = 2 {Exchange C Y Z} {Browse Y} {Browse C}
        end",
        &["1\n<Cell>\nquiescent ended=1 waiting=0\n"],
        0,
    ),
    // It waits for that number.
    (
        "local C X K in X = 1 {NewCellAt X C K} end",
        &["quiescent ended=0 waiting=1\n"],
        1,
    ),
    // An exchange at a third site.
    (
        "local C X D in
          X = 0
          thread at 2 local Y Z in Y = 5 {Exchange C Z Y} D = Z end end
          {NewCellAt X C 3}
          {Browse D}
          local U V in U = 9 {Exchange C V U} {Browse V} end
        end",
        &["0\n5\nquiescent ended=2 waiting=0\n"],
        0,
    ),
    // A port in a cell.
    (
        "local C P S X D in
          X = none {NewPort S P} {NewCellAt X C 2}
          thread at 3 local O in {Exchange C O P} D = O end end
          {Wait D}
          thread at 4 local O N in N = zero {Exchange C O N} {Send O hello} end end
          case S of H|T then {Browse H} else skip end
        end",
        &["hello\nquiescent ended=3 waiting=0\n"],
        0,
    ),
    // Such a cell is equal to itself alone, too.
    (
        "local C D P S in
          {NewCellAt 1 C 2} {NewCellAt 1 D 2} {NewPort S P}
          {Browse C == C} {Browse C == D} {Browse C == P}
          C = C {Browse C}
          try C = D catch X then {Browse X} end
          try C = P catch X then {Browse X} end
        end",
        &[
            "true\nfalse\nfalse\n<Cell>\nfailure(tell)\nfailure(tell)\nquiescent ended=1 waiting=0\n",
        ],
        0,
    ),
];

// Saved runs, and what their check prints: as many picks as the text has steps. In the first three the home of a cell is asked before it
// hears that the cell was made: by one thread elsewhere, then besides by a thread of its own, and then by two elsewhere and one of its own.
// Then come an exchange of a cell that is at home, and sends to a port at its owner and from another site.
pub static REQUESTED: [(&str, &str); 5] = [
    (
        "ozrun 1 3 1000000 1000000 108
local C X in X = 7 thread at 2 local Y Z in Y = 5 {Exchange C Z Y} {Browse Z} end end {NewCellAt X C 3} end

turn 1 - 1.0 1.0 1.0 1.0 1.0 1.0 1.0 1.0 1.0 1.0 1.0 1.0 1.0 1.0 1.0 1.0 1.0
turn 2 0 1.1 1.1 1.1 1.1 1.1 1.1 1.1
turn 1 2
turn 2 3 1.1
turn 3 4
turn 3 1
turn 2 5 1.1 1.1 1.1 1.1
line 7
end quiescent ended=2 waiting=0
",
        "7\nchecked entries=7 picks=28\n",
    ),
    (
        "ozrun 1 3 1000000 1000000 175
local C X in X = 7 thread at 2 local Y Z in Y = 5 {Exchange C Z Y} {Browse Z} end end thread at 3 local Y Z in Y = 6 {Exchange C Z Y} {Browse Z} end end {NewCellAt X C 3} end

turn 1 - 1.0 1.0 1.0 1.0 1.0 1.0 1.0 1.0 1.0 1.0 1.0 1.0 1.0 1.0 1.0 1.0 1.0 1.0
turn 2 0 1.1 1.1 1.1 1.1 1.1 1.1 1.1
turn 3 1 1.2 1.2 1.2 1.2 1.2 1.2 1.2
turn 1 3
turn 1 4
turn 2 5 1.1
turn 3 7
turn 3 6 1.2
turn 3 2 1.2 1.2 1.2 1.2
line 5
turn 2 8 1.1 1.1 1.1 1.1
line 7
end quiescent ended=3 waiting=0
",
        "5\n7\nchecked entries=10 picks=40\n",
    ),
    (
        "ozrun 1 4 1000000 1000000 242
local C X in X = 7 thread at 2 local Y Z in Y = 5 {Exchange C Z Y} {Browse Z} end end thread at 3 local Y Z in Y = 6 {Exchange C Z Y} {Browse Z} end end thread at 4 local Y Z in Y = 8 {Exchange C Z Y} {Browse Z} end end {NewCellAt X C 3} end

turn 1 - 1.0 1.0 1.0 1.0 1.0 1.0 1.0 1.0 1.0 1.0 1.0 1.0 1.0 1.0 1.0 1.0 1.0 1.0 1.0
turn 2 0 1.1 1.1 1.1 1.1 1.1 1.1 1.1
turn 3 1 1.2 1.2 1.2 1.2 1.2 1.2 1.2
turn 4 2 1.3 1.3 1.3 1.3 1.3 1.3 1.3
turn 1 4
turn 2 7 1.1
turn 1 5
turn 3 8
turn 3 9 1.2
turn 1 6
turn 4 10 1.3
turn 3 11
turn 3 3 1.2 1.2 1.2 1.2
line 5
turn 2 12 1.1 1.1 1.1 1.1
line 7
turn 4 13 1.3 1.3 1.3 1.3
line 6
end quiescent ended=4 waiting=0
",
        "5\n7\n6\nchecked entries=15 picks=52\n",
    ),
    (
        "ozrun 1 2 1000000 1000000 92
local C X in X = 1 {NewCellAt X C 1} local U V in V = 2 {Exchange C U V} {Browse U} end end

turn 1 - 1.0 1.0 1.0 1.0 1.0 1.0 1.0 1.0 1.0 1.0 1.0 1.0 1.0 1.0 1.0 1.0 1.0 1.0 1.0 1.0 1.0 1.0 1.0 1.0 1.0 1.0 1.0
line 1
end quiescent ended=1 waiting=0
",
        "1\nchecked entries=1 picks=27\n",
    ),
    (
        "ozrun 1 2 1000000 1000000 80
local S P in {NewPort S P} thread at 2 {Send P a} {Send P b} end {Send P c} end

turn 1 - 1.0 1.0 1.0 1.0 1.0 1.0 1.0 1.0 1.0 1.0 1.0 1.0 1.0 1.0 1.0 1.0 1.0
turn 2 0 1.1 1.1 1.1 1.1 1.1 1.1 1.1 1.1
turn 1 1
turn 2 2 1.1
turn 1 3
turn 1 4
turn 1 5
turn 2 6 1.1 1.1 1.1 1.1 1.1 1.1 1.1 1.1 1.1
turn 1 7
turn 2 8 1.1
turn 1 9
turn 1 10
turn 2 11 1.1 1.1
end quiescent ended=2 waiting=0
",
        "checked entries=13 picks=38\n",
    ),
];

// Saved runs in which a thread goes on though its answer has not come, and what their check prints: one that asked another site for a
// cell's content, one that waits until its own site hears of a cell, and one that sent to a port of another site.
pub static HURRIED: [(&str, &str); 3] = [
    (
        "ozrun 1 3 1000000 1000000 108
local C X in X = 7 thread at 2 local Y Z in Y = 5 {Exchange C Z Y} {Browse Z} end end {NewCellAt X C 3} end

turn 1 - 1.0 1.0 1.0 1.0 1.0 1.0 1.0 1.0 1.0 1.0 1.0 1.0 1.0 1.0 1.0 1.0 1.0
turn 2 0 1.1 1.1 1.1 1.1 1.1 1.1 1.1
turn 1 2
turn 2 3 1.1 1.1
turn 3 4
turn 3 1
turn 2 5 1.1 1.1 1.1 1.1
line 7
end quiescent ended=2 waiting=0
",
        "wrong entry=3\n",
    ),
    (
        "ozrun 1 3 1000000 1000000 175
local C X in X = 7 thread at 2 local Y Z in Y = 5 {Exchange C Z Y} {Browse Z} end end thread at 3 local Y Z in Y = 6 {Exchange C Z Y} {Browse Z} end end {NewCellAt X C 3} end

turn 1 - 1.0 1.0 1.0 1.0 1.0 1.0 1.0 1.0 1.0 1.0 1.0 1.0 1.0 1.0 1.0 1.0 1.0 1.0
turn 2 0 1.1 1.1 1.1 1.1 1.1 1.1 1.1
turn 3 1 1.2 1.2 1.2 1.2 1.2 1.2 1.2
turn 1 3
turn 1 4
turn 2 5 1.1
turn 3 7
turn 3 6 1.2 1.2
turn 3 2 1.2 1.2 1.2 1.2
line 5
turn 2 8 1.1 1.1 1.1 1.1
line 7
end quiescent ended=3 waiting=0
",
        "wrong entry=7\n",
    ),
    (
        "ozrun 1 2 1000000 1000000 58
local S P in {NewPort S P} thread at 2 {Send P a} end end

turn 1 - 1.0 1.0 1.0 1.0 1.0 1.0 1.0
turn 2 0 1.1 1.1 1.1 1.1 1.1 1.1 1.1
turn 1 1
turn 2 2 1.1 1.1
turn 1 3
turn 1 4
turn 1 5
turn 2 6 1.1 1.1
end quiescent ended=2 waiting=0
",
        "wrong entry=3\n",
    ),
];
