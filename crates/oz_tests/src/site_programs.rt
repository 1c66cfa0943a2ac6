//! Programs that are the same on any number of sites, with all that may be printed of them.

// A text, all outputs that the language allows, and the status' number.
pub type SiteProgram = (&'static str, &'static [&'static str], u8);

// The words for each number of sites that they run on.
pub static SITES: [&[&str]; 5] = [
    &["--sites", "1"],
    &["--sites", "2"],
    &["--sites", "3"],
    &["--sites", "4"],
    &["--sites", "64"],
];

// Values that come from other sites.
pub static SENT: [SiteProgram; 12] = [
    (
        "local L A B N in
          A = 1 B = 2 N = nil
          thread at 2 local T in L = A|T thread at 3 T = B|N end end end
          {Browse L}
        end",
        &["1|2|nil\nquiescent ended=3 waiting=0\n"],
        0,
    ),
    (
        "local X Y in thread at 2 X = f(Y) end thread at 3 Y = 7 end {Browse X} end",
        &["f(7)\nquiescent ended=3 waiting=0\n"],
        0,
    ),
    (
        "local A B C in
          thread at 2 A = B end thread at 3 B = C end thread at 4 C = 9 end
          {Browse A}
        end",
        &["9\nquiescent ended=4 waiting=0\n"],
        0,
    ),
    (
        "local P X Y in
          proc {P A B} B = A end
          thread at 2 X = 5 {P X Y} end
          {Browse Y}
        end",
        &["5\nquiescent ended=2 waiting=0\n"],
        0,
    ),
    (
        "local R S A B in
          thread at 2 local X in X = 1 R = p(a:X b:B) end end
          thread at 3 local Y in Y = 2 S = p(a:A b:Y) end end
          R = S
          {Browse R}
        end",
        &["p(a:1 b:2)\nquiescent ended=3 waiting=0\n"],
        0,
    ),
    (
        "local X in thread at 2 X = f(X) end {Browse X} end",
        &[
            "f(f(f(f(f(f(f(f(f(f(f(f(f(f(f(f(f(f(f(f(,,,))))))))))))))))))))\nquiescent ended=2 waiting=0\n",
        ],
        0,
    ),
    (
        "local X Y Z in
          thread at 2 X = 20 end thread at 5 Y = 22 end
          Z = X + Y
          {Browse Z}
        end",
        &["42\nquiescent ended=3 waiting=0\n"],
        0,
    ),
    (
        "local X Y in
          thread at 2 X = point(y:Y) end thread at 3 Y = 4 end
          case X of point(y:Z) then {Browse Z} else skip end
        end",
        &["4\nquiescent ended=3 waiting=0\n"],
        0,
    ),
    (
        "local B in
          thread at 2 B = true end
          if B then {Browse B} else skip end
        end",
        &["true\nquiescent ended=2 waiting=0\n"],
        0,
    ),
    (
        "local R F X in
          thread at 2 F = a end
          thread at 3 local V in V = 3 R = r(a:V) end end
          X = R.F
          {Browse X}
        end",
        &["3\nquiescent ended=3 waiting=0\n"],
        0,
    ),
    (
        "local X Y R in
          R = r(X Y)
          thread at 2 X = 1 end thread at 3 Y = 2 end
          {Browse R}
        end",
        &["r(1 2)\nquiescent ended=3 waiting=0\n"],
        0,
    ),
    (
        "local Make Sum L N Z One S in
          Z = 0 One = 1 N = 20
          proc {Make K R}
            local B in
              B = K =< Z
              if B then R = nil
              else local T J in R = K|T J = K - One {Make J T} end end
            end
          end
          proc {Sum Xs A R}
            case Xs of X|Xr then local B in B = A + X {Sum Xr B R} end
            else R = A end
          end
          thread at 2 {Make N L} end
          thread at 3 {Sum L Z S} end
          {Browse S}
        end",
        &["210\nquiescent ended=3 waiting=0\n"],
        0,
    ),
];

// Values of other sites that are compared: their parts come with them, or later, or never.
pub static TESTED: [SiteProgram; 6] = [
    (
        "local X Y R in
          thread at 2 local A B C in A = 1 B = 2 C = g(A B) X = f(C A) end end
          thread at 3 local A B C in A = 1 B = 2 C = g(A B) Y = f(C A) end end
          R = X == Y
          {Browse R}
        end",
        &["true\nquiescent ended=3 waiting=0\n"],
        0,
    ),
    (
        "local X Y R in
          thread at 2 local A B C in A = 1 C = g(B A) X = f(C B) end end
          thread at 3 local A B C in A = 2 C = g(B A) Y = f(C B) end end
          R = X \\= Y
          {Browse R}
        end",
        &["true\nquiescent ended=3 waiting=0\n"],
        0,
    ),
    (
        "local X Y P Q R in
          thread at 2 X = f(P) {Wait Y} P = a end
          thread at 3 Y = f(Q) {Wait P} Q = a end
          thread at 4 R = X == Y {Browse R} end
        end",
        &["true\nquiescent ended=4 waiting=0\n"],
        0,
    ),
    (
        "local X Y R in
          thread at 2 X = f(X) end
          thread at 3 local Z in Y = f(Z) Z = f(Y) end end
          R = X == Y
          {Browse R}
        end",
        &["true\nquiescent ended=3 waiting=0\n"],
        0,
    ),
    (
        "local C D P Q X R S in
          {NewCell X C}
          {NewCell X D}
          proc {P} skip end
          proc {Q} skip end
          thread at 2 R = C == D S = P \\= Q end
          {Browse R} {Browse S}
        end",
        &["false\ntrue\nquiescent ended=2 waiting=0\n"],
        0,
    ),
    (
        "local X Y R in thread at 2 X = f(Y) end R = X == Y {Browse R} end",
        &["quiescent ended=1 waiting=1\n"],
        1,
    ),
];

// Threads, and what they wait for.
pub static THREADS: [SiteProgram; 9] = [
    (
        "local X in thread at 3 {Wait X} {Browse X} end end",
        &["quiescent ended=1 waiting=1\n"],
        1,
    ),
    (
        "local X Y in
          thread at 2 {Wait X} Y = 1 end
          thread at 3 {Wait Y} X = 1 end
        end",
        &["quiescent ended=1 waiting=2\n"],
        1,
    ),
    (
        "local X Y in
          thread at 2 X = Y end thread at 3 Y = X end
          {Wait X}
        end",
        &["quiescent ended=2 waiting=1\n"],
        1,
    ),
    (
        "local X in
          thread at 2 thread at 3 thread at 1 {Browse X} end end end
          X = hop
        end",
        &["hop\nquiescent ended=4 waiting=0\n"],
        0,
    ),
    (
        "local X in X = 7 thread at 65 {Browse X} end end",
        &["7\nquiescent ended=2 waiting=0\n"],
        0,
    ),
    (
        "local X in thread at 2 {Browse X} end thread at 3 {Browse X} end X = 1 end",
        &["1\n1\nquiescent ended=3 waiting=0\n"],
        0,
    ),
    (
        "local A B D in
          A = a B = b
          thread at 2 {Browse A} D = done end
          {Wait D} {Browse B}
        end",
        &["a\nb\nquiescent ended=2 waiting=0\n"],
        0,
    ),
    (
        "local X Y in X = 1 Y = 2 thread at 2 {Browse X} end {Browse Y} end",
        &[
            "1\n2\nquiescent ended=2 waiting=0\n",
            "2\n1\nquiescent ended=2 waiting=0\n",
        ],
        0,
    ),
    (
        "local A B C in
          A = a B = b C = c
          thread at 2 {Browse A} end thread at 3 {Browse B} end
          {Browse C}
        end",
        &[
            "a\nb\nc\nquiescent ended=3 waiting=0\n",
            "a\nc\nb\nquiescent ended=3 waiting=0\n",
            "b\na\nc\nquiescent ended=3 waiting=0\n",
            "b\nc\na\nquiescent ended=3 waiting=0\n",
            "c\na\nb\nquiescent ended=3 waiting=0\n",
            "c\nb\na\nquiescent ended=3 waiting=0\n",
        ],
        0,
    ),
];

// Cells that several sites exchange.
pub static CELLS: [SiteProgram; 4] = [
    (
        "local C A B Z X Y in
          Z = 0 A = 1 B = 2
          {NewCell Z C}
          thread at 2 {Exchange C X A} {Browse X} end
          {Exchange C Y B} {Browse Y}
        end",
        &[
            "0\n1\nquiescent ended=2 waiting=0\n",
            "1\n0\nquiescent ended=2 waiting=0\n",
            "0\n2\nquiescent ended=2 waiting=0\n",
            "2\n0\nquiescent ended=2 waiting=0\n",
        ],
        0,
    ),
    (
        "local C X Y Z in
          X = 1
          {NewCell X C}
          thread at 2 {Exchange C Y Z} end
          {Wait Y}
          Z = 2
          local V W in {Exchange C V W} {Browse V} end
        end",
        &["2\nquiescent ended=2 waiting=0\n"],
        0,
    ),
    (
        "local C Z One D1 D2 U Add in
          Z = 0 One = 1 U = done
          {NewCell Z C}
          proc {Add D} local O M in {Exchange C O M} M = O + One D = U end end
          thread at 2 {Add D1} end
          thread at 3 {Add D2} end
          {Wait D1} {Wait D2}
          local V in {Exchange C V V} {Browse V} end
        end",
        &["2\nquiescent ended=3 waiting=0\n"],
        0,
    ),
    (
        "local C S Send A B D1 D2 U in
          A = a B = b U = done
          {NewCell S C}
          proc {Send X D} local O T in {Exchange C O T} O = X|T D = U end end
          thread at 2 {Send A D1} end
          thread at 3 {Send B D2} end
          {Wait D1} {Wait D2}
          local E N in N = nil {Exchange C E N} E = N end
          {Browse S}
        end",
        &[
            "a|b|nil\nquiescent ended=3 waiting=0\n",
            "b|a|nil\nquiescent ended=3 waiting=0\n",
        ],
        0,
    ),
];

// Exceptions, and tells that fail.
pub static RAISED: [SiteProgram; 8] = [
    (
        "local X in
          thread at 2 try X = a catch E then {Browse E} end end
          thread at 3 try X = b catch E then {Browse E} end end
          {Browse X}
        end",
        &[
            "a\nfailure(tell)\nquiescent ended=3 waiting=0\n",
            "b\nfailure(tell)\nquiescent ended=3 waiting=0\n",
            "failure(tell)\na\nquiescent ended=3 waiting=0\n",
            "failure(tell)\nb\nquiescent ended=3 waiting=0\n",
        ],
        0,
    ),
    (
        "local P Q X in
          proc {P} skip end
          thread at 2 Q = P end
          {Wait Q}
          try Q = P X = yes catch E then X = no end
          {Browse X}
        end",
        &["yes\nquiescent ended=2 waiting=0\n"],
        0,
    ),
    (
        "local P Q in
          proc {P} skip end
          thread at 2 proc {Q} skip end end
          {Wait Q}
          P = Q
        end",
        &["uncaught failure(tell)\nquiescent ended=2 waiting=0\n"],
        0,
    ),
    (
        "local R S in
          thread at 2 local X in X = 1 R = p(X) end end
          thread at 3 local Y in Y = 2 S = p(Y) end end
          {Wait R} {Wait S}
          R = S
        end",
        &["uncaught failure(tell)\nquiescent ended=3 waiting=0\n"],
        0,
    ),
    (
        "local P Q X A F B in
          A = 1 B = 2 F = 5
          thread at 2 P = p(X A) end
          thread at 3 Q = p(F B) end
          {Wait P} {Wait Q}
          try P = Q catch E then {Browse X} end
        end",
        &["5\nquiescent ended=3 waiting=0\n"],
        0,
    ),
    (
        "local X in X = boom thread at 2 raise X end end {Browse X} end",
        &[
            "boom\nuncaught boom\nquiescent ended=2 waiting=0\n",
            "uncaught boom\nboom\nquiescent ended=2 waiting=0\n",
        ],
        0,
    ),
    (
        "local X Y Z in
          thread at 2 X = a end
          Y = 1
          try Z = X + Y catch E then {Browse E} end
        end",
        &["error(type)\nquiescent ended=2 waiting=0\n"],
        0,
    ),
    (
        "local X Y in
          X = 1
          thread at 2 X = 2 end
          thread at 3 Y = X Y = 3 end
        end",
        &["uncaught failure(tell)\nuncaught failure(tell)\nquiescent ended=3 waiting=0\n"],
        0,
    ),
];
