//! Texts that go on for ever, with what they print before a limit ends them; and texts whose lines come in one order by rounds.

use crate::rows::Worded;
use crate::site_texts::SiteText;

// One thread goes on for ever, and two others have something to do at the same site.
const BESIDE_LOOP: &str = "local P X in
  proc {P} {P} end
  thread {P} end thread X = 5 end {Browse X}
end";

// A thread makes a list without end, and another shows what is there.
const STREAM: &str = "local Make Show One Zero L in
  One = 1 Zero = 0
  proc {Make K R} local J T in R = K|T J = K + One {Make J T} end end
  proc {Show S} case S of H|T then {Browse H} {Show T} else skip end end
  thread {Make Zero L} end
  {Show L}
end";

/// The same with the one that shows at another site.
pub const FAR_STREAM: &str = "local Make Show One Zero L in
  One = 1 Zero = 0
  proc {Make K R} local J T in R = K|T J = K + One {Make J T} end end
  proc {Show S} case S of H|T then {Browse H} {Show T} else skip end end
  thread at 2 {Show L} end
  {Make Zero L}
end";

// A number is made only after the one before was shown. It takes twelve steps, and nineteen come before the first. To show one
// takes seven more, and eight where it is asked for at the same site.
const ASKED_FOR: &str = "local Make Show Zero One L in
  Zero = 0 One = 1
  proc {Make K R} local A J T in R = p(K A T) {Wait A} J = K + One {Make J T} end end
  proc {Show S} case S of p(K A T) then {Browse K} A = K {Show T} else skip end end
  thread at 2 {Show L} end
  {Make Zero L}
end";

// Two threads exchange a cell for ever, once a line is printed.
const TWO_AGENTS: &str = "local C Go Zero One F G H in
  Zero = 0 One = 1
  {NewCell Zero C}
  proc {Go} local O N in {Exchange C O N} N = O + One {Go} end end
  thread at 2 F = One {Wait H} {Go} end
  thread at 3 G = One {Wait H} {Go} end
  {Wait F} {Wait G} {Browse Zero} H = One
end";

// Nothing is raised within a catch, or in catches that are ever deeper.
const TRIED_LOOP: &str = "local P X in
  proc {P} {P} end
  thread try {P} catch E then {Browse E} end end
  try X = tried catch E then skip end
  {Browse X}
end";

const DEEPER: &str = "local P X in
  proc {P} try {P} catch E then {Browse E} end end
  thread {P} end
  X = beside {Browse X}
end";

// Threads are started for ever.
const STARTER: &str = "local P X in
  X = 1
  proc {P} thread skip end {P} end
  thread {Browse X} end
  {P}
end";

const TO_SIX: &str = "0\n1\n2\n3\n4\n5\n6\nstopped steps site=1\n";

const TO_THREE: &str = "0\n1\n2\n3\nstopped steps site=1\n";

const TO_TEN: &str = "0\n1\n2\n3\n4\n5\n6\n7\n8\n9\n10\nstopped steps site=1\n";

const TO_ELEVEN: &str = "0\n1\n2\n3\n4\n5\n6\n7\n8\n9\n10\n11\nstopped steps site=1\n";

// The thread that shows 5 waits after the first eight steps. It is woken in the second turn, behind the loop, and shows it as the
// first step of the third. The centralised machine counts steps alone, so that it is there in the fifth round.
pub static ENDLESS: [SiteText; 17] = [
    (
        &["--steps", "127"],
        BESIDE_LOOP,
        &["stopped steps site=1\n"],
        4,
    ),
    (
        &["--steps", "128"],
        BESIDE_LOOP,
        &["5\nstopped steps site=1\n"],
        4,
    ),
    (
        &["--steps", "140", "central"],
        BESIDE_LOOP,
        &["stopped steps site=1\n"],
        4,
    ),
    (
        &["--steps", "141", "central"],
        BESIDE_LOOP,
        &["5\nstopped steps site=1\n"],
        4,
    ),
    (&["--steps", "200"], STREAM, &[TO_TEN], 4),
    (&["--steps", "200", "central"], STREAM, &[TO_ELEVEN], 4),
    (&["--steps", "100", "--sites", "2"], ASKED_FOR, &[TO_SIX], 4),
    (
        &["--steps", "100", "--sites", "1"],
        ASKED_FOR,
        &[TO_THREE],
        4,
    ),
    (&["--steps", "100", "central"], ASKED_FOR, &[TO_THREE], 4),
    (
        &["--steps", "300", "--sites", "3"],
        TWO_AGENTS,
        &["0\nstopped steps site=2\n", "0\nstopped steps site=3\n"],
        4,
    ),
    (
        &["--steps", "300", "--sites", "1"],
        TWO_AGENTS,
        &["0\nstopped steps site=1\n"],
        4,
    ),
    (
        &["--steps", "200"],
        TRIED_LOOP,
        &["tried\nstopped steps site=1\n"],
        4,
    ),
    (
        &["--steps", "200", "central"],
        TRIED_LOOP,
        &["tried\nstopped steps site=1\n"],
        4,
    ),
    (
        &["--steps", "200"],
        DEEPER,
        &["beside\nstopped steps site=1\n"],
        4,
    ),
    (
        &["--steps", "200", "central"],
        DEEPER,
        &["beside\nstopped steps site=1\n"],
        4,
    ),
    (
        &["--steps", "200"],
        STARTER,
        &["1\nstopped steps site=1\n"],
        4,
    ),
    (
        &["--steps", "200", "central"],
        STARTER,
        &["1\nstopped steps site=1\n"],
        4,
    ),
];

// A line at the second site, while the first goes on for ever.
const FAR_LINE: &str = "local P X in
  X = 1
  proc {P} {P} end
  thread at 2 {Browse X} end
  {P}
end";

const TWO_MESSAGES: &str = "local A B in
  A = a B = b
  thread at 2 {Browse A} end thread at 2 {Browse B} end
end";

const THREE_SITES: &str = "local A B C in
  A = a B = b C = c
  thread at 3 {Browse C} end thread at 2 {Browse B} end
  {Browse A}
end";

// Without workers sites take turns from the first to the last, again and again, and each takes the message that was sent to it first.
pub static ROUNDS: [Worded; 3] = [
    (
        &["--workers", "0", "--sites", "2", "--steps", "200"],
        FAR_LINE,
        "1\nstopped steps site=1\n",
        4,
    ),
    (
        &["--workers", "0", "--sites", "2"],
        TWO_MESSAGES,
        "a\nb\nquiescent ended=3 waiting=0\n",
        0,
    ),
    (
        &["--workers", "0", "--sites", "3"],
        THREE_SITES,
        "a\nb\nc\nquiescent ended=3 waiting=0\n",
        0,
    ),
];
