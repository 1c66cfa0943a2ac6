//! A machine that goes on by picks of its own, in rounds.

use crate::choices::{Answer, Choice, FIRST, X};
use crate::stories::{Row, Story, play_story};
use std::test::Fail;
use tree_node::{Name, ThreadName, VarName};

// A cell counts to a hundred over four threads.
const COUNTER: &str = "local C Z One L N D1 D2 D3 D4 U in
  Z = 0 One = 1 N = 25 U = done
  {NewCell Z C}
  L = proc {$ K D}
    local B in
      B = K =< Z
      if B then D = U
      else local O M K1 in
        {Exchange C O M} M = O + One K1 = K - One {L K1 D}
      end end
    end
  end
  thread at 1 {L N D1} end thread at 2 {L N D2} end
  thread at 3 {L N D3} end thread at 4 {L N D4} end
  {Wait D1} {Wait D2} {Wait D3} {Wait D4}
  local V in {Exchange C V V} {Browse V} end
end";

static AT_ONCE: Story = Story {
    text: COUNTER,
    rows: &[Row::Rests(1_000_000), Row::Turns(1_000_000, 0)],
    lines: &["100"],
    rests: true,
    counts: (5, 0),
};

const ZERO: VarName = VarName { site: 7, num: 3 };

// The ten variables have names of several sites, with great numbers among them. The second is told to be 0 by hand.
static BY_HAND: Story = Story {
    text: COUNTER,
    rows: &[
        Row::Pick(
            FIRST,
            Choice::Takes(&[
                Name::Var(VarName {
                    site: 64,
                    num: 400_000_000_000_000_000,
                }),
                Name::Var(ZERO),
                Name::Var(VarName { site: 1, num: 5 }),
                Name::Var(VarName { site: 1, num: 4 }),
                Name::Var(VarName {
                    site: 1,
                    num: 500_000_000_000_000_000,
                }),
                Name::Var(VarName { site: 2, num: 1 }),
                Name::Var(VarName { site: 2, num: 0 }),
                Name::Var(VarName { site: 1, num: 3 }),
                Name::Var(VarName { site: 3, num: 3 }),
                Name::Var(VarName { site: 1, num: 0 }),
            ]),
            Answer::Goes,
        ),
        Row::Pick(FIRST, Choice::Nothing, Answer::Goes),
        Row::Pick(FIRST, Choice::Nothing, Answer::Goes),
        Row::Pick(FIRST, Choice::Int(ZERO, 0), Answer::Goes),
        Row::Turns(100, 100),
        Row::Rests(1_000_000),
    ],
    lines: &["100"],
    rests: true,
    counts: (5, 0),
};

const SECOND: ThreadName = ThreadName { site: 1, num: 1 };

// The second thread waits in its turn, and goes on once the variable is bound by hand.
static WOKEN: Story = Story {
    text: "local X in thread {Browse X} end X = 1 end",
    rows: &[
        Row::Pick(FIRST, Choice::Takes(&[Name::Var(X)]), Answer::Goes),
        Row::Pick(FIRST, Choice::Nothing, Answer::Goes),
        Row::Pick(FIRST, Choice::Takes(&[Name::Thread(SECOND)]), Answer::Goes),
        Row::Turns(1, 1),
        Row::Pick(SECOND, Choice::Nothing, Answer::Waits(X)),
        Row::Pick(FIRST, Choice::Int(X, 1), Answer::Goes),
        Row::Rests(100),
    ],
    lines: &["1"],
    rests: true,
    counts: (2, 0),
};

static WAITING: Story = Story {
    text: "local X in {Browse X} end",
    rows: &[Row::Turns(0, 0), Row::Turns(100, 1), Row::Turns(100, 0)],
    lines: &[],
    rests: true,
    counts: (0, 1),
};

static LOOP: Story = Story {
    text: "local P in P = proc {$} {P} end {P} end",
    rows: &[
        Row::Turns(1000, 1000),
        Row::Turns(0, 0),
        Row::Turns(64, 64),
        Row::Turns(7, 7),
    ],
    lines: &[],
    rests: false,
    counts: (0, 1),
};

// The first thread goes round and round, and the other has its turn behind 64 steps.
const LOOP_AND_LINE: &str = "local P in P = proc {$} {P} end thread {Browse P} end {P} end";

static BEFORE_ITS_TURN: Story = Story {
    text: LOOP_AND_LINE,
    rows: &[Row::Turns(64, 64)],
    lines: &[],
    rests: false,
    counts: (0, 2),
};

static IN_ITS_TURN: Story = Story {
    text: LOOP_AND_LINE,
    rows: &[Row::Turns(65, 65)],
    lines: &["<P/0>"],
    rests: false,
    counts: (1, 1),
};

// The first thread ends with its 64th step, and the two that it made have their turns in the order in which they were born.
const ENDS_WITH_ITS_TURN: &str = "local Zero One N Count in
  Zero = 0 One = 1 N = 2
  Count = proc {$ K}
    local B in
      B = K =< Zero
      if B then skip else local J in J = K - One {Count J} end end
    end
  end
  thread {Browse Zero} end
  thread {Browse One} end
  skip skip skip skip skip skip skip
  {Count N}
end";

static BOTH_ARE_LEFT: Story = Story {
    text: ENDS_WITH_ITS_TURN,
    rows: &[Row::Turns(64, 64)],
    lines: &[],
    rests: false,
    counts: (1, 2),
};

static NONE_IS_PASSED_BY: Story = Story {
    text: ENDS_WITH_ITS_TURN,
    rows: &[Row::Turns(100, 66)],
    lines: &["0", "1"],
    rests: true,
    counts: (3, 0),
};

// A thread that compares is woken by the first of four variables, and keeps its one place when the others are bound. It goes round
// and round then, and the last thread has its turn behind 64 steps of it.
const COMPARES_AND_GOES_ON: &str = "local A B X1 X2 Y1 Y2 W P One Two in
  One = 1 Two = 2
  A = pair(X1 X2) B = pair(Y1 Y2)
  P = proc {$} {P} end
  thread local R in R = A == B if R then skip else {P} end end end
  thread local Q in Q = W + W end end
  local S in
    thread S = One end
    local Q in
      Q = S + S
      X1 = One Y1 = Two
      X2 = One Y2 = Two
      thread {Browse One} end
    end
  end
end";

static BEHIND_ONE_TURN: Story = Story {
    text: COMPARES_AND_GOES_ON,
    rows: &[Row::Turns(121, 121)],
    lines: &[],
    rests: false,
    counts: (2, 3),
};

static WOKEN_ONCE: Story = Story {
    text: COMPARES_AND_GOES_ON,
    rows: &[Row::Turns(122, 122)],
    lines: &["1"],
    rests: false,
    counts: (3, 2),
};

#[test]
fn turns_go_on_to_the_end_or_the_limit(rt: HostRuntime) -> Result<(), Fail> {
    let alloc = rt.alloc();
    play_story(&rt, alloc, &AT_ONCE)?;
    play_story(&rt, alloc, &BY_HAND)?;
    play_story(&rt, alloc, &WOKEN)?;
    play_story(&rt, alloc, &WAITING)?;
    play_story(&rt, alloc, &LOOP)?;
    play_story(&rt, alloc, &BEFORE_ITS_TURN)?;
    play_story(&rt, alloc, &IN_ITS_TURN)?;
    play_story(&rt, alloc, &BOTH_ARE_LEFT)?;
    play_story(&rt, alloc, &NONE_IS_PASSED_BY)?;
    play_story(&rt, alloc, &BEHIND_ONE_TURN)?;
    play_story(&rt, alloc, &WOKEN_ONCE)?;
    Ok(())
}
