//! Examples of the repository, as `examples/check --tables` writes them.

// A text, what it prints and its status' number.
pub static EXAMPLES: [(&str, &str, u8); 20] = [
    (
        "% CTM 5.3.2: a message with a port in it asks for an answer, which comes to that port: so the two share no variable of a message.
local Server Serve Requests Client Answers in
  Server = {NewPort Requests}
  proc {Serve Requests}
    case Requests of Request|More then
      case Request of square(N From) then {Send From N * N}  {Serve More}
      else skip end
    else skip end
  end
  thread at 2 {Serve Requests} end
  Client = {NewPort Answers}
  {Send Server square(7 Client)}
  {Send Server square(12 Client)}
  {Send Server stop}
  case Answers of First|More then
    {Browse First}
    case More of Second|Rest then {Browse Second} else skip end
  else skip end
end
",
        "49\n144\nquiescent ended=2 waiting=0\n",
        0,
    ),
    (
        "% Lists are records with a head and a tail; nil is an atom. Append goes through the first list and shares the second.
local Append L1 L2 in
  fun {Append Xs Ys}
    case Xs of X|Xr then X|{Append Xr Ys}
    else Ys end
  end
  L1 = a|b|nil
  L2 = c|nil
  {Browse {Append L1 L2}}
  {Browse L1|L2}
end
",
        "a|b|c|nil\n(a|b|nil)|c|nil\nquiescent ended=1 waiting=0\n",
        0,
    ),
    (
        "% CTM 4.4.3, concurrent composition: a barrier runs procedures at once, each in a thread of its own, and goes on when all have
% ended. Each thread binds a variable to that of the thread before it, so that the last one is known when all are.
local Barrier Count Tally Once Twice Thrice in
  Tally = {NewCell 0}
  proc {Count}
    local Old New in {Exchange Tally Old New} New = Old + 1 end
  end
  proc {Barrier Ps}
    local Start in
      proc {Start Ps Before ?Last}
        case Ps of P|Pr then
          local After in
            thread {P} After = Before end
            {Start Pr After Last}
          end
        else Last = Before end
      end
      {Wait {Start Ps go}}
    end
  end
  proc {Once} {Count} end
  proc {Twice} {Count} {Count} end
  proc {Thrice} {Count} {Count} {Count} end
  {Barrier Once|Twice|Thrice|nil}
  local Sum in {Exchange Tally Sum Sum} {Browse Sum} end
end
",
        "6\nquiescent ended=4 waiting=0\n",
        0,
    ),
    (
        "% A bounded buffer: the consumer's questions and the producer's answers are two streams, and the buffer asks at most three
% elements ahead of the consumer.
local Produce Buffer Start Serve Take Questions Answers in
  % answers each question with the next number
  proc {Produce N Xs}
    case Xs of X|Xr then X = N {Produce N + 1 Xr}
    else skip end
  end
  % asks N elements ahead; the result is what is to be asked next
  proc {Start N Xs ?End}
    if N =< 0 then End = Xs
    else
      local X Xr in
        Xs = X|Xr
        End = {Start N - 1 Xr}
      end
    end
  end
  % each element that the consumer takes lets one more be asked
  proc {Serve Ys Xs End}
    case Ys of Y|Yr then
      local Xr X More in
        Xs = Y|Xr
        End = X|More
        {Serve Yr Xr More}
      end
    else End = nil end
  end
  proc {Buffer N Xs Ys} {Serve Ys Xs {Start N Xs}} end
  % takes N elements and then closes the buffer
  proc {Take N Ys ?Taken}
    if N =< 0 then Ys = nil Taken = nil
    else
      local Y Yr in
        Ys = Y|Yr
        Taken = Y|{Take N - 1 Yr}
      end
    end
  end
  thread {Produce 0 Questions} end
  thread {Buffer 3 Questions Answers} end
  {Browse {Take 6 Answers}}
end
",
        "0|1|2|3|4|5|nil\nquiescent ended=3 waiting=0\n",
        0,
    ),
    (
        "% An exception goes to the nearest handler. What was bound before it stays bound.
local Divide in
  proc {Divide X Y ?R}
    try R = X div Y
    catch E then {Browse E} R = none end
  end
  {Browse {Divide 7 2}}
  {Browse {Divide 7 0}}
end
",
        "3\nerror(zero)\nnone\nquiescent ended=1 waiting=0\n",
        0,
    ),
    (
        "% CTM 4.2.3, dataflow threads: a map with a thread for each element. The list is there before its elements are, and each is
% known when its thread has made it.
local Map Wait3 Double F A B C Ys in
  proc {Map Xs F ?Ys}
    case Xs of X|Xr then
      local Y Yr in
        Ys = Y|Yr
        thread Y = {F X} end
        Yr = {Map Xr F}
      end
    else Ys = nil end
  end
  fun {Double X} X + X end
  % elements that are not known yet can be mapped, too
  Ys = {Map A|B|C|nil Double}
  proc {Wait3 ?R} C = 3  B = C + C  A = B + C  R = done end
  thread at 2 F = {Wait3} end
  {Browse Ys}
  {Browse F}
end
",
        "18|12|6|nil\ndone\nquiescent ended=5 waiting=0\n",
        0,
    ),
    (
        "% State that only its procedures can reach: a counter is a record of two procedures round one cell.
local MakeCounter A B Increment Get Other in
  proc {MakeCounter ?Counter}
    local C Increment Get in
      C = {NewCell 0}
      proc {Increment}
        local Old New in {Exchange C Old New} New = Old + 1 end
      end
      proc {Get ?X} {Exchange C X X} end
      Counter = counter(get:Get increment:Increment)
    end
  end
  A = {MakeCounter}
  B = {MakeCounter}
  Increment = A.increment
  Get = A.get
  Other = B.get
  {Increment}
  {Increment}
  {Browse {Get}}
  {Browse {Other}}
end
",
        "2\n0\nquiescent ended=1 waiting=0\n",
        0,
    ),
    (
        "% Values may be cyclic. Two rings of different length are the same infinite tree, so that they can be made equal; what is
% shown is cut at level 20.
local X Y Z in
  X = f(X)
  Y = f(Z)
  Z = f(Y)
  X = Y
  {Browse X}
end
",
        "f(f(f(f(f(f(f(f(f(f(f(f(f(f(f(f(f(f(f(f(,,,))))))))))))))))))))\nquiescent ended=1 waiting=0\n",
        0,
    ),
    (
        "% CTM 4.3.3, demand-driven streams: the consumer makes the list, and the producer binds each element that is asked for. It makes
% none that nobody wants.
local Produce Sum Xs S in
  proc {Produce N Xs}
    case Xs of X|Xr then X = N {Produce N + 1 Xr}
    else {Browse N} end
  end
  proc {Sum N Xs Before ?S}
    case N of 0 then Xs = nil  S = Before
    else
      local X Xr in
        Xs = X|Xr
        S = {Sum N - 1 Xr Before + X}
      end
    end
  end
  thread S = {Sum 4 Xs 0} end
  {Produce 1 Xs}
  {Browse S}
end
",
        "5\n10\nquiescent ended=2 waiting=0\n",
        0,
    ),
    (
        "% Integers have 128 bits: thirty-three is the last number whose factorial fits, and one more raises an exception.
local Factorial in
  fun {Factorial N}
    if N =< 0 then 1 else N * {Factorial N - 1} end
  end
  {Browse {Factorial 25}}
  {Browse {Factorial 33}}
  try {Browse {Factorial 34}}
  catch E then {Browse E} end
end
",
        "15511210043330985984000000\n8683317618811886495518194401280000000\nerror(overflow)\nquiescent ended=1 waiting=0\n",
        0,
    ),
    (
        "% Two values that are not equal: the tell fails, nothing catches the exception, and the thread ends.
local X in
  X = 1
  {Browse X}
  X = 2
  {Browse X}
end
",
        "1\nuncaught failure(tell)\nquiescent ended=1 waiting=0\n",
        0,
    ),
    (
        "% CTM 4.2.3, threads are cheap: each call starts a thread for one of its two calls, and waits for nothing but their sum.
local Fibonacci in
  proc {Fibonacci N ?F}
    if N =< 2 then F = 1
    else
      local G in
        thread G = {Fibonacci N - 1} end
        F = {Fibonacci N - 2} + G
      end
    end
  end
  {Browse {Fibonacci 10}}
end
",
        "55\nquiescent ended=55 waiting=0\n",
        0,
    ),
    (
        "% A variable is bound once, and shown.
local X in
  X = 5
  {Browse X}
end
",
        "5\nquiescent ended=1 waiting=0\n",
        0,
    ),
    (
        "% A loop with an accumulator, made from a procedure that is handed in: the sum and the product of a list.
local Fold Xs in
  fun {Fold Xs F State}
    case Xs of X|Xr then {Fold Xr F {F State X}}
    else State end
  end
  Xs = 3|4|5|nil
  {Browse {Fold Xs fun {$ X Y} X + Y end 0}}
  {Browse {Fold Xs fun {$ X Y} X * Y end 1}}
end
",
        "12\n60\nquiescent ended=1 waiting=0\n",
        0,
    ),
    (
        "% Logic gates are threads over streams of bits: a half adder of two gates gives the sum and the carry of each pair.
local Gate And Xor A B Sum Carry in
  fun {Gate F Xs Ys}
    case Xs of X|Xr then
      case Ys of Y|Yr then {F X Y}|{Gate F Xr Yr}
      else nil end
    else nil end
  end
  fun {And X Y} X * Y end
  fun {Xor X Y} (X + Y) mod 2 end
  thread Sum = {Gate Xor A B} end
  thread Carry = {Gate And A B} end
  % the bits come one by one
  local A1 A2 A3 B1 B2 B3 in
    A = 0|A1  B = 0|B1
    A1 = 1|A2  B1 = 0|B2
    A2 = 0|A3  B2 = 1|B3
    A3 = 1|nil  B3 = 1|nil
  end
  {Browse Sum}
  {Browse Carry}
end
",
        "0|1|1|0|nil\n0|0|0|1|nil\nquiescent ended=3 waiting=0\n",
        0,
    ),
    (
        "% CTM 4.5.6, a network of streams that feeds itself: Hamming's numbers are 1, and twice, three times and five times each of them, in
% order. Each of the five threads stops by itself at numbers above the last one.
local Times Merge Last H H2 H3 H5 H23 Rest in
  Last = 30
  fun {Times N Xs}
    case Xs of X|Xr then
      if (N * X) =< Last then (N * X)|{Times N Xr} else nil end
    else nil end
  end
  % merges two lists in order; what stands in both stands once in the result
  fun {Merge Xs Ys}
    case Xs of X|Xr then
      case Ys of Y|Yr then
        if X < Y then X|{Merge Xr Ys}
        else if X > Y then Y|{Merge Xs Yr} else X|{Merge Xr Yr} end end
      else Xs end
    else Ys end
  end
  H = 1|Rest
  thread H2 = {Times 2 H} end
  thread at 2 H3 = {Times 3 H} end
  thread at 3 H5 = {Times 5 H} end
  thread H23 = {Merge H2 H3} end
  thread Rest = {Merge H23 H5} end
  {Browse H}
end
",
        "1|2|3|4|5|6|8|9|10|12|15|16|18|20|24|25|27|30|nil\nquiescent ended=6 waiting=0\n",
        0,
    ),
    (
        "% CTM 7.8.3, active objects: Flavius Josephus. Forty stand in a ring, and every third one goes. Each is a thread that reads a
% stream and writes the next; the message that goes round has the count and the number of those who are left.
local Pipe Stand All Step Last Xs in
  All = 40  Step = 3
  proc {Stand I Xs ?Ys}
    case Xs of M|Xr then
      case M of count(K Left) then
        if Left == 1 then Last = I  Ys = nil
        else
          if (K mod Step) == 0 then Ys = count(K + 1 Left - 1)|Xr
          else Ys = count(K + 1 Left)|{Stand I Xr} end
        end
      else skip end
    else Ys = nil end
  end
  proc {Pipe I Xs ?Ys}
    if I =< All then
      local Zs in
        thread Zs = {Stand I Xs} end
        Ys = {Pipe I + 1 Zs}
      end
    else Ys = Xs end
  end
  local Round in
    Xs = count(1 All)|Round
    thread Round = {Pipe 1 Xs} end
  end
  {Browse Last}
end
",
        "28\nquiescent ended=42 waiting=0\n",
        0,
    ),
    (
        "% CTM 5.4.4, agents: a lift at another site takes calls from its port, and tells each floor that it passes. Who called waits until
% it is there.
local Call Lift Move Port Calls in
  Port = {NewPort Calls}
  proc {Call Floor ?There} {Send Port call(Floor There)} end
  proc {Move From To ?At}
    if From < To then {Browse From + 1}  At = {Move From + 1 To}
    else
      if From > To then {Browse From - 1}  At = {Move From - 1 To}
      else At = To end
    end
  end
  proc {Lift Calls Pos}
    case Calls of M|Rest then
      case M of call(Floor There) then
        There = {Move Pos Floor}
        {Lift Rest There}
      else skip end
    else skip end
  end
  thread at 2 {Lift Calls 1} end
  {Wait {Call 3}}
  {Wait {Call 0}}
  {Send Port stop}
end
",
        "2\n3\n2\n1\n0\nquiescent ended=2 waiting=0\n",
        0,
    ),
    (
        "% Many senders and one receiver: a cell holds the end of a stream, and each sender exchanges it for a new end.
local NewMailbox Send Receive Mailbox Stream in
  fun {NewMailbox Stream} {NewCell Stream} end
  proc {Send Mailbox Message}
    local End New in
      {Exchange Mailbox End New}
      End = Message|New
    end
  end
  % sums so many messages
  fun {Receive N Xs State}
    if N =< 0 then State
    else
      case Xs of X|Xr then {Receive N - 1 Xr State + X}
      else none end
    end
  end
  Mailbox = {NewMailbox Stream}
  thread {Send Mailbox 1} end
  thread {Send Mailbox 20} end
  thread {Send Mailbox 300} end
  {Browse {Receive 3 Stream 0}}
end
",
        "321\nquiescent ended=4 waiting=0\n",
        0,
    ),
    (
        "% A procedure is a value: Map takes one and calls it for each element of a list.
local Map Double Count L M in
  fun {Map Xs F}
    case Xs of X|Xr then {F X}|{Map Xr F}
    else nil end
  end
  fun {Double X} X + X end
  fun {Count From To}
    if From > To then nil else From|{Count From + 1 To} end
  end
  L = {Count 1 5}
  M = {Map L fun {$ X} X * X end}
  {Browse L}
  {Browse M}
  {Browse {Map M Double}}
end
",
        "1|2|3|4|5|nil\n1|4|9|16|25|nil\n2|8|18|32|50|nil\nquiescent ended=1 waiting=0\n",
        0,
    ),
];
