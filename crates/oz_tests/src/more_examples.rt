//! More examples of the repository, as `examples/check --tables` writes them.

// A text, what it prints and its status' number.
pub static MORE_EXAMPLES: [(&str, &str, u8); 19] = [
    (
        "% Refused: the text ends before the procedure does.
local Twice in
  proc {Twice X ?Y}
    Y = X + X
",
        "refused 5:1 expected a statement or end\n",
        3,
    ),
    (
        "% Binding is independent of order: Left and Right are the same before anybody knows what they are.
local Left Right Same in
  Left = Same
  Right = Same
  Same = done
  {Browse Left}
  {Browse Right}
end
",
        "done\ndone\nquiescent ended=1 waiting=0\n",
        0,
    ),
    (
        "% What is kept by key: an association list is searched by ==, which compares whole keys. Two lists are the same as soon as what is
% known of them tells it, and differ as soon as one part does.
local Find Keys Open in
  fun {Find List Key Default}
    case List of Pair|Rest then
      case Pair of entry(Other Kept) then
        if Other == Key then Kept else {Find Rest Key Default} end
      else Default end
    else Default end
  end
  Keys = entry(point(x:1 y:2) first)|entry(point(x:1 y:3) second)|nil
  {Browse {Find Keys point(x:1 y:3) none}}
  {Browse {Find Keys point(x:2 y:2) none}}
  {Browse (1|Open) == (2|Open)}
end
",
        "second\nnone\nfalse\nquiescent ended=1 waiting=0\n",
        0,
    ),
    (
        "% Work over sites: three threads, at sites 2, 3 and 4, add up ten numbers each, and the first site adds the three parts. Where
% the threads run changes nothing of what is printed.
local Sum A B C in
  % the numbers from From to To, and those before
  fun {Sum From To Before}
    if From > To then Before else {Sum From + 1 To Before + From} end
  end
  thread at 2 A = {Sum 1 10 0} end
  thread at 3 B = {Sum 11 20 0} end
  thread at 4 C = {Sum 21 30 0} end
  {Browse (A + B) + C}
end
",
        "465\nquiescent ended=4 waiting=0\n",
        0,
    ),
    (
        "% CTM 5.2.1: a port object is a thread that reads the stream of a port, and keeps a state from message to message. Here a balance,
% which it tells to who asks, until it is told to stop.
local NewPortObject Serve Take Account Told in
  proc {Serve Take Messages State}
    case Messages of Message|More then
      case Message of stop then skip
      else {Serve Take More {Take Message State}} end
    else skip end
  end
  proc {NewPortObject Take First ?Port}
    local Messages in
      Port = {NewPort Messages}
      thread at 2 {Serve Take Messages First} end
    end
  end
  proc {Take Message Balance ?Next}
    case Message of pay(Amount) then Next = Balance + Amount
    [] ask(Told) then Told = Balance  Next = Balance
    else Next = Balance end
  end
  Account = {NewPortObject Take 100}
  {Send Account pay(20)}
  {Send Account pay(~50)}
  {Send Account ask(Told)}
  {Send Account stop}
  {Browse Told}
end
",
        "70\nquiescent ended=2 waiting=0\n",
        0,
    ),
    (
        "% CTM 9.2.3, a puzzle by search: five queens, none of which attacks another. Rows are tried from the first one on, and an exception
% leads back from a square on which nothing can be built.
local Attacked Distance Place Try in
  % how far two rows are from each other
  fun {Distance Row Other}
    if Row < Other then Other - Row else Row - Other end
  end
  % whether a queen at the row attacks one of these, of which the first stands so many columns away
  fun {Attacked Row Queens Away}
    case Queens of Q|Qr then
      if Row == Q then true
      else if {Distance Row Q} == Away then true else {Attacked Row Qr Away + 1} end end
    else false end
  end
  % places so many queens more
  fun {Place N Queens}
    if N == 0 then Queens else {Try 1 N Queens} end
  end
  proc {Try Row N Queens ?Answer}
    if Row > 5 then raise none end
    else
      if {Attacked Row Queens 1} then Answer = {Try Row + 1 N Queens}
      else
        try Answer = {Place N - 1 Row|Queens}
        catch E then Answer = {Try Row + 1 N Queens} end
      end
    end
  end
  {Browse {Place 5 nil}}
end
",
        "4|2|5|3|1|nil\nquiescent ended=1 waiting=0\n",
        0,
    ),
    (
        "% Reversing a list with an accumulator. The last call leaves nothing on the stack.
local Reverse in
  fun {Reverse Xs Done}
    case Xs of X|Xr then {Reverse Xr X|Done}
    else Done end
  end
  {Browse {Reverse a|b|c|nil nil}}
end
",
        "c|b|a|nil\nquiescent ended=1 waiting=0\n",
        0,
    ),
    (
        "% CTM 5.1: many senders at many sites and one receiver: the messages of a port stand in one stream, in some order.
local Port Messages SendAll Sum in
  Port = {NewPort Messages}
  proc {SendAll N}
    if N > 0 then {Send Port N}  {SendAll N - 1} else skip end
  end
  fun {Sum N Messages Sofar}
    if N =< 0 then Sofar
    else
      case Messages of M|More then {Sum N - 1 More Sofar + M} else none end
    end
  end
  thread at 2 {SendAll 10} end
  thread at 3 {SendAll 10} end
  thread at 4 {SendAll 10} end
  {Browse {Sum 30 Messages 0}}
end
",
        "165\nquiescent ended=4 waiting=0\n",
        0,
    ),
    (
        "% The sieve of Eratosthenes as a pipeline of threads: each prime adds a thread that drops its multiples from the stream.
local Generate Filter Sieve Last Xs Ps in
  Last = 50
  fun {Generate N}
    if N > Last then nil else N|{Generate N + 1} end
  end
  fun {Filter Xs P}
    case Xs of X|Xr then
      if (X mod P) == 0 then {Filter Xr P} else X|{Filter Xr P} end
    else nil end
  end
  proc {Sieve Xs ?Ys}
    case Xs of X|Xr then
      local Kept in
        thread Kept = {Filter Xr X} end
        Ys = X|{Sieve Kept}
      end
    else Ys = nil end
  end
  thread Xs = {Generate 2} end
  thread Ps = {Sieve Xs} end
  {Browse Ps}
end
",
        "2|3|5|7|11|13|17|19|23|29|31|37|41|43|47|nil\nquiescent ended=18 waiting=0\n",
        0,
    ),
    (
        "% A stack with state: a cell holds the list of what was pushed. Popping an empty stack raises an exception.
local MakeStack S Push Pop in
  proc {MakeStack ?Stack}
    local C Push Pop in
      C = {NewCell nil}
      proc {Push X}
        local Old in {Exchange C Old X|Old} end
      end
      proc {Pop ?X}
        local Old New in
          {Exchange C Old New}
          case Old of H|T then X = H  New = T
          else
            New = Old
            raise empty end
          end
        end
      end
      Stack = stack(pop:Pop push:Push)
    end
  end
  S = {MakeStack}
  Push = S.push
  Pop = S.pop
  {Push a}
  {Push b}
  {Browse {Pop}}
  {Browse {Pop}}
  try {Browse {Pop}} catch E then {Browse E} end
end
",
        "b\na\nempty\nquiescent ended=1 waiting=0\n",
        0,
    ),
    (
        "% The count of visits.oz with a cell that stays at one site: an exchange at another one is a request and an answer, and no site has to
% wait until the cell comes to it.
local Cell Add D1 D2 D3 D4 in
  {NewCellAt 0 Cell 1}
  % adds one N times, and then tells that it is done
  proc {Add N ?Done}
    if N =< 0 then Done = true
    else
      local Old New in
        {Exchange Cell Old New}
        New = Old + 1
        Done = {Add N - 1}
      end
    end
  end
  thread at 1 D1 = {Add 5} end
  thread at 2 D2 = {Add 5} end
  thread at 3 D3 = {Add 5} end
  thread at 4 D4 = {Add 5} end
  {Wait D1} {Wait D2} {Wait D3} {Wait D4}
  local Count in {Exchange Cell Count Count} {Browse Count} end
end
",
        "20\nquiescent ended=5 waiting=0\n",
        0,
    ),
    (
        "% A producer and a consumer share a stream: the consumer waits for each element by itself, and no lock is needed.
local Produce Consume Xs Sum in
  fun {Produce N Last}
    if N > Last then nil else N|{Produce N + 1 Last} end
  end
  fun {Consume Xs State}
    case Xs of X|Xr then {Consume Xr State + X}
    else State end
  end
  thread Sum = {Consume Xs 0} end
  thread Xs = {Produce 1 10} end
  {Browse Sum}
end
",
        "55\nquiescent ended=3 waiting=0\n",
        0,
    ),
    (
        "% CTM 11.4, what state over sites costs: as in visits.oz, threads at four sites count to five each, but no cell goes round. Each
% counts by itself, and hands over a stream of what it counted; who wants the sum reads the streams. That takes fewer messages.
local Count Sum Xs1 Xs2 Xs3 Xs4 in
  proc {Count N ?Xs}
    if N == 0 then Xs = nil
    else
      local Xr in
        {Count N - 1 Xr}
        Xs = 1|Xr
      end
    end
  end
  fun {Sum Xs Before}
    case Xs of X|Xr then {Sum Xr Before + X}
    else Before end
  end
  thread at 1 Xs1 = {Count 5} end
  thread at 2 Xs2 = {Count 5} end
  thread at 3 Xs3 = {Count 5} end
  thread at 4 Xs4 = {Count 5} end
  {Browse {Sum Xs4 {Sum Xs3 {Sum Xs2 {Sum Xs1 0}}}}}
end
",
        "20\nquiescent ended=5 waiting=0\n",
        0,
    ),
    (
        "% CTM 8.3.3, locks: a token in a cell. Who comes gets what stood there, waits for it, and binds what the next one gets. Two threads
% at two sites move money between two accounts, to and fro; none is lost.
local NewLock Lock A B Add Move Often D1 D2 in
  proc {NewLock ?Lock}
    local C in
      C = {NewCell free}
      proc {Lock P}
        local Old New in
          {Exchange C Old New}
          {Wait Old}
          try {P} finally New = free end
        end
      end
    end
  end
  Lock = {NewLock}
  A = {NewCell 100}
  B = {NewCell 0}
  proc {Add Account Amount}
    local Old New in {Exchange Account Old New} New = Old + Amount end
  end
  proc {Move From To}
    {Lock proc {$} {Add From ~1} {Add To 1} end}
  end
  proc {Often K From To}
    if K == 0 then skip
    else
      {Move From To}
      {Often K - 1 From To}
    end
  end
  thread at 2 {Often 20 A B} D1 = done end
  thread at 3 {Often 20 B A} D2 = done end
  {Wait D1}  {Wait D2}
  local X Y in
    {Exchange A X X}  {Exchange B Y Y}
    {Browse X}
    {Browse X + Y}
  end
end
",
        "100\n100\nquiescent ended=3 waiting=0\n",
        0,
    ),
    (
        "% A tree of records is built and summed; both go by recursion over the shape of the data.
local Build Sum in
  fun {Build Depth}
    if Depth =< 0 then leaf
    else node(value:Depth left:{Build Depth - 1} right:{Build Depth - 1}) end
  end
  fun {Sum T}
    case T of node(left:L right:R value:V) then ({Sum L} + {Sum R}) + V
    else 0 end
  end
  {Browse {Sum {Build 4}}}
end
",
        "26\nquiescent ended=1 waiting=0\n",
        0,
    ),
    (
        "% One thread goes wrong, and the others go on.
local X Y in
  thread X = 1 raise X end end
  thread Y = X + 1 end
  {Browse Y}
end
",
        "uncaught 1\n2\nquiescent ended=3 waiting=0\n",
        0,
    ),
    (
        "% Refused: nothing declares Y.
local X in
  X = f(Y)
end
",
        "refused 3:9 undeclared\n",
        3,
    ),
    (
        "% State over sites: the content of a cell goes to each site that exchanges it, one after the other. Threads at four sites add
% one to it five times each, and none of these is lost, in whatever order they come.
local Cell Add D1 D2 D3 D4 in
  Cell = {NewCell 0}
  % adds one N times, and then tells that it is done
  proc {Add N ?Done}
    if N =< 0 then Done = true
    else
      local Old New in
        {Exchange Cell Old New}
        New = Old + 1
        Done = {Add N - 1}
      end
    end
  end
  thread at 1 D1 = {Add 5} end
  thread at 2 D2 = {Add 5} end
  thread at 3 D3 = {Add 5} end
  thread at 4 D4 = {Add 5} end
  {Wait D1} {Wait D2} {Wait D3} {Wait D4}
  local Count in {Exchange Cell Count Count} {Browse Count} end
end
",
        "20\nquiescent ended=5 waiting=0\n",
        0,
    ),
    (
        "% A thread that waits for a variable that nobody binds waits for ever.
local Nobody in
  {Browse Nobody}
end
",
        "quiescent ended=0 waiting=1\n",
        1,
    ),
];
