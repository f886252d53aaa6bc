//! The help of each command after its options.

/// The help of `audit`.
pub(crate) const ANSWERS: &str = "\
Answers, as one line on standard output:
  accept f=F entries=N deliveries=N
      no crash of at most F processes leaves an orphan
  exceeded f=F instant=T down=P,..
      after T entries more than F processes are down
  orphan f=F instant=T delivery=K crash=P,.. orphan=P
      after T entries a crash of these (-: of none) loses the delivery of entry K, on which
      P depends; entries count from 0
  fault line=L KIND
      the text is no trace: its first fault is at line L
With --until-breach the trace is audited after 1, 2, 4 entries and so on. Where that finds a
breach, nothing more is read, and the line ends with
  read=N
      N entries were read; what comes later may have a fault
With --until-breach=live it is also audited at the end of input that comes a second or more after
the last such audit; N then depends on the time
With --json the same as one JSON object:
  {\"verdict\":\"orphan\",\"f\":F,\"instant\":T,\"delivery\":K,\"crash\":[P,..],\"orphan\":P}

Exit status:
  0  the trace is accepted
  1  more than F are down, or there is an orphan
  2  the text is no trace
  3  the words ask for nothing that the program does
  4  reading or writing failed
  5  memory or a thread was refused

Example:
  causal_tool audit --faults 1 trace.jsonl";

/// The help of `explain`.
pub(crate) const REASONS: &str = "\
Answers on standard output: the line that `audit` prints, and below it, one fact a line,
  for `accept`, the least number of faults for which a delivery has an orphan, that delivery and
      its orphan
  for `exceeded`, of each process that is down the line of its crash
  for `orphan`, the delivery and its determinant, who has that in its log and who lost it, who
      is down, the chain of events by which the orphan comes to depend on the delivery, and
      the delivery on it whose list lacks the determinant first
  and, if a recovery did not deliver what a surviving determinant names, where, and who has which
      of the two determinants, as `replays`

Without --faults, for which numbers of faults F the run is safe, a line for each part:
  exceeded to=F       up to F, at some instant more than F processes are down
  accept from=F to=F  the run is safe
  orphan from=F       from F on, at some instant a delivery has an orphan

With --map, by a file that `merge --map` has written for this trace, the lines with line=L have
before the colon
  at=FILE:LINE clock=CLOCK
      where the recordings have that entry

With --json the same as one JSON object, but for the sentences behind the colons:
  {\"verdict\":\"orphan\",\"f\":F,..,\"reason\":[{\"fact\":\"delivery\",\"line\":L,..},..]}
  {\"ranges\":[{\"verdict\":\"accept\",\"from\":F,\"to\":F},..]}

Exit status: as that of `audit`; without --faults 0 for each trace

Example:
  causal_tool explain --faults 1 trace.jsonl";

/// The help of `replays`.
pub(crate) const REPLAYS: &str = "\
A determinant survives while it is stable or in the log of a process. A process that recovers has
to deliver, as its delivery R, the message that a survivor names.

Answers, as one line on standard output:
  followed entries=N deliveries=D
      at no instant two different survivors name delivery R of one process
  strayed instant=T process=P rsn=R first=K second=L
      after T entries, the first such instant, two different survivors name delivery R of P,
      the least such: K and L are the first deliveries with two such determinants; entries
      count from 0
  fault line=L KIND
      the text is no trace: its first fault is at line L
With --json the same as one JSON object, and who has which of the two determinants:
  {\"verdict\":\"strayed\",\"instant\":T,..,\"reason\":[
   {\"fact\":\"logged\",\"delivery\":K,\"process\":P,\"line\":L},{\"fact\":\"stable\",\"delivery\":K},..]}
  P has the determinant of the delivery K in its log since line L; it is in stable storage

Exit status:
  0  recoveries follow what survives
  1  they stray
  2  the text is no trace
  3  the words ask for nothing that the program does
  4  reading or writing failed
  5  memory was refused

Example:
  causal_tool replays trace.jsonl";

/// The help of `draw`.
pub(crate) const PICTURES: &str = "\
Answers on standard output:
  a space-time diagram in SVG: a line for each process, marks for what happens there, and
      arrows for messages; with the verdict's instant, the processes of its crash set or those
      that are down, and the chain of events by which the orphan comes to depend on the
      delivery; at most 200 entries, those about the instant, or about that of --around
  nothing, where the text is no trace; standard error says what is wrong there
With --only breach only the processes of the chain, those that hold or lost the determinant and
those of the crash set are drawn; a trace without a breach is drawn as if it were not given.

Exit status: as that of `audit`

Example:
  causal_tool draw --faults 1 trace.jsonl > picture.svg";

/// The help of `merge`.
pub(crate) const RECORDINGS: &str = "\
Reads the recordings of all processes of one run, their lines in any order.
A line is one JSON array:
  [\"recording\",P,1,N,RUN]               the header of process P, of N processes
  [\"send\",P,C,Q,SSN]                    P sends to Q
  [\"deliver\",P,C,S,I,SSN,RSN,[DET,..]]  P delivers what S, in incarnation I, sent as SSN
  [\"stable\",P,C,DET]                    P knows that DET is in stable storage
  [\"crash\",P,C]                         P goes down
  [\"restart\",P,C,[DET,..]]              P comes up in its next incarnation
  [\"forget\",P,C,[DET,..]]               P takes these out of its log
  [\"heard\",P,C,Q,D]                     passed over
C is P's clock, which ascends with each line; DET is [SOURCE,SSN,RECEIVER,RSN].

Answers on standard output:
  the trace, its entries ascending by clock, then process
  fault line=L KIND
      the recordings make no trace: their first fault is at line L, counted over all files

Standard error tells each line that a kill has cut, which is passed over, and what a fault means;
it names FILE:LINE.

With --map, after the trace, into that file a line for each entry, which `explain --map` reads:
  [POSITION,\"FILE\",LINE,CLOCK]
      entry POSITION, counted from 0, is line LINE of that recording

Exit status:
  0  the trace was printed
  2  the recordings make no trace
  3  the words ask for nothing that the program does
  4  reading or writing failed
  5  memory was refused

Example:
  causal_tool merge run/*.log | causal_tool audit --faults 1";

/// The help of `run`.
pub(crate) const SCRIPTS: &str = "\
A script is lines, the first of which starts the run:
  start ring 3 1 2
  deliver 1 0 0
  crash 1
  restart 1
  deliver 1 0 0

Lines of a script:
  start KIND N F [H]  N processes (1 to 256), of which at most F may be down at once
  deliver Q P S       Q delivers the message that P, since it came up, sent as number S
  crash P             P goes down: its state, its log and its sent messages are lost
  restart P           P comes up again
  flush P             what P logs becomes stable
  forget P            P takes out of its log what it knows to be stable

Kinds of processes (H from 0 to 255):
  start ring N F H    0 sends H to the next; whoever gets B above 0 sends B - 1 to the next
  start echo N F H    each sends H to its partner (0 and 1, 2 and 3, ..); whoever gets B
                      above 0 sends B - 1 back
  start tally N F     each but 0 sends its number to 0, which tells each the total so far

With SEED STEPS at the end, explore in place of start lets the run go on after the commands, by
at most STEPS calls (0 to 1000) that SEED (0 to 4294967295) chooses: deliveries, restarts, and now
and then a crash, a flush or a forget; it ends when nothing is left to deliver.
  explore ring 5 2 255 7 500

Answers on standard output:
  the trace of the run, which an audit for F accepts
  refused line=L NAME
      the command of line L cannot be done; no trace is printed
  fault line=L KIND
      the text is no script: its first fault is at line L

Exit status:
  0  the trace was printed
  2  a command was refused, or the text is no script
  3  the words ask for nothing that the program does
  4  reading or writing failed
  5  memory was refused, or the run could not be finished

Example:
  causal_tool run script | causal_tool audit --faults 1";
