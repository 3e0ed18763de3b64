//! What stands at the end of the help of a command: how the file is written that it reads beside the
//! image, or what else has to be told.

/// How a script is written, for the help of `step`. Here and below the names of limits stand in
/// braces (`limits`).
pub(crate) const SCRIPT_FORM: &str = "\
A script has words apart by spaces or newlines, each an ask of an actor:
  F0    actor 0 fetches
  D1.0  actor 1 decodes for hart 0
  R1.0  actor 1 renames for hart 0
  T2.0  actor 2 retires for hart 0
  I3    actor 3 issues
  C3    actor 3 completes what it has issued
  U3    both: actor 3 issues and completes
Actors are 0 to {LAST_ACTOR}, and harts 0 to {LAST_HART}. Where *n stands behind a word, n from 1
to 100000, the word is asked n times, as in F0*4.";

/// How a trace is written, for the help of `check` and of `script`.
pub(crate) const TRACE_FORM: &str = "\
A trace has the line smt-trace 3, then a line of its core:
  config harts extra queue role role ..
and then one for each event, the oldest first:
  F actor hart number pc word predicted       fetch
  D actor number                              decode
  R actor number register                     rename
  I actor number                              issue
  C actor number value next address data out  complete
  X actor number                              drop
  T actor number value next address data out  retire
  G actor number                              refetch
One space stands between two fields, a newline ends each line, and - is none.
Pcs, words, values, addresses and data are eight hexadecimal digits in lower
case, out is two, and the data of a retirement are two for each byte written.
next is p and a pc, e and a status of eight digits, or s and a cause. All other
fields are decimal, but for roles. A trace that begins with smt-trace 2 has no
refetches; nor has one that begins with smt-trace 1, which has no line of its
core either: it is that of the configuration.";

/// How an order is written, for the help of `plain` and of `schedule`.
pub(crate) const ORDER_FORM: &str = "\
An order has words apart by spaces or newlines. Each is the number of a hart,
0 to 255, which makes the next step: one whole instruction.";

/// How a chart is read, for the help of `chart`.
pub(crate) const CHART_FORM: &str = "\
In the row of an instruction stand, each under its event:
  F D R I C T   it is fetched, decoded, renamed, issued, completed, retired
  .             it is in the pipeline
  x             it is squashed; behind the row stands by which instruction
  G             it is fetched again, and so squashed: its word is another now
  X             a unit hands it back, squashed before
The trace is checked first, as check does: no other one is drawn.";

/// How a configuration is written, for the help of the program.
pub(crate) const CONFIGURATION_FORM: &str = "\
A configuration is a TOML file. Its keys, with what holds where one is absent:
  harts = 1            # hardware threads, 1 to {MOST_HARTS}
  extra = 64           # physical registers beside {RENAMED_REGISTERS} of each hart, \
1 to {MOST_EXTRA}
  queue = 16           # entries of the issue queue, {FEWEST_QUEUED} to {MOST_QUEUED}
  ram = 65536          # bytes of memory, a multiple of 4096 up to 16777216
  limit = 1000000      # the most events of a history, up to {MOST_EVENTS}
  turns = 1000000000   # the most turns of an actor, up to 10^18
  # the role of each actor, 1 to {MOST_ACTORS} of these names:
  actors = [\"fetch\", \"front\", \"retire\", \"alu\", \"mul\", \"mem\"]";

/// How what is watched and a condition are written, for the help of `outcomes` and of `run`.
pub(crate) const OUTCOMES_FORM: &str = "\
The LIST of --watch tells outcomes apart, beside how harts end and what they
put out: registers at harts, names of the program and words of memory, with
commas between: a0@1,counter,next[3],node+8,lock.c:lock,80001000:4; behind a
name :2 or :1 is a half or a byte of it.
CONDITION has terms joined by &, | and !, with parentheses: h0=1 & !(a0@1=2).
  h0=1           hart 0 has ended with 1
  h0=stopped 4   hart 0 has stopped with cause 4; h0=stopped: with any
  h*=0           each hart has ended with 0
  a0@1=2         register a0 of hart 1 has 2 at the end
  counter=7      the object of this name has 7; so !=, < and >=
  80001000:4=7   so has the word at this address, which is hexadecimal
  out=4142       these bytes were put out
Numbers are decimal, or hexadecimal behind 0x. What it names is watched too.
A question is answered by yes or no, and by outcomes that say why; the exit
status is 0 for yes, 1 for no, and 3 where what was found does not tell.";

/// What a test is, for the help of `litmus`.
pub(crate) const LITMUS_FORM: &str = "\
TEST is a litmus test in herd's RISC-V format. The plain machine has as many
harts as the test, whatever the configuration says, and a word of memory for
each location. The states are printed as herd prints them, each once. With --run
they are counted over runs of the core, and printed as litmus7 prints them.
A folder stands for its files *.litmus, in the order of their names, and @FILE
for the names in FILE, one a line, # for a comment. Tests are made one behind
the other; --summary has a line each, and --expect FILE prints what differs
from FILE, a summary printed before: the exit status is 1 where that is so.";

/// What a migration does, for the help of `migrate`.
pub(crate) const MIGRATE_FORM: &str = "\
A trace of version 1 doesn't say of which core it is. One of version 3 does, in
its second line: the sizes and roles that the configuration has, or those that
a trace of version 2 says itself. The events stay as they are. OUT is written
only where TRACE is a trace of version 1 or 2.";
