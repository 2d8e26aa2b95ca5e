//! What is told of the words: help and usage.

pub(crate) const ABOUT: &str = "A test bench for Diameter (RFC 6733) online charging (RFC 8506)";

pub(crate) const READ_ABOUT: &str = "Read Diameter messages in hexadecimal and print them";

pub(crate) const READ_LONG_ABOUT: &str = "\
Read Diameter messages in hexadecimal and print them.

Takes digits of either case, two for each octet; blanks and newlines between them don't count. Of
each message it prints the header, the AVPs (code, /vendor, flags, length, data) and the octets of
its encoding; of a faulty one `fault` with the Result-Code and the failed AVP. It stops at a `frame
fault` (1: the version isn't 1, 2: the length is below 20, no multiple of 4 or over 4096) and at
`bad hex`.

With --explain it says in names what each message holds: the octet of the input at which it begins,
its header and session, and each AVP in the order of the octets, those of a group indented below it:
the octet of the message at which it begins, code, name, flags, length and value. A fault is told
with its name, what is wrong in words, and which AVP at which octet; `bad hex` and `frame fault`
with the character or octet of the input. All count from 0.

With --json it says the same as objects of JSON, one in a line; docs/JSON.md lists the keys.

With --lines each line is read by itself, as an input of its own, so that a bad one doesn't end the
rest. With --explain and --json each message then tells its line, counted from 1, apart from its own
number. `line 3: bad hex` tells a bad line.

With --dict the AVPs of a dictionary are read and named too. It is a text, a line an AVP:
CODE[/VENDOR] NAME KIND [VALUE=NAME ..], where KIND is Unsigned32, Unsigned64, Enumerated,
UTF8String, DiameterIdentity, Address, Grouped, Time or OctetString, and a word that begins with #
begins a comment. At most 200 AVPs are added. `dictionary line 3` tells the first line that is
wrong; the line below says what was wanted, and nothing is read.

  echo 0100001480000118000000000000000100000001 | dbench read
  dbench read --explain examples/dwr.hex
  dbench read --json examples/dwr.hex | jq .session
  dbench read --explain --dict dictionaries/3gpp_gy.dict examples/gy/ccr_initial.hex";

pub(crate) const WALK_ABOUT: &str =
    "Step a state table or its image over events and print each step";

pub(crate) const WALK_LONG_ABOUT: &str = "\
Step a state table or its image over events and print each step.

Reads TABLE, whose columns are State, Event, Action and Next, or an image of one as `asm` prints it,
and then the events to their end. The machine starts in the first state of the table with all
registers 0. Each event prints a line `KIND FROM TO row N` (rows count from 0; `row -` where no row
takes the event, whose one deed is then Unlisted), and under it a line for each deed.

A line of events is KIND N=V ..: a kind that `--names` lists, and then facts, number and value in
decimal, each number (0 to 63) at most once; facts that aren't given are 0. Lines that are empty or
begin with a blank are skipped, so a printed walk may be handed in again once ` FROM TO row N` is
cut off.

With --why each step also tells the registers that changed (`r3 0 -> 60`), and of each row of that
state and kind before the one taken its first guard that says no, with the first test of its law
that isn't met: `row 2: not success: fact 12 is 4012, wanted f12 in 2001, 2002`, and `, where r1 is
3` where it is compared with a register. An image tells no rows. With --from 'STATE rN=V ..' the
machine begins in that state, with those registers.

  dbench walk --table peer > peer.tbl
  echo 'Start' | dbench walk peer.tbl
  dbench walk --why peer.tbl election.events
  dbench walk --from 'Open r3=60' client.tbl events

Nothing is stepped where something is wrong. `line N fault C` is the first fault of the table,
`unbound NAME` a name of the table that `--names` doesn't list, `bad start` a --from of another
form, `bad line N` the first line of events that is none, from 1; the lines below say where, what
was wanted, what is wrong, and which name is near. `bad hex` and `at N fault C` are what is wrong
with an image; `list --help` says more. TABLE is an image where its first character that is no blank
is a hexadecimal digit.";

pub(crate) const DRAW_ABOUT: &str = "Draw a state table as a graph, for Graphviz";

pub(crate) const DRAW_LONG_ABOUT: &str = "\
Draw a state table as a graph, for Graphviz.

Reads TABLE, whose columns are State, Event, Action and Next. Each state is a box, the first is that
in which a machine starts. From a state to another one goes one arrow, with a line for each of its
rows: the row's number (from 0), its kind of events and its guards. The rows that stay in a state
stand in its box, and have one arrow together.

  dbench draw peer.tbl | dot -Tsvg > peer.svg
  dbench walk --table server | dbench draw | dot -Grankdir=LR -Tsvg > server.svg

`line N fault C` is the first fault of the table; the lines below say what was wanted, and what
stands there.";

pub(crate) const ASM_ABOUT: &str = "Assemble a state table to an image";

pub(crate) const ASM_LONG_ABOUT: &str = "\
Assemble a state table to an image, and print it in hexadecimal.

Reads TABLE, whose columns are State, Event, Action and Next. The image (format 2) holds for each
state and kind of events the code of its rows alone, so a step costs the rows of one state and kind
and not those of the table.

  dbench asm peer.tbl > peer.img
  dbench walk --table client | dbench asm

`line N fault C` is the first fault of the table, `unbound NAME` a name of the table that `walk
--names` doesn't list; the lines below say in which row it stands, what was wanted, what is wrong,
and which name is near.";

pub(crate) const LIST_ABOUT: &str = "List the image of a state table in words";

pub(crate) const LIST_LONG_ABOUT: &str = "\
List the image of a state table in words.

Reads FILE, an image in hexadecimal as `asm` prints it, of format 1 or 2: digits of either case, two
for each octet; blanks and newlines between them don't count. First comes a line STATE KIND OFFSET
for each state and kind of events that has rows, with the offset at which their code begins, then a
line for each instruction of the code, with its own offset in front:

  ROW R           begins row R (from 0)
  GUARD NAME N    goes on at offset N where the guard says no
  ACT NAME        runs the action
  GOTO STATE      ends in that state
  NONE            ends without a row

  dbench asm peer.tbl | dbench list

`bad hex` is a text that isn't digits, two for each octet. `at N fault C` is the first fault of the
image, and N the octet at which the part begins that is wrong. C is 1: no image, 2: the image is cut
off, and has N octets, 3: a number is out of range, 4: a name is misspelled or stands there twice,
5: `walk --names` doesn't list the name, 6: no row begins at the offset and no code ends there, 7: a
guard leads back, 8: no instruction, 9: the code doesn't end, 10: octets stand behind the code.";

pub(crate) const RUN_ABOUT: &str = "Run a script of steps on a node and print each step";

pub(crate) const RUN_LONG_ABOUT: &str = "\
Run a script of steps on a node and print each step.

Reads CONFIG, an object of JSON (docs/CONFIG.md), whose first node is opened, and then SCRIPT to its
end. A line of SCRIPT is a step:

  join               a connection was accepted; connections (lines) count from 1
  dialled L          the connection that line L dials is open
  came L HEX         octets came on line L
  lost L             line L is lost
  told D KEY KIND N=V ..   desk D tells a machine an event, as `walk --names` lists them, with facts
  fired KEY GEN      the timer of a machine fires, as it was armed with that generation
  lift SRC           the oldest item that SRC put out goes into its hand
  drop SRC           what is in the hand of SRC goes where it is for
  work S             shard S handles the oldest item that waits there
  settle             all of the last three, until nothing waits

SRC is `line L`, `shard S`, `desk D` or `clock`; KEY is p: and a host, c: or s: and a Session-Id.
Empty lines, and lines that begin with a blank, are skipped, so that what a run prints is a script
again.

Each step that is taken prints its line, and under `work` the machine, the event, both states and
the row, and each deed. A step that can't be taken prints `refused C` and is passed over; C is 1:
nothing is there, 2: no such line, machine or kind, 3: the line is closed, 4: no room, 6: the shard
is paused.

With --sent a line `line N STATE HEX` is printed at the end for each connection: where it stands,
and all that it sent. With --totals one for each account, `account ID given G reserved R debited D
unpaid U`. With --quiet these alone are printed. --sample prints a small CONFIG.

  dbench run --sample > node.json
  dbench run examples/runs/server.json examples/runs/session.script
  dbench run --quiet --sent node.json script | grep '^line 1' | cut -d' ' -f4 | dbench read --explain

With --nodes every node of CONFIG runs. A line of SCRIPT is then HOST and a line as above, for that
node alone, or `settle`: each node in turn settles, what it dials is opened at the node of that
host, if it has `listen`, and what it sent comes at the other end, until nothing is left. What is
printed has the host in front, and is a script for --nodes again. With --cut N octets come in pieces
of N. With --log DIR the log of each node is written to DIR/HOST.log, which is a script for `run`
and `debug` where that node is the first; `write fault` tells one that can't be.

Nothing is run where something is wrong: `bad line N` is the first line of SCRIPT that has another
form, from 1; CONFIG, its tables and its dictionary are told with what was wanted.";

/// What is told where `read` asks for two styles.
pub(crate) const READ_USAGE: &str = "\
wanted at most one of: --explain, --json

Usage: dbench read [--explain | --json] [--lines] [--dict DICT] [FILE]

For more information, try '--help'.
";

/// What is told where `walk` asks for not one thing.
pub(crate) const WALK_USAGE: &str = "\
wanted one of: a TABLE, --names, --table NAME

Usage: dbench walk [--why] [--from 'STATE rN=V ..'] TABLE [EVENTS]
       dbench walk --names
       dbench walk --table NAME

For more information, try '--help'.
";

/// What is told where `run` asks for not one thing.
pub(crate) const RUN_USAGE: &str = "\
wanted one of: a CONFIG, --sample

Usage: dbench run [--quiet] [--sent] [--totals] CONFIG [SCRIPT]
       dbench run --nodes [--cut N] [--log DIR] [--quiet] [--sent] [--totals] CONFIG [SCRIPT]
       dbench run --sample

For more information, try '--help'.
";

pub(crate) const STATUSES: &str = "\
Exit status:
  0  done
  1  the input holds a fault, which is printed
  2  these words aren't understood
  3  a read or a write failed, or the input didn't end in 1048576 reads
  4  no memory
  5  what the threads of a node logged is no legal log";
