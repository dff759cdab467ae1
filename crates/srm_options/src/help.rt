//! What the program says of itself.

/// What `srm` is.
pub const ABOUT: &str = "A drawing that its members keep in step over lossy datagrams";

/// What `srm world` does.
pub const WORLD: &str = "Plays a script of several members of one session, and prints what happens";

/// What `srm picture` does.
pub const PICTURE: &str = "Plays a script as `srm world` does, and writes a picture of it as SVG";

/// What `srm picture --help` prints.
pub const PICTURE_HELP: &str = "usage: srm picture < SCRIPT > PICTURE.svg

Plays a script as `srm world` does, of at most 2000 events, and writes a picture
of it as SVG: a lifeline for each member, time downwards, each datagram an arrow
from its sending to each hearing, timers as brackets from set to end. A shape's
title has the lines that `srm world` prints of it. `srm world --help` says what a
script is.

Status: 0; 1 for a bad line, a script of more than 1000000 bytes or 2000 events,
or a stream that fails; 2 for a wrong command line; 4 for want of memory.
";

/// What `srm audit` does.
pub const AUDIT: &str = "Judges the records of a session's members, and prints an honest session";

/// What `srm audit --help` prints.
pub const AUDIT_HELP: &str = "usage: srm audit FILE..
       srm audit --script FILE.. > SESSION.script
       srm audit --picture FILE.. > SESSION.svg
       srm audit --room ROOM FILE..

Reads the records of the members of a session, one a file, in any order. Makes all
calls anew, and tells whether what the members heard was sent, and what their page
workers took was given. No member is trusted. It prints one of these lines, and one
for each record with its member, its calls, and whether it is cut:

  honest: session S, N members, C calls
  not honest: WHY
  undecided: session S, R of N records, C of them cut

Not honest: no honest run has these records, whatever stands behind their cuts and
in records that are missing; a call counts from 0 in its record. Undecided: a record
is missing or cut, and its member may have sent what others heard.

With --room members have the names of that room, and else numbers.

An honest session is printed in place of these lines: with --script as a script for
`srm world --extended`, with --picture as a picture as `srm picture` draws them. What
comes next is, of what can, the first by the members' times of day. It is refused if
a script can't say it: with other --waits than 2,2,1,1, with rates, depths or least
distances that differ, with a stroke that isn't printable ASCII, or if it would have
more than 1000000 bytes, or in a picture 2000 events.

Status: 0; 1 for a file that can't be read or is no record, for a session that can't
be printed as asked, or where the output fails; 2 for a wrong command line; 4 for
want of memory; 6 if they are no honest run; 7 if that is undecided.
";

/// What `srm node` does.
pub const NODE: &str =
    "A member over UDP: draws the lines of standard input, and prints what its page workers took";

/// What `srm node --help` prints behind its options.
pub const NODE_MORE: &str = "\
Each line of standard input, which is read to its end first, is a stroke on page
0.0: up to 1024 bytes, whatever they are. The input has at most 1000000 bytes.
Lines go to four pens in turn; strokes of different pens may change places.
The member leaves once its time is up and all strokes are drawn. Then it prints

  took M J open C.P|draw S N TEXT|left S|close      what slot J took, in order
  gone M

With --live each line is drawn as it is typed, by one pen and however many there
are, and each line above is printed as it is taken, its TEXT in UTF-8. A line that
begins with / is a command: /page C.P and /new turn to another page, /help names
them all, and //x draws /x. A line that is too long is told on standard error and
not drawn. The member stays on at the end of input, and then as long as others ask
for what it holds, for 30 seconds at most, and leaves; so it does at /leave, where
its output is closed, and at a signal (INT, TERM, HUP) where ./srm started it; a
second signal ends it at once. Standard error tells who of the others is here, was
silent for 10 seconds or left, that the member was in the session before under its
number, that a datagram of another session came or one that is too long, that nobody
was heard for 10 seconds, why its address can't be bound or which call of its socket
failed, and at the end who was not heard leaving, of which streams drawops are
missing, how many datagrams the network refused to take, and how many came and were
dropped, by cause.
On a terminal the title of the window shows each second how many of the others were
heard, how many drawops are missing, how many datagrams came and were sent, how many
of those sent were requests and repairs, and how many the network refused.

Status: 0; 1 for a line that is too long or an input of more than 1000000 bytes,
but not with --live, for a stream that fails, for a key that can't be used, or for a
record that can't be made or written whole; 2 for a wrong command line; 3 where the
socket fails; 4 for want of memory, or where all turns were spent; 5 with --live,
where all went well but the member was in the session before.";

/// What `srm world --help` prints.
pub const WORLD_HELP: &str = "usage: srm world < SCRIPT
       srm world --extended < SCRIPT

Plays a script of several members of one session, and prints what happens.

The first lines of a script, in this order; the first is needed:
  members N           how many members there are, 1 to 32, with the numbers from 0
  bucket R D          bytes a second that each may send, 1 to 100000000, and the
                      depth of its bucket in bytes, 1051 to 1000000; 8000 and
                      4204 without this line
  words M W ..        the words, below 2^64, that waits of member M, below N, are
                      drawn by, and then 0; at most one line a member, by rising M
  timers              timers are printed too
  distance L          only with --extended: a distance to another member counts as
                      at least L microseconds, 1 to 10000000; 1 without this line

Then a line for each event, at a moment T in microseconds, 0 to 281474976710656
(2^48), where it has one:
  draw M T C.P TEXT   member M draws on page P, 0 to 65535, of creator C, 0 to 31;
                      TEXT is up to 1024 printable ASCII characters, or missing
  tick M T            member M asks, repairs and sends what is due
  deliver M T K       the datagram with number K, of all that were sent, from 0
                      on, comes to member M
  show M T C.P        member M shows a page
  leave M T           member M begins to leave
  give M J            member M gives the next message of slot J, 0 to 7, to its
                      page worker
  take M J            the page worker takes its next message

Words stand one space apart, numbers are decimal without leading zeros, and an
empty line is bad. A datagram that is never delivered is lost. An event of a
member up to 31 that isn't there, of a datagram up to 4294967295 that wasn't sent
yet, or of a slot from 8 to 255 is skipped; a greater number makes a bad line.

What is printed, with S a drawop's source, N its number there, K a datagram's
number, KIND data, request, repair or session; CAUSE 1 own, 2 gone, 3 conflict,
4 no slot for a page, 5 past a final, 6 no datagram of the session, 7 stranger;
WHY 1 leaving, 2 gone, 3 no slot for the page, 4 stream full, 5 body too long. A
tick with nothing to do prints nothing.
  drew M C.P N                  refused M WHY             skipped
  out K M KIND BYTES            heard M taken             heard M ignored CAUSE
  ask M S C.P N                 fix M S C.P N             shown M C.P
  arm M ask|fix S C.P N EXPONENT WAIT                     leaving M
  gave|took M J open C.P|draw S N TEXT|left S|close|none  gone M

Status: 0; 1 for a bad line, a script of more than 1000000 bytes or a stream that
fails; 2 for a wrong command line; 4 for want of memory.
";

/// What `srm board` does.
pub const BOARD: &str =
    "A member over UDP on whose board one draws in a browser, live with all others";

/// What `srm board --help` prints behind its options.
pub const BOARD_MORE: &str = "\
It prints where the page is on standard error, as `srm: draw at
http://127.0.0.1:8080/TOKEN/`, and runs until somebody leaves there, or until the
end of input at a terminal (Ctrl-D). Standard error tells once that the member was
in the session before under its number, why the first datagrams were dropped and why
its record can't be written; and at its end how many datagrams the network refused
to take, and how many came and were dropped, by cause.

Status: 0; 1 for a key that can't be used, or for a record that can't be made or
written whole; 2 for a wrong command line; 3 where the page can't be served, the
address can't be bound or the socket fails; 4 for want of memory, or where all turns
were spent; 5 where all went well but the member was in the session before.
";

/// What `srm room` does.
pub const ROOM: &str =
    "Makes, prints, takes and checks a room: what the members of a session have in common";

/// What `srm room --help` prints.
pub const ROOM_HELP: &str = "usage: srm room new FILE NAME=ADDR..
       srm room show FILE
       srm room take FILE < ROOM
       srm room check FILE

A room is a file that all members of a session have. It has the session's number, its
key, each member's name and address, and settings, as TOML. Who has it can draw and
read what is drawn, so give it to nobody else.

  new     makes it for 1 to 32 members, with a random session and key. A member that
          joins later needs its place now: add a spare, as spare=192.0.2.7:47109
  show    prints it, to be pasted on another machine
  take    writes what is pasted
  check   says what it has, and which of its addresses this machine has

A NAME has 1 to 40 characters without space, control character or '=', and isn't a
number. An ADDR is 192.0.2.7:47100, [2001:db8::7]:47100 or host:47100. A FILE that is
written must not exist, and only its owner may read it.

To join: srm node --room FILE --me NAME --live, or srm board --room FILE --me NAME.

Status: 0; 1 for a file that is no room, or that can't be read, made or written, or
where a stream fails; 2 for a wrong command line; 4 for want of memory.
";
