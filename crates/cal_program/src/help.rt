//! What the program says of itself.

/// Its name and version.
pub const VERSION: &str = "cal_program 0.1.0\n";

/// How it is called, what it reads, what it writes, and how it ends.
pub const HELP: &str = "\
usage: run, make NUMBER ROUNDS, relay BUFFER COUNT

run  reads a script from standard input and writes the replies to its commands:
       cal_program run < script
make runs a script that is made from the two numbers, eight commands a round and at
     most 10000 rounds, and writes replies A refused B transit C sum D: the answers,
     the refusals among them, the chunks in transit, and the sum of all bytes read:
       cal_program make 1 10000
relay sends COUNT offsets from one thread to another over a channel that queues BUFFER
     of them, 1 to 1024, COUNT at most 1000000. Where the queue is full the oldest one
     comes back. It writes sent A received B returned C left D, and A is their sum:
       cal_program relay 4 1000

A script has one line for the settings, and then one line for each command. Words
are one space apart. Numbers are decimal, HEX is two letters a byte or - for none.
  transport SIZE ALIGNMENT COUNT STRATEGY BUFFER BORROW OVERFLOW SAMPLES SEGMENTS CHANNELS
      STRATEGY is best, power or static. OVERFLOW is on or off.
  loan SIZE ALIGNMENT               read CHANNEL CHUNK AT LENGTH
  write CHUNK AT HEX                release CHANNEL CHUNK
  send CHANNEL CHUNK                reclaim CHANNEL
  receive CHANNEL                   discard CHUNK
  count
A chunk is named by the place of its loan among the commands, from 1. An example:
  transport 8 8 1 static 1 1 off 1 1 1
  loan 8 8
  write 1 0 7b00
  send 0 1
  receive 0
  read 0 1 0 2

Replies, one a line, where SLOT is CHUNK SEGMENT:PLACE:
  loaned SLOT     written      sent, sent back SLOT     received none, received SLOT
  bytes HEX       released     discarded                reclaimed none, reclaimed SLOT
  counted ACTIVE MAPPED CURRENT SIZE BUCKETS            refused NAME
and at the end, for each chunk in transit: transit CHANNEL SLOT

Exit statuses: 0 done, 1 line N of the script is bad, 2 no transport can be made
(create CAUSE), 3 reading failed, 4 writing failed, 5 out of memory, 6 usage,
7 the script has more than 16777216 bytes
";
