//! The texts that the program prints about itself.

/// The answer to `--version`.
pub const VERSION: &str = "hydra 0.1.0\n";

/// The answer to `--help`.
pub const HELP: &str = "\
usage: hydra COMMAND DIR G R [options]
       hydra --help
       hydra --version

A store keeps blocks of bytes, equal blocks once, each under an address that is
made of its bytes. A session is given a handle for each block that it writes or
reads. A root keeps a block under a key, and with it all that the block points
to, block by block. A deletion gives back the space of what no root keeps and no
session has been given lately.

Seven commands are served:

  hydra script DIR G R [options]
  hydra load DIR G R --seed S --writers W [--files F]
  hydra store DIR G R KEY
  hydra fetch DIR G R KEY
  hydra audit DIR G R
  hydra scrub DIR G R [--from P]
  hydra copy DIR G R KEY DIR2 G2 R2 [--delete N]

A script is read from standard input, and the answers go to standard output.
G is the number of shards among which the blocks are parted: 1, 2, 4 or 8. R is
the number of copies of each: 1 to 4. Both are the same at each run. Shard S has
the peers S*R to S*R + R - 1, one a copy. Peer P keeps it in DIR, which is made if
absent, in the files peerP.side0 and peerP.side1: its disk. What a line did is on
each disk in use before it is answered, and a later run finds what an earlier one
left, wherever that one stopped; sessions end with their run. One run at a time
has a DIR: another is told so on standard error.

A shard goes on as long as one of its disks is in use. One that fails, or is no
log of a store, is out of use, which - down P tells, until a line start P empties
it and fills it again. Each run begins by making the disks of a shard equal.

A store takes standard input, to its end, as one file of at most 67,108,864 bytes
and keeps it under KEY, 1 to 64 of a-z 0-9 . _ -; a folder goes through tar:

  tar c FOLDER | hydra store DIR G R KEY
  hydra fetch DIR G R KEY | tar x

The file is cut into blocks of 65,536 bytes, of which those that are there already
are kept once, and blocks that point to these. Nothing is printed; status 0 says
that all of it is on the disks. A store that ends otherwise leaves KEY as it was,
but where it was stopped or ends with 4, 7 or 10 KEY may keep the whole file: do it
again; or two deletions give back what no KEY keeps. A KEY that keeps a file keeps
it until a script drops it: to store the same again is done, and another one is
refused. A fetch prints the file of KEY, and nothing before all of it is found.

A load tries an empty store. W writers, 1 to 8, each a thread of its own, store F
files each, 1 to 100, or 20 where it is not given, and drop every fourth; four
deletions run beside them, and for each disk one more thread does what it owes.
Two more deletions follow, and then it prints a line for each writer, how many
files it stored and how many it kept, and how many roots and blocks there are.
Equal seeds S, from 0 to 18446744073709551615, print equal text.

An audit reads the files, and makes and writes none. It prints a line for each
shard: its epoch, the last one that it swept, its blocks, its roots, and how many
blocks its next deletion would give back; for each block that a root needs and
that is not there a line `missing` with its address; and then `audit ok`, or
`audit bad` and how many are missing. R is the number of copies of a shard, 1 to
4; of several the one is taken that a run would open with.

A scrub prints for each copy, by its number, whether it is the same as the one of
its shard that a run would open with: `same`, `behind` where it only lacks the
end, `differs` from an entry on, `nolog` where it can't be read from a byte on, or
`fault` where a call failed; and then `scrub ok`, or `scrub bad` and how many are
not the same. It makes no file, and without an option it writes none. With --from
P it then empties the other copies of the shard of copy P and gives them what P
has; a copy whose files fail meanwhile has one line more. Scrub again to see what
came of it.

A copy puts the root of KEY, with all blocks that it reaches, at most 4,000, into
the store of DIR2, whose G2 and R2 may be others: blocks that are there already
are kept once, and nothing else is written there. It prints `copied` and how many
blocks they are. The first store keeps what it has. With --delete N, 1 to 1000, a
deletion is begun in the second behind every so many writes, four at most. Where
it ends otherwise the second may have some of the blocks, and KEY there keeps what
it kept, or all: do it again.

An option of a script is a name and a number, and lowers a limit of the run: each
at most once, in any order, with a number from 1 to the greatest, which is the
limit where the option is not given:

  --ops N       answers of the run; the greatest is 1048576
  --blocks N    blocks of a shard; 16384
  --roots N     roots of a shard; 4096
  --sessions N  sessions that are open; 64
  --handles N   handles that a session holds; 4096
  --pool N      messages under way between peers; from 16 on; 65536
  --epochs N    the last epoch, at which no deletion begins; 281474976710655

One more changes no answer: so many blocks that were read lately are kept in
memory, and a read of one of these asks no disk:

  --cache N     0 to 4096 blocks of at most 67591 bytes; 0, as without it, none

The lines of a script, each ended by a line feed:

  open S           opens the session S, 1 to 16 of a-z 0-9
  close S          closes it; its handles are gone
  write S HEX [hN ..]
                   writes a block of these data: hexadecimal digits, two a byte,
                   for at most 65,536 bytes, or - for none; it points to the
                   blocks of at most 64 handles
  read S hN        reads the block of the session's handle hN, as h0
  root S KEY hN    keeps the block of hN under KEY, 1 to 64 of a-z 0-9 . _ -
  look S KEY       gives a handle for the block that KEY keeps
  drop KEY         gives KEY up
  forget S hN      gives a handle up
  name S hN        tells the address of a block
  delete           begins a deletion
  stat             counts the blocks, the roots and the open sessions, and tells
                   the epochs
  settle           has the disks work until all is answered and each deletion done
  # ...            a comment, which is passed over, as an empty line is

A write, a read, a root, a drop and a deletion wait for the disks, which work at
`settle`. A session asks one thing at a time: until it is answered its next line
gets `no busy`. These lines have the disks do single things, for who wants to see
them in another order:

  turn P           peer P does its next job, or takes its oldest message
  nudge P          peer P sends again what may have been lost
  deliver K, lose K, repeat K
                   message K comes now, is lost, or is sent once more
  fail P           peer P fails, and with the last one of its shard the run ends
  start P          a failed peer joins again: its disk is emptied, and filled from
                   that of another one of its shard, at settle

An answer begins with the number of the line that asked, or with - where none
did: ok, new for a block that was not there, dup for one that was, bytes for its
data and the handles of what it points to, held and name for a handle, stat for
the counts, run and enter where a shard enters a deletion, sweep with the shard,
its epoch and how many blocks it gave back, done, down, and no for a refusal. A
script, and beside it what is printed on a new DIR:

  open a          1 ok
  write a 6162
  settle          2 new h0 e1
  read a h0
  settle          4 bytes 6162

A block that no root keeps goes with the second deletion behind its last write:
the first one leaves what sessions may still be about to point to.

Exit statuses. Each but 0 has its line on standard error, which is the last one.
Before it stands what else there is to tell: a folder or a file that was made, a
file that failed and why, or is no log, which word is wrong, what is wrong with
the line of a script, and which line of it has no answer.

   0  the script was read to its end; the file is stored, or was printed; the root
      is copied; or an audit or a scrub was printed, whatever it says
   2  the words are not those of a command
   3  a line is not in the script language; the lines before it were run
   4  a shard has no peer left: each of its disks failed or is no log of a store,
      or another run has DIR; in a script's output stands the line - down P for
      each, unless one of its lines had the disk fail
   5  the input could not be read
   6  the output could not be written
   7  out of memory
   8  a disk is of another store, or of another G or R; nothing was written to any
   9  an answer that a writer of a load was given is not the one of the journal
  10  the run has as many answers as --ops allows, and one more was due
  11  what a thread of a load wrote to a disk is not what the store counts on
  12  the store that is to be loaded is not empty
  13  the input is too long: a script above 4,294,967,296 bytes, a file above
      67,108,864
  14  a store, a fetch or a copy was refused, as its line says: the key keeps
      something else, or nothing; or the store has no room
  15  the key keeps a block that is no stored file
  16  the copy that --from names has no log, or its files failed; nothing was
      written
  17  the root to be copied reaches more than 4,000 blocks
 126  of the launcher bin/hydra: the program could not be proved or built
 127  of the launcher: the command rt of the Rattle kit is not on the path
 130  of the launcher: the building was interrupted

The launcher bin/hydra takes these words too, before all others:

  --try WORDS      runs the words unproved, in a new folder that is thrown away
  --from FILE      takes a program that was proved elsewhere, with FILE.proved
  --record LINE    prints what stands in FILE.proved; LINE is the last of the gate

A damaged disk: a log has no checksum. A bit that flips in a block's data gives
the block another address at the next opening: a read of the old one has no data,
and two deletions remove the block, until an audit tells what is missing. A bit
that flips in a gate hides what is behind it in the log. With several copies each
script begins by making those equal that differ, and takes the longest list of the
latest run: it can't tell which one is damaged. A scrub before it tells of each
whether it is that one.
";
