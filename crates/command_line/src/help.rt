//! The help texts.

/// What `nvmesgl --help` says first.
pub const ABOUT: &str =
    "An NVMe host driver and a modelled controller that move data by scatter-gather lists.

It drives no real device. `nvmesgl steps` plays a script over a fresh pool of pages and
prints what each step answered. `nvmesgl threads` lets several threads do the jobs of a
script over one pool, and prints how each job ended; `nvmesgl load` makes jobs itself and
measures. `nvmesgl shell` answers one step after the other, and `nvmesgl draw` makes a page
with a picture of each. `nvmesgl check` tells all faults of a script, `nvmesgl test` whether
scripts still answer what stands below their steps, and `nvmesgl grammar` what a script may
say. `nvmesgl explain` tells what the controller makes of an entry and its list, and
`nvmesgl show` decodes single ones.";

/// What `nvmesgl --help` says last.
pub const AFTER: &str = "One block, read:
  printf 'reserve 1 read 0 1 0+512\\nbuild 1 0\\nsubmit 1 0\\nring 1\\nfetch 1\\nwalk 1 0\\nwalk 1 0\\ncomplete 1 0\\nreap 1\\ncollect 1 0\\ngather 1 0\\nrelease 1 0\\n' | nvmesgl steps

docs/SCRIPT.md in the repository has the scripts, the replies and the exit statuses;
docs/PROFILE.md says what the steps mean, and examples/ has scripts with their output.";

/// What `nvmesgl steps --help` says first.
pub const STEPS_ABOUT: &str = "Plays a script, step by step, and prints what each step answered.

The script is read and checked whole before its first step. A refused step is an answer too:
the run goes on, and its exit status is 0, or 4 with --strict. With --save the image is written
into a file after the last step, so that a later run can begin with it (--image). A first line
as `# options: --segment 2` says options of the script's own, in place of those that are typed.
Lines that begin with `>` are passed over: they are the answers of a transcript.";

/// What `nvmesgl steps --help` says last.
pub const STEPS_AFTER: &str = "A script has one step on each line; `#` begins a comment.
  reserve Q KIND SLBA BLOCKS PIECE..   KIND is read, write, compare or deallocate, or, without
                                       a piece, write_zeroes, verify or flush; a PIECE is
                                       OFFSET+LEN, bytes of a page of its own, or xLEN, bytes
                                       left out; BLOCKS of a deallocate counts ranges
  fill Q CID HEX                       the bytes of a command that brings none, zeros after them
  build Q CID                          lays the scatter-gather list
  submit Q CID  |  cancel Q CID        sends the command, or gives it up
  ring Q                               tells the controller
  fetch Q                              the controller takes an entry,
  walk Q CID                           does one unit of its list,
  complete Q CID                       and posts its completion
  reap Q                               takes a completion
  collect Q CID  |  gather Q CID  |  release Q CID
                                       its status, a Read's bytes, and its pages given back
  abort Q CID                          asks the controller to stop a command, on queue 0
  delete_sq Q  |  delete_cq Q          asks it to drop a queue's halves, on queue 0
  retire Q                             gives up a queue whose submission half is deleted
  create_cq Q  |  create_sq Q          asks it to make a queue again that is gone, on queue 0
  forge Q SLOT HEX                     overwrites a completion slot with 16 bytes
  reset                                resets the controller: queue 0 alone is left
  owners                               prints who owns which page

Example:
  printf 'reserve 1 read 0 1 0+512\\nowners\\ncancel 1 0\\n' | nvmesgl steps
prints
  1 reserve q 1 cid 0 data 1 chain 0
  0-0 queue 0 sq
  1-1 queue 0 cq
  2-2 queue 1 sq
  3-3 queue 1 cq
  4-4 command 1 0 data
  5-15 free
  3 cancel ok
  counts free 12 queue 4 chain 0 data 0

Exit status: 0 done, 1 the script is at fault, 2 the arguments, the image or the opening,
3 memory, the output or the saved image, 4 with --strict: a step was refused or a status is
not 0:00. docs/SCRIPT.md in the repository has all of this in full.";

/// What `nvmesgl threads --help` says first.
pub const THREADS_ABOUT: &str = "Runs the jobs of a script, and prints how each ended.

Each submitter does its jobs in a thread of its own, one after the other in the order of their
lines; all share one pool. With --depth it has several of them in flight, and takes their ends in
that order; those that are in flight together have no order, so a Read may bring what stood there
before a Write that stands above it. The jobs are done in rounds of --log-limit entries, of each
submitter one job at least, and what is kept of a round to check it by is dropped at its end; what is
printed in all is the same. A submitter that rings serves what it can at once, and a controller in a thread of its own
what is left; with --serve controller that thread serves alone. The script is read and checked whole
before its first job. A refused job is an answer too: the run goes on, and its exit status is 0, or
4 with --strict. A first line as `# options: --queues 2` says options of the script's own.";

/// What `nvmesgl threads --help` says last.
pub const THREADS_AFTER: &str = "A script has one job on each line; `#` begins a comment.
  job S Q read SLBA BLOCKS PIECE..          S is the submitter, from 0, and Q the queue;
  job S Q write SLBA BLOCKS HEX PIECE..     a PIECE is OFFSET+LEN, bytes of a page of its own,
  job S Q compare SLBA BLOCKS HEX PIECE..   or xLEN, bytes left out; after HEX stand zeros

The lines of the jobs are printed in the order of the script, after each round those of the jobs
whose turn came; then who owns which page, and then the counts.

Example:
  printf 'job 0 1 write 5 1 ABCD 0+512\\njob 0 1 read 5 1 0+512\\n' | nvmesgl threads
prints
  1 seat 0 write status 0:00 -
  2 seat 0 read status 0:00 AB*1,CD*1,00*510
  0-0 queue 0 sq
  1-1 queue 0 cq
  2-2 queue 1 sq
  3-3 queue 1 cq
  4-15 free
  counts free 12 queue 4 chain 0 data 0

Exit status: 0 done, 1 the script is at fault, 2 the arguments, the image or the opening,
3 memory, a thread or the output, 4 with --strict: a job was refused or a status is not 0:00.
docs/SCRIPT.md in the repository has all of this in full.";

/// What `nvmesgl load --help` says first.
pub const LOAD_ABOUT: &str =
    "Makes commands and lets submitters do them in threads, as many as are asked for.

Each submitter has a part of the blocks, cut into slots of --bs blocks; a command reads or writes
one slot. `read`, `write` and `rw` go through the slots in turn, the others pick slots at random;
`rw` and `randrw` read and write, and --rwmixread says how many of a hundred commands read. With
--size only so many blocks are used, from block 0. Both are blocks, or bytes with a unit, b, k or m.
What is written is made of the seed, the block and how often it was written. A refused command, or
one whose status is not 0:00, is counted and the run goes on.

The commands are made and done in rounds, and of a round nothing is kept but counts. What is kept to
check a round by is dropped at its end: --log-limit says how many entries of it there may be. --serve
says who serves, as in `nvmesgl threads`; the line is the same.";

/// What `nvmesgl load --help` says last.
pub const LOAD_AFTER: &str =
    "With --verify each read is compared with what was written there last, or else with the image, and
each slot that was written is read once more at the end. One line says how it went:
  load randrw done 10000 refused 0 failed 0 verified 5012 differ 0
Without --runtime it is the same for the same words. `done` are commands with status 0:00, and
`verified` reads that brought what stands there. The reads at the end are none of those `done`.

Times go to standard error: commands and MiB a second, and the latencies, from when a command has
its pages until these are free again. --stats writes them as JSON in the form of fio; with
--status-interval they are written anew each time that it has gone by, and standard error says how
far the load is. --output-format json prints that JSON in place of the line:
  nvmesgl load --rw randrw --runtime 10s --output-format json | jq .jobs[0].read.iops

Example:
  nvmesgl load --rw randrw --bs 8 --count 100000 --numjobs 4 --iodepth 8 --verify --pages 256 --entries 16 --blocks 4096

Exit status: 0 done, 2 the arguments, the image or the opening, 3 memory, a thread, the output or
the file of the statistics, 4 commands were refused or failed, or bytes differ.";

/// What `nvmesgl check --help` says first.
pub const CHECK_ABOUT: &str =
    "Tells all faults of a script, and not the first alone. Nothing is run and nothing is printed
but the faults: each line that has one, its first word that is wrong, and what is wanted there,
20 lines at most. Of a FILE each begins with FILE:LINE:COLUMN.";

/// What `nvmesgl check --help` says last.
pub const CHECK_AFTER: &str =
    "With --jobs the script is one for `nvmesgl threads` with as many submitters as are given.

Exit status: 0 no fault, 1 the script is at fault, 2 the arguments, 3 memory or the output.";

/// What `nvmesgl test --help` says first.
pub const TEST_ABOUT: &str = "Plays transcripts, and tells which come out otherwise than they say.

A transcript is a script of steps, or one of jobs whose first line says --submitters, and below
each of its lines what that prints, each line after `> `. For each file one line is printed: `ok`
and the file, or the file and the first difference. The options are those of each world, where a
transcript does not say others in its first line.";

/// What `nvmesgl test --help` says last.
pub const TEST_AFTER: &str =
    "Exit status: 0 all agree, 1 a transcript is at fault, 2 the arguments, 3 memory, the output, or
a file that is not written, 4 one differs. docs/SCRIPT.md in the repository has the form.";

/// What `nvmesgl shell --help` says first.
pub const SHELL_ABOUT: &str = "Answers one line after the other, each at once, over one world.

A line is a step of a script, or a word with a dot: `.help` lists them. A line that is at fault
says so, and the session goes on. On a terminal a prompt stands before each line; `rlwrap nvmesgl
shell` brings back what was typed.";

/// What `nvmesgl shell --help` says last.
pub const SHELL_AFTER: &str = "Example:
  printf '.write 1 5 1 ABCD\\n.read 1 5 1\\n' | nvmesgl shell
prints
  status 0:00 Successful Completion
  AB*1,CD*1,00*510

Exit status: 0 done, 1 the input is unreadable, 2 the arguments, the image or the opening, 3
memory or the output. docs/SCRIPT.md and docs/TEACHING.md in the repository have more.";

/// What `nvmesgl draw --help` says first.
pub const DRAW_ABOUT: &str = "Plays a script, and writes a page of HTML with a picture of each step.

A picture shows the pages of the pool by who owns them, the rings of the queues and where both
sides stand in them, and the outstanding commands. Arrow keys and a slider go from step to step.";

/// What `nvmesgl draw --help` says last.
pub const DRAW_AFTER: &str = "Example:
  nvmesgl draw examples/read.script > read.html

Exit status: 0 done, 1 the script is at fault, 2 the arguments, the image or the opening, 3
memory or the output.";

/// What `nvmesgl explain --help` says first.
pub const EXPLAIN_ABOUT: &str =
    "Tells what the controller makes of a submission entry and its scatter-gather list.

It walks the list over the pages that are given, and prints a line for each descriptor that it
takes. The last lines say `accepted`, or `refused` with the status, which descriptor, and which
rule.";

/// What `nvmesgl explain --help` says last.
pub const EXPLAIN_AFTER: &str = "The input has one thing on each line; `#` begins a comment.
  sqe BYTES         the entry of an I/O queue, 64 bytes
  page P BYTES      the bytes of a page, zeros after them; each page that is not told has zeros
  at ADDRESS BYTES  bytes from an address on, which is hexadecimal, as 0x142FE0000
  out P             the host has this page out: the controller cannot reach it; or out ADDRESS
  block N BYTES     the bytes of a block, zeros after them
  pages N           how many pages the pool has, 8 to 65536, or any; before these; else 16
  memory BASE SIZE  the pool has SIZE bytes from BASE on, both hexadecimal; before these
  blocks N          how many blocks there are, 1 to 65536, or any; before these; else 64
  block_size N      how many bytes a block has: 512, 1024, 2048 or 4096; before these; else 512
  nsid N            the namespace that the entry must name; else 1
BYTES are hexadecimal digits, blanks anywhere between two bytes, or 00*16 for one byte so often,
or @FILE for the bytes of a file; lines that xxd, hexdump or od print are read too.
Page P has the addresses from 4096 times P on.

Example:
  printf 'sqe 02400100 01000000 00*16 0080000000000000 00010000 00000000 00*24\\n' | nvmesgl explain
prints
  descriptor 1, SGL1 of the entry: Data Block, address 8000h, length 256, for 256 bytes
  refused: 0:0F Data SGL Length Invalid
  descriptor 1, SGL1 of the entry: it ends the list, and bytes are still wanted
  the command moves 512 bytes, and its list has 256

Exit status: 0 accepted, 4 refused, 1 the input is at fault, 2 the arguments, 3 memory or the
output. docs/FIRMWARE.md in the repository has more.";

/// What `nvmesgl show --help` says first.
pub const SHOW_ABOUT: &str =
    "Decodes an entry or a descriptor: each field by its name, and what of it the controller refuses.

The first word says what the bytes are: `sqe` a submission entry of an I/O queue, 64 bytes, `admin`
one of the admin queue, 64, `cqe` a completion entry, 16, `sgl` a scatter-gather list descriptor,
16. All others are the bytes, or @FILE for those of a file. After `status` stands a status, as 0:0D
or as the 15 bits of its field, 0x400D.";

/// What `nvmesgl show --help` says last.
pub const SHOW_AFTER: &str = "Example:
  nvmesgl show sgl 00700000 00000000 18000000 00000030
prints
  Last Segment, address 7000h, length 24
  SGL1 is refused: 0:0D Invalid SGL Segment Descriptor
  it is a link whose length is 24, no multiple of 16

Exit status: 0 decoded, 1 the bytes are at fault, 2 the arguments, 3 memory or the output.
docs/FIRMWARE.md in the repository has more.";
