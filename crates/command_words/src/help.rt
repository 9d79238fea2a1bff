//! The help of the program and of its commands.

pub(crate) const ABOUT: &str =
    "Aggregates numbered batches of rows, and merges the summaries of several sites";

pub(crate) const AFTER: &str = "\
A summary file holds a query and what is known of the batches that it groups.
Each origin numbers its batches from 1. An answer covers each origin's batches
up to the first missing one. Later batches are kept until it arrives. Summaries
of the same batches are equal byte for byte, and so are their answers. The order
of the batches makes no difference, nor does a batch that comes twice.

Example:
  agg_tool new empty.sum --columns 'city text, sales bigint' \\
      --query 'SELECT city, sum(sales) FROM batches GROUP BY city'
  agg_tool feed oslo.sum empty.sum oslo-1.csv oslo-2.csv
  agg_tool feed rome.sum empty.sum rome-1.csv
  agg_tool merge all.sum oslo.sum rome.sum
  agg_tool answer all.sum --format aligned

Replies and tables go to standard output. Each refusal also has a sentence on
standard error. In the place of a file that is read, - is standard input, once
in a command. In the place of OUT, - is standard output; the replies go to
standard error then. A file of this name is ./-

Status:
  0  success, or help or the version was shown
  1  something was refused; the reply to it is a line 'refused NAME'
  2  the command line is invalid; standard error says why
  3  a file or a stream could not be read or written";

pub(crate) const SCRIPT_ABOUT: &str = "Runs a script from standard input";

pub(crate) const SCRIPT_AFTER: &str = "\
The script is CSV with one command a record. It is read whole before the first
reply is written:

  columns,SCHEMA                once, before the query; as with new
  query,TEXT                    once, before the replicas; as with new
  limit,BYTES                   limits the memory of later group tables:
                                65536 to 1099511627776; 4194304 at first
  replica,NAME                  makes an empty replica
  feed,NAME,ORIGIN,NUMBER,ROWS  adds a batch, the next ROWS records
  merge,INTO,FROM               adds to INTO the batches that FROM knows
  known,NAME                    lists the batches that NAME knows
  answer,NAME                   prints the answer of NAME, as CSV
  save,NAME,SAVED               saves NAME as SAVED, in memory
  load,NAME,SAVED               makes or replaces NAME from SAVED

Each command has one reply. One that fails replies 'refused NAME' and changes
nothing. A field with a comma stands in double quotes. Names are 1 to 63 ASCII
letters, digits or _.

Groups beyond the limit are spilled: to memory, or with --spill to a new file,
which is removed at the end.

Example:
  agg_tool script < examples/sales.script

Status:
  0  success
  1  a command was refused, memory ran out, or the script is longer than
     67,108,864 bytes
  2  the command line is invalid
  3  a stream failed, or the spill file could not be created";

pub(crate) const NEW_ABOUT: &str = "Makes an empty summary file";

pub(crate) const NEW_AFTER: &str = "\
SCHEMA is 'NAME KIND, NAME KIND, ..': 1 to 32 columns. A KIND is bigint or int8,
boolean or bool, or text. TEXT is one query, with or without a last ;

  SELECT ITEM, .. FROM batches [WHERE CONDITION]
      [GROUP BY COLUMN, ..] [HAVING CONDITION] [ORDER BY TERM, ..]

An ITEM is a column of GROUP BY or a call, and may have an alias after AS. A
call is count(*) or a function of a column, as sum(sales). FILTER (WHERE
CONDITION) after a call selects the rows that it takes. A CONDITION compares
columns, integers and 'texts' as in SQL, and in HAVING calls, too. A TERM is the
name of an ITEM or its place, from 1. ASC or DESC may follow it, and NULLS FIRST
or NULLS LAST. Without ORDER BY the rows are in the order of their keys.
The manual page agg_tool-script(5) has the grammar, all functions and all
comparisons. The sentence on a wrong query says what was expected, and where.

SCHEMA and TEXT may be read from files, one of which may be -, standard input. A
line end at the end of such a file is dropped.

Prints 'saved BYTES'. An existing summary OUT is replaced, and standard error
says so. With --no-clobber it is kept, and the status is 2. A file OUT that is
neither empty nor a summary is kept in the same way, unless --force is given.

Example:
  agg_tool new empty.sum --columns 'city text, sales bigint' \\
    --query 'SELECT city, sum(sales) AS total FROM batches GROUP BY city'
  agg_tool new empty.sum --columns-file columns.txt --query-file query.sql

Status:
  0  success
  1  something was refused
  2  the command line is invalid, or a file OUT was kept
  3  a file or a stream could not be read or written";

pub(crate) const FEED_ABOUT: &str = "Adds the batches of batch files to a summary";

pub(crate) const FEED_AFTER: &str = "\
A batch file is CSV. Its first record is batch,ORIGIN,NUMBER,ROWS: the origin of
the batch (0 to 1023), its number (1 to 4294967295), and how many records follow
(0 to 1048576), each with a field for each column. A field \\N is null. A bigint
is digits, with an optional + or -. A boolean is t, true, f or false, in either
case. A text is UTF-8 of at most 255 bytes. The files are taken in the order
given, each with a reply:

  folded upto N  the origin's batches 1 to N are in the answer now
  early          the batch is kept until the batches before it arrive
  known          the number was known; nothing changed
  refused NAME   the file was skipped; nothing changed

Then OUT is written, and 'saved BYTES' is printed. OUT may be IN. The command
stops without writing OUT if IN itself is refused, a file cannot be read or
written, or OUT would be longer than 67,108,864 bytes. Whether the files can be
read and OUT can be written is tried first. If OUT is IN, and another command
replaced it meanwhile, it stays as it is, and the command is refused: run it
again. It is better if writers wait: flock OUT.lock agg_tool feed OUT OUT BATCH.

A summary OUT that exists and is not among the files read is replaced, and
standard error says so. With --no-clobber it is kept, nothing is read, and the
status is 2. A file OUT that is neither empty nor a summary is kept in the same
way, unless --force is given. --progress reports each file on standard error, as
'12 of 500 0-12.csv: folded upto 12'. If that is a terminal and the replies go
elsewhere, files are reported without it. A batch file whose last line has no
line end is taken, and standard error says that it may be cut off.

The group table of a batch takes at most --limit bytes of memory blocks, 65536
to 1099511627776, or 64k to 1t: k, m, g and t are powers of 1024, in either
case. Groups beyond that are spilled, and aggregated in later passes: to memory,
or with --spill to a new file, which is removed at the end. The reply is the
same, unless that file fails. --explain prints on standard error what the
command took, as 'passes 2 spilled 1 pages 1 held 57352 limit 65536': the
passes, the records spilled, the pages of 8192 bytes written for them, and the
most bytes held at once.

BATCH and IN may be pipes: one of them -, or in bash <(gzip -dc 0-2.csv.gz).
If OUT is -, standard output gets only the bytes of the file, at the end, or
none.

Example:
  agg_tool feed oslo.sum oslo.sum oslo-3.csv
  gzip -dc oslo-4.csv.gz | agg_tool feed oslo.sum oslo.sum -

Status:
  0  success
  1  something was refused
  2  the command line is invalid, or a file OUT was kept
  3  a file or a stream could not be read or written";

pub(crate) const MERGE_ABOUT: &str = "Merges summary files of one query";

pub(crate) const MERGE_AFTER: &str = "\
OUT knows each batch that some IN knew. For each IN after the first, the reply
is 'merged', or 'refused NAME' if it is skipped: it has another query, is no
summary, or has another batch under a known number. Then OUT is written, and
'saved BYTES' is printed. OUT may be one of the INs. The command stops without
writing OUT if the first IN or that one is refused, a file cannot be read or
written, or OUT would be longer than 67,108,864 bytes. Whether the files can be
read and OUT can be written is tried first. If OUT is an IN, and another command
replaced it meanwhile, it stays as it is, and the command is refused: run it
again.

A summary OUT that exists and is not among the files read is replaced, and
standard error says so. With --no-clobber it is kept, nothing is read, and the
status is 2. A file OUT that is neither empty nor a summary is kept in the same
way, unless --force is given. --progress reports each file on standard error, as
'1 of 2 rome.sum: merged'. If that is a terminal and the replies go elsewhere,
files are reported without it.

A merge can complete early batches, which are aggregated then. Their group table
takes at most --limit bytes of memory blocks, 65536 to 1099511627776, or 64k to
1t, as with feed. Groups beyond that are spilled, and aggregated in later
passes: to memory, or with --spill to a new file, which is removed at the end.
--explain prints on standard error what the command took, as
'passes 2 spilled 1 pages 1 held 57352 limit 65536': the passes, the records
spilled, the pages of 8192 bytes written for them, and the most bytes held at
once.

IN may be a pipe: one IN -, or in bash <(ssh rome cat rome.sum). If OUT is -,
standard output gets only the bytes of the file, at the end, or none.

Example:
  agg_tool merge all.sum oslo.sum rome.sum
  ssh rome cat rome.sum | agg_tool merge all.sum all.sum -

Status:
  0  success
  1  something was refused
  2  the command line is invalid, or a file OUT was kept
  3  a file or a stream could not be read or written";

pub(crate) const KNOWN_ABOUT: &str = "Lists the batches that a summary knows";

pub(crate) const KNOWN_AFTER: &str = "\
Prints a line for each origin of which a batch is known, as
'origin 7 upto 12 early 14 15': batches 1 to 12 are in the answer, 14 and 15
wait for 13. --format tsv prints the same as columns between tabs, with the
header origin, upto and early, and spaces between early numbers. --format json
prints an object a line, as '{\"origin\":7,\"upto\":12,\"early\":[14,15]}'.

--explain prints on standard error the columns, the query, and a line for each
origin: its groups, its bytes in the file, and the missing numbers before an
early one, as 'origin 7 upto 12 groups 3 early 2 bytes 190 missing 13'.

Example:
  agg_tool known all.sum

Status:
  0  success
  1  something was refused
  2  the command line is invalid
  3  a file or a stream could not be read or written";

pub(crate) const ANSWER_ABOUT: &str =
    "Prints the query's answer over the batches that a summary knows";

pub(crate) const ANSWER_AFTER: &str = "\
The rows are in the order of the query's ORDER BY, or else of their keys, nulls
last. Null is \\N, a boolean t or f. A column's header is its alias, or else its
column or function. The layout is csv, or aligned for people; tsv is that of
PostgreSQL's COPY, with a header; json is an object a line, with null, true and
false, and numbers of any size. A JSON name that an earlier column has gets a
dot and its place, as sum.3.

Batches that wait for a missing one are not counted. Standard error says so for
at most ten origins, as 'origin 0: 1 early batch is not counted; missing 2'.
With --complete the status is then 1.

The groups of several origins are merged in memory, without spilling. --limit
and --spill are accepted, as by feed and merge, and have no effect here.
--explain prints on standard error what the answer is made of, as
'groups 770 origins 2 early 3 of 1 origins': the groups merged, a key once for
each origin that has it; the origins with counted batches; and how many early
batches are not counted, of how many origins.

Example:
  agg_tool answer all.sum --format aligned

Status:
  0  success
  1  something was refused, or --complete found early batches
  2  the command line is invalid
  3  a file or a stream could not be read or written";

pub(crate) const PACK_ABOUT: &str = "Makes a batch file from a plain CSV";

pub(crate) const PACK_AFTER: &str = "\
Writes the rows of CSV to standard output as a batch file: batch N of --number,
of origin N of --origin. Without CSV, or if it is -, it reads standard input.
The columns are those of the summary IN.

A row is a record with a field for each column, in their order. With --header
the first record names the columns, in any order and in either case. A name that
IN does not have is refused, unless --skip-columns ignores its fields. Fields
are separated by commas, or by the one byte of --delimiter, as ';', or tab. An
empty field is null, or with --null TEXT the field TEXT; \\N is always null.
Other fields are as in a batch file: see agg_tool feed --help. Blank lines are
skipped, and standard error says how many. In a table of one column they might
be nulls, and are refused, unless --null tells another text. A batch has at most
1,048,576 rows; agg_make_batches splits a longer file into batches. An empty CSV
is refused, as the program that writes it may have failed; --allow-empty makes
it a batch.

If something is wrong, 'refused NAME' is printed in the place of the batch, and
standard error names the line and the column.

Example:
  agg_tool pack all.sum --origin 3 --number 2 --header day.csv > 3-2.csv
  agg_tool pack all.sum --origin 3 --number 3 --delimiter tab < day.tsv |
      agg_tool feed all.sum all.sum -

Status:
  0  success
  1  something was refused
  2  the command line is invalid
  3  a file or a stream could not be read or written";
