//! What `--help` prints. The script `./coder` prints it from this file.

pub(crate) const HELP: &str = r#"usage: ./coder [--try] pack [--fast|--best] [FILE] [-o OUTPUT] [-f]
       ./coder [--try] unpack [--limit BYTES] [FILE] [-o OUTPUT] [-f]
       ./coder [--try] test [FILE]
       ./coder [--try] <LINES

Packs a file of any length, unpacks a packed one, or tests whether it is whole, and says nothing if all went well. The library
that it calls is proved to unpack to the same bytes. Without pack, unpack or test it answers lines, of which more below.

  FILE             what is read: standard input if it is - or left out
  -o OUTPUT        what is written: standard output if it is - or left out. An OUTPUT that is there already is refused
  -f, --force      ... unless this is given, and it is a regular file: then a new file takes its name
  --fast, --best   packs in less time, or into fewer bytes. With --best a megabyte takes one to two seconds, to unpack it too
  --limit BYTES    unpacks no more than this: a small FILE can hold any number of bytes
  --               what follows is FILE, whatever it begins with
  --try            comes first, and takes no FILE and no OUTPUT: half a minute later, or more if the machine is busy, a program
                   answers that is not proved, but checked as it runs. A line on standard error says so. The answers have at
                   most 1,048,576 bytes

OUTPUT is written as OUTPUT.NUMBER.part, and gets its name once it is whole. It has the permissions of any new file, not those
of FILE. After a failure nothing of it is left, and an OUTPUT that was there stays as it was; but a signal, as Ctrl-C sends one,
leaves OUTPUT.NUMBER.part. Standard output keeps what was written before a failure: if that was unpacked, it is a beginning of
the file. No packed bytes go to a terminal. If standard error is one, a line there says after 8 MiB, and at most once a second,
how much was read. Why a file is refused stands there too, in a line like one of these:

  coder: FILE: The input does not begin like a file that pack wrote.    another program wrote it, or its first bytes are damaged
  coder: FILE: The packed file was cut.          it ends too early
  coder: FILE: The packed file is damaged.       a checksum, a number or a block is wrong, or something follows the packed file
  coder: FILE: The packed file holds more than was allowed.    more than BYTES

One changed byte of a file that pack wrote is noticed, and other damage unless the checksums of 64 bits happen to fit.

A line of LINES is about words by the published formulas of the Rust crate's DefaultAnsCoder, a stack, and DefaultRangeEncoder
and DefaultRangeDecoder, a queue. Its answer comes on standard output.

  stack-encode P W.. : S..            the words from which the stack decodes the symbols S.., in this order
  stack-decode P W.. : N : WORD..     the N symbols that the stack decodes from these words
  queue-encode P W.. : S..            the words from which the queue decodes the symbols S.., in this order
  queue-decode P W.. : N : WORD..     the N symbols that the queue decodes from these words

P is the PRECISION, 12, 16, 24 or 32, and W.. are the weights of the symbols 0, 1, ..: they add up to 2^P. Numbers are
decimal and below 2^64, and one space stands between each two words. If nothing follows a colon, the line ends with it.
N is at most 1,048,576, and each WORD is below 2^32. The answer is an empty line if there is no word or no symbol. Other
answers are

  invalid    the weights do not add up to 2^P, or one is 0 or not below 2^32
  none       a symbol has no weight
  refused    the words end in 0, which those of no stack do
  damaged    the queue decodes no symbol from these words
  bad line   any other line

For example:

  $ printf 'stack-encode 12 4000 95 1 : 1 0 2\nstack-decode 12 4000 95 1 : 3 : 184235\n' | ./coder --try
  184235
  1 0 2

Words do not say how many symbols they hold, so from a message that was cut some symbols are decoded too.

The first call proves and builds the program, in up to half an hour on four processors; so does the first one after a
source changed. It needs the command rt. Other calls start at once.

Exit status:
  0   the file was packed, unpacked or found whole; or each line was answered, "bad line" and the like among the answers
  1   the input could not be read, or the output could not be written
  2   refused: FILE does not begin like one that pack wrote, was cut, is damaged or unpacks to more than BYTES; OUTPUT is
      there, or packed bytes would go to a terminal; or the lines are longer than 1,048,576 bytes
  3   memory was refused
  64  other arguments
  70  the program could not be built, or tried
"#;
