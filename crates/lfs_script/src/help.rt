// The program's help.

/// The text of `--help`, which describes the lines of a script.
pub const HELP: &str = "\
Performs the operations of standard input, one a line, on a littlefs file system
in memory, and prints one line for each.

Usage: lfs_script < SCRIPT

Devices:
  fresh B P N [longer-first | shorter-first] [fill XX | keep]
                            a blank device of N blocks of B bytes in pages of P
  image B P FILE [fill XX | keep]  a device with the bytes of a file, mounted
  profile [also-2.1] [name-max N] [file-max N] [attr-max N] [inline-max N]
      [pair-cycles N]       what is accepted of the devices from here on, and
                            the limits by which they are written, in bytes;
                            pairs move when they wear, after N compactions;
                            without options version 2.0, the format's own
                            limits, and pairs that stay at their places
  blank-checks              the devices from here on say which bytes are blank
  unmount                   ends the session
  mount [KIND N [stop] [torn K | kept K | whole]]
                            mounts the device; its N-th call of KIND (any, read,
                            program, erase) fails
  format [KIND N [stop] [torn K | kept K | whole]]
                            makes the device empty, likewise
  put BLOCK OFFSET BYTES [fill XX | keep]  ends the session, and puts bytes
                            over those of the device
  bytes BLOCK OFFSET N      shows N bytes of the device
  save FILE                 writes the device's bytes to a file
  calls                     how many calls the device had
  compare [TYPE | entries]  compares the session with a fresh mount
  compare-with FILE         compares it with the bytes of a file

Operations of the session:
  open PATH FLAGS           opens a file; FLAGS are 1 read, 2 write, 100 create,
                            200 exclusive, 400 truncate, 800 append, added up
  read FD N                 reads up to N bytes
  write FD BYTES            writes bytes
  seek FD POSITION          sets the position of the next read or write
  truncate FD SIZE          sets a file's size
  sync FD                   makes what was written durable
  close FD                  syncs and closes a file
  mkdir PATH                makes a directory
  remove PATH               removes a file or an empty directory
  rename OLD NEW            moves an entry
  list PATH                 lists a directory
  stat PATH                 the kind and the size of an entry
  get-attr PATH TYPE        reads an attribute
  set-attr PATH TYPE BYTES  sets an attribute
  remove-attr PATH TYPE     removes an attribute
  gstate                    the global state
  is-used BLOCK             whether a block is used
  used-count                how many blocks are used
  recover                   ends what a loss of power left half done
  remount                   closes all files and reads the device anew

Numbers are decimal; FLAGS, TYPE and XX are hexadecimal without 0x. In a path
and in BYTES the bytes from ! to ~ other than \\ are themselves, \\xNN is any
byte (a space is \\x20), \\e is no byte, and *COUNT:WORD is the word's bytes
COUNT times. Words stand one space apart. Spaces around a line and a CR at its
end don't count. A line that is empty or begins with # prints nothing. A line
that is no command ends the program with its number and what is wrong with it.
";
