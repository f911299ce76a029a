// The program's help.

/// The text of `--help`, which describes the lines of a script.
pub const HELP: &str = "\
Performs the calls of standard input, one a line, on a volume over a littlefs
image in memory, and prints one line for each.

Usage: lfs_volume_script < SCRIPT

Devices:
  fresh B P N [longer-first] [fill XX | keep]
                            a blank device of N blocks of B bytes in pages of P
  image B P FILE [fill XX | keep]  a device with the bytes of a file, mounted
  profile [also-2.1] [name-max N] [file-max N] [attr-max N] [inline-max N]
      [pair-cycles N]       what is accepted of later devices, and their limits
  unmount                   ends the volume
  mount [KIND N [stop] [torn K | kept K | whole]]
                            mounts the device; its N-th call of KIND (any, read,
                            program, erase) fails, with stop all later ones too
  format [KIND N [stop] [torn K | kept K | whole]]
                            makes the device empty, likewise
  save FILE                 writes the device's bytes to a file
  calls KIND                how many calls of KIND the device had

Calls of the volume, by a handle's number H:
  open PATH FLAGS           opens a file; FLAGS are 1 read, 2 write, 100 create,
                            200 exclusive, 400 truncate, 800 append, added up
  read H N, read-into H N   reads up to N bytes, the latter into a buffer
  write H BYTES             writes bytes
  seek H POSITION           sets the position of the next read or write
  position H, size H        the position; the size of the file
  truncate H SIZE, sync H, close H
  mkdir PATH, remove PATH, rename OLD NEW, list PATH, stat PATH
  get-attr PATH TYPE, set-attr PATH TYPE BYTES, remove-attr PATH TYPE
  gstate, is-used BLOCK, used-count, recover, remount

Numbers are decimal; FLAGS, TYPE and XX are hexadecimal without 0x. In a path
and in BYTES the bytes from ! to ~ other than \\ are themselves, \\xNN is any
byte, \\e is no byte, and *COUNT:WORD is the word's bytes COUNT times. Words
stand one space apart. A line that is empty or begins with # prints nothing. A
line that is no command ends the program.
";
