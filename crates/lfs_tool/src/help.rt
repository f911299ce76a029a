// The texts of the help and of the version.

/// The text that `--version` prints after the program's name: the versions of the program and of
/// its images.
pub(crate) const VERSION: &str = "1.0.0 (littlefs on-disk version 2.0)";

/// The first line of the help.
pub(crate) const ABOUT: &str =
    "Creates, unpacks, lists, checks or changes an image of a littlefs file system.";

/// The usage line of the help.
pub(crate) const USAGE: &str =
    "mklittlefs (-c DIR | -u DIR | -l | --check | --cat PATH | --put FILE PATH | --remove PATH | --mkdir PATH) [OPTIONS] IMAGE";

/// The text after the options in the help of `-h`.
pub(crate) const EXAMPLES: &str = "\
Examples:
  mklittlefs -c settings -s 1M disk.img  makes an image of the folder settings
  mklittlefs --auto -l flash.bin         lists the files in a copy of a flash
  mklittlefs --auto -u copy flash.bin    unpacks them into the folder copy

--help prints all options and their rules.";

/// The text after the options in the help of `--help`.
pub(crate) const RULES: &str = "\
Examples:
  mklittlefs -c settings disk.img        makes an image of the folder settings
  mklittlefs -l disk.img                 prints a line for each file and folder
  mklittlefs -u copy disk.img            unpacks it into the folder copy
  mklittlefs --check disk.img            says what is in it, or what is wrong
  mklittlefs --auto -l flash.bin         lists one of any sizes and limits
  mklittlefs --auto --offset 2M -l flash.bin
  mklittlefs --cat /log/today disk.img   writes the bytes of a file in it
  mklittlefs --put wifi.txt /keys/wifi disk.img
  mklittlefs -c settings --board esp32 -s 0x160000 disk.img
  mklittlefs -c settings -s auto --spare 4 disk.img
  mklittlefs -c settings - > disk.img    writes the image to standard output
  mklittlefs -l - < disk.img             reads it from standard input

Numbers:
  N is decimal (4096) or hexadecimal (0x1000). It may have a unit (4k, 1.5M): k
  is 1024 bytes, M is 1048576. Both accept upper or lower case. A number that is
  no whole number of bytes, such as 1.3k, is refused.

Sizes:
  -b  from 1024 to 65536, a multiple of -p
  -p  8, 16, 32, 64, 128, 256 or 512, and at most an eighth of -b
  -s  a multiple of -b: from 2 to 65536 blocks, and at most 268435456
  -s auto finds the fewest blocks that hold DIR; --spare N adds N blocks. Without
  -c the size is the length of IMAGE, and -b must be the one it was made with.
  -b auto reads the block size and the number of blocks from the superblock, and
  ignores what follows the image. --offset N skips N bytes before it.

Any image:
  --auto reads the block size, the number of blocks, the version and the limits
  from the superblock of IMAGE, so it opens a copy of any flash. It replaces -b,
  --board, --also-2.1, --name-max, --file-max and --attr-max. What follows the
  image in the file is kept. -c can't use it: a new image has no superblock.

Limits:
  --name-max    from 1 to 255
  --file-max    from 1 to 2147483647
  --attr-max    from 1 to 1022
  --inline-max  from 1 to 1022, and at most an eighth of -b
  -c stores the first three in the image: littlefs mounts it only if its own are
  no smaller. A file of at most --inline-max bytes is kept in its folder:
  littlefs changes it only if its cache_size is no smaller. --put, --remove and
  --mkdir change an image only if it has exactly these limits: give those it was
  made with, or --auto. --check compares all four to say whether IMAGE can be
  changed. -l, -u and --cat read an image with any limits.

Wear:
  --pair-cycles is for --put, --remove and --mkdir. A metadata pair that has been
  compacted N times moves to other blocks, as with littlefs's block_cycles. With
  0 no pair moves.

Boards:
  NAME sets these numbers, and --also-2.1. An explicit option overrides it.
  esp8266      -b 8192 --name-max 32 --inline-max 64   from memory
  esp32        -b 4096 --name-max 64 --inline-max 512  from memory
  rp2040       -b 4096 --inline-max 256                from memory
  micropython  -b 4096 --inline-max 128                MicroPython 1.26.1

Versions:
  -c makes images of version 2.0. littlefs 2.6 and later turn them into version
  2.1 at their first change. All modes but -c need --also-2.1, a --board or --auto
  to accept version 2.1. -c ignores --also-2.1.

Order:
  Names are sorted by byte. If one is a prefix of another (a, ab), either may
  come first: ORDER is longer-first, as in littlefs's own images, or
  shorter-first. All modes but -c accept both.

Files:
  -c writes an image beside IMAGE, and replaces IMAGE once the new one is whole:
  if anything fails, the old one stays. A file longer than the image isn't read.
  -u makes the folders above DIR. --times stores when each file and folder was
  modified, as seconds since 1970 in four bytes: its attribute t. With -u it sets
  these times. PATTERN matches a name, or with a / the path below DIR: * matches
  any bytes of a name, ? one character. --exclude may be given several times.

Paths:
  PATH is a path in IMAGE, such as /log/today. --put, --remove and --mkdir change
  IMAGE in place, completely or not at all. The folder above PATH must exist.
  - as FILE is standard input.

Errors:
  An error is one line. On a terminal, or with --explain, further lines say why.
  MKLITTLEFS_EXPLAIN=1 in the environment prints them everywhere, and 0 only with
  --explain. On a terminal, -c and -u show progress after one second.";
