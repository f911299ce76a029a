// Runs of the program on real files, as rows. `bench/program_lines.py` has more of them.

use lfs_device::{Geometry, RamDevice};
use lfs_fs::mount;
use std::alloc::{AllocError, Global};
use std::fs::File;
use std::os::unix::fs::symlink;
use std::time::{Duration, UNIX_EPOCH};
use std::{fs, io};

/// Rows of command lines. Each line is followed by its output and, unless it is 0, its status. The
/// last line of a row states the length of the image. Before each row, an image of 14 bytes exists.
/// `%` marks output without a final newline.
pub(crate) const RUNS: &str = r#"$ -c runs/files -s 16384 runs/image
$ -l runs/image
f 5 /a
f 0 /b
image: 16384

$ -c runs/files runs/image
$ -u runs/other/d runs/image
$ -c runs/other -s 32768 runs/image
$ -l runs/image
d 0 /d
f 5 /d/a
f 0 /d/b
image: 32768

$ -c runs/files -s 16384 runs/image
$ --check runs/image
ok
files 2
directories 0
used 2 of 4 blocks
free 2
order either
recover no
writable yes
$ --check -b 8192 runs/image
corrupt
superblock: block size 4096, given 8192
status 1
image: 16384

$ -c runs/long -b 1024 -p 128 -s 8192 runs/image
$ -u runs/other -b 1024 -p 128 runs/image
$ -c runs/other -b 1024 -p 128 -s 8192 runs/image
$ --cat /c -b 1024 -p 128 runs/image
01234567890123456789012345678901234567890123456789012345678901234567890123456789012345678901234567890123456789012345678901234567890123456789012345678901234567890123456789012345678901234567890123456789%
image: 8192

$ -c runs/empty runs/image
$ -u runs/other runs/image
$ -c runs/other -s 32768 runs/image
image: 32768

$ -c runs/files -b 8192 -s 32768 runs/image
$ --check -b auto --json runs/image
{"ok": true, "files": 2, "directories": 0, "used": 2, "blocks": 4, "free": 2, "order": "either", "recover": false, "writable": true, "behind": 0}
$ -l --offset 32768 --explain runs/image
error: Invalid (22)
size 0, block 4096: an image has from 2 to 65536 blocks
status 1
image: 32768

$ -l --skip-links runs/image
error: --exclude, --follow-links and --skip-links are for -c
status 2
$ --check --json runs/image
{"ok": false, "reason": "no image of blocks of 4096 bytes and pages of 256 has a length of 14"}
status 1
image: 14

$ -c runs/files --exclude ? -s 16384 runs/image
$ -l runs/image
$ -c runs/files --exclude=b* -s 16384 runs/image
$ -l --json runs/image
{"type": "file", "size": 5, "path": "/a"}
image: 16384

$ -c runs/files -s 32768 runs/image
$ --mkdir /d runs/image
$ --put runs/files/a /d/c runs/image
$ --remove /a runs/image
$ -l runs/image
f 0 /b
d 0 /d
f 5 /d/c
image: 32768

$ -c runs/files -s 16384 runs/image
$ --put runs/files/b /a runs/image
$ --put runs/files/a /b runs/image
$ --cat /b runs/image
hello%
$ --remove /none --explain runs/image
error: NoEnt (2)
/none: nothing is there, or a folder above it is missing
status 1
image: 16384

$ -c runs/files -s 4095 --explain runs/image
error: Invalid (22)
size 4095, block 4096: an image is a whole number of blocks
status 1
$ -c runs/files -s 8192 --explain runs/image
error: NoSpace (28)
2 blocks are too few, it takes 4
status 1
$ -c runs/files --file-max 4 --explain runs/image
error: TooBig (27)
runs/files/a: a file of 5 bytes, and 4 are the most
status 1
$ -c runs/files --exclude b --name-max 1 --file-max 4 -s auto --explain runs/image
error: TooBig (27)
runs/files/a: a file of 5 bytes, and 4 are the most
status 1
$ -c runs/none --explain runs/image
error: input
runs/none: No such file or directory (os error 2)
status 3
$ -c runs/files --explain runs/none/image
error: output
runs/none/image: No such file or directory (os error 2)
status 3
$ -l --explain runs/files
error: input
runs/files: Is a directory (os error 21)
status 3
$ -c runs/links --follow-links --explain runs/image
error: input
runs/links/up/links: the folder is in itself
status 3
image: 14

$ -c runs/empty -s auto runs/image
$ -l runs/image
image: 8192

$ -c runs/files -s auto runs/image
$ -l runs/image
f 5 /a
f 0 /b
image: 16384

$ -c runs/files --size=auto --spare 2 -b 8192 runs/image
$ -l -b auto runs/image
f 5 /a
f 0 /b
image: 49152

$ -c runs/files -s auto --spare 0xffffffff --explain runs/image
error: Invalid (22)
an image has at most 268435456 bytes
status 1
$ -c runs/files -s auto -b 1000 --explain runs/image
error: Invalid (22)
block 1000: a block has from 1024 to 65536 bytes
status 1
$ -c runs/files --times --attr-max 3 --explain runs/image
error: TooBig (27)
a time takes an attribute of 4 bytes, and 3 are the most
status 1
image: 14
"#;

/// Creates the files for a row.
pub(crate) fn make_files(rt: &HostRuntime) -> io::Result<()> {
    let _ = fs::remove_dir_all(rt, "runs");
    fs::create_dir_all(rt, "runs/files")?;
    fs::create_dir(rt, "runs/empty")?;
    fs::create_dir(rt, "runs/links")?;
    fs::create_dir(rt, "runs/long")?;
    symlink(rt, "..", "runs/links/up")?;
    fs::write(rt, "runs/files/a", b"hello")?;
    fs::write(rt, "runs/files/b", b"")?;
    fs::write(
        rt,
        "runs/long/c",
        b"01234567890123456789012345678901234567890123456789012345678901234567890123456789012345678901234567890123456789012345678901234567890123456789012345678901234567890123456789012345678901234567890123456789",
    )?;
    fs::write(rt, "runs/image", b"an older image")
}

/// Returns the words of a command line, which are separated by spaces.
pub(crate) fn program_words(alloc: Global, line: &str) -> Result<Vec<String>, AllocError> {
    let mut words = vec![in alloc; String::from_str(alloc, "mklittlefs")?]?;
    for word in line.split(' ') {
        words.push(String::from_str(alloc, word)?)?;
    }
    Ok(words)
}

/// Sets the modification time of the file or folder at a path, in seconds since 1970.
pub(crate) fn set_seconds(rt: &HostRuntime, path: &str, seconds: u64) -> io::Result<()> {
    let time = UNIX_EPOCH
        .checked_add(Duration::from_secs(seconds))
        .unwrap_or(UNIX_EPOCH);
    File::open(rt, path)?.set_modified(time)?;
    Ok(())
}

/// Returns the modification time of the file or folder at a path, in seconds since 1970.
pub(crate) fn seconds_at(rt: &HostRuntime, path: &str) -> io::Result<u64> {
    let since = fs::metadata(rt, path)?
        .modified()?
        .duration_since(UNIX_EPOCH);
    Ok(since.map(|time| time.as_secs()).unwrap_or(0))
}

/// Returns the attribute of type `t` at a path of an image.
pub(crate) fn time_in_image(alloc: Global, image: &[u8], path: &[u8]) -> Option<Vec<u8>> {
    let count = u32::try_from(image.len() / 4096).ok()?;
    let geometry = Geometry::new(4096, 256, count).ok()?;
    let device = RamDevice::from_bytes(geometry, image.to_vec(alloc).ok()?).ok()?;
    let mut session = mount(alloc, device).ok()?;
    session.get_attr(alloc, path, 0x74).ok()
}
