// Images that are written completely or not at all.

use crate::limited_files::{LimitedFiles, Refusal};
use lfs_tool::NewImage;
use std::cell::Cell;
use std::fs::{Files, Permissions};
use std::io::Write;
use std::os::unix::fs::{PermissionsExt, symlink};
use std::test::Fail;
use std::{fs, io};

const PATH: &str = "whole/image";

const IMAGE: &[u8] = b"the bytes of a new image";

const OLD: &[u8] = b"an old image";

// What is at the path before the image is written. A link points to a file in another folder.
#[derive(Clone, Copy, PartialEq, Eq, Debug)]
enum PathBeforeWrite {
    Nothing,
    File,
    Link,
}

// What is at the path before, how many bytes can be written, which calls are refused, whether the
// image is created, and the bytes that are then at the path.
const ROWS: [(PathBeforeWrite, usize, Refusal, bool, Option<&[u8]>); 12] = [
    (
        PathBeforeWrite::Nothing,
        24,
        Refusal::Nothing,
        true,
        Some(IMAGE),
    ),
    (PathBeforeWrite::Nothing, 23, Refusal::Nothing, false, None),
    (
        PathBeforeWrite::File,
        24,
        Refusal::Nothing,
        true,
        Some(IMAGE),
    ),
    (
        PathBeforeWrite::File,
        23,
        Refusal::Nothing,
        false,
        Some(OLD),
    ),
    (PathBeforeWrite::File, 0, Refusal::Nothing, false, Some(OLD)),
    (
        PathBeforeWrite::File,
        99,
        Refusal::Writing,
        false,
        Some(OLD),
    ),
    (
        PathBeforeWrite::Link,
        99,
        Refusal::Nothing,
        true,
        Some(IMAGE),
    ),
    (
        PathBeforeWrite::Link,
        20,
        Refusal::Nothing,
        false,
        Some(b"the bytes of a new i"),
    ),
    (PathBeforeWrite::Nothing, 99, Refusal::NewNames, false, None),
    (
        PathBeforeWrite::File,
        99,
        Refusal::NewNames,
        true,
        Some(IMAGE),
    ),
    (
        PathBeforeWrite::File,
        99,
        Refusal::Renames,
        true,
        Some(IMAGE),
    ),
    (
        PathBeforeWrite::File,
        23,
        Refusal::Renames,
        false,
        Some(OLD),
    ),
];

// Recreates the folder, with this at the path.
fn make_folder(rt: &HostRuntime, standing: PathBeforeWrite) -> io::Result<()> {
    let _ = fs::remove_dir_all(rt, "whole");
    fs::create_dir_all(rt, "whole")?;
    match standing {
        PathBeforeWrite::Nothing => Ok(()),
        PathBeforeWrite::File => fs::write(rt, PATH, OLD),
        PathBeforeWrite::Link => {
            fs::write(rt, "whole_target", OLD)?;
            symlink(rt, "../whole_target", PATH)
        }
    }
}

// Returns the number of names in the folder.
fn count_names(rt: &HostRuntime) -> io::Result<usize> {
    let mut count = 0usize;
    for entry in fs::read_dir(rt, "whole")? {
        let _entry = entry?;
        count = count.saturating_add(1);
    }
    Ok(count)
}

// Writes the image, and flushes it.
fn write_new_image<'a, R: Files>(rt: &HostRuntime, files: &'a R) -> io::Result<NewImage<'a, R>> {
    let mut image = NewImage::new(rt.alloc(), files, PATH)?;
    image.write_all(IMAGE)?;
    image.flush()?;
    Ok(image)
}

// Returns whether an image that isn't moved to its path leaves the old file there. Also checks that
// another run's temporary file stays, and that the image gets the old file's permissions.
fn are_old_images_and_names_kept(rt: &HostRuntime) -> io::Result<bool> {
    make_folder(rt, PathBeforeWrite::File)?;
    fs::set_permissions(rt, PATH, Permissions::from_mode(0o640))?;
    drop(write_new_image(rt, rt)?);
    if fs::read(rt, PATH)?.as_slice() != OLD || count_names(rt)? != 1 {
        return Ok(false);
    }
    fs::write(rt, "whole/.mklittlefs-0", b"another")?;
    write_new_image(rt, rt)?.place()?;
    let mode = fs::metadata(rt, PATH)?.permissions().mode() & 0o777;
    Ok(fs::read(rt, PATH)?.as_slice() == IMAGE && count_names(rt)? == 2 && mode == 0o640)
}

// Returns whether no file is created if nothing is written.
fn is_unwritten_image_absent(rt: &HostRuntime) -> io::Result<bool> {
    make_folder(rt, PathBeforeWrite::Nothing)?;
    let mut image = NewImage::new(rt.alloc(), rt, PATH)?;
    image.flush()?;
    image.place()?;
    Ok(count_names(rt)? == 0)
}

#[test]
fn images_are_whole_or_not_there(rt: HostRuntime) -> Result<(), Fail> {
    for (standing, room, refusal, is_made, bytes) in ROWS {
        make_folder(&rt, standing)?;
        let room = Cell::new(room);
        let files = LimitedFiles {
            files: &rt,
            room: &room,
            refusal,
        };
        let made = match write_new_image(&rt, &files) {
            Ok(image) => image.place(),
            Err(error) => Err(error),
        };
        assert_eq!(rt; made.is_ok(), is_made, "{standing:?} {refusal:?}");
        let found = fs::read(&rt, PATH).ok();
        assert!(rt;
            found.as_ref().map(|v| v.as_slice()) == bytes,
            "{standing:?} {refusal:?}"
        );
        assert_eq!(rt; count_names(&rt)?, usize::from(bytes.is_some()));
    }
    assert!(rt; are_old_images_and_names_kept(&rt)? && is_unwritten_image_absent(&rt)?);
    fs::remove_file(&rt, "whole_target")?;
    fs::remove_dir_all(&rt, "whole")?;
    Ok(())
}
