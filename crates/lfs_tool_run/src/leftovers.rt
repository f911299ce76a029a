// Temporary files that interrupted runs left beside an image.

use lfs_tool::NewImage;
use std::fs::File;
use std::io::Write;
use std::path::Path;
use std::{fs, io};

// The prefix of the name of a temporary file.
const START: &str = ".mklittlefs-";

/// Creates the file of a new image, and locks it until it is closed. Other runs don't remove a
/// temporary file that is locked.
pub(crate) fn create_locked_image(image: &mut NewImage<'_, HostRuntime>) -> io::Result<()> {
    if image.file().is_none() {
        let _none = image.write(&[])?;
        if let Some(file) = image.file() {
            // Without locks in the system, no run removes a temporary file.
            let _ = file.try_lock();
        }
    }
    Ok(())
}

// Removes a file, unless another run has locked it. An empty file stays, since the run that created
// it may not have locked it yet.
fn remove_leftover(rt: &HostRuntime, path: Path<'_>) -> io::Result<()> {
    if fs::symlink_metadata(rt, path)?.is_file() {
        let file = File::open(rt, path)?;
        if file.metadata()?.len() > 0 && file.try_lock().is_ok() {
            fs::remove_file(rt, path)?;
        }
    }
    Ok(())
}

fn remove_leftovers_in_folder(rt: &HostRuntime, folder: Path<'_>) -> io::Result<()> {
    for entry in fs::read_dir(rt, folder)? {
        let entry = entry?;
        if entry.file_name().starts_with(START) {
            let _ = remove_leftover(rt, entry.path());
        }
    }
    Ok(())
}

/// Removes the temporary files that other runs left beside an image. A file that can't be removed
/// stays.
pub(crate) fn remove_leftovers(rt: &HostRuntime, image: &str) {
    let folder = match Path::new(image).parent() {
        Some(folder) if !folder.as_str().is_empty() => folder,
        _ => Path::new("."),
    };
    let _ = remove_leftovers_in_folder(rt, folder);
}
