// What a handle in C points to.

use crate::directories::Directory;
use crate::noted::ImageDevice;
use lfs_volume::Volume;

/// A mounted image: its volume, and its open directories indexed by number.
#[derive(Drop)]
pub struct Mounted {
    pub volume: Volume<ImageDevice>,
    pub directories: Vec<Option<Directory>>,
}
