// The example in docs/LIBRARY.md.

use bitflags::Flags;
use lfs_device::{Error, Geometry, RamDevice};
use lfs_volume::{OpenFlags, format};
use std::alloc::Global;
use std::test::Fail;

fn edit_twice(alloc: Global) -> Result<Vec<u8>, Error> {
    let device = RamDevice::blank(alloc, Geometry::new(4096, 256, 16)?)?;
    let mut volume = format(alloc, device).map_err(|(_, error)| error)?; // or mount(alloc, device)
    let both = OpenFlags::READ | OpenFlags::WRITE | OpenFlags::CREATE;
    let one = volume.open(alloc, b"/a", both)?;
    let other = volume.open(alloc, b"/a", both)?;
    volume.write(alloc, one, b"21.5 degrees")?;
    volume.rename(alloc, b"/a", b"/b")?; // the open file goes with its path
    let seen = volume.read(alloc, other, 100)?; // both handles see the same bytes
    volume.close(alloc, one)?; // stores them at /b
    Ok(seen)
}

#[test]
fn the_example_reads_what_it_wrote(rt: HostRuntime) -> Result<(), Fail> {
    let wanted = b"21.5 degrees";
    assert_eq!(rt; edit_twice(rt.alloc())?.as_slice(), wanted.as_slice());
    Ok(())
}
