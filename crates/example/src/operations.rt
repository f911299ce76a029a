// A list of operations that `run` performs.

use lfs_device::{Error, Geometry, RamDevice};
use lfs_fs::{Op, OpenFlags, Reply, format};
use std::alloc::Global;
use std::io;

// Performs operations on a new file system, and returns their replies. One of the replies is a
// refusal.
fn replies_to_example_operations(alloc: Global) -> Result<Vec<Reply>, Error> {
    let device = RamDevice::blank(alloc, Geometry::new(1024, 128, 8)?)?;
    let mut session = format(alloc, device).map_err(|(_, error)| error)?;
    let operations = [
        Op::Mkdir(b"/log"),
        Op::Open(b"/log/today", OpenFlags::WRITE.union(OpenFlags::CREATE)),
        Op::Write(0, b"21.5 degrees"),
        Op::Close(0),
        Op::Stat(b"/log/today"),
        Op::Mkdir(b"/log"),
    ];
    session.run(alloc, &operations)
}

fn show_reply(rt: &HostRuntime, reply: &Reply) -> io::Result<()> {
    match reply {
        Reply::Done => println!(rt; "done"),
        Reply::Fd(file) => println!(rt; "file {file}"),
        Reply::Count(count) => println!(rt; "count {count}"),
        Reply::Stat(stat) => println!(rt; "size {}", stat.size),
        Reply::Refused(error) => println!(rt; "refused {error:?}"),
        _ => println!(rt; "another reply"),
    }
}

/// Prints the reply to each example operation on a line of its own.
pub fn print_example_replies(rt: &HostRuntime) -> io::Result<()> {
    match replies_to_example_operations(rt.alloc()) {
        Ok(replies) => {
            for reply in &replies {
                show_reply(rt, reply)?;
            }
            Ok(())
        }
        Err(error) => println!(rt; "error {error:?}"),
    }
}
