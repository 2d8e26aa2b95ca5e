//! Inputs that are read whole, and why one is not.
use base_device::{
    Counting, FileSource, InputError, Inputs, OpenError, Status, read_input, tell_unread,
};
use std::alloc::Global;
use std::test::Fail;

#[test]
fn standard_input_is_read_whole_behind_files_that_are_none(rt: HostRuntime) -> Result<(), Fail> {
    let alloc = rt.alloc();
    let mut source = Counting::new(Inputs::new(&rt, b"Start\nStop\n".as_slice()));
    let missing = read_input(alloc, Some("no/such.tbl"), &mut source);
    assert!(rt; missing.err() == Some(InputError::NotOpened(OpenError::Failed)));
    let folder = read_input(alloc, Some("."), &mut source);
    assert!(rt; folder.err() == Some(InputError::NotOpened(OpenError::Directory)));
    assert!(rt; source.reads == 0 && source.failures == 2);
    source.standard();
    let text = read_input(alloc, None, &mut source).map_err(|_| "unread")?;
    assert!(rt; text.as_slice() == b"Start\nStop\n".as_slice());
    assert!(rt; source.reads == 2 && source.failures == 2);
    Ok(())
}

/// What is told of an input that was not read, and the status.
fn told(alloc: Global, name: Option<&str>, why: InputError, wanted: &str) -> Option<Status> {
    let mut sink = Counting::new(Vec::new(alloc));
    let status = tell_unread(alloc, name, why, &mut sink);
    if sink.device.as_slice() == wanted.as_bytes() {
        Some(status)
    } else {
        None
    }
}

#[test]
fn each_fault_of_an_input_is_told(rt: HostRuntime) {
    let alloc = rt.alloc();
    let endless = "read fault: no end of input after 1048576 reads\n";
    let missing = "read fault: a.tbl can't be opened\n";
    assert!(rt; told(alloc, None, InputError::NoEnd, endless) == Some(Status::Fault));
    assert!(rt; told(alloc, None, InputError::Failed, "read fault\n") == Some(Status::Fault));
    assert!(rt;
        told(
            alloc,
            Some("a.tbl"),
            InputError::NotOpened(OpenError::Failed),
            missing
        ) == Some(Status::Fault)
    );
    assert!(rt;
        told(
            alloc,
            Some("a"),
            InputError::NotOpened(OpenError::Directory),
            "read fault: a is a directory\n"
        ) == Some(Status::Fault)
    );
    assert!(rt;
        told(
            alloc,
            Some("a"),
            InputError::Failed,
            "read fault: a can't be read\n"
        ) == Some(Status::Fault)
    );
    assert!(rt; told(alloc, None, InputError::NoMemory, "no memory\n") == Some(Status::NoMemory));
}
