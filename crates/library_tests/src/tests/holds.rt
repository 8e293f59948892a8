//! A hold on a file of the disk.

use krb_disk::DiskFiles;
use krb_files::{Cause, Files};
use std::fs;

/// What is to replace the files `one` and `other`. It is there while that name is held.
const NEW_ONE: &str = "one.krbfile";

const NEW_OTHER: &str = "other.krbfile";

/// A held name is released if another one is held, or is to be saved.
#[test]
fn a_name_that_is_left(rt: HostRuntime) {
    let mut files = DiskFiles::new(&rt);
    files.hold("one");
    assert!(rt; fs::symlink_metadata(&rt, NEW_ONE).is_ok());
    files.hold("other");
    assert!(rt; fs::symlink_metadata(&rt, NEW_ONE).is_err());
    assert!(rt; fs::symlink_metadata(&rt, NEW_OTHER).is_ok());
    assert!(rt; files.save("none/k", b"").is_err());
    assert!(rt; files.cause() == Some(Cause::NoDirectory));
    assert!(rt; fs::symlink_metadata(&rt, NEW_OTHER).is_err());
}
