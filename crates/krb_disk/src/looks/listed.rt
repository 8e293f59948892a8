//! How the system lists the locks of an open file.

use crate::fault::DiskFault;
use crate::looks::Looks;
use crate::looks::device::{Device, Listed};
use crate::looks::text::{read_text, value_of};
use crate::open_file::System;
use std::{rt, str};

/// Where the system reports the mount and the inode of an open file, by its descriptor, in lines such as `mnt_id: 25`
/// and `ino: 131`.
const OPEN_FILES: &str = "/proc/self/fdinfo/";

/// The system's list of mounts, one a line. A line begins with the number of the mount, that of its parent and its
/// device, such as `25 1 0:38 / /tmp`.
const MOUNTS: &str = "/proc/self/mountinfo";

// Returns the device in a line of the list, if the line is that of the mount.
fn device_of(line: &[u8], mount: &str) -> Option<Device> {
    let mut words = str::from_utf8(line).ok()?.split_ascii_whitespace();
    if words.next()? != mount {
        return None;
    }
    let _above = words.next()?;
    Device::parse(words.next()?, true)
}

fn find_device(list: &[u8], mount: &str) -> Option<Device> {
    list.split(|byte| *byte == b'\n')
        .find_map(|line| device_of(line, mount))
}

// Returns the device of the mount that the text of an open file names, if the system reports it.
fn mount_device<R: System>(looks: &Looks<'_, R>, file: &[u8]) -> Result<Option<Device>, DiskFault> {
    let Some(mount) = value_of(file, "mnt_id:") else {
        return Ok(None);
    };
    let mounts = read_text(looks, MOUNTS)?;
    Ok(mounts.and_then(|list| find_device(&list, mount)))
}

fn inode_of(file: &[u8]) -> Option<u64> {
    value_of(file, "ino:")?.parse().ok()
}

/// Returns how the locks of the open file with that descriptor may be listed, as far as the system reports it.
pub fn find_listed<R: System>(looks: &Looks<'_, R>, number: i32) -> Result<Listed, DiskFault> {
    let path = format!(in looks.alloc(); "{OPEN_FILES}{number}")?;
    match read_text(looks, &path)? {
        Some(file) => Ok(Listed {
            mount: mount_device(looks, &file)?,
            inode: inode_of(&file),
        }),
        None => Ok(Listed::unknown()),
    }
}
