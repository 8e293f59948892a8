//! Devices, and the files on them.

ghost use Rattle.std.specs.Prelude.{◌≡◌};
ghost use Rattle.krb_disk.specs.Looks.{device_number, is_inode, is_on_device, is_place_of};

use crate::looks::Found;

/// A device, by its major and minor numbers.
#[derive(Clone, Copy, Drop)]
pub struct Device {
    major: u64,
    minor: u64,
}

/// A file as the list of locks names it: its device and inode.
#[derive(Clone, Copy, Drop)]
pub struct Place {
    device: Device,
    inode: u64,
}

/// How the locks of a file may be listed where `stat` reports other numbers: by the device of its mount, as on btrfs, and
/// by another inode, as on an overlay. Each is none if it is unknown.
#[derive(Clone, Copy, Drop)]
pub struct Listed {
    pub mount: Option<Device>,
    pub inode: Option<u64>,
}

impl Listed {
    pub fn unknown() -> Listed
        ensures mount { result.mount ≡ None }
        ensures inode { result.inode ≡ None }
    {
        Listed {
            mount: None,
            inode: None,
        }
    }
}

/// A file by its device and inode, and how its locks may be listed.
#[derive(Clone, Copy, Drop)]
pub struct Mounted {
    device: Device,
    inode: u64,
    listed: Listed,
}

impl Device {
    /// Splits a device number as Linux encodes it: bits 8 to 19 and 44 to 63 are the major, the others the minor.
    pub fn of(number: u64) -> Device
        ensures { result ≡ device_number number }
    {
        Device {
            major: number / 0x100 % 0x1000 + number / 0x1000_0000_0000 * 0x1000,
            minor: number % 0x100 + number / 0x10_0000 % 0x100_0000 * 0x100,
        }
    }

    /// Parses a device such as `fe:00`, with decimal or hexadecimal numbers.
    pub fn parse(word: &str, is_decimal: bool) -> Option<Device> {
        let (major, minor) = word.split_once(':')?;
        let radix = if is_decimal { 10 } else { 16 };
        Some(Device {
            major: u64::from_str_radix(major, radix).ok()?,
            minor: u64::from_str_radix(minor, radix).ok()?,
        })
    }
}

impl Place {
    /// Parses a place such as `fe:00:131`: a device in hexadecimal, an inode in decimal.
    pub fn parse(word: &str) -> Option<Place> {
        let (device, inode) = word.rsplit_once(':')?;
        Some(Place {
            device: Device::parse(device, false)?,
            inode: inode.parse().ok()?,
        })
    }
}

impl Mounted {
    pub fn new(file: &Found, listed: Listed) -> Mounted
        ensures device { result.device ≡ device_number file.now.device }
        ensures inode { result.inode ≡ file.now.inode }
        ensures listed { result.listed ≡ listed }
    {
        Mounted {
            device: Device::of(file.device),
            inode: file.inode,
            listed,
        }
    }

    fn is_on(&self, device: Device) -> bool
        ensures { result ≡ is_on_device self.now.device self.now.listed.mount device }
    {
        let is_own = device.major == self.device.major && device.minor == self.device.minor;
        match self.listed.mount {
            Some(mount) => is_own || device.major == mount.major && device.minor == mount.minor,
            None => is_own || device.major == 0 && self.device.major == 0,
        }
    }

    fn has_inode(&self, inode: u64) -> bool
        ensures { result ≡ is_inode self.now.inode self.now.listed.inode inode }
    {
        match self.listed.inode {
            Some(listed) => inode == self.inode || inode == listed,
            None => inode == self.inode,
        }
    }

    /// Returns whether that is, or may be, the file's place in the list of locks. A file system without a disk of its
    /// own may have one device in the lists of locks and mounts, and another in `stat`. Both have major 0; if the
    /// mount is unknown, all such devices count as one.
    pub fn is_at(&self, place: Place) -> bool
        ensures { result ≡ is_place_of self.now place }
    {
        self.has_inode(place.inode) && self.is_on(place.device)
    }
}
