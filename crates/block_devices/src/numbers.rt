// The numbers of block devices, and their folders of sysfs.

use std::alloc::Global;
use std::io;

/// The numbers of a block device.
#[derive(Clone, Copy, PartialEq, Eq)]
pub(crate) struct Numbers {
    major: u64,
    minor: u64,
}

impl Numbers {
    /// Returns the major and the minor number that `rdev` encodes (makedev(3)).
    pub(crate) fn new(rdev: u64) -> Numbers {
        Numbers {
            major: (rdev >> 8 & 0xfff) | (rdev >> 32 & 0xffff_f000),
            minor: (rdev & 0xff) | (rdev >> 12 & 0xffff_ff00),
        }
    }

    /// Returns the numbers that a text such as `8:1` encodes, in the system's format.
    pub(crate) fn parse(text: &str) -> Option<Numbers> {
        let (major, minor) = text.split_once(':')?;
        Some(Numbers {
            major: major.parse().ok()?,
            minor: minor.parse().ok()?,
        })
    }

    /// Returns the path of the device's folder of sysfs.
    pub(crate) fn folder(self, alloc: Global) -> io::Result<String> {
        Ok(format!(in alloc; "/sys/dev/block/{}:{}", self.major, self.minor)?)
    }
}
