// A file that is read and written at places, and synced.
ghost use Rattle.std.specs.Prelude.{None};
ghost use Rattle.engine_base.specs.Disk.{without_images};
ghost use Rattle.engine_base.specs.Untold.{untold};

use engine_base::{Disk, Fault};
use std::fs::{File, OpenFile, OpenOptions};
use std::os::unix::fs::FileExt;
use std::rt::Files;

/// A file as a disk. It is opened at its first use.
#[derive(Drop)]
pub struct FileDisk<'a> {
    rt: &'a HostRuntime,
    path: String,
    file: Option<File>,
    failed: u64,
}

impl<'a> FileDisk<'a> {
    /// The file of that path. It is made at the first use where it is absent.
    pub fn new(rt: &'a HostRuntime, path: String) -> FileDisk<'a> {
        FileDisk {
            rt,
            path,
            file: None,
            failed: 0,
        }
    }
}

// The file, which is made where it is absent.
fn opened<'f>(
    rt: &HostRuntime,
    path: &str,
    file: &'f mut Option<File>,
) -> Result<&'f File, std::io::Error> {
    if file.is_none() {
        let made = OpenOptions::new()
            .read(true)
            .write(true)
            .create(true)
            .open(rt, path)?;
        *file = Some(made);
    }
    match file {
        Some(file) => Ok(file),
        None => Err(std::io::Error::from(std::io::ErrorKind::NotFound)),
    }
}

fn size_of(rt: &HostRuntime, path: &str, file: &mut Option<File>) -> std::io::Result<u64> {
    Ok(opened(rt, path, file)?.metadata()?.len())
}

fn read_at(
    rt: &HostRuntime,
    path: &str,
    file: &mut Option<File>,
    at: u64,
    into: &mut [u8],
) -> std::io::Result<()> {
    opened(rt, path, file)?.read_exact_at(into, at)
}

fn write_at(
    rt: &HostRuntime,
    path: &str,
    file: &mut Option<File>,
    at: u64,
    bytes: &[u8],
) -> std::io::Result<()> {
    opened(rt, path, file)?.write_all_at(bytes, at)
}

fn sync(rt: &HostRuntime, path: &str, file: &mut Option<File>) -> std::io::Result<()> {
    opened(rt, path, file)?.sync_data()
}

// A file tells neither its bytes nor what a crash leaves.
impl<'a> Disk for FileDisk<'a> {
    ghost state = { λ d. without_images None d.failed };

    ghost seen_may_stay = { λ d file tells is. untold tells };

    ghost counts_now = { λ d t c reached leaves. leaves };

    ghost only_now = { λ d c left. left };

    fn size(&mut self) -> Result<u64, Fault> {
        match size_of(self.rt, self.path.as_str(), &mut self.file) {
            Ok(size) => Ok(size),
            Err(_) => {
                self.failed = self.failed.saturating_add(1);
                Err(Fault::Device)
            }
        }
    }

    fn read_at(&mut self, at: u64, into: &mut [u8]) -> Result<(), Fault> {
        match read_at(self.rt, self.path.as_str(), &mut self.file, at, into) {
            Ok(()) => Ok(()),
            Err(_) => {
                self.failed = self.failed.saturating_add(1);
                Err(Fault::Device)
            }
        }
    }

    fn write_at(&mut self, at: u64, bytes: &[u8]) -> Result<(), Fault> {
        match write_at(self.rt, self.path.as_str(), &mut self.file, at, bytes) {
            Ok(()) => Ok(()),
            Err(_) => {
                self.failed = self.failed.saturating_add(1);
                Err(Fault::Device)
            }
        }
    }

    fn sync(&mut self) -> Result<(), Fault> {
        match sync(self.rt, self.path.as_str(), &mut self.file) {
            Ok(()) => Ok(()),
            Err(_) => {
                self.failed = self.failed.saturating_add(1);
                Err(Fault::Device)
            }
        }
    }
}

#[cfg(test)]
mod tests {
    use super::*;
    use std::test::Fail;

    #[test]
    fn a_file_keeps_what_was_written(rt: HostRuntime) -> Result<(), Fail> {
        let path = String::from_str(rt.alloc(), "file_disk_test.lob")?;
        let mut disk = FileDisk::new(&rt, path);
        let mut bytes = [0u8; 3];
        assert_eq!(rt; disk.write_at(4, b"abc"), Ok(()));
        assert_eq!(rt; disk.sync(), Ok(()));
        assert_eq!(rt; disk.size(), Ok(7));
        assert_eq!(rt; disk.read_at(4, &mut bytes), Ok(()));
        assert_eq!(rt; bytes.as_slice(), b"abc".as_slice());
        assert_eq!(rt; disk.read_at(5, &mut bytes), Err(Fault::Device));
        std::fs::remove_file(&rt, "file_disk_test.lob")?;
        Ok(())
    }
}
