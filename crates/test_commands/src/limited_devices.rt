//! Dumps and new images in files of a device that is soon full, that cannot rename, that sets no permissions, or that
//! lets no file at the path be written. The file at the path stays as it was, and no other file is left.
use command_io::{CommandRefusal, Files, Made, Output, RuntimeFiles, write_to};
use comp_dump::{DumpFault, read_dump};
use heap_layout::{Counted, LayoutFault, read_image};
use std::alloc::Allocator;
use std::fs::{self, Metadata, OpenFile, OpenOptions, Permissions};
use std::io::{Error, ErrorKind, Read, Result as IoResult, Seek, SeekFrom, Write};
use std::process::Abort;
use std::rt;

// A device whose files each have room for a number of bytes, and which may be unable to rename files, to set
// permissions, or to open the file at the path for writing, whoever asks.
#[derive(Drop)]
struct Device<'a, R> {
    rt: &'a R,
    room: usize,
    renames: bool,
    permits: bool,
    opens: bool,
}

// A file that has room for a number of bytes, and may refuse permissions.
#[derive(Drop)]
struct SmallFile<F: Read + Write + Seek + OpenFile + Drop> {
    file: F,
    room: usize,
    permits: bool,
}

impl<F: Read + Write + Seek + OpenFile + Drop> Read for SmallFile<F> {
    fn read(&mut self, buf: &mut [u8]) -> IoResult<usize> {
        self.file.read(buf)
    }
}

impl<F: Read + Write + Seek + OpenFile + Drop> Write for SmallFile<F> {
    fn write(&mut self, buf: &[u8]) -> IoResult<usize> {
        let (taken, _) = buf.split_at(buf.len().min(self.room));
        if taken.is_empty() {
            return Err(Error::from(ErrorKind::StorageFull));
        }
        let n = self.file.write(taken)?;
        self.room = self.room.saturating_sub(n);
        Ok(n)
    }

    fn flush(&mut self) -> IoResult<()> {
        self.file.flush()
    }
}

impl<F: Read + Write + Seek + OpenFile + Drop> Seek for SmallFile<F> {
    fn seek(&mut self, to: SeekFrom) -> IoResult<u64> {
        self.file.seek(to)
    }
}

impl<F: Read + Write + Seek + OpenFile + Drop> OpenFile for SmallFile<F> {
    fn metadata(&self) -> IoResult<Metadata> {
        self.file.metadata()
    }

    fn set_len(&self, size: u64) -> IoResult<()> {
        self.file.set_len(size)
    }

    fn sync_all(&self) -> IoResult<()> {
        self.file.sync_all()
    }

    fn sync_data(&self) -> IoResult<()> {
        self.file.sync_data()
    }

    fn set_permissions(&self, perm: Permissions) -> IoResult<()> {
        if self.permits {
            return self.file.set_permissions(perm);
        }
        Err(Error::from(ErrorKind::PermissionDenied))
    }
}

impl<R: rt::Files> rt::Files for Device<'_, R> {
    type File = SmallFile<R::File>;

    type Dir = R::Dir;

    fn open_file(&self, how: &OpenOptions, path: &str) -> IoResult<SmallFile<R::File>> {
        if !self.opens && path == PATH {
            return Err(Error::from(ErrorKind::PermissionDenied));
        }
        let file = self.rt.open_file(how, path)?;
        Ok(SmallFile {
            file,
            room: self.room,
            permits: self.permits,
        })
    }

    fn open_dir(&self, path: &str) -> IoResult<R::Dir> {
        self.rt.open_dir(path)
    }

    fn metadata(&self, path: &str) -> IoResult<Metadata> {
        self.rt.metadata(path)
    }

    fn symlink_metadata(&self, path: &str) -> IoResult<Metadata> {
        self.rt.symlink_metadata(path)
    }

    fn copy(&self, from: &str, to: &str) -> IoResult<u64> {
        self.rt.copy(from, to)
    }

    fn rename(&self, from: &str, to: &str) -> IoResult<()> {
        if self.renames {
            return self.rt.rename(from, to);
        }
        Err(Error::from(ErrorKind::PermissionDenied))
    }

    fn remove_file(&self, path: &str) -> IoResult<()> {
        self.rt.remove_file(path)
    }

    fn create_dir(&self, path: &str) -> IoResult<()> {
        self.rt.create_dir(path)
    }

    fn remove_dir(&self, path: &str) -> IoResult<()> {
        self.rt.remove_dir(path)
    }

    fn remove_dir_all<B: Allocator>(&self, alloc: B, path: &str) -> IoResult<()> {
        self.rt.remove_dir_all(alloc, path)
    }
}

// The file that is written, and the file beside it.
const PATH: &str = "filling.tests.out";

const PART: &str = ".compressor-0.part";

// What a device lets be done with its files, and the expected result of a file.
struct DeviceLimits {
    // The number of bytes of the file that find no room.
    lacks: usize,
    renames: bool,
    permits: bool,
    opens: bool,
    // Whether the file is written whole if there was none at the path, and if there was one.
    whole: (bool, bool),
}

static LIMITS: [DeviceLimits; 6] = [
    DeviceLimits {
        lacks: usize::MAX,
        renames: true,
        permits: true,
        opens: true,
        whole: (false, false),
    },
    DeviceLimits {
        lacks: 1,
        renames: true,
        permits: true,
        opens: true,
        whole: (false, false),
    },
    DeviceLimits {
        lacks: 0,
        renames: false,
        permits: true,
        opens: true,
        whole: (false, false),
    },
    DeviceLimits {
        lacks: 0,
        renames: true,
        permits: false,
        opens: true,
        whole: (true, false),
    },
    DeviceLimits {
        lacks: 0,
        renames: true,
        permits: true,
        opens: false,
        whole: (true, false),
    },
    DeviceLimits {
        lacks: 0,
        renames: true,
        permits: true,
        opens: true,
        whole: (true, true),
    },
];

// The bytes at the path, or `None` if there is no file.
fn bytes_at<R: rt::Files + AllocGlobal>(rt: &R, path: &str) -> Option<Vec<u8>> {
    fs::read(rt, path).ok()
}

// The bytes of a file that is made.
#[derive(Drop)]
struct WholeFile<'a> {
    bytes: &'a [u8],
    // The answers if it is created, but not written whole, and if it cannot be created.
    cut: CommandRefusal,
    uncreated: CommandRefusal,
}

// Makes a file on a device. Checks that the path has all of its bytes, or what it had before, and that no file is left
// beside it.
fn expect_file<R: Abort + rt::Files + AllocGlobal>(
    rt: &R,
    made: &Made<'_>,
    file: &WholeFile<'_>,
    limits: &DeviceLimits,
    before: Option<&[u8]>,
) {
    if let Some(before) = before {
        fs::write(rt, PATH, before).ok().expect(rt, "a file before");
    }
    let device = (
        Device {
            rt,
            room: file.bytes.len().saturating_sub(limits.lacks),
            renames: limits.renames,
            permits: limits.permits,
            opens: limits.opens,
        },
        rt.alloc(),
    );
    let found = write_to(&mut RuntimeFiles::new(&device), PATH, made);
    let whole = match before {
        None => limits.whole.0,
        Some(_) => limits.whole.1,
    };
    let created = (limits.permits && limits.opens) || before.is_none();
    let wanted = match (whole, created) {
        (true, _) => Ok(()),
        (false, true) => Err(file.cut),
        (false, false) => Err(file.uncreated),
    };
    let left = bytes_at(rt, PATH);
    let is_left = match (&left, whole) {
        (Some(left), true) => left.as_slice() == file.bytes,
        (Some(left), false) => Some(left.as_slice()) == before,
        (None, whole) => !whole && before.is_none(),
    };
    let clean = bytes_at(rt, PART).is_none();
    assert!(rt;
        found == wanted && is_left && clean,
        "lacks {}",
        limits.lacks
    );
    if left.is_some() {
        fs::remove_file(rt, PATH)
            .ok()
            .expect(rt, "a file to remove");
    }
}

// Makes a file on each of the devices, over a file and without one.
fn expect_files<R: Abort + rt::Files + AllocGlobal>(rt: &R, made: &Made<'_>, file: &WholeFile<'_>) {
    for limits in &LIMITS {
        expect_file(rt, made, file, limits, None);
        expect_file(rt, made, file, limits, Some(b"what was there before"));
    }
}

// A file that was flushed is not at its path before it is put there.
fn expect_given_up<R: Abort + rt::Files + AllocGlobal>(rt: &R) {
    let device = (
        Device {
            rt,
            room: usize::MAX,
            renames: false,
            permits: true,
            opens: true,
        },
        rt.alloc(),
    );
    let mut files = RuntimeFiles::new(&device);
    let mut file = files.create(Output::Dump, PATH).expect(rt, "a file");
    assert!(rt; file.write(b"whole").is_ok(), "a write");
    assert!(rt; file.flush().is_ok(), "a flush");
    assert!(rt; bytes_at(rt, PATH).is_none(), "a file at the path");
    drop(file);
    let _ = fs::remove_file(rt, PART);
}

/// Writes a dump and an image of these bytes to each of the devices.
pub fn expect_filled<R: Abort + rt::Files + AllocGlobal>(rt: &R, dump: &[u8], image: &[u8]) {
    // An earlier run of this test that was killed may have left its files.
    let _ = fs::remove_file(rt, PART);
    let _ = fs::remove_file(rt, PATH);
    let left = read_dump(rt.alloc(), &mut Counted::new(dump)).expect(rt, "a dump");
    let heap = read_image(rt.alloc(), &mut Counted::new(image)).expect(rt, "a heap");
    let whole_dump = WholeFile {
        bytes: dump,
        cut: CommandRefusal::Dump(DumpFault::Device),
        uncreated: CommandRefusal::CannotCreate(Output::Dump),
    };
    let whole_image = WholeFile {
        bytes: image,
        cut: CommandRefusal::Layout(LayoutFault::Device),
        uncreated: CommandRefusal::CannotCreate(Output::New),
    };
    expect_files(rt, &Made::Dump(&left), &whole_dump);
    expect_files(rt, &Made::Image(&heap), &whole_image);
    expect_given_up(rt);
}
