use crate::{MemDisk, MemSink, MemSource, SureDisk};
use engine_base::{Disk, Fault, Sink, Source};
use std::test::Fail;

#[test]
fn a_source_fails_at_its_listed_calls(rt: HostRuntime) -> Result<(), Fail> {
    let bytes = b"abcde".to_vec(rt.alloc())?;
    let mut source = MemSource::new(bytes, [2, 4].to_vec(rt.alloc())?);
    let calls: [(Result<usize, Fault>, &[u8]); 6] = [
        (Ok(3), b"abc"),
        (Err(Fault::Device), b""),
        (Ok(2), b"de"),
        (Err(Fault::Device), b""),
        (Ok(0), b""),
        (Ok(0), b""),
    ];
    for (answer, bytes) in calls {
        let mut piece = [0; 3];
        assert_eq!(rt; source.read(&mut piece), answer);
        assert!(rt; bytes.len() <= 3);
        assert_eq!(rt; &piece[..bytes.len()], bytes);
    }
    Ok(())
}

#[test]
fn a_sink_fails_at_its_listed_calls_and_once_it_is_full(rt: HostRuntime) -> Result<(), Fail> {
    let mut sink = MemSink::new(rt.alloc(), 4, [2].to_vec(rt.alloc())?)?;
    let calls: [(&[u8], Result<usize, Fault>, &[u8]); 5] = [
        (b"ab", Ok(2), b"ab"),
        (b"cd", Err(Fault::Device), b"ab"),
        (b"cde", Ok(2), b"abcd"),
        (b"e", Err(Fault::Device), b"abcd"),
        (b"", Err(Fault::Device), b"abcd"),
    ];
    for (piece, answer, taken) in calls {
        assert_eq!(rt; sink.write(piece), answer);
        assert_eq!(rt; sink.bytes(), taken);
    }
    Ok(())
}

#[test]
fn a_sure_disk_fails_past_its_room_alone(rt: HostRuntime) -> Result<(), Fail> {
    let contents = b"abcd".to_vec(rt.alloc())?;
    let mut disk = SureDisk::new(rt.alloc(), contents, 8)?;
    let writes: [(u64, &[u8], Result<(), Fault>, &[u8]); 8] = [
        (1, b"XY", Ok(()), b"aXYd"),
        (3, b"ZWV", Ok(()), b"aXYZWV"),
        (7, b"!", Ok(()), b"aXYZWV\0!"),
        (7, b"??", Err(Fault::Device), b"aXYZWV\0!"),
        (8, b"?", Err(Fault::Device), b"aXYZWV\0!"),
        (u64::MAX, b"?", Err(Fault::Device), b"aXYZWV\0!"),
        (8, b"", Ok(()), b"aXYZWV\0!"),
        (0, b"01234567", Ok(()), b"01234567"),
    ];
    for (at, bytes, answer, contents) in writes {
        assert_eq!(rt; disk.write_at(at, bytes), answer, "at {at}");
        assert_eq!(rt; disk.contents(), contents, "at {at}");
    }
    assert_eq!(rt; disk.contents().len(), 8);
    let mut piece = [0; 3];
    disk.read_at(5, &mut piece).ok().ok_or("read")?;
    assert_eq!(rt; &piece[..], &b"567"[..]);
    Ok(())
}

fn size_behind<D: Disk + Drop>(mut disk: D, at: u64, bytes: &[u8]) -> Result<u64, Fault> {
    disk.write_at(at, bytes)?;
    disk.sync()?;
    disk.size()
}

#[test]
fn a_borrowed_disk_is_a_disk(rt: HostRuntime) -> Result<(), Fail> {
    let mut disk = SureDisk::new(rt.alloc(), Vec::new(rt.alloc()), 8)?;
    for (at, bytes, answer) in [
        (2, b"ab", Ok(4)),
        (0, b"cd", Ok(4)),
        (7, b"ef", Err(Fault::Device)),
    ] {
        assert_eq!(rt; size_behind(&mut disk, at, bytes), answer, "at {at}");
    }
    assert_eq!(rt; disk.contents(), &b"cdab"[..]);
    Ok(())
}

fn read_byte(disk: &mut MemDisk, at: u64) -> Result<(), Fault> {
    if at < disk.contents().len() as u64 {
        disk.read_at(at, &mut [0])?;
    }
    Ok(())
}

/// The image that each number picks, of one script of writes and syncs.
#[test]
fn a_crash_keeps_the_writes_that_it_is_told_to(rt: HostRuntime) -> Result<(), Fail> {
    let contents = b"0123".to_vec(rt.alloc())?;
    let mut disk = MemDisk::new(rt.alloc(), contents, 1024, Vec::new(rt.alloc()), None)?;
    for (at, bytes) in [(1, &b"abc"[..]), (6, b"defg"), (0, b"XYZ")] {
        assert_eq!(rt; disk.write_at(at, bytes), Ok(()));
        if at == 1 {
            assert_eq!(rt; disk.sync(), Ok(()));
        }
    }
    let images: [(u64, &[u8]); 5] = [
        (0, b"0abc\0\0\0\0\0\0"),
        (1, b"XYZc\0\0defg"),
        (2, b"0abc\0\0defg"),
        (3, b"Xabc\0\0defg"),
        (7, b"Xabc\0\0defg"),
    ];
    for (pick, bytes) in images {
        let image = disk.crash(rt.alloc(), pick)?;
        assert_eq!(rt; &image[..], bytes, "picks {pick}");
    }
    Ok(())
}

#[test]
fn a_disk_counts_its_reads_and_fails_where_it_is_told_to(rt: HostRuntime) -> Result<(), Fail> {
    let fails = [2].to_vec(rt.alloc())?;
    let contents = b"012345".to_vec(rt.alloc())?;
    let mut disk = MemDisk::new(rt.alloc(), contents, 1024, fails, Some(1))?;
    for (at, answer) in [(3, Ok(())), (0, Err(Fault::Device)), (5, Ok(()))] {
        assert_eq!(rt; read_byte(&mut disk, at), answer, "at {at}");
    }
    for (from, reads) in [(0, 2), (4, 1), (6, 0)] {
        assert_eq!(rt; disk.reads(from), reads, "from {from}");
    }
    assert_eq!(rt; disk.write_at(0, b"z"), Ok(()));
    assert_eq!(rt; disk.sync(), Err(Fault::Device));
    Ok(())
}
