//! Disks over files of the system.
use super::calls::{Call, Tested, gone_through};
use crate::NodeFile;
use std::test::Fail;
use std::{env, fs, process};

/// The path of a file in a folder of a test's own, which is made anew.
fn place(rt: &HostRuntime, test: &str) -> Result<String, Fail> {
    let alloc = rt.alloc();
    let room = env::temp_dir(rt)?;
    let room = room.as_str();
    let id = process::id(rt.process());
    let folder = format!(in alloc; "{room}/mn_filedisk-{test}-{id}")?;
    let _ = fs::remove_dir_all(rt, folder.as_str());
    fs::create_dir(rt, folder.as_str())?;
    let folder = folder.as_str();
    Ok(format!(in alloc; "{folder}/node0.log")?)
}

/// A disk over the file at this path, to be written or to be read alone.
fn open<'a>(rt: &'a HostRuntime, path: &str, is_written: bool) -> Result<Tested<'a>, Fail> {
    let path = String::from_str(rt.alloc(), path)?;
    Ok(if is_written {
        NodeFile::to_write(rt, path)
    } else {
        NodeFile::to_read(rt, path)
    })
}

/// What a disk over the file is asked, which is opened for it alone, and how many calls fail.
type Visit = (bool, &'static [Call], u64);

/// The number of the first of these visits that goes otherwise, or that of all.
fn visited(rt: &HostRuntime, path: &str, visits: &[Visit]) -> Result<usize, Fail> {
    for (number, (is_written, calls, faults)) in visits.iter().enumerate() {
        let mut disk = open(rt, path, *is_written)?;
        if gone_through(&mut disk, calls) < calls.len() || disk.faults() != *faults {
            return Ok(number);
        }
    }
    Ok(visits.len())
}

const KEPT: &[Visit] = &[
    (
        true,
        &[
            Call::Length(Some(0)),
            Call::Read(0, Some(b"")),
            Call::Sync(true),
        ],
        0,
    ),
    (
        true,
        &[
            Call::Cut(0, true),
            Call::Write(0, b"abcdef", true),
            Call::Write(2, b"XY", true),
            Call::Sync(true),
        ],
        0,
    ),
    (
        true,
        &[
            Call::Read(1, Some(b"bXYef")),
            Call::Cut(3, true),
            Call::Sync(true),
        ],
        0,
    ),
    (
        false,
        &[
            Call::Length(Some(3)),
            Call::Sync(true),
            Call::Read(0, Some(b"abX")),
            Call::Read(3, Some(b"")),
            Call::Read(9, Some(b"")),
            Call::Write(0, b"Z", false),
        ],
        1,
    ),
    (true, &[Call::Read(0, Some(b"abX"))], 0),
];

#[test]
fn what_was_written_is_there_when_it_is_opened_again(rt: HostRuntime) -> Result<(), Fail> {
    let path = place(&rt, "again")?;
    assert!(rt; visited(&rt, path.as_str(), KEPT)? == KEPT.len());
    Ok(())
}

const MADE: &[Visit] = &[
    (
        false,
        &[
            Call::Length(Some(0)),
            Call::Read(0, Some(b"")),
            Call::Sync(true),
        ],
        0,
    ),
    (false, &[Call::Cut(0, false), Call::Sync(false)], 2),
    (
        true,
        &[Call::Write(0, b"abc", false), Call::Cut(0, false)],
        2,
    ),
    (true, &[Call::Length(Some(0)), Call::Sync(true)], 0),
];

const FIRST_CUT: &[Visit] = &[(true, &[Call::Cut(0, true), Call::Write(0, b"abc", true)], 0)];

#[test]
fn a_missing_file_is_made_by_the_first_cut(rt: HostRuntime) -> Result<(), Fail> {
    let path = place(&rt, "missing")?;
    let path = path.as_str();
    assert!(rt; visited(&rt, path, MADE)? == MADE.len());
    assert!(rt; !fs::exists(&rt, path)?);
    let mut late = open(&rt, path, true)?;
    let before = gone_through(&mut late, &[Call::Length(Some(0))]);
    assert!(rt; before == 1 && visited(&rt, path, FIRST_CUT)? == 1);
    // What another one made meanwhile is left alone.
    assert!(rt; gone_through(&mut late, &[Call::Length(Some(0)), Call::Cut(0, false)]) == 2);
    assert!(rt; fs::metadata(&rt, path)?.len() == 3);
    Ok(())
}

const LOCKED: &[Visit] = &[
    (true, &[Call::Length(None)], 1),
    (false, &[Call::Length(None)], 1),
];

const READ: &[Visit] = &[
    (false, &[Call::Length(Some(3))], 0),
    (true, &[Call::Length(None)], 1),
];

const FREE: &[Visit] = &[(true, &[Call::Length(Some(3))], 0)];

#[test]
fn a_file_has_one_writer_or_some_readers(rt: HostRuntime) -> Result<(), Fail> {
    let path = place(&rt, "locks")?;
    let path = path.as_str();
    let mut writer = open(&rt, path, true)?;
    assert!(rt; gone_through(&mut writer, &[Call::Cut(0, true)]) == 1);
    assert!(rt; visited(&rt, path, LOCKED)? == 2);
    assert!(rt; gone_through(&mut writer, &[Call::Write(0, b"abc", true)]) == 1);
    drop(writer);
    let mut reader = open(&rt, path, false)?;
    assert!(rt; gone_through(&mut reader, &[Call::Length(Some(3))]) == 1);
    assert!(rt; visited(&rt, path, READ)? == 2);
    drop(reader);
    assert!(rt; visited(&rt, path, FREE)? == 1);
    Ok(())
}

#[test]
fn what_is_no_file_is_not_opened(rt: HostRuntime) -> Result<(), Fail> {
    let path = place(&rt, "other")?;
    let path = path.as_str();
    fs::create_dir(&rt, path)?;
    let inside = format!(in rt.alloc(); "{path}/none/node0.log")?;
    for path in [path, inside.as_str(), "/dev/null"] {
        assert!(rt; visited(&rt, path, LOCKED)? == 2, "{path}");
    }
    assert!(rt; !fs::exists(&rt, inside.as_str())?);
    Ok(())
}
