//! The statuses of the program, by its words, its source and its sink.
use crate::disks::one_disk;
use crate::program::{
    COMMANDS, Given, Row, first_wrong, fresh_disks, play, run, sink_of, words_of,
};
use mn_top::{tell_no_memory, wanted};
use std::alloc::Global;
use std::sync::Wait;
use std::test::Fail;
use std::thread::Threads;

const REPLAY: &[&str] = &["replay", "1"];

const RUN: &[&str] = &["run", "1"];

const GET: &str = "nodes 1\nclient a\nget main k\n";

/// Words, how many disks there are, the calls of the source and of the sink that fail, and the
/// status and the text with which the program ends.
type End = (
    &'static [&'static str],
    usize,
    &'static [u64],
    &'static [u64],
    u8,
    &'static str,
);

const WRONG_WORDS: &[End] = &[
    (&[], 1, &[], &[], 1, "usage\n"),
    (&["replay"], 1, &[], &[], 1, "usage\n"),
    (&["replay", "0"], 1, &[], &[], 1, "usage\n"),
    (&["replay", "9"], 1, &[], &[], 1, "usage\n"),
    (&["replay", "01"], 1, &[], &[], 1, "usage\n"),
    (&["replay", "1", ""], 1, &[], &[], 1, "usage\n"),
    (&["replay", "1", "-d"], 1, &[], &[], 1, "usage\n"),
    (&["replay", "1", "d", "d"], 1, &[], &[], 1, "usage\n"),
    (&["run"], 1, &[], &[], 1, "usage\n"),
    (&["run", "0"], 1, &[], &[], 1, "usage\n"),
    (&["run", "1", "d", "d"], 1, &[], &[], 1, "usage\n"),
    (&["gen", "1"], 1, &[], &[], 1, "usage\n"),
    (&["gen", "1", "07"], 1, &[], &[], 1, "usage\n"),
    (&["gen", "1", "+7"], 1, &[], &[], 1, "usage\n"),
    (
        &["gen", "1", "18446744073709551616"],
        1,
        &[],
        &[],
        1,
        "usage\n",
    ),
    (&["check", "1"], 1, &[], &[], 1, "usage\n"),
    (&["check", "0", "d"], 1, &[], &[], 1, "usage\n"),
    (&["check", "1", "7", "d"], 1, &[], &[], 1, "usage\n"),
    (&["--help"], 1, &[], &[], 1, "usage\n"),
];

const OTHER_ENDS: &[End] = &[
    (&["replay", "1", "d"], 1, &[0], &[], 3, "read fault\n"),
    (&["replay", "2", "d"], 1, &[], &[], 8, "disks 1 2\n"),
    (&["run", "1", "d"], 1, &[0], &[], 3, "read fault\n"),
    (&["run", "2", "d"], 2, &[], &[], 8, "disks 2 1\n"),
    (&["gen", "2", "0"], 1, &[], &[], 8, "disks 1 2\n"),
    (&["gen", "1", "0", "d"], 2, &[], &[], 8, "disks 2 1\n"),
    (&["check", "2", "d"], 1, &[], &[], 8, "disks 1 2\n"),
    (&["check", "1", "d"], 0, &[], &[], 8, "disks 0 1\n"),
    (&["check", "1", "d"], 1, &[0], &[0], 4, ""),
    (&["replay", "2"], 1, &[], &[], 8, "disks 1 2\n"),
    (REPLAY, 0, &[], &[], 8, "disks 0 1\n"),
    (&["replay", "2"], 2, &[], &[], 8, "disks 2 1\n"),
    (&["run", "2"], 1, &[], &[], 8, "disks 1 2\n"),
    (RUN, 0, &[], &[], 8, "disks 0 1\n"),
    (&["run", "2"], 2, &[], &[], 8, "disks 2 1\n"),
    (REPLAY, 1, &[0], &[], 3, "read fault\n"),
    (REPLAY, 1, &[1], &[], 3, "read fault\n"),
    (RUN, 1, &[0], &[], 3, "read fault\n"),
    (RUN, 1, &[1], &[], 3, "read fault\n"),
    (REPLAY, 1, &[], &[0], 4, ""),
    (RUN, 1, &[], &[0], 4, ""),
    (&[], 1, &[], &[0], 4, ""),
];

const SUMMARY: &str = "clients 10\noperations 3267\nsum 6400 6400\ndoubts 0\nend\n";

/// Made scripts. Their source would fail if it were called.
const MADE: &[End] = &[
    (&["gen", "4", "7"], 4, &[0], &[], 0, SUMMARY),
    (
        &["gen", "1", "18446744073709551615"],
        1,
        &[0],
        &[],
        0,
        SUMMARY,
    ),
];

/// Whether the words want disks exactly where they are no usage.
fn are_told(alloc: Global, words: &[&str], status: u8) -> Result<bool, Fail> {
    let is_wanted = wanted(&words_of(alloc, words)?).is_some();
    Ok(is_wanted == (status != 1 && words.len() > 1))
}

/// Whether the program ends so on a script of one get.
fn ends_so<T: Threads + Wait + Sync + AllocGlobal>(rt: &T, end: &End) -> Result<bool, Fail> {
    let (words, disks, source_fails, sink_fails, status, written) = end;
    let given = Given {
        script: GET,
        source_fails,
        sink_fails,
    };
    let ran = run(rt, words, &given, fresh_disks(rt.alloc(), *disks)?)?;
    Ok(ran.ended(*status, written) && ran.outcome.disks.len() == *disks)
}

/// The first of the rows that does not end so.
fn first_other<T: Threads + Wait + Sync + AllocGlobal>(
    rt: &T,
    ends: &[End],
) -> Result<Option<usize>, Fail> {
    for (place, end) in ends.iter().enumerate() {
        if !ends_so(rt, end)? || !are_told(rt.alloc(), end.0, end.4)? {
            return Ok(Some(place));
        }
    }
    Ok(None)
}

#[test]
fn wrong_words_are_told_in_a_line(rt: HostRuntime) -> Result<(), Fail> {
    let wrong = first_other(&rt, WRONG_WORDS)?;
    assert!(rt; wrong == None, "the row {wrong:?}");
    Ok(())
}

#[test]
fn faults_and_wrong_disks_are_told_in_a_line(rt: HostRuntime) -> Result<(), Fail> {
    let wrong = first_other(&rt, OTHER_ENDS)?;
    assert!(rt; wrong == None, "the row {wrong:?}");
    Ok(())
}

#[test]
fn made_scripts_keep_the_sum_of_each_version(rt: HostRuntime) -> Result<(), Fail> {
    let wrong = first_other(&rt, MADE)?;
    assert!(rt; wrong == None, "the row {wrong:?}");
    Ok(())
}

/// Whether want of memory is told so to a sink of which these calls fail.
fn is_told_so(alloc: Global, sink_fails: &[u64], status: u8, written: &[u8]) -> Result<bool, Fail> {
    let mut sink = sink_of(alloc, sink_fails)?;
    let told = tell_no_memory(&mut sink);
    Ok(told == status && sink.written() == written)
}

#[test]
fn want_of_memory_is_told_before_a_call(rt: HostRuntime) -> Result<(), Fail> {
    assert!(rt; is_told_so(rt.alloc(), &[], 7, b"no memory\n")?);
    assert!(rt; is_told_so(rt.alloc(), &[0], 4, b"")?);
    Ok(())
}

const NO_SCRIPTS: &[Row] = &[
    Row {
        nodes: 1,
        script: "",
        status: 2,
        written: "refused 1 1\n",
    },
    Row {
        nodes: 1,
        script: "nodes 1\nclient a\nput main k\n",
        status: 2,
        written: "refused 3 11\n",
    },
    Row {
        nodes: 1,
        script: "nodes 1\nclient a\ntx main get k ; del\n",
        status: 2,
        written: "refused 3 20\n",
    },
    Row {
        nodes: 1,
        script: "nodes 2\n",
        status: 8,
        written: "disks 1 2\n",
    },
];

#[test]
fn scripts_that_are_none_are_told(rt: HostRuntime) -> Result<(), Fail> {
    for command in COMMANDS {
        let wrong = first_wrong(&rt, command, NO_SCRIPTS)?;
        assert!(rt; wrong == None, "the row {wrong:?} of {command}");
    }
    Ok(())
}

/// Whether a disk whose first call fails is told by this command.
fn tells_the_disk<T: Threads + Wait + Sync + AllocGlobal>(
    rt: &T,
    command: &'static str,
) -> Result<bool, Fail> {
    let ran = play(rt, command, GET, one_disk(rt.alloc(), &[], &[0])?)?;
    Ok(ran.ended(5, "disk fault 0\n"))
}

#[test]
fn a_disk_that_fails_at_once_is_told(rt: HostRuntime) -> Result<(), Fail> {
    for command in COMMANDS {
        assert!(rt; tells_the_disk(&rt, command)?, "by {command}");
    }
    Ok(())
}
