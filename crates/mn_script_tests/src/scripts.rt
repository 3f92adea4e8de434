use mn_base::NoMemory;
use mn_script::{ScriptError, read_script, write_script};
use std::alloc::Global;
use std::test::Fail;

/// The place at which a text is refused; none for a script.
fn place(alloc: Global, text: &[u8]) -> Result<Option<(u32, u32)>, NoMemory> {
    match read_script(alloc, text) {
        Ok(_) => Ok(None),
        Err(ScriptError::Refused { line, column }) => Ok(Some((line, column))),
        Err(ScriptError::NoMemory) => Err(NoMemory),
    }
}

/// A text, and the line and column at which it is refused.
type Row = (&'static [u8], u32, u32);

/// Texts, and the line and column at which they are refused.
const HEADS: &[Row] = &[
    (b"", 1, 1),
    (b"\n\n# x\n", 4, 1),
    (b"#", 2, 1),
    (b"nodes", 1, 6),
    (b"nodes ", 1, 7),
    (b"nodes 0", 1, 7),
    (b"nodes 9", 1, 7),
    (b"nodes 01", 1, 7),
    (b"nodes +1", 1, 7),
    (b"nodes 1 ", 1, 9),
    (b"nodes 1 1", 1, 9),
    (b"nodes  1", 1, 7),
    (b" nodes 1", 1, 1),
    (b"node 1", 1, 1),
    (b"nodes 1\r\n", 1, 7),
    (b"Nodes 1", 1, 1),
    (b"client a", 1, 1),
    (b"nodes 1\nnodes 1", 2, 1),
    (b"nodes 1\nrecoverers 5", 2, 12),
    (b"nodes 1\nrecoverers", 2, 11),
    (b"nodes 1\nrecoverers 0\nrecoverers 0", 3, 1),
    (b"nodes 1\nclient a\nrecoverers 1", 3, 1),
    (b"nodes 1\nput main k v", 2, 1),
    (b"nodes 1\nclient", 2, 7),
    (b"nodes 1\nclient A", 2, 8),
    (b"nodes 1\nclient a second", 2, 10),
    (b"nodes 1\nclient a first x", 2, 16),
    (b"nodes 1\nclient a first last", 2, 16),
    (b"nodes 1\nclient a\nclient a", 3, 8),
    (b"nodes 1\nclient abcdefghijklmnopq", 2, 8),
    (b"nodes 1\nkill a 1 votes 1", 2, 6),
    (b"nodes 1\nschedule\nrstep 1 a", 3, 7),
    (b"nodes 1\n\n #\n", 3, 1),
    (b"#\n\nnodes 1\n# x\nclient  a", 5, 8),
];

/// Lines behind a head, and the line and column at which they are refused.
const OPERATIONS: &[Row] = &[
    (b"put main k", 3, 11),
    (b"put main", 3, 9),
    (b"put", 3, 4),
    (b"put Main k v", 3, 5),
    (b"put main % v", 3, 10),
    (b"put main %41 v", 3, 10),
    (b"put main %2F v", 3, 10),
    (b"put main a;b v", 3, 10),
    (b"put main a%b v", 3, 10),
    (b"put main %2 v", 3, 10),
    (b"put main k %0", 3, 12),
    (b"put main k v w", 3, 14),
    (b"put main k  v", 3, 12),
    (b"put main  k v", 3, 10),
    (b"put main k v ", 3, 14),
    (b"put main kkkkkkkkkkkkkkkkkkkkkkkkkkkkkkkkk v", 3, 10),
    (
        b"put main k vvvvvvvvvvvvvvvvvvvvvvvvvvvvvvvvvvvvvvvvvvvvvvvvvvvvvvvvvvvvvvvvv",
        3,
        12,
    ),
    (b"snapshot main nnnnnnnnnnnnnnnnn", 3, 15),
    (b"snapshot main", 3, 14),
    (b"branch main m x", 3, 15),
    (b"scan main % %", 3, 14),
    (b"scan main % % 0", 3, 15),
    (b"scan main % % 1001", 3, 15),
    (b"scan main % % 010", 3, 15),
    (b"scan main k", 3, 12),
    (b"scan main % k% 1", 3, 13),
    (b"versions all", 3, 10),
    (b"versions ", 3, 10),
    (b"tx main", 3, 8),
    (b"tx main ;", 3, 9),
    (b"tx main get k ;", 3, 16),
    (b"tx main get k ; ", 3, 17),
    (b"tx main get k get k", 3, 15),
    (b"tx main check k", 3, 16),
    (b"tx main check k is", 3, 19),
    (b"tx main check k was v", 3, 17),
    (b"tx main check k absent v", 3, 24),
    (b"tx main scan k", 3, 9),
    (
        b"tx main get k ; get k ; get k ; get k ; get k ; get k ; get k ; get k ; get k ; get k ; get k ; get k ; get k ; get k ; get k ; get k ; get k",
        3,
        1,
    ),
    (
        b"tx main get k ; get k ; get k ; get k ; get k ; get k ; get k ; get k ; get k ; get k ; get k ; get k ; get k ; get k ; get k ; get k ; get k ; x",
        3,
        145,
    ),
    (b"get main k\0", 3, 10),
    (b"flush", 3, 1),
    (b" # x", 3, 1),
    (b"get main k\r", 3, 10),
];

/// Lines behind one operation, and the line and column at which they are refused.
const LATER: &[Row] = &[
    (b"kill", 4, 5),
    (b"kill b 1 votes 1", 4, 6),
    (b"kill a 2 votes 1", 4, 8),
    (b"kill a 0 votes 1", 4, 8),
    (b"kill a 1 vote 1", 4, 10),
    (b"kill a 1 votes 9", 4, 16),
    (b"kill a 1 votes", 4, 15),
    (b"stop 1 a 1 before", 4, 6),
    (b"stop 0 a 1 during", 4, 12),
    (b"stop 0 a 1", 4, 11),
    (b"kill a 1 votes 1\nput main k v", 5, 1),
    (b"kill a 1 votes 1\nclient b", 5, 1),
    (b"schedule now", 4, 10),
    (b"schedule\nput main k v", 5, 1),
    (b"schedule\nstep", 5, 5),
    (b"schedule\nstep b", 5, 6),
    (b"schedule\nhalt 1", 5, 6),
    (b"schedule\nrstep 1 a", 5, 7),
    (b"schedule\nrecover", 5, 8),
    (b"schedule\nschedule", 5, 1),
    (b"schedule\ngo a a", 5, 6),
    (b"schedule\nall a ", 5, 7),
    (b"schedule\n\n# x\nplan  a", 7, 6),
];

/// Scripts.
const SCRIPTS: &[&[u8]] = &[
    b"nodes 1",
    b"nodes 8\n",
    b"#\n\nnodes 1\n\n# put\n",
    b"nodes 1\nrecoverers 4\nclient a first\n",
    b"nodes 1\nclient a last\nput main kkkkkkkkkkkkkkkkkkkkkkkkkkkkkkkk vvvvvvvvvvvvvvvvvvvvvvvvvvvvvvvvvvvvvvvvvvvvvvvvvvvvvvvvvvvvvvvv",
    b"nodes 1\nclient a\nsnapshot main nnnnnnnnnnnnnnnn\nbranch main m\nversions\nscan main % % 1000\nscan main a %25 1",
    b"nodes 1\nclient a\nput main %20%25%3b%ff %\ntx main get k ; put k v ; del k ; check k is % ; check k absent",
    b"nodes 1\nclient a\ntx main get k ; get k ; get k ; get k ; get k ; get k ; get k ; get k ; get k ; get k ; get k ; get k ; get k ; get k ; get k ; get k",
    b"nodes 2\nrecoverers 1\nclient a\ndel main k\nkill a 1 votes 8\nstop 1 a 1 half\nschedule\n# x\nstep a\nplan a\ngo a\nall a\nhalt 1\nrestart 1\nrstep 1 a\nrecover 1 a\n",
];

/// Whether these two, one behind the other, are refused at this place.
fn is_refused(
    alloc: Global,
    front: &[u8],
    back: &[u8],
    line: u32,
    column: u32,
) -> Result<bool, NoMemory> {
    let mut text = front.to_vec(alloc)?;
    text.extend_from_slice(back)?;
    Ok(place(alloc, &text)? == Some((line, column)))
}

/// Whether each row is refused at its place behind this front.
fn are_refused(alloc: Global, front: &[u8], rows: &[Row]) -> Result<bool, NoMemory> {
    for (text, line, column) in rows {
        if !is_refused(alloc, front, text, *line, *column)? {
            return Ok(false);
        }
    }
    Ok(true)
}

#[test]
fn faults_of_a_head_are_named_by_line_and_column(rt: HostRuntime) -> Result<(), Fail> {
    assert!(rt; are_refused(rt.alloc(), b"", HEADS)?);
    Ok(())
}

#[test]
fn faults_of_an_operation_are_named_by_line_and_column(rt: HostRuntime) -> Result<(), Fail> {
    assert!(rt; are_refused(rt.alloc(), b"nodes 1\nclient a\n", OPERATIONS)?);
    Ok(())
}

#[test]
fn faults_behind_operations_are_named_by_line_and_column(rt: HostRuntime) -> Result<(), Fail> {
    assert!(rt; are_refused(rt.alloc(), b"nodes 1\nclient a\nput main k v\n", LATER)?);
    Ok(())
}

#[test]
fn scripts_are_not_refused(rt: HostRuntime) -> Result<(), Fail> {
    for text in SCRIPTS {
        assert!(rt; place(rt.alloc(), text)? == None);
    }
    Ok(())
}

/// Puts so many times the same line behind a text.
fn repeat(text: &mut Vec<u8>, line: &[u8], count: u32) -> Result<(), NoMemory> {
    for _ in 0..count {
        text.extend_from_slice(line)?;
    }
    Ok(())
}

/// The most clients that a script may have.
const CLIENTS: &[u8] =
    b"nodes 1\nclient a\nclient b\nclient c\nclient d\nclient e\nclient f\nclient g\nclient h\nclient i\nclient j\nclient k\nclient l\nclient m\nclient n\nclient o\nclient p\n";

/// A head, a line, how often it may come, and the line and column at which it comes too often.
type Limit = (&'static [u8], &'static [u8], u32, u32, u32);

const LIMITS: &[Limit] = &[
    (b"nodes 1\nclient a\n", b"versions\n", 2000, 2003, 1),
    (b"nodes 1\nclient a\n", b"scan main % % 1000\n", 100, 103, 1),
    (
        b"nodes 1\nclient a\n",
        b"tx main get k ; get k ; get k ; get k ; get k ; get k ; get k ; get k ; get k ; get k ; get k ; get k ; get k ; get k ; get k ; get k\n",
        1250,
        1253,
        1,
    ),
    (
        b"nodes 1\nclient a\nversions\n",
        b"kill a 1 votes 1\n",
        64,
        68,
        1,
    ),
    (b"nodes 1\nclient a\nschedule\n", b"go a\n", 20000, 20004, 1),
    (CLIENTS, b"client q", 0, 18, 1),
    (CLIENTS, b"client p", 0, 18, 8),
    (b"nodes 1\n", b"#", 4_194_296, 0, 0),
];

/// Whether a text is a script, and is refused at this place with this line behind it.
fn is_full(
    alloc: Global,
    text: &[u8],
    line: &[u8],
    at: u32,
    column: u32,
) -> Result<bool, NoMemory> {
    Ok(place(alloc, text)? == None && is_refused(alloc, text, line, at, column)?)
}

/// A head and so many times the same line.
fn repeated(alloc: Global, head: &[u8], line: &[u8], count: u32) -> Result<Vec<u8>, NoMemory> {
    let mut text = head.to_vec(alloc)?;
    repeat(&mut text, line, count)?;
    Ok(text)
}

/// Whether the line may come so often, and not once more.
fn is_met(alloc: Global, limit: &Limit) -> Result<bool, NoMemory> {
    let (head, line, count, at, column) = limit;
    let within = repeated(alloc, head, line, *count)?;
    is_full(alloc, &within, line, *at, *column)
}

#[test]
fn limits_are_met_at_both_sides(rt: HostRuntime) -> Result<(), Fail> {
    for limit in LIMITS {
        assert!(rt; is_met(rt.alloc(), limit)?);
    }
    Ok(())
}

/// A text of four clients, each of 2,000 operations, and of one that has none.
fn full(alloc: Global) -> Result<Vec<u8>, NoMemory> {
    let mut text = b"nodes 1\n".to_vec(alloc)?;
    for client in [b"client a\n", b"client b\n", b"client c\n", b"client d\n"] {
        text.extend_from_slice(client)?;
        repeat(&mut text, b"versions\n", 2000)?;
    }
    text.extend_from_slice(b"client e\n")?;
    Ok(text)
}

#[test]
fn operations_of_all_clients_are_counted(rt: HostRuntime) -> Result<(), Fail> {
    let alloc = rt.alloc();
    assert!(rt; is_full(alloc, &full(alloc)?, b"versions\n", 8007, 1)?);
    Ok(())
}

/// A text, and how the script that it spells is written.
const SPELLINGS: &[(&[u8], &[u8])] = &[
    (b"# x\nnodes 1\nrecoverers 0\nschedule", b"nodes 1\n"),
    (
        b"nodes 1\nrecoverers 2\nclient a\nschedule\nrstep 2 a",
        b"nodes 1\nrecoverers 2\nclient a\nschedule\nrstep 2 a\n",
    ),
    (
        b"nodes 2\nclient a last\nput main %20%25 %\ntx m get k ; check k is v ; check k absent ; del k\nscan m % h 7\nsnapshot m n\nbranch m o\nversions\nkill a 1 votes 8\nstop 1 a 2 half\nschedule\nrestart 1\ngo a",
        b"nodes 2\nclient a last\ntx main put %20%25 %\ntx m get k ; check k is v ; check k absent ; del k\nscan m % h 7\nsnapshot m n\nbranch m o\nversions\nkill a 1 votes 8\nstop 1 a 2 half\nschedule\nrestart 1\ngo a\n",
    ),
];

/// Whether the script that a text spells is written so.
fn is_written(alloc: Global, text: &[u8], written: &[u8]) -> Result<bool, Fail> {
    let script = read_script(alloc, text)?;
    Ok(write_script(alloc, &script)?.as_slice() == written)
}

#[test]
fn what_is_written_is_read_again(rt: HostRuntime) -> Result<(), Fail> {
    let alloc = rt.alloc();
    for (text, written) in SPELLINGS {
        assert!(rt; is_written(alloc, text, written)? && is_written(alloc, written, written)?);
    }
    Ok(())
}
