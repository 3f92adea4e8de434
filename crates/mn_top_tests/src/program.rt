//! Calls of the program on disks in memory.
use mn_base::{Gate, NoMemory, OpenGate};
use mn_io::{Bytes, Calls, Disk, MemorySink, MemorySource};
use mn_memdisk::MemoryDisk;
use mn_top::{Outcome, Words, run_program};
use std::alloc::Global;
use std::str;
use std::sync::Wait;
use std::test::Fail;
use std::thread::Threads;

pub fn words_of(alloc: Global, texts: &[&str]) -> Result<Words, NoMemory> {
    let mut words = Words::new(alloc);
    for text in texts {
        words.push(alloc, text)?;
    }
    Ok(words)
}

/// A disk in memory with these bytes, whose calls with these numbers fail.
pub fn disk_of(alloc: Global, content: &[u8], fails: &[u64]) -> Result<MemoryDisk, NoMemory> {
    Ok(MemoryDisk::new(
        Bytes::from_vec(content.to_vec(alloc)?),
        Calls::from_vec(fails.to_vec(alloc)?),
    ))
}

/// So many fresh disks.
pub fn fresh_disks(alloc: Global, count: usize) -> Result<Vec<MemoryDisk>, NoMemory> {
    let mut disks = Vec::new(alloc);
    for _ in 0..count {
        disks.push(disk_of(alloc, &[], &[])?)?;
    }
    Ok(disks)
}

/// A script, and the numbers of the calls of its source and of the sink that fail.
#[derive(Clone, Copy)]
pub struct Given<'a> {
    pub script: &'a str,
    pub source_fails: &'a [u64],
    pub sink_fails: &'a [u64],
}

impl<'a> Given<'a> {
    /// A script of which all is read, and all that is due is written.
    pub fn whole(script: &'a str) -> Given<'a> {
        Given {
            script,
            source_fails: &[],
            sink_fails: &[],
        }
    }
}

fn source_of(alloc: Global, given: &Given<'_>) -> Result<MemorySource, NoMemory> {
    Ok(MemorySource::new(
        Bytes::from_vec(given.script.as_bytes().to_vec(alloc)?),
        Calls::from_vec(given.source_fails.to_vec(alloc)?),
    ))
}

/// A sink of which the calls with these numbers fail.
pub fn sink_of(alloc: Global, fails: &[u64]) -> Result<MemorySink, Fail> {
    let fails = Calls::from_vec(fails.to_vec(alloc)?);
    Ok(MemorySink::new(alloc, 65_536, fails)?)
}

/// What came of a call of the program.
#[derive(Drop)]
pub struct Ran {
    pub outcome: Outcome<MemoryDisk>,
    pub sink: MemorySink,
}

impl Ran {
    /// The bytes of the disk of a node.
    pub fn content(&self, node: usize) -> &[u8] {
        match self.outcome.disks.get(node) {
            Some(disk) => disk.content(),
            None => &[],
        }
    }

    /// What was written.
    pub fn text(&self) -> &str {
        str::from_utf8(self.sink.written()).unwrap_or("")
    }

    /// Whether it ended with this status and text.
    pub fn ended(&self, status: u8, written: &str) -> bool {
        self.outcome.status == status && self.sink.written() == written.as_bytes()
    }
}

/// The words, the source and the sink of a call.
#[derive(Drop)]
struct Ends {
    words: Words,
    source: MemorySource,
    sink: MemorySink,
}

fn ends_of(alloc: Global, words: &[&str], given: &Given<'_>) -> Result<Ends, Fail> {
    Ok(Ends {
        words: words_of(alloc, words)?,
        source: source_of(alloc, given)?,
        sink: sink_of(alloc, given.sink_fails)?,
    })
}

/// Runs the program with these words, disks and gate. The answer is what came of it, and the sink.
pub fn run_gated<T: Threads + Wait + Sync + AllocGlobal, D: Disk + Send + Drop, G: Gate + Sync>(
    rt: &T,
    words: &[&str],
    given: &Given<'_>,
    disks: Vec<D>,
    gate: &G,
) -> Result<(Outcome<D>, MemorySink), Fail> {
    let alloc = rt.alloc();
    let Ends {
        words,
        mut source,
        mut sink,
    } = ends_of(alloc, words, given)?;
    let outcome = run_program(rt, alloc, &words, &mut source, &mut sink, disks, gate);
    Ok((outcome, sink))
}

/// Runs the program with these words and disks.
pub fn run<T: Threads + Wait + Sync + AllocGlobal>(
    rt: &T,
    words: &[&str],
    given: &Given<'_>,
    disks: Vec<MemoryDisk>,
) -> Result<Ran, Fail> {
    let (outcome, sink) = run_gated(rt, words, given, disks, &OpenGate)?;
    Ok(Ran { outcome, sink })
}

/// The word for so many nodes.
pub fn nodes_word(nodes: usize) -> &'static str {
    match nodes {
        1 => "1",
        2 => "2",
        3 => "3",
        _ => "8",
    }
}

/// The two commands that play a script: on one thread, and on threads.
pub const COMMANDS: [&str; 2] = ["replay", "run"];

/// Plays a script on these disks, by this command.
pub fn play<T: Threads + Wait + Sync + AllocGlobal>(
    rt: &T,
    command: &'static str,
    script: &str,
    disks: Vec<MemoryDisk>,
) -> Result<Ran, Fail> {
    let words = [command, nodes_word(disks.len())];
    run(rt, &words, &Given::whole(script), disks)
}

/// Replays a script on these disks.
pub fn replay<T: Threads + Wait + Sync + AllocGlobal>(
    rt: &T,
    script: &str,
    disks: Vec<MemoryDisk>,
) -> Result<Ran, Fail> {
    play(rt, "replay", script, disks)
}

/// A script for so many fresh disks, and the status and the text with which the program ends.
pub struct Row {
    pub nodes: usize,
    pub script: &'static str,
    pub status: u8,
    pub written: &'static str,
}

fn prints<T: Threads + Wait + Sync + AllocGlobal>(
    rt: &T,
    command: &'static str,
    row: &Row,
) -> Result<bool, Fail> {
    let ran = play(rt, command, row.script, fresh_disks(rt.alloc(), row.nodes)?)?;
    Ok(ran.ended(row.status, row.written) && ran.outcome.disks.len() == row.nodes)
}

/// The first of the rows that does not end as it says by this command.
pub fn first_wrong<T: Threads + Wait + Sync + AllocGlobal>(
    rt: &T,
    command: &'static str,
    rows: &[Row],
) -> Result<Option<usize>, Fail> {
    for (place, row) in rows.iter().enumerate() {
        if !prints(rt, command, row)? {
            return Ok(Some(place));
        }
    }
    Ok(None)
}
