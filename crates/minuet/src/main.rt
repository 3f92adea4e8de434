//! The program over the real words, input and output.
#![tactic(auto)]

use mn_base::{NoMemory, OpenGate};
use mn_filedisk::{NodeFile, StdSink, StdSource};
use mn_io::{Bytes, Calls, Disk, Sink, Source};
use mn_memdisk::MemoryDisk;
use mn_top::{Words, run_program, tell_no_memory, wanted};
use std::alloc::Global;
use std::env::Args;
use std::fs::File;
use std::io::ErrorKind;
use std::process::ExitCode;
use std::rt::{Env, Files};
use std::sync::Wait;
use std::thread::Threads;
use std::{env, mem};

/// The arguments of the process. A list in which one isn't UTF-8 is taken for none.
fn arguments_of<T: Env + AllocGlobal>(rt: &T) -> Result<Option<Args>, NoMemory> {
    match env::args(rt) {
        Ok(arguments) => Ok(Some(arguments)),
        Err(error) => {
            if error.kind() == ErrorKind::OutOfMemory {
                return Err(NoMemory);
            }
            Ok(None)
        }
    }
}

/// The words of the command line: the arguments behind the program's name.
fn words_of<T: Env + AllocGlobal>(rt: &T) -> Result<Words, NoMemory> {
    let mut words = Words::new(rt.alloc());
    if let Some(arguments) = arguments_of(rt)? {
        for word in arguments.skip(1) {
            words.push(rt.alloc(), word.as_str())?;
        }
    }
    Ok(words)
}

/// A disk in memory without a byte for each of so many nodes.
fn memory_disks(alloc: Global, nodes: u8) -> Result<Vec<MemoryDisk>, NoMemory> {
    let mut disks = Vec::new(alloc);
    for _ in 0..nodes {
        let content = Bytes::from_vec(Vec::new(alloc));
        disks.push(MemoryDisk::new(content, Calls::from_vec(Vec::new(alloc))))?;
    }
    Ok(disks)
}

/// The files of so many nodes in a folder, which may be only read.
fn files_in<'a, T: Files<File = File> + AllocGlobal>(
    rt: &'a T,
    folder: &str,
    nodes: u8,
    is_written: bool,
) -> Result<Vec<NodeFile<&'a T>>, NoMemory> {
    let alloc = rt.alloc();
    let mut files = Vec::new(alloc);
    for node in 0..nodes {
        let path = format!(in alloc; "{folder}/node{node}.log")?;
        files.push(if is_written {
            NodeFile::to_write(rt, path)
        } else {
            NodeFile::to_read(rt, path)
        })?;
    }
    Ok(files)
}

/// Runs the program on these disks, and gives its status. The process ends then, and its memory
/// goes back as a whole.
fn run_on<T, R, W, D>(rt: &T, words: &Words, source: &mut R, sink: &mut W, disks: Vec<D>) -> u8
where
    T: Threads + Wait + Sync + AllocGlobal,
    R: Source,
    W: Sink,
    D: Disk + Send + Drop,
{
    let outcome = run_program(rt, rt.alloc(), words, source, sink, disks, &OpenGate);
    let status = outcome.status;
    mem::forget(outcome);
    status
}

fn main(rt: HostRuntime) -> ExitCode {
    let mut source = StdSource::new(rt.reader());
    let mut sink = StdSink::new(std::io::writer(&rt));
    let Ok(words) = words_of(&rt) else {
        return ExitCode::from(tell_no_memory(&mut sink));
    };
    let wanted = wanted(&words);
    let mut nodes = 0;
    if let Some(wanted) = wanted {
        nodes = wanted.nodes;
        if let Some(folder) = wanted.folder {
            let Ok(files) = files_in(&rt, folder, nodes, wanted.is_written) else {
                return ExitCode::from(tell_no_memory(&mut sink));
            };
            return ExitCode::from(run_on(&rt, &words, &mut source, &mut sink, files));
        }
    }
    let Ok(disks) = memory_disks(rt.alloc(), nodes) else {
        return ExitCode::from(tell_no_memory(&mut sink));
    };
    ExitCode::from(run_on(&rt, &words, &mut source, &mut sink, disks))
}
