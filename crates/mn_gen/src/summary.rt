//! The summary of a run on a script.
ghost use Rattle.std.specs.Prelude.{◌≡◌, ◌≤◌, ◌++◌, IfOk, OnOk, length};
ghost use Rattle.mn_base.specs.History.{store_after};
ghost use Rattle.mn_report.specs.Report.{line};
ghost use Rattle.mn_report.specs.Spelling.{spaced_number};
ghost use Rattle.mn_script.specs.Script.{all_ops};
ghost use Rattle.mn_gen.specs.Summary.{summary_text, sums_of};

use crate::sums::{greatest_of, least_of, sums_of};
use mn_base::{Bytes, History, NoMemory, TryCopy};
use mn_plain::Store;
use mn_report::push_spaced_number;
use mn_script::{Script, ScriptClient};
use std::alloc::{AllocError, Global};

/// The store after a history that began at `start`.
fn store_after(alloc: Global, start: &Store, history: &History) -> Result<Store, NoMemory>
    ensures { IfOk result (λ store. store ≡ store_after start.now history.now) }
{
    let mut store = start.try_copy(alloc)?;
    for past in history.as_slice() {
        let reply = store.apply(alloc, past.op.get())?;
        drop(reply);
    }
    Ok(store)
}

/// How many operations the clients have.
fn operations_of(clients: &[ScriptClient]) -> u64
    requires { all_ops clients.now ≤ 8000 }
    ensures { result ≡ all_ops clients.now }
{
    let mut count: u64 = 0;
    for client in clients {
        count += client.ops.as_slice().len() as u64;
    }
    count
}

/// Adds a word, a number and the end of the line.
fn push_line(out: &mut Vec<u8>, word: &[u8], number: u64) -> Result<(), AllocError>
    ensures { OnOk result (out.new.items
        ≡ out.old.items ++ line (word.now ++ spaced_number number)) }
{
    out.extend_from_slice(word)?;
    push_spaced_number(out, number)?;
    out.push(b'\n')?;
    Ok(())
}

/// Adds a word, two numbers and the end of the line.
fn push_numbers(out: &mut Vec<u8>, word: &[u8], least: u64, greatest: u64) -> Result<(), AllocError>
    ensures { OnOk result (out.new.items
        ≡ out.old.items ++ line (word.now ++ (spaced_number least ++ spaced_number greatest))) }
{
    out.extend_from_slice(word)?;
    push_spaced_number(out, least)?;
    push_spaced_number(out, greatest)?;
    out.push(b'\n')?;
    Ok(())
}

/// The summary of a script with so many clients and operations, where the values of versions come
/// to these sums and nodes still list so many ids.
fn text_of(
    alloc: Global,
    clients: u64,
    operations: u64,
    sums: &[u64],
    listed: u64,
) -> Result<Bytes, NoMemory>
    ensures { IfOk result (λ text. text ≡ summary_text clients operations sums.now listed) }
{
    let mut out = Vec::new(alloc);
    push_line(&mut out, b"clients", clients)?;
    push_line(&mut out, b"operations", operations)?;
    push_numbers(&mut out, b"sum", least_of(sums), greatest_of(sums))?;
    push_line(&mut out, b"doubts", listed)?;
    out.extend_from_slice(b"end\n")?;
    Ok(Bytes::from_vec(out))
}

/// The summary of a run on a script with this history, which began at `start`, where nodes still
/// list so many ids: how many clients and operations the script has, and the least and the greatest
/// sum of the values of a version.
pub fn summary_of(
    alloc: Global,
    start: &Store,
    history: &History,
    script: &Script,
    listed: u64,
) -> Result<Bytes, NoMemory>
    ensures { IfOk result (λ text. text
        ≡ summary_text (length script.now.clients) (all_ops script.now.clients)
        (sums_of (store_after start.now history.now)) listed) }
{
    let store = store_after(alloc, start, history)?;
    let sums = sums_of(alloc, &store)?;
    let clients = script.clients();
    text_of(
        alloc,
        clients.len() as u64,
        operations_of(clients),
        &sums,
        listed,
    )
}
