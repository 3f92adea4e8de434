ghost use Rattle.std.specs.Prelude.{◌≡◌, ◌<◌, IfOk, decimal};
ghost use Rattle.mn_gen.specs.Accounts.{key_of, put_of, check_of};

use itoa::Buffer;
use mn_base::{Key, Name, NoMemory, Step, Value};
use std::alloc::Global;

/// How many accounts a client has.
pub const ACCOUNTS: usize = 8;

/// The name of these bytes, which may stand in one.
pub fn name(alloc: Global, bytes: &[u8]) -> Result<Name, NoMemory>
    ensures { IfOk result (λ name. name ≡ bytes.now) }
{
    match Name::new(alloc, bytes) {
        Ok(name) => Ok(name),
        Err(_) => Err(NoMemory),
    }
}

/// The key of an account of a client.
fn key(alloc: Global, client: u8, account: u8) -> Result<Key, NoMemory>
    requires { (client < 8) × (account < 8) }
    ensures { IfOk result (λ key. key ≡ key_of client account) }
{
    match Key::new(alloc, &[b'c', b'0' + client, b'a', b'0' + account]) {
        Ok(key) => Ok(key),
        Err(_) => Err(NoMemory),
    }
}

/// A balance, written out.
fn value(alloc: Global, balance: u16) -> Result<Value, NoMemory>
    ensures { IfOk result (λ value. value ≡ decimal balance) }
{
    let mut digits = Buffer::new();
    match Value::new(alloc, digits.format(balance).as_bytes()) {
        Ok(value) => Ok(value),
        Err(_) => Err(NoMemory),
    }
}

/// Sets the balance of an account.
pub fn put(alloc: Global, client: u8, account: usize, balance: u16) -> Result<Step, NoMemory>
    requires { (client < 8) × (account < 8) }
    ensures { IfOk result (λ step. step ≡ put_of client account balance) }
{
    Ok(Step::Put {
        key: key(alloc, client, account as u8)?,
        value: value(alloc, balance)?,
    })
}

/// Checks the balance of an account.
pub fn check(alloc: Global, client: u8, account: usize, balance: u16) -> Result<Step, NoMemory>
    requires { (client < 8) × (account < 8) }
    ensures { IfOk result (λ step. step ≡ check_of client account balance) }
{
    Ok(Step::Check {
        key: key(alloc, client, account as u8)?,
        want: Some(value(alloc, balance)?),
    })
}
