ghost use Rattle.std.specs.Prelude.{◌≡◌, ◌≤◌, ◌<◌, ◌++◌, ◌∷◌, [], length, IfOk, OnOk};
ghost use Rattle.std.specs.Prelude.{if◌then◌else◌, nat_eq};
ghost use Rattle.byteorder.specs.Endian.{big_bytes};
ghost use Rattle.mn_page.specs.Forest.{empty_leaf};
ghost use Rattle.mn_page.specs.Grammar.{padded, page_bytes};
ghost use Rattle.mn_page.specs.Base.{base_catalog, base_front, base_slots, base_count, base_of};
ghost use Rattle.mn_page.specs.Space.{space_length};

use byteorder::{BigEndian, ByteOrder};
use mn_base::NoMemory;
use std::alloc::{AllocError, Global};

/// The bytes of a space.
const SPACE: usize = 4_214_784;

/// Adds zeros up to a length.
fn pad(bytes: &mut Vec<u8>, to: usize) -> Result<(), AllocError>
    requires { length bytes.old.items ≤ to }
    ensures padded { OnOk result (bytes.new.items ≡ padded to bytes.old.items) }
    ensures length { OnOk result (length bytes.new.items ≡ to) }
{
    bytes.resize(to, 0)
}

/// Adds a number in eight bytes, the highest first.
fn push_number(out: &mut Vec<u8>, number: u64) -> Result<(), AllocError>
    ensures { OnOk result (out.new.items ≡ out.old.items ++ big_bytes 8 number) }
{
    let mut bytes = [0u8; 8];
    BigEndian::write_u64(&mut bytes, number);
    out.extend_from_slice(&bytes)
}

/// The catalog of each node: the entry of `main`.
fn catalog_bytes(alloc: Global) -> Result<Vec<u8>, AllocError>
    ensures bytes { IfOk result (λ bytes. bytes.items ≡ base_catalog) }
    ensures whole { IfOk result (λ bytes. length bytes.items ≡ 64) }
{
    let mut bytes = Vec::new(alloc);
    push_number(&mut bytes, 1)?;
    bytes.extend_from_slice(&[1, 255, 0, 0, 0, 4, b'm', b'a', b'i', b'n'])?;
    pad(&mut bytes, 64)?;
    Ok(bytes)
}

/// The bytes of the empty leaf of `main`.
fn empty_leaf_bytes(alloc: Global) -> Result<Vec<u8>, AllocError>
    ensures bytes { IfOk result (λ bytes. bytes.items ≡ page_bytes empty_leaf) }
    ensures whole { IfOk result (λ bytes. length bytes.items ≡ 1024) }
{
    let mut bytes = Vec::new(alloc);
    push_number(&mut bytes, 1)?;
    bytes.extend_from_slice(&[1, 0, 0, 0, 0, 0, 0, 0, 0, 0, 0, 0, 0, 0, 0])?;
    pad(&mut bytes, 1_024)?;
    Ok(bytes)
}

/// The used slots: on node 0 the empty leaf, on the others none.
fn slot_bytes(alloc: Global, node: u8) -> Result<Vec<u8>, AllocError>
    ensures bytes { IfOk result (λ bytes. bytes.items ≡ base_slots node) }
    ensures short { IfOk result (λ bytes. length bytes.items ≤ 1024) }
{
    if node == 0 {
        return empty_leaf_bytes(alloc);
    }
    Ok(Vec::new(alloc))
}

/// How many slots are used: one on node 0, none on the others.
fn count_of(node: u8) -> u64
    ensures { result ≡ base_count node }
{
    if node == 0 { 1 } else { 0 }
}

/// The bytes before the slots: the header, the count and the catalog.
fn front_bytes(alloc: Global, node: u8, nodes: u8) -> Result<Vec<u8>, AllocError>
    ensures bytes { IfOk result (λ bytes. bytes.items ≡ base_front nodes node) }
    ensures whole { IfOk result (λ bytes. length bytes.items ≡ 20480) }
{
    let mut catalog = catalog_bytes(alloc)?;
    pad(&mut catalog, 4_096)?;
    let mut front = Vec::new(alloc);
    front.extend_from_slice(&[b'M', b'I', b'N', b'U', b'E', b'T', 1, nodes, node])?;
    pad(&mut front, 16)?;
    push_number(&mut front, count_of(node))?;
    pad(&mut front, 64)?;
    front.extend_from_slice(&catalog)?;
    pad(&mut front, 20_480)?;
    Ok(front)
}

/// What the space of this node, of so many, begins with: the header, the count, the entry of
/// `main`, and on node 0 its empty leaf. What follows in the space is zeros. NoMemory: there was
/// no memory for it.
pub fn base_bytes(alloc: Global, node: u8, nodes: u8) -> Result<Vec<u8>, NoMemory>
    requires { 0 < nodes }
    ensures space { IfOk result (λ bytes. padded space_length bytes.items ≡ base_of nodes node) }
    ensures short { IfOk result (λ bytes. length bytes.items ≤ space_length) }
{
    let mut bytes = front_bytes(alloc, node, nodes)?;
    let slots = slot_bytes(alloc, node)?;
    bytes.extend_from_slice(&slots)?;
    Ok(bytes)
}

/// The space that this node, of so many, begins with. NoMemory: there was no memory for it.
pub fn base_space(alloc: Global, node: u8, nodes: u8) -> Result<Vec<u8>, NoMemory>
    requires { 0 < nodes }
    ensures space { IfOk result (λ space. space.items ≡ base_of nodes node) }
    ensures whole { IfOk result (λ space. length space.items ≡ space_length) }
{
    let mut space = base_bytes(alloc, node, nodes)?;
    pad(&mut space, SPACE)?;
    Ok(space)
}
