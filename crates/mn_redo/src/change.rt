ghost use Rattle.std.specs.Prelude.{◌≡◌, ◌≤◌, ◌+◌, ◌++◌, ◌∷◌, [], ◌<◌, ◌^◌, length, vec_len};
ghost use Rattle.std.specs.Prelude.{vec_capacity};
ghost use Rattle.mn_redo.specs.Grammar.{behind_gate, places, whole_log, HaveSizes};

use mn_io::Bytes;

/// Puts the length of a body, the body and a closed gate behind the bytes, which have room for
/// them.
pub fn stage(bytes: &mut Vec<u8>, body: &[u8])
    requires size { length body.now < 2 ^ 32 }
    requires room { vec_len bytes.old + 5 + length body.now ≤ vec_capacity bytes.old }
    ensures bytes { bytes.new.items ≡ bytes.old.items ++ (behind_gate body.now ++ 0 ∷ []) }
    ensures room { vec_capacity bytes.old ≤ vec_capacity bytes.new }
{
    bytes
        .extend_from_slice(&(body.len() as u32).to_be_bytes())
        .unwrap();
    bytes.extend_from_slice(body).unwrap();
    bytes.push(0).unwrap();
}

/// Puts the bytes of a whole log of these bodies, which there is room for, in place of what the
/// vector holds.
pub fn stage_all(bytes: &mut Vec<u8>, bodies: &[Bytes])
    requires sizes { HaveSizes bodies.now }
    requires room { length (whole_log bodies.now) ≤ vec_capacity bytes.old }
    ensures bytes { bytes.new.items ≡ whole_log bodies.now }
    ensures room { vec_capacity bytes.old ≤ vec_capacity bytes.new }
{
    bytes.clear();
    bytes.push(0).unwrap();
    for body in bodies {
        let gate = bytes.len() - 1;
        stage(bytes, body.as_slice());
        bytes[gate] = 1;
    }
}

/// Puts the places of the gates of these bodies, which there is room for, in place of what the
/// vector holds. The first is at 0.
pub fn place_all(gates: &mut Vec<u64>, bodies: &[Bytes])
    requires small { length (whole_log bodies.now) < 2 ^ 63 }
    requires room { length bodies.now ≤ vec_capacity gates.old }
    ensures gates { gates.new.items ≡ places 0 bodies.now }
    ensures room { vec_capacity gates.old ≤ vec_capacity gates.new }
{
    gates.clear();
    let mut at = 0;
    for body in bodies {
        gates.push(at).unwrap();
        at += 5 + body.as_slice().len() as u64;
    }
}
