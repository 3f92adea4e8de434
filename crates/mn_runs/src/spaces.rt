ghost use Rattle.std.specs.Prelude.{◌≡◌, slice_set};
ghost use Rattle.mn_mini.specs.Flat.{overwritten};

/// Puts the byte in place, if the space goes so far.
fn put(space: &mut [u8], at: usize, byte: u8)
    ensures { space.new ≡ slice_set space.old at byte }
{
    if at < space.len() {
        space[at] = byte;
    }
}

/// Puts the bytes in place from `start` on, as far as the space goes. It takes no memory.
pub fn overwrite(space: &mut [u8], start: u32, bytes: &[u8])
    ensures { space.new ≡ overwritten space.old start bytes.now }
{
    for (i, byte) in bytes.iter().enumerate() {
        put(space, start as usize + i, *byte);
    }
}
