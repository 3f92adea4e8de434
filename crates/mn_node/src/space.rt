ghost use Rattle.std.specs.Prelude.{◌≡◌, ◌≤◌, ◌<◌, ◌+◌, length, bytes_eq, IfOk, IfSome};
ghost use Rattle.mn_mini.specs.Flat.{bytes_in, overwritten};
ghost use Rattle.mn_mini.specs.Mini.{space_size};
ghost use Rattle.mn_page.specs.Base.{base_of};
ghost use Rattle.mn_page.specs.Grammar.{padded};

use crate::images::{BLOCK, Images, block_of};
use mn_base::{NoMemory, TryCopy};
use mn_mini::{SPACE, SharedBytes};
use mn_page::base_bytes;
use mn_space::{is_kept, kept_in, write};
use std::alloc::Global;
use std::marker::Model;

/// The space of a node. Contracts see all its bytes. A block that was last written as a whole is
/// its image, which a read of it shares; the others are kept flat, and what is kept flat of a block
/// with an image is old. The zeros behind the last byte that was written flat aren't kept, so a
/// node uses memory for what it holds alone; but there is room for them, so a write takes none.
#[derive(Drop)]
pub struct Space {
    kept: Vec<u8>,
    images: Images,
}

impl Model for Space {
    ghost use Rattle.std.specs.Prelude.{◌≤◌, List, ℕ, length, vec_capacity};
    ghost use Rattle.mn_mini.specs.Mini.{space_size};
    ghost use Rattle.mn_page.specs.Grammar.{padded};
    ghost use Rattle.mn_node.specs.Images.{AreBlocks, with_images};

    ghost Value = { List ℕ };

    ghost view = { λ s. with_images 0 s.images (padded space_size s.kept.items) };

    ghost invariant = { λ s. (length s.kept.items ≤ space_size)
        × (space_size ≤ vec_capacity s.kept) × AreBlocks s.images };
}

impl Space {
    /// The space that this node, of so many, begins with. NoMemory: there was no memory for it.
    pub fn base(alloc: Global, node: u8, nodes: u8) -> Result<Self, NoMemory>
        requires { 0 < nodes }
        ensures base { IfOk result (λ space. space ≡ base_of nodes node) }
        ensures whole { IfOk result (λ space. length space ≡ space_size) }
    {
        let mut kept = base_bytes(alloc, node, nodes)?;
        kept.reserve(SPACE as usize - kept.len())?;
        Ok(Space {
            kept,
            images: Images::none(alloc)?,
        })
    }

    /// The image of a range that is a block.
    fn image_of(&self, start: usize, length: usize) -> Option<&SharedBytes>
        requires { start + length ≤ Rattle.std.specs.Prelude.length self.now }
        ensures { IfSome result (λ image. image.now ≡ bytes_in self.now start length) }
    {
        let block = block_of(start, length)?;
        self.images.at(block)
    }

    /// The first piece of a range that stands in one place, and its length. What is missing at its
    /// end is zeros.
    fn piece(&self, start: usize, length: usize) -> (&[u8], usize)
        requires { start + length ≤ Rattle.std.specs.Prelude.length self.now }
        ensures bytes { padded result.1 result.0.now ≡ bytes_in self.now start result.1 }
        ensures short { Rattle.std.specs.Prelude.length result.0.now ≤ result.1 }
        ensures within { result.1 ≤ length }
        ensures more { 0 < length → 0 < result.1 }
        ensures inside { start + result.1 ≤ space_size }
    {
        match self.images.at(start / BLOCK) {
            Some(image) => {
                let from = start % BLOCK;
                let count = length.min(BLOCK - from);
                (&image.as_slice()[from..from + count], count)
            }
            None => {
                let count = self.images.free_in(start, length);
                (kept_in(&self.kept, start, count), count)
            }
        }
    }

    /// A copy of the bytes of a range. NoMemory: there was no memory for it.
    pub fn copy_of(&self, alloc: Global, start: u32, length: usize) -> Result<Vec<u8>, NoMemory>
        requires { start + length ≤ Rattle.std.specs.Prelude.length self.now }
        ensures { IfOk result (λ copy. copy.items ≡ bytes_in self.now start length) }
    {
        let mut copy = Vec::with_capacity(alloc, length)?;
        let mut at = 0;
        while at < length {
            let (kept, count) = self.piece(start as usize + at, length - at);
            at += count;
            copy.extend_from_slice(kept)?;
            copy.resize(at, 0)?;
        }
        Ok(copy)
    }

    /// Whether these bytes stand there, piece by piece.
    fn stand(&self, start: usize, bytes: &[u8]) -> bool
        requires { start + length bytes.now ≤ length self.now }
        ensures { result ≡ bytes_eq (bytes_in self.now start (length bytes.now)) bytes.now }
    {
        let mut from = start;
        let mut rest = bytes;
        while !rest.is_empty() {
            let (kept, count) = self.piece(from, rest.len());
            if !is_kept(kept, &rest[..count]) {
                return false;
            }
            from += count;
            rest = &rest[count..];
        }
        true
    }

    /// Whether these bytes stand there.
    pub fn holds(&self, start: u32, bytes: &SharedBytes) -> bool
        requires { start + length bytes.now ≤ length self.now }
        ensures { result ≡ bytes_eq (bytes_in self.now start (length bytes.now)) bytes.now }
    {
        let all = bytes.as_slice();
        if let Some(image) = self.image_of(start as usize, all.len()) {
            return image.padded().is_same(&bytes.padded());
        }
        self.stand(start as usize, all)
    }

    /// The bytes of a range, for copies to share: a block's image or a copy. NoMemory: there was no
    /// memory for it.
    pub fn shared_copy_of(
        &self,
        alloc: Global,
        start: u32,
        length: usize,
    ) -> Result<SharedBytes, NoMemory>
        requires { start + length ≤ Rattle.std.specs.Prelude.length self.now }
        ensures { IfOk result (λ copy. copy ≡ bytes_in self.now start length) }
    {
        if let Some(image) = self.image_of(start as usize, length) {
            return image.try_copy(alloc);
        }
        let (kept, _) = self.piece(start as usize, length);
        if kept.len() == length {
            return SharedBytes::copy_of(alloc, kept);
        }
        SharedBytes::new(alloc, self.copy_of(alloc, start, length)?)
    }

    /// Puts bytes over a range. It takes no memory.
    pub fn put(&mut self, start: u32, bytes: &SharedBytes)
        requires { start + length bytes.now ≤ length self.old }
        ensures bytes { self.new ≡ overwritten self.old start bytes.now }
        ensures whole { length self.new ≡ length self.old }
    {
        let start = start as usize;
        if self.images.take(start, bytes) {
            return;
        }
        let all = bytes.as_slice();
        self.images.flatten(&mut self.kept, start, all.len());
        write(&mut self.kept, start, all);
    }
}
