ghost use Rattle.std.specs.Prelude.{◌≡◌, ◌≢◌, ◌<◌, ◌≤◌, ◌+◌, ◌*◌, ◌/◌, List, [], ℕ, true, false};
ghost use Rattle.std.specs.Prelude.{length, IfOk, IfSome, IsNone, None, Some, slice_index_or};
ghost use Rattle.std.specs.Prelude.{vec_capacity, vec_len};
ghost use Rattle.mn_mini.specs.Flat.{overwritten};
ghost use Rattle.mn_mini.specs.Mini.{space_size};
ghost use Rattle.mn_page.specs.Grammar.{padded};
ghost use Rattle.mn_node.specs.Images.{AreApart, AreBlocks, block_size, with_images};

use mn_base::{NoMemory, TryCopy};
use mn_mini::{SPACE, SharedBytes};
use mn_space::write;
use std::alloc::Global;
use std::marker::Model;

/// How many bytes a block has: as many as a slot of a page. Blocks begin at its multiples, and so
/// do slots.
pub const BLOCK: usize = 1_024;

/// How many blocks a space has.
const BLOCKS: usize = SPACE as usize / BLOCK;

/// The images of blocks, by block: the bytes of each that was last written as a whole, which stand
/// here alone. What is missing behind them is none, but there is room for all, so a write takes no
/// memory.
#[derive(Drop)]
pub struct Images {
    images: Vec<Option<SharedBytes>>,
}

impl Model for Images {
    ghost use Rattle.std.specs.Prelude.{◌≤◌, List, Option, ℕ, vec_capacity};
    ghost use Rattle.mn_node.specs.declared.images.TheConstants.{BLOCKS};

    ghost Value = { List (Option (List ℕ)) };

    ghost view = { λ i. i.images.items };

    ghost invariant = { λ i. BLOCKS ≤ vec_capacity i.images };
}

/// The block that a range is.
pub fn block_of(start: usize, length: usize) -> Option<usize>
    ensures some { IfSome result (λ block. (start ≡ block_size * block) × (length ≡ block_size)) }
    ensures none { IsNone result → (block : ℕ) → start ≡ block_size * block → length ≢ block_size }
{
    if length == BLOCK && start % BLOCK == 0 {
        Some(start / BLOCK)
    } else {
        None
    }
}

/// Adds blocks without an image, up to a count. It takes no memory.
fn lengthen(images: &mut Vec<Option<SharedBytes>>, count: usize)
    requires { count ≤ vec_capacity images.old }
    ensures long { count ≤ vec_len images.new }
    ensures same { (block : ℕ) → slice_index_or images.new.items block None
        ≡ slice_index_or images.old.items block None }
    ensures room { vec_capacity images.old ≤ vec_capacity images.new }
{
    while images.len() < count {
        images.push(None).unwrap();
    }
}

impl Images {
    /// No image, and room for all. NoMemory: there was no memory for it.
    pub fn none(alloc: Global) -> Result<Self, NoMemory>
        ensures { IfOk result (λ images. images ≡ []) }
    {
        Ok(Images {
            images: Vec::with_capacity(alloc, BLOCKS)?,
        })
    }

    /// The image of a block.
    pub fn at(&self, block: usize) -> Option<&SharedBytes>
        ensures some { IfSome result (λ image. slice_index_or self.now block None
            ≡ Some image.now) }
        ensures none { IsNone result → slice_index_or self.now block None ≡ None }
    {
        match self.images.get(block) {
            Some(Some(image)) => Some(image),
            _ => None,
        }
    }

    /// How many bytes of a range stand before the first block with an image that it meets. It
    /// begins in a block without one.
    pub fn free_in(&self, start: usize, length: usize) -> usize
        requires within { start + length ≤ space_size }
        requires first { slice_index_or self.now (start / block_size) None ≡ None }
        ensures apart { AreApart start result self.now }
        ensures within { result ≤ length }
        ensures more { 0 < length → 0 < result }
    {
        let end = start + length;
        let mut block = start / BLOCK + 1;
        while block * BLOCK < end {
            if self.at(block).is_some() {
                return block * BLOCK - start;
            }
            block += 1;
        }
        length
    }

    /// Keeps the image of a block.
    fn keep(&mut self, block: usize, image: SharedBytes)
        requires sized { AreBlocks self.old }
        requires inside { block < BLOCKS }
        requires long { length image ≡ block_size }
        ensures sized { AreBlocks self.new }
        ensures kept { (space : List ℕ) → with_images 0 self.new space
            ≡ overwritten (with_images 0 self.old space) (block_size * block) image }
    {
        lengthen(&mut self.images, block + 1);
        self.images[block] = Some(image);
    }

    /// Keeps bytes that are put over a range, where it is a block. Otherwise, or where they have
    /// too many owners, it changes nothing. Whether it kept them.
    pub fn take(&mut self, start: usize, bytes: &SharedBytes) -> bool
        requires sized { AreBlocks self.old }
        requires within { start + length bytes.now ≤ space_size }
        ensures sized { AreBlocks self.new }
        ensures taken { result ≡ true → (space : List ℕ) → with_images 0 self.new space
            ≡ overwritten (with_images 0 self.old space) start bytes.now }
        ensures left { result ≡ false → self.new ≡ self.old }
    {
        let Some(block) = block_of(start, bytes.as_slice().len()) else {
            return false;
        };
        let alloc = *self.images.allocator();
        let Ok(image) = bytes.try_copy(alloc) else {
            return false;
        };
        self.keep(block, image);
        true
    }

    /// Moves the image of a block, if it has one, into the bytes that are kept flat.
    fn flatten_block(&mut self, kept: &mut Vec<u8>, block: usize)
        requires sized { AreBlocks self.old }
        requires short { length kept.old.items ≤ space_size }
        requires room { space_size ≤ vec_capacity kept.old }
        requires inside { block < BLOCKS }
        ensures same { with_images 0 self.new (padded space_size kept.new.items)
            ≡ with_images 0 self.old (padded space_size kept.old.items) }
        ensures gone { slice_index_or self.new block None ≡ None }
        ensures others { (other : ℕ) → other ≢ block → slice_index_or self.new other None
            ≡ slice_index_or self.old other None }
        ensures sized { AreBlocks self.new }
        ensures short { length kept.new.items ≤ space_size }
        ensures room { space_size ≤ vec_capacity kept.new }
    {
        if let Some(image) = self.at(block) {
            write(kept, block * BLOCK, image.as_slice());
            self.images[block] = None;
        }
    }

    /// Moves the images of the blocks that a range meets into the bytes that are kept flat. It
    /// takes no memory.
    pub fn flatten(&mut self, kept: &mut Vec<u8>, start: usize, length: usize)
        requires sized { AreBlocks self.old }
        requires short { Rattle.std.specs.Prelude.length kept.old.items ≤ space_size }
        requires room { space_size ≤ vec_capacity kept.old }
        requires within { start + length ≤ space_size }
        ensures same { with_images 0 self.new (padded space_size kept.new.items)
            ≡ with_images 0 self.old (padded space_size kept.old.items) }
        ensures apart { AreApart start length self.new }
        ensures sized { AreBlocks self.new }
        ensures short { Rattle.std.specs.Prelude.length kept.new.items ≤ space_size }
        ensures room { space_size ≤ vec_capacity kept.new }
    {
        let first = start / BLOCK;
        let end = (start + length).div_ceil(BLOCK);
        for block in first..end {
            self.flatten_block(kept, block);
        }
    }
}
