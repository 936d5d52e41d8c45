// An index of the PT_LOADs, which needs no allocation.

ghost use Rattle.std.specs.Prelude.{◌≡◌, ◌≤◌, ◌<◌, ◌+◌, ℕ, List, true, false, MatchOption};
ghost use Rattle.elf_file.specs.Header.{header_count};
ghost use Rattle.elf_file.specs.Segment.{has_bad_order};
ghost use Rattle.elf_file.specs.inside.Index.{is_spanned, with_block, Indexes};
ghost use Rattle.elf_file.specs.inside.Index.{AllAbove, IsBlockAt, BeginsBy};

use crate::headers::Headers;
use crate::indexed_segments::IndexedSegments;
use crate::segment::ProgramHeader;

/// The number of program headers that a block spans.
pub(crate) const BLOCK: usize = 1024;
/// The maximum number of blocks of a file. It suffices because the number of program headers has 16
/// bits.
const BLOCKS: usize = 64;

/// The PT_LOADs in blocks. Each block begins with a PT_LOAD and spans 1,024 program headers from
/// there. For each block, the index has the header number of the block's first PT_LOAD.
///
/// A lookup of an address takes three steps: a binary search over the blocks, a binary search
/// within a block (`narrowed`), and a pass over the remaining headers. The pass is needed because
/// headers of other types may lie between the PT_LOADs.
#[derive(Clone, Copy)]
pub(crate) struct LoadIndex {
    pub(crate) blocks: usize,
    pub(crate) first: [u16; BLOCKS],
}

impl LoadIndex {
    /// Returns an index without blocks: the index of a file without program headers.
    fn empty() -> LoadIndex
        ensures { (file : List ℕ) → Indexes file 0 result }
    {
        LoadIndex {
            blocks: 0,
            first: [0; BLOCKS],
        }
    }

    /// Makes the index of a file. Makes one pass over the program headers.
    pub(crate) fn new(headers: &Headers<'_>) -> LoadIndex
        ensures { Indexes headers.now (header_count headers.now) result }
    {
        let mut index = LoadIndex::empty();
        for i in 0..headers.count() {
            index.add(headers, i);
        }
        index
    }

    /// Returns whether the last block spans program header number `i`. The block must not begin
    /// after header `i`.
    fn spans(&self, i: usize) -> bool
        requires { self.now.blocks ≤ BLOCKS }
        ensures { result ≡ is_spanned self.now i }
    {
        self.blocks > 0 && i < usize::from(self.first[self.blocks - 1]) + BLOCK
    }

    /// Adds a block that begins with program header number `i`.
    fn begin_block(&mut self, i: usize)
        requires room { self.old.blocks < BLOCKS }
        requires header { i < 65536 }
        ensures { self.new ≡ with_block self.old i }
    {
        self.first[self.blocks] = i as u16;
        self.blocks += 1;
    }

    /// If program header number `i` is a PT_LOAD and the last block doesn't span it, adds a block
    /// that begins with it.
    fn add(&mut self, headers: &Headers<'_>, i: usize)
        requires within { i < header_count headers.now }
        requires number { i < 65536 }
        requires indexes { Indexes headers.now i self.old }
        ensures { Indexes headers.now (i + 1) self.new }
    {
        if !headers.is_load(i) {
            return;
        }
        if !self.spans(i) {
            self.begin_block(i);
        }
    }
}

impl IndexedSegments<'_> {
    /// Returns the header number of the first PT_LOAD of a block: the last block that begins at or
    /// below `address`. Returns `None` if no block does. All PT_LOADs before this block end at or
    /// below `address`, and all PT_LOADs after it begin above `address`. Makes a binary search.
    pub(crate) fn block_at(&self, address: u64) -> Option<usize>
        ensures { MatchOption result (AllAbove self.now address 0) (IsBlockAt self.now address) }
    {
        let index = self.index();
        let mut low = 0;
        let mut high = index.blocks;
        while low < high {
            let middle = low + (high - low) / 2;
            if self.header(usize::from(index.first[middle])).address <= address {
                low = middle + 1;
            } else {
                high = middle;
            }
        }
        if low == 0 {
            return None;
        }
        Some(usize::from(index.first[low - 1]))
    }

    /// Returns whether program header number `i` is a PT_LOAD that begins at or below `address`.
    fn begins_by(&self, i: usize, address: u64) -> bool
        requires { i < header_count self.now }
        ensures begins { result ≡ true → BeginsBy self.now address i }
        ensures order { has_bad_order self.now ≡ false }
    {
        let headers = self.headers();
        headers.is_load(i) && headers.nth(i).address <= address
    }

    /// Returns `second` if program header number `second` is a PT_LOAD that begins at or below
    /// `address`. Otherwise returns `first`.
    fn later(&self, first: usize, second: usize, address: u64) -> usize
        requires block { IsBlockAt self.now address first }
        requires order { first ≤ second }
        requires within { second < header_count self.now }
        ensures { IsBlockAt self.now address result }
    {
        if self.begins_by(second, address) {
            return second;
        }
        first
    }

    /// Returns the number of a header at or after `first`, from which a search for `address` can
    /// begin: all PT_LOADs before this header end at or below `address`, and all PT_LOADs that come
    /// at least a block after it begin above `address`. Both must hold of `first` too. Makes a
    /// binary search over a block. If all headers of the block are PT_LOADs, or every second header
    /// is, the result is the last PT_LOAD that begins at or below `address`.
    pub(crate) fn narrowed(&self, first: usize, address: u64) -> usize
        requires { IsBlockAt self.now address first }
        ensures { IsBlockAt self.now address result }
    {
        let count = self.header_count();
        let mut low = first;
        let mut step = BLOCK / 2;
        while step > 0 {
            if low + step < count {
                low = self.later(low, low + step, address);
            }
            step /= 2;
        }
        low
    }
}
