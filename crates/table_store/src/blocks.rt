//! Rows that move on from block to block.

ghost use Rattle.std.specs.Prelude.{◌≡◌, ◌<◌, ◌≤◌, ◌+◌, ◌-◌, ◌*◌, [], ◌∷◌, ◌++◌, length, take};
ghost use Rattle.std.specs.Prelude.{drop, slice_index_or, slice_set};
ghost use Rattle.std.specs.List.{insert, remove};
ghost use Rattle.table_store.specs.Blocks.{joined, Full, Packed, Lacks};

use crate::block::Block;
use row_types::Row;

/// Puts a row before those of a block and of the blocks after it. Each full block hands its last
/// row on.
pub fn push_down(blocks: &mut Vec<Block>, from: usize, row: Row)
    requires place { from ≤ length blocks.old.items }
    requires before { Full (take from blocks.old.items) }
    requires packed { Packed (drop from blocks.old.items) }
    requires room { length (joined (drop from blocks.old.items)) < 1024 *
        (length blocks.old.items - from) }
    ensures rows { joined blocks.new.items ≡ joined (take from blocks.old.items) ++ row ∷ joined
        (drop from blocks.old.items) }
    ensures packed { Packed blocks.new.items }
    ensures len { length blocks.new.items ≡ length blocks.old.items }
{
    let mut carry = row;
    let mut at = from;
    while blocks[at].len() == 1024 {
        let last = blocks[at].pop_back();
        blocks[at].push_front(carry);
        carry = last;
        at += 1;
    }
    blocks[at].push_front(carry);
}

// The number of rows in a block; none where there is no block.
fn len_at(blocks: &[Block], at: usize) -> usize
    ensures { result ≡ length (slice_index_or blocks.now at []) }
{
    match blocks.get(at) {
        Some(block) => block.len(),
        None => 0,
    }
}

/// Fills the place of a row that a block lacks from the blocks after it.
pub fn pull_up(blocks: &mut Vec<Block>, from: usize)
    requires place { from < length blocks.old.items }
    requires before { Full (take from blocks.old.items) }
    requires lacks { Lacks (drop from blocks.old.items) }
    ensures rows { joined blocks.new.items ≡ joined blocks.old.items }
    ensures packed { Packed blocks.new.items }
    ensures len { length blocks.new.items ≡ length blocks.old.items }
{
    let mut at = from;
    while len_at(blocks, at + 1) > 0 {
        let row = blocks[at + 1].pop_front();
        blocks[at].push_back(row);
        at += 1;
    }
}

/// Puts a row in at a place of a block, and hands the rest on.
pub fn insert_in(blocks: &mut Vec<Block>, at: usize, off: usize, row: Row)
    requires packed { Packed blocks.old.items }
    requires within { off < 1024 }
    requires place { 1024 * at + off ≤ length (joined blocks.old.items) }
    requires room { length (joined blocks.old.items) < 1024 * length blocks.old.items }
    ensures rows { joined blocks.new.items ≡ insert (joined blocks.old.items) (1024 * at + off) row }
    ensures packed { Packed blocks.new.items }
    ensures len { length blocks.new.items ≡ length blocks.old.items }
{
    if blocks[at].len() == 1024 {
        let last = blocks[at].pop_back();
        blocks[at].insert_at(off, row);
        push_down(blocks, at + 1, last);
    } else {
        blocks[at].insert_at(off, row);
    }
}

/// Puts a row after all others, in the block in which its place is.
pub fn push_in(blocks: &mut Vec<Block>, at: usize, row: Row)
    requires packed { Packed blocks.old.items }
    requires start { 1024 * at ≤ length (joined blocks.old.items) }
    requires end { length (joined blocks.old.items) < 1024 * at + 1024 }
    requires room { length (joined blocks.old.items) < 1024 * length blocks.old.items }
    ensures rows { joined blocks.new.items ≡ joined blocks.old.items ++ row ∷ [] }
    ensures packed { Packed blocks.new.items }
    ensures len { length blocks.new.items ≡ length blocks.old.items }
{
    blocks[at].push_back(row);
}

/// Takes a row out at a place of a block, and fills its place from the blocks after.
pub fn remove_in(blocks: &mut Vec<Block>, at: usize, off: usize) -> Row
    requires packed { Packed blocks.old.items }
    requires within { off < 1024 }
    requires place { 1024 * at + off < length (joined blocks.old.items) }
    ensures row { result ≡ slice_index_or (joined blocks.old.items) (1024 * at + off) result }
    ensures rows { joined blocks.new.items ≡ remove (joined blocks.old.items) (1024 * at + off) }
    ensures packed { Packed blocks.new.items }
    ensures len { length blocks.new.items ≡ length blocks.old.items }
{
    let row = blocks[at].remove_at(off);
    pull_up(blocks, at);
    row
}

/// Puts a row in the place of another.
pub fn replace_in(blocks: &mut Vec<Block>, at: usize, off: usize, row: Row) -> Row
    requires packed { Packed blocks.old.items }
    requires within { off < 1024 }
    requires place { 1024 * at + off < length (joined blocks.old.items) }
    ensures row { result ≡ slice_index_or (joined blocks.old.items) (1024 * at + off) result }
    ensures rows { joined blocks.new.items ≡ slice_set (joined blocks.old.items) (1024 * at + off)
        row }
    ensures packed { Packed blocks.new.items }
    ensures len { length blocks.new.items ≡ length blocks.old.items }
{
    blocks[at].replace_at(off, row)
}

/// The row at a place of a block.
pub fn row_in(blocks: &Vec<Block>, at: usize, off: usize) -> &Row
    requires packed { Packed blocks.now.items }
    requires within { off < 1024 }
    requires place { 1024 * at + off < length (joined blocks.now.items) }
    ensures { result.now ≡ slice_index_or (joined blocks.now.items) (1024 * at + off) result.now }
{
    blocks[at].row_at(off)
}
