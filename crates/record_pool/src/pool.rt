ghost use Rattle.std.specs.Prelude.{◌≡◌, ◌+◌, ◌≤◌, ◌<◌, ◌++◌, length, drop, sum_by, set, [], Decides, IfOk, IfErr, OnErr};
ghost use Rattle.record_pool.specs.Chains.{numbers_from};
ghost use Rattle.record_pool.specs.Pools.{blocks_for, fresh_pool, chain_at, bytes_of, Belongs, with_bytes, without, no_room, Keeps, KeepsOthers};

use crate::chains::{BLOCK, after, copy_in, copy_out};
use crate::no_room::NoRoom;
use crate::reference::PoolRef;
use quota_table::OutOfMemory;
use std::alloc::Global;
use std::marker::Model;

/// Bytes by reference, in a fixed number of blocks. Contracts see the bytes of each reference, and how many blocks are free.
///
/// Each call costs as much as the blocks that it touches.
#[derive(Debug, Drop)]
pub struct RecordPool {
    /// The bytes of each block.
    blocks: Vec<[u8; 64]>,
    /// After each block, the next one of its chain.
    next: Vec<u32>,
    /// How many blocks the reference that begins at a block has; 0 where none begins there.
    counts: Vec<u32>,
    /// The first free block, where one is free.
    head: u32,
    /// How many blocks are free.
    free: u32,
}

impl Model for RecordPool {
    ghost use Rattle.record_pool.specs.Pools.{PoolState};

    ghost Value = { PoolState };

    ghost use Rattle.record_pool.specs.inside.Kept.{chains_from, IsWhole};
    ghost use Rattle.std.specs.Prelude.{length};

    ghost view = { λ p. record { free = p.free; chains = chains_from p.blocks.items p.next.items 0 p.counts.items } };

    ghost invariant = { λ p. IsWhole p.next.items p.counts.items p.head p.free (length p.blocks.items) };
}

impl RecordPool {
    /// A pool of this many blocks, all of them free. It takes all the memory of the pool.
    pub fn new(alloc: Global, blocks: u32) -> Result<RecordPool, OutOfMemory>
        ensures { IfOk result (λ pool. pool ≡ fresh_pool blocks) }
    {
        Ok(RecordPool {
            blocks: vec![in alloc; [0; 64]; blocks as usize]?,
            next: following(alloc, blocks)?,
            counts: vec![in alloc; 0; blocks as usize]?,
            head: 0,
            free: blocks,
        })
    }

    /// Keeps a copy of the bytes. NoRoom comes exactly where they need more blocks than are free, one where there are no bytes, and
    /// then all is as before.
    pub fn take(&mut self, bytes: &[u8]) -> Result<PoolRef, NoRoom>
        ensures room { IfOk result (λ _. blocks_for (length bytes.now) ≤ self.old.free) }
        ensures no_room { IfErr result (λ _. self.old.free < blocks_for (length bytes.now)) }
        ensures err { IfErr result (λ e. e ≡ no_room self.old bytes.now) }
        ensures unchanged { OnErr result (self.new ≡ self.old) }
        ensures fresh { IfOk result (λ item. chain_at self.old item.first ≡ []) }
        ensures pool { IfOk result (λ item. self.new ≡ with_bytes self.old item.first bytes.now) }
        ensures belongs { IfOk result (λ item. Belongs self.new item) }
        ensures bytes { IfOk result (λ item. bytes_of self.new item ≡ bytes.now) }
        ensures len { IfOk result (λ item. item.len ≡ length bytes.now) }
        ensures kept { IfOk result (λ _. Keeps self.old self.new) }
    {
        let need = needed(bytes.len());
        if need > u64::from(self.free) {
            return Err(NoRoom {
                free: self.free,
                need,
            });
        }
        Ok(self.take_first(need as u32, bytes))
    }

    /// Keeps a copy of the bytes in so many blocks, the first of those that are free.
    fn take_first(&mut self, count: u32, bytes: &[u8]) -> PoolRef
        requires count { count ≡ blocks_for (length bytes.now) }
        requires room { count ≤ self.old.free }
        ensures fresh { chain_at self.old result.first ≡ [] }
        ensures pool { self.new ≡ with_bytes self.old result.first bytes.now }
        ensures size { result.first < length self.old.chains }
        ensures len { result.len ≡ length bytes.now }
    {
        let first = self.head;
        self.head = copy_in(&mut self.blocks, &self.next, first, count, bytes);
        self.counts[first as usize] = count;
        self.free -= count;
        PoolRef::new(first, bytes.len())
    }

    /// Frees the blocks of a reference, which is used up.
    pub fn give(&mut self, item: PoolRef)
        requires { Belongs self.old item }
        ensures pool { self.new ≡ without self.old item }
        ensures kept { KeepsOthers item.first self.old self.new }
    {
        let first = item.first();
        let count = self.counts[first as usize];
        let last = after(&self.next, first, count - 1);
        self.next[last as usize] = self.head;
        self.head = first;
        self.counts[first as usize] = 0;
        self.free += count;
    }

    /// Copies the bytes of a reference to the front of `into`, and tells how many they are.
    pub fn read(&self, item: &PoolRef, into: &mut [u8]) -> usize
        requires belongs { Belongs self.now item.now }
        requires room { item.now.len ≤ length into.old }
        ensures count { result ≡ item.now.len }
        ensures bytes { into.new ≡ bytes_of self.now item.now ++ drop item.now.len into.old }
        ensures len { length (bytes_of self.now item.now) ≡ item.now.len }
    {
        let first = item.first();
        let count = self.counts[first as usize];
        copy_out(
            &self.blocks,
            &self.next,
            first,
            count,
            &mut into[..item.len()],
        );
        item.len()
    }

    /// Whether a reference belongs here: the pool has as many blocks for it as it needs.
    pub fn holds(&self, item: &PoolRef) -> bool
        ensures { Decides result (Belongs self.now item.now) }
    {
        let first = item.first() as usize;
        if first >= self.counts.len() {
            return false;
        }
        u64::from(self.counts[first]) == needed(item.len())
    }

    /// How many blocks are free. These and the blocks of all references that were not given back are all blocks.
    pub fn free_blocks(&self) -> u32
        ensures free { result ≡ self.now.free }
        ensures all { self.now.free + sum_by length self.now.chains ≡ length self.now.chains }
    {
        self.free
    }
}

/// How many blocks so many bytes need.
fn needed(len: usize) -> u64
    ensures { result ≡ blocks_for len }
{
    len.div_ceil(BLOCK).max(1) as u64
}

/// After each block the one with the next number.
fn following(alloc: Global, blocks: u32) -> Result<Vec<u32>, OutOfMemory>
    ensures { IfOk result (λ next. next.items ≡ numbers_from 1 blocks) }
{
    let mut next = Vec::with_capacity(alloc, blocks as usize)?;
    for number in 0..blocks {
        next.push(number + 1)?;
    }
    Ok(next)
}
