ghost use Rattle.std.specs.Prelude.{◌≡◌, ◌≤◌, ◌*◌, ◌++◌, length, take};
ghost use Rattle.std.specs.List.{concat};
ghost use Rattle.record_pool.specs.Chains.{chain, walk, contents, put_all};
ghost use Rattle.record_pool.specs.inside.Kept.{Below};
ghost use Rattle.record_pool.specs.Pools.{whole_block, laid_out};

/// How many bytes a block has.
pub const BLOCK: usize = 64;

/// The block that comes `steps` after a block.
pub(crate) fn after(next: &[u32], first: u32, steps: u32) -> u32
    requires { Below (length next.now) (chain next.now first steps) }
    ensures { result ≡ walk next.now first steps }
{
    let mut at = first;
    for _i in 0..steps {
        at = next[at as usize];
    }
    at
}

/// Writes bytes into the first `count` blocks of a chain, and tells the block that comes after them.
pub(crate) fn copy_in(
    blocks: &mut [[u8; 64]],
    next: &[u32],
    first: u32,
    count: u32,
    bytes: &[u8],
) -> u32
    requires same { length next.now ≡ length blocks.old }
    requires below { Below (length next.now) (chain next.now first count) }
    ensures after { result ≡ walk next.now first count }
    ensures blocks { blocks.new ≡ put_all blocks.old (chain next.now first count) (laid_out count bytes.now) }
{
    let mut at = first;
    let mut rest = bytes;
    for _i in 0..count {
        let (part, later) = rest.split_at(rest.len().min(BLOCK));
        blocks[at as usize] = block_of(part);
        at = next[at as usize];
        rest = later;
    }
    at
}

/// A block that begins with these bytes, and has zeros after them.
fn block_of(part: &[u8]) -> [u8; 64]
    requires { length part.now ≤ 64 }
    ensures { result ≡ whole_block part.now }
{
    let mut block = [0; BLOCK];
    block[..part.len()].copy_from_slice(part);
    block
}

/// Reads the first bytes of a chain of `count` blocks, as many as there is room for.
pub(crate) fn copy_out(blocks: &[[u8; 64]], next: &[u32], first: u32, count: u32, into: &mut [u8])
    requires same { length next.now ≡ length blocks.now }
    requires below { Below (length next.now) (chain next.now first count) }
    requires room { length into.old ≤ 64 * count }
    ensures len { length into.new ≡ length into.old }
    ensures bytes { into.new ≡ take (length into.old) (concat (contents blocks.now (chain next.now first count))) }
{
    let mut at = first;
    let mut done = 0;
    for _i in 0..count {
        let len = (into.len() - done).min(BLOCK);
        copy_front(&blocks[at as usize], &mut into[done..done + len]);
        done += len;
        at = next[at as usize];
    }
}

/// Reads the first bytes of a block, as many as there is room for.
fn copy_front(block: &[u8; 64], into: &mut [u8])
    requires { length into.old ≤ 64 }
    ensures front { into.new ≡ take (length into.old) block.now }
    ensures whole { length block.now ≡ 64 }
{
    into.copy_from_slice(&block[..into.len()]);
}
