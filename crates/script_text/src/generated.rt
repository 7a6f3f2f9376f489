//! The plan that is generated from a seed and a size.

ghost use Rattle.std.specs.Prelude.{◌≡◌, ◌≤◌, ◌++◌, decimal, IfOk, OnOk};
ghost use Rattle.script_text.specs.Generated.{seeded, submit_line, submit_lines, generated_head, generated_plan};

use itoa::Buffer;
use quota_table::{Bytes, OutOfMemory};
use rand_core::SeedableRng;
use rand_core::utils::NextWord;
use rand_pcg::Pcg32;
use std::alloc::Global;

/// What putting text at the end answers: it is done, or memory was refused.
type Put = Result<(), OutOfMemory>;

/// How many submitters the plan has.
const SUBMITTERS: u32 = 4;

/// How many numbers a body is one of.
const NUMBERS: u32 = 1_000;

/// The head up to the seed of the faults.
const HEAD: &[u8] =
    b"belfast-plan 1\nseqs 3\nshards 3\nwindow 16 0:4 1:4 2:4\nclients 0 1 2 0\nconsumers 2 tally\n\
readers 0 1 0 1\nsubmitters 0 1 2 3\nfaults ";

/// What follows that seed in the head.
const AFTER_SEED: &[u8] = b" 5 2 2 0\ndrain 120000 300\n";

/// The lines after the bodies.
const END: &[u8] =
    b"episode 400\nrestart s1b\nepisode 400\nremove q0 2\nepisode 400\nrestart k0\nepisode 400\n";

/// The text of a plan of `size` bodies for each of four submitters, 1 to 2,000: three sequencers, three shards, one of which leaves,
/// a replica and a consumer that come back, four readers and four episodes. The bodies are numbers below 1,000, made of the words of
/// the seed, which is that of the faults too. The text depends on the seed and the size alone.
#[tactic(auto, using(std::proofs::Common::append_assoc), unfolding(crate::specs::Generated::generated_plan, crate::specs::Generated::generated_end))]
pub fn generate(alloc: Global, seed: u32, size: u32) -> Result<Bytes, OutOfMemory>
    requires least { 1 ≤ size }
    requires most { size ≤ 2000 }
    ensures { IfOk result (λ text. text ≡ generated_plan seed size) }
{
    let mut text = Bytes::new(alloc);
    put_head(&mut text, seed)?;
    put_bodies(&mut text, seed, SUBMITTERS * size)?;
    text.extend_from_slice(END)?;
    Ok(text)
}

fn put_head(text: &mut Bytes, seed: u32) -> Put
    ensures { OnOk result (text.new ≡ text.old ++ generated_head seed) }
{
    put_number(text, HEAD, seed)?;
    text.extend_from_slice(AFTER_SEED)
}

/// Puts so many bodies at the end, the submitters' in turn.
#[tactic(auto, using(crate::proofs::GeneratedLemmas::one_more))]
fn put_bodies(text: &mut Bytes, seed: u32, count: u32) -> Put
    ensures { OnOk result (text.new ≡ text.old ++ submit_lines 0 count (seeded seed)) }
{
    let mut words = Pcg32::seed_from_u64(u64::from(seed));
    for k in 0..count {
        let number = words.next_word() % NUMBERS;
        put_submit(text, k % SUBMITTERS, number)?;
    }
    Ok(())
}

#[tactic(auto, using(std::proofs::Common::append_assoc), unfolding(crate::specs::Generated::submit_line))]
fn put_submit(text: &mut Bytes, by: u32, number: u32) -> Put
    ensures { OnOk result (text.new ≡ text.old ++ submit_line by number) }
{
    put_number(text, b"submit ", by)?;
    put_number(text, b" ", number)?;
    text.push(b'\n')
}

/// Puts words at the end, and the number that follows them.
fn put_number(text: &mut Bytes, words: &[u8], number: u32) -> Put
    ensures { OnOk result (text.new ≡ text.old ++ words.now ++ decimal number) }
{
    text.extend_from_slice(words)?;
    text.extend_from_slice(Buffer::new().format(number).as_bytes())
}
