// The calls that erase: an erase, and the same in two operations, an acceptance and carryings on. Each takes its list as words or as bytes.
//
// Every call answers every state and every argument. The answer, and the whole contents of the volume afterwards, are those of `step` in
// specs/Service. A call costs a test of the state, passes over the list, a scan of the map for each run of blocks, and the bytes that it
// stores.
ghost use Rattle.std.specs.Prelude.{true, ◌||◌, [], ◌≡◌, ◌≤◌, ℕ, eqb, ltb, length};
ghost use Rattle.volume.specs.BlockMap.{blocks, bytes, max_length, max_blocks};
ghost use Rattle.block_service.specs.Carry.{Progressed};
ghost use Rattle.block_service.specs.Erase.{good_list};
ghost use Rattle.block_service.specs.Service.{step, result_of, erase_blocks, accept_erase, carry_erase};
ghost use Rattle.block_service.specs.Service.{erased_answer, accepted_answer, progress_answer};

use crate::carry::{Portion, carry_list};
use crate::erase::{EraseList, erased_byte, list_reaches, list_refusal};
use crate::judged::write_refusal;
use common::Refusal;
use volume::State;

// What carrying a job on answers: nothing is left, or the job as it now stands.
#[derive(Clone, Copy, Debug, PartialEq, Eq)]
pub enum Progress {
    Finished,
    Job(u64),
}

// Erases the blocks that a list names: pairs of first block and count, ended by END_OF_LIST. Refused with 111, 5, 15
// (writes are disabled), 2 (a bad list) or 15 (a block of the list is protected). The whole list is verified before a byte
// is stored, so that a refusal changes none. Costs two passes over the list, a map scan for each run of blocks not named before, and their
// bytes; from the first pair on that starts before the end of an earlier one, also a mark for each block named, 8 KiB in all.
pub fn erase_blocks<L: EraseList>(state: &State, volume: &mut [u8], list: L) -> Result<(), Refusal>
    ensures { result_of (erased_answer result) state.now volume.new [] ≡ step state.now volume.old (erase_blocks (L.words list)) }
{
    write_refusal(state, volume.len() as u64)?;
    list_refusal(state.block_count(), state.protected, list)?;
    let portion = Portion {
        value: erased_byte(state.attributes),
        from: 0,
        to: volume.len(),
    };
    carry_list(state.map_words(), volume, list, portion);
    Ok(())
}

// Accepts an erase list: answers the job, which is a place in the order of its bytes, and stores nothing. Blocks go as the list first
// names them, bytes upward, each once. Refused as the erase is: with 111, 5, 15 (writes are disabled), 2 (a bad list) or 15 (a block of
// the list is protected). The job is 0 for every list that is accepted. Costs one pass over the list.
pub fn accept_erase<L: EraseList>(state: &State, volume: &[u8], list: L) -> Result<u64, Refusal>
    ensures { result_of (accepted_answer result) state.now volume.now [] ≡ step state.now volume.now (accept_erase (L.words list)) }
{
    write_refusal(state, volume.len() as u64)?;
    list_refusal(state.block_count(), state.protected, list)?;
    Ok(0)
}

// Carries a job of a list on by so many byte stores, or by what is left if fewer: the next bytes of the order get the erase value, and no
// other byte changes. Answers finished where nothing is left then, otherwise the job as it now stands, which is what the next call
// takes. Refused with 111, 5, 15 (writes are disabled), 2 (a bad list, or a job that this map and list never give) or 15 (a block of the
// list is protected), and then no byte changes. Costs three passes over the list, in the last two a map scan for each run of blocks not named
// before, and the bytes that it stores; the marks are those of the erase.
pub fn carry_erase<L: EraseList>(
    state: &State,
    volume: &mut [u8],
    list: L,
    job: u64,
    stores: u64,
) -> Result<Progress, Refusal>
    ensures { result_of (progress_answer result) state.now volume.new [] ≡ step state.now volume.old (carry_erase (L.words list) job stores) }
{
    write_refusal(state, volume.len() as u64)?;
    let reached = list_reaches(state.block_count(), state.protected, list)?;
    let value = erased_byte(state.attributes);
    carry_good(state.map_words(), volume, list, value, reached, job, stores)
}

// Carries a job of a good list on, which reaches a protected block or not: counts the bytes of the order, judges the job, and stores. Its seven
// parameters meet at its one call; a struct of them would be made there, and taken apart here.
fn carry_good<L: EraseList>(
    words: &[u32],
    volume: &mut [u8],
    list: L,
    value: u8,
    reached: bool,
    job: u64,
    stores: u64,
) -> Result<Progress, Refusal>
    requires words_bound { (bytes words.now ≤ max_length) × (blocks words.now ≤ max_blocks) }
    requires words_in_bounds { bytes words.now ≤ length volume.old }
    requires list_value { good_list (blocks words.now) (L.words list) ≡ true }
    ensures { Progressed words.now (L.words list) value reached job stores volume.old result volume.new }
{
    let from = job as usize;
    let none = Portion {
        value,
        from: 0,
        to: 0,
    };
    let all = carry_list(words, volume, list, none);
    if !job_given(all, from) {
        return Err(Refusal::InvalidParameter);
    }
    if reached {
        return Err(Refusal::AccessDenied);
    }
    let left = all - from;
    let most = stores as usize;
    if left <= most {
        let rest = Portion {
            value,
            from,
            to: all,
        };
        carry_list(words, volume, list, rest);
        return Ok(Progress::Finished);
    }
    let to = from + most;
    carry_list(words, volume, list, Portion { value, from, to });
    Ok(Progress::Job(to as u64))
}

// Whether a list whose order has so many bytes gives this job.
fn job_given(all: usize, job: usize) -> bool
    ensures { result ≡ (eqb job 0 || ltb job all) }
{
    job == 0 || job < all
}
