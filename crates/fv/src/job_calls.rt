// The erase in two operations, from C: accepting a list, and carrying its job on. The job is 8 bytes that the caller lends, and may keep over a reboot.
#![tactic(auto, unfolding(crate::specs::JobCalls::accept_call, crate::specs::JobCalls::carry_call, crate::specs::JobCalls::job_stored, block_service::specs::Service::accepted_answer, block_service::specs::Service::progress_answer, common::specs::Refusals::first_refusal, common::specs::Answers::number_of, common::specs::Answers::values_of), using(std::proofs::lemmas::Bool::Decides::nat_tests, crate::proofs::packed::Packing::unpacked_front))]

ghost use Rattle.std.specs.Prelude.{[], ◌∷◌, ◌++◌, ◌≡◌, ◌≤◌, length, drop};
ghost use Rattle.numbers.specs.LittleEndian.{le_bytes};
ghost use Rattle.fv.specs.Called.{called};
ghost use Rattle.fv.specs.JobCalls.{accept_call, carry_call, job_bytes};

use crate::answer::TOO_FEW;
use crate::packed::unpack;
use block_service::{ByteWords, Progress, accept_erase, carry_erase};

// The bytes of a job: a number of 64 bits.
const JOB_BYTES: usize = 8;

// Accepts an erase list, lent as bytes as fv_erase has it, and stores its job in the first 8 bytes lent for it. Nothing is stored in the volume. Refused with 5 (fewer than
// 304 bytes of state or 8 of job), 111 (the state's bytes hold no lawful one), 5 (the volume), 15, 2 (a bad list), 15 (a block of the list is protected).
pub fn fv_accept_erase(state: &[u8], volume: &[u8], list: &[u8], job: &mut [u8]) -> u32
    ensures { called result (job.new ∷ []) ≡ accept_call state.now volume.now list.now job.old }
{
    let Some(state) = state.first_chunk() else {
        return TOO_FEW;
    };
    if job.len() < JOB_BYTES {
        return TOO_FEW;
    }
    match accept_erase(&unpack(state), volume, ByteWords(list)) {
        Ok(answered) => {
            store_job(job, answered);
            0
        }
        Err(refusal) => u32::from(refusal.number()),
    }
}

// Carries a job of the list on by so many byte stores, or by what is left if fewer. Returns 0 where nothing is left then, and otherwise 4, with the job as it now stands in
// the first 8 bytes of job. Refused with 5 (fewer than 304 bytes of state or 8 of job), 111 (the state's bytes hold no lawful one), 5 (the volume), 15, 2 (a bad list, or a job that this
// map and list never give), 15 (a block of the list is protected).
pub fn fv_carry_erase(
    state: &[u8],
    volume: &mut [u8],
    list: &[u8],
    job: &mut [u8],
    stores: u64,
) -> u32
    ensures { called result (volume.new ∷ job.new ∷ []) ≡ carry_call state.now volume.old list.now job.old stores }
{
    let Some(state) = state.first_chunk() else {
        return TOO_FEW;
    };
    if job.len() < JOB_BYTES {
        return TOO_FEW;
    }
    let last = numbers::u64_at(job, 0);
    match carry_erase(&unpack(state), volume, ByteWords(list), last, stores) {
        Ok(Progress::Finished) => 0,
        Ok(Progress::Job(answered)) => {
            store_job(job, answered);
            4
        }
        Err(refusal) => u32::from(refusal.number()),
    }
}

// Stores a job at the start of the bytes lent for it; what lies behind stays.
fn store_job(job: &mut [u8], answered: u64)
    requires { job_bytes ≤ length job.old }
    ensures { job.new ≡ le_bytes job_bytes answered ++ drop job_bytes job.old }
{
    numbers::store(job, 0, JOB_BYTES, answered);
}
