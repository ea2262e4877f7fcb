// What a call answers, and the bytes that a caller lends for it.
#![tactic(auto, unfolding(crate::specs::Answer::answer_stored, crate::specs::Answer::entry_words, crate::specs::Answer::last_count, common::specs::Answers::number_of, common::specs::Answers::values_of, block_service::specs::Service::moved_answer, volume::specs::ExtendedEntry::entry_answer))]

ghost use Rattle.std.specs.Prelude.{◌≡◌, ◌≤◌, length, refl, Result, Ok, Err};
ghost use Rattle.common.specs.Answers.{Answer, refused, number_of, values_of};
ghost use Rattle.common.specs.Refusal.{number};
ghost use Rattle.common.specs.declared.refusal.Refusal.{Refusal};
ghost use Rattle.block_service.specs.Service.{moved_answer};
ghost use Rattle.dependency.specs.Evaluation.{evaluated_answer};
ghost use Rattle.dependency.specs.Opcodes.{read_answer};
ghost use Rattle.sections.specs.Append.{appended_answer};
ghost use Rattle.sections.specs.Search.{found_answer};
ghost use Rattle.volume.specs.ExtendedEntry.{entry_answer};
ghost use Rattle.fv.specs.Answer.{answer_bytes, answer_stored, entry_refusal, entry_words, Gives, last_count, moved_refusal, two_stored};

use block_service::Moved;
use common::Refusal;
use dependency::Read;
use sections::search::Part;
use volume::ExtEntry;

// The bytes of an answer: two numbers of 64 bits.
pub(crate) const ANSWER_BYTES: usize = 16;

// What a call returns where fewer bytes are lent than it needs.
pub(crate) const TOO_FEW: u32 = Refusal::BufferTooSmall as u32;

// What a call returns, 0 for success or 4 for short, and the two numbers that it stores beside that.
#[derive(Clone, Copy, Debug, PartialEq, Eq)]
pub(crate) struct Outcome {
    number: u32,
    first: u64,
    second: u64,
}

impl Outcome {
    // Success.
    fn success(first: u64, second: u64) -> Outcome
        ensures { result ≡ record { number = 0; first = first; second = second } }
    {
        Outcome {
            number: 0,
            first,
            second,
        }
    }

    // Stores the two numbers at the start of an answer's bytes, and gives the number. What lies behind stays.
    fn store(self, answer: &mut [u8]) -> u32
        requires { answer_bytes ≤ length answer.old }
        ensures number { result ≡ self.number }
        ensures stored { answer.new ≡ two_stored self.first self.second answer.old }
    {
        store_two(self.first, self.second, answer);
        self.number
    }
}

// Stores two numbers at the start of an answer's bytes. The bytes are C's slice, whose length each call has tested. `first_chunk_mut` was tried: the last goal
// of each call that answers did not close. A function of its own, so that the compiler makes two stores of it before it sees that a number is a byte, as an
// opcode is: it then stored that byte by byte.
fn store_two(first: u64, second: u64, answer: &mut [u8])
    requires { answer_bytes ≤ length answer.old }
    ensures { answer.new ≡ two_stored first second answer.old }
{
    numbers::store(answer, 0, 8, first);
    numbers::store(answer, 8, 8, second);
}

// A value that a call answers.
pub(crate) trait Answered {
    // The answer of a result; a refusal's is its number.
    ghost answer: { Result Self Refusal → Answer };

    ghost refusal: { (e : Refusal) → answer (Err e) ≡ refused (number e) };

    fn outcome(self) -> Outcome
        ensures { Gives result (answer (Ok self)) };
}

// Gives what a call answered: its number, with the value's two numbers stored at the start of the answer's bytes. A refusal stores nothing.
pub(crate) fn give<T: Answered>(answered: Result<T, Refusal>, answer: &mut [u8]) -> u32
    requires { answer_bytes ≤ length answer.old }
    ensures number { result ≡ number_of (T.answer answered) }
    ensures stored { answer.new ≡ answer_stored (values_of (T.answer answered)) answer.old }
{
    match answered {
        Ok(value) => value.outcome().store(answer),
        Err(refusal) => u32::from(refusal.number()),
    }
}

// A read or a write: the count and 0; short is document 01's answer 4.
impl Answered for Moved {
    ghost answer = { moved_answer };

    ghost refusal = { moved_refusal };

    fn outcome(self) -> Outcome {
        match self {
            Moved::All(count) => Outcome::success(count as u64, 0),
            Moved::Short(count) => Outcome {
                number: 4,
                first: count as u64,
                second: 0,
            },
        }
    }
}

// The part that a search found: its first byte and its end.
impl Answered for Part {
    ghost answer = { found_answer };

    ghost refusal = { λ e. refl };

    fn outcome(self) -> Outcome {
        Outcome::success(self.first as u64, self.end as u64)
    }
}

// A count, as of the bytes used or written: the count and 0. It has one answer, whichever call counts; here the sections' definition stands for it.
impl Answered for usize {
    ghost answer = { appended_answer };

    ghost refusal = { λ e. refl };

    fn outcome(self) -> Outcome {
        Outcome::success(self as u64, 0)
    }
}

// An entry of an extended header: its first byte, and its size and type in one number.
impl Answered for ExtEntry {
    ghost answer = { λ entry. entry_words (entry_answer entry) };

    ghost refusal = { entry_refusal };

    fn outcome(self) -> Outcome {
        Outcome::success(
            self.first as u64,
            u64::from(self.size) + 65_536 * u64::from(self.entry_type),
        )
    }
}

// An opcode that was read, and the place after its operand.
impl Answered for Read {
    ghost answer = { read_answer };

    ghost refusal = { λ e. refl };

    fn outcome(self) -> Outcome {
        Outcome::success(u64::from(u8::from(self.opcode)), self.after as u64)
    }
}

// What an expression says: 1 or 0, and 0.
impl Answered for bool {
    ghost answer = { evaluated_answer };

    ghost refusal = { λ e. refl };

    fn outcome(self) -> Outcome {
        Outcome::success(u64::from(self), 0)
    }
}

// Gives what a list of writes came to: the last answer's number, and, also beside a refusal, how many writes succeeded and the last one's count.
pub(crate) fn give_list(written: write_orders::Written, answer: &mut [u8]) -> u32
    requires { answer_bytes ≤ length answer.old }
    ensures number { result ≡ number_of (moved_answer written.last) }
    ensures stored { answer.new ≡ two_stored written.count (last_count (moved_answer written.last)) answer.old }
{
    let first = written.count as u64;
    let (number, second) = match written.last {
        Ok(Moved::All(moved)) => (0, moved as u64),
        Ok(Moved::Short(moved)) => (4, moved as u64),
        Err(refusal) => (u32::from(refusal.number()), 0),
    };
    Outcome {
        number,
        first,
        second,
    }
    .store(answer)
}
