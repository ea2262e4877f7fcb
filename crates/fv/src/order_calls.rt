// Many writes in one call, from C: the list of orders comes as bytes.
#![tactic(auto, unfolding(crate::specs::OrderCalls::write_list_call, write_orders::specs::Orders::written_of, common::specs::Refusals::first_refusal), using(std::proofs::lemmas::Bool::Decides::nat_tests, crate::proofs::packed::Packing::unpacked_front))]

ghost use Rattle.std.specs.Prelude.{[], ◌∷◌, ◌≡◌};
ghost use Rattle.fv.specs.Called.{called};
ghost use Rattle.fv.specs.OrderCalls.{write_list_call};

use crate::answer::{ANSWER_BYTES, TOO_FEW, give_list};
use crate::packed::unpack;
use write_orders::{ByteOrders, write_orders};

// Carries out the orders one after the other, up to the first answer that is not success; they are lent as bytes, 32 to an order: four numbers of 64 bits (block, offset, first
// byte and length of the stretch of the source). Up to 31 bytes behind the last whole order are ignored. Returns the last answer's number, and stores how many writes succeeded and
// the last one's count, 0 where it was refused. Refused with 5 (fewer than 304 bytes of state or 16 of answer), which leaves every range; then as `write_orders`.
pub fn fv_write_list(
    state: &[u8],
    volume: &mut [u8],
    orders: &[u8],
    source: &[u8],
    answer: &mut [u8],
) -> u32
    ensures { called result (volume.new ∷ answer.new ∷ [])
        ≡ write_list_call state.now volume.old orders.now source.now answer.old }
{
    let Some(state) = state.first_chunk() else {
        return TOO_FEW;
    };
    if answer.len() < ANSWER_BYTES {
        return TOO_FEW;
    }
    let written = write_orders(&unpack(state), volume, ByteOrders(orders), source);
    give_list(written, answer)
}
