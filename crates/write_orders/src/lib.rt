// Many writes in one call (document 02, e): a lent list of write orders, each with a block, an offset, and the stretch of a
// shared data buffer that it stores. The result is that of single writes in list order up to the first answer that is not success.
//
// Every public function answers every input and has no `requires`. What was stored before a refusal stays. The state is tested once for
// the list: a write changes neither it nor the volume's length, on which 111, 5 and 15 hang.
#![tactic(auto)]

ghost use Rattle.std.specs.Prelude.{[], List, ◌≡◌, length, slice_get};
ghost use Rattle.std.proofs.Math.Option.{none};
ghost use Rattle.common.specs.Refusals.{first_refusal};
ghost use Rattle.volume.specs.Attributes.{write_status};
ghost use Rattle.block_service.specs.Service.{step, result_of, moved_answer, lent_refusals};
ghost use Rattle.isolation.specs.Runs.{is_success};
ghost use Rattle.write_orders.specs.Orders.{call_of, write_array, write_orders, written_of, order_at, orders_in};
ghost use Rattle.write_orders.specs.declared.Order.{Order};

use block_service::{Moved, write_judged, write_refusal};
use common::Refusal;
use numbers::u64_at;
use volume::State;

// The largest number of orders that a list may have.
const MOST_ORDERS: usize = 64;

// The bytes of an order in a list that comes as bytes.
const ORDER_BYTES: usize = 32;

// A write order: from an offset of a block on, the stretch of the data buffer that begins at byte `first` and has `len` bytes.
#[derive(Clone, Copy, Debug, PartialEq, Eq)]
pub struct Order {
    pub block: u64,
    pub offset: usize,
    pub first: usize,
    pub len: usize,
}

// How many writes succeeded, and the last answer.
#[derive(Clone, Copy, Debug, PartialEq, Eq)]
pub struct Written {
    pub count: usize,
    pub last: Result<Moved, Refusal>,
}

// A list of orders, which are copied out one by one.
pub trait OrderList: Copy {
    ghost orders: { Self → List Order };

    // The number of orders.
    fn len(self) -> usize
        ensures { result ≡ length (orders self) };

    // Order i, where there is one.
    fn order(self, i: usize) -> Option<Order>
        ensures { result ≡ slice_get (orders self) i };
}

// A list that comes as orders.
impl<'a> OrderList for &'a [Order] {
    ghost orders = { λ list. list.now };

    fn len(self) -> usize {
        <[Order]>::len(self)
    }

    fn order(self, i: usize) -> Option<Order> {
        self.get(i).copied()
    }
}

// A list that comes as bytes, as in memory that C lends: 32 to an order, four little-endian numbers of 64 bits (block, offset, first
// byte and length of the stretch). Up to 31 bytes behind the last whole order are ignored.
#[derive(Clone, Copy)]
pub struct ByteOrders<'a>(pub &'a [u8]);

impl<'a> OrderList for ByteOrders<'a> {
    ghost orders = { λ list. orders_in list.0.now };

    #[tactic(auto, using(crate::proofs::OrderBytes::orders_length))]
    fn len(self) -> usize {
        self.0.len() / ORDER_BYTES
    }

    fn order(self, i: usize) -> Option<Order> {
        let (orders, _) = self.0.as_chunks();
        let bytes = orders.get(i)?;
        Some(order_of(bytes))
    }
}

// The order that 32 bytes hold.
#[tactic(auto, unfolding(crate::specs::Orders::order_at))]
fn order_of(bytes: &[u8; ORDER_BYTES]) -> Order
    ensures { result ≡ order_at bytes.now 0 }
{
    Order {
        block: u64_at(bytes, 0),
        offset: u64_at(bytes, 8) as usize,
        first: u64_at(bytes, 16) as usize,
        len: u64_at(bytes, 24) as usize,
    }
}

// Carries out the orders one after the other, up to the first answer that is not success. Refused with 2 for more than 64 orders; an
// empty list answers success and 0; then, at each order's turn, 111, 5, 15 (writes are disabled), 2 (the stretch leaves the data, also
// an empty one that begins behind its end), 2 (no such block) or 15 (the block is protected). A short write ends the list and is not
// counted; its bytes stay. Costs one test of the state, and for each order a scan of the map and the bytes that it stores.
#[tactic(auto, using(crate::proofs::Carried::ends_shown))]
pub fn write_orders<L: OrderList>(
    state: &State,
    volume: &mut [u8],
    orders: L,
    source: &[u8],
) -> Written
    ensures { written_of result volume.new ≡ write_orders state.now source.now volume.old (L.orders orders) }
{
    let n = orders.len();
    if MOST_ORDERS < n {
        return Written {
            count: 0,
            last: Err(Refusal::InvalidParameter),
        };
    }
    let mut last = Ok(Moved::All(0));
    if n == 0 {
        return Written { count: 0, last };
    }
    if let Err(refusal) = write_refusal(state, volume.len() as u64) {
        return Written {
            count: 0,
            last: Err(refusal),
        };
    }
    for i in 0..n {
        // The list has an order of each number below its length: that is proved, and `unwrap` tests nothing.
        let order = orders.order(i).unwrap();
        last = write_order(state, volume, order, source);
        if !succeeded(last) {
            return Written { count: i, last };
        }
    }
    Written { count: n, last }
}

// The same with the first `used` orders of an array, for programs in Rattle. Refused with 2 where
// `used` is more than 64. The array is copied once.
// It stays beside `write_orders`, with its number of orders apart, since callers and the edit whole_array hold it.
#[tactic(auto, unfolding(crate::specs::Orders::written_of, crate::specs::Orders::write_array, block_service::specs::Service::moved_answer))]
pub fn write_order_array(
    state: &State,
    volume: &mut [u8],
    array: [Order; 64],
    used: usize,
    source: &[u8],
) -> Written
    ensures { written_of result volume.new ≡ write_array state.now source.now volume.old array used }
{
    if MOST_ORDERS < used {
        return Written {
            count: 0,
            last: Err(Refusal::InvalidParameter),
        };
    }
    write_orders(state, volume, &array[..used], source)
}

// Whether a write moved all its bytes.
#[tactic(auto, unfolding(block_service::specs::Service::moved_answer, isolation::specs::Runs::is_success))]
fn succeeded(answer: Result<Moved, Refusal>) -> bool
    ensures { result ≡ is_success (moved_answer answer) }
{
    matches!(answer, Ok(Moved::All(_)))
}

// One order carried out, where 111, 5 and 15 are not due: 2 for a stretch that leaves the data, then the write.
fn write_order(
    state: &State,
    volume: &mut [u8],
    order: Order,
    source: &[u8],
) -> Result<Moved, Refusal>
    requires { first_refusal (lent_refusals state.now (length volume.old) write_status) ≡ none }
    ensures { result_of (moved_answer result) state.now volume.new [] ≡ step state.now volume.old (call_of state.now source.now order) }
{
    let Some(rest) = source.get(order.first..) else {
        return Err(Refusal::InvalidParameter);
    };
    if rest.len() < order.len {
        return Err(Refusal::InvalidParameter);
    }
    write_judged(
        state.attributes,
        state.protected,
        state.map_words(),
        volume,
        order.block,
        order.offset,
        &rest[..order.len],
    )
}
