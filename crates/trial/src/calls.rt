// The cases of the block service: a run of calls over one volume.
use crate::headers::{NO_STATE, state_fields};
use crate::print::{begin, change_fields, end, field, fields, refusal_field};
use crate::script::{item, number, prefix, prepare, words_of};
use block_service::{
    BlockSize, Moved, Words, erase_blocks, get_attributes, get_block_size, get_physical_address,
    protect_blocks, read, set_attributes, write,
};
use common::Refusal;
use numbers::{store_bytes, u32_at, u64_at};
use std::io;
use volume::{State, open_volume};

// A run: the lent length and the base at opening, the header's bytes and the pattern behind them, a
// state in place of the one that opening answers (empty for none), the calls.
pub(crate) fn run_case(out: &impl Print, case: &[u8]) -> io::Result<()> {
    let mut volume = [0u8; 4096];
    prepare(item(case, 4), item(case, 5), &mut volume);
    let mut before = [0u8; 4096];
    let state = first_state(case, &volume);
    run(out, case, state, &mut volume, &mut before)
}

fn first_state(case: &[u8], volume: &[u8]) -> State {
    let given = item(case, 6);
    if !given.is_empty() {
        return given_state(given);
    }
    let lent = prefix(volume, number(case, 2) as usize);
    open_volume(lent, number(case, 3)).unwrap_or(NO_STATE)
}

// A state as the script gives it: GUID, length, attributes, base, edition, first protected block, entries, map words.
fn given_state(given: &[u8]) -> State {
    let mut guid = [0u8; 16];
    store_bytes(&mut guid, 0, item(given, 0));
    let mut map = [0u32; 64];
    words_of(item(given, 7), 4, |bytes| u32_at(bytes, 0), &mut map);
    State {
        guid,
        length: number(given, 1),
        attributes: u32_at(item(given, 2), 0),
        base: number(given, 3),
        edition: u32_at(item(given, 4), 0),
        protected: number(given, 5),
        entries: number(given, 6) as usize,
        map,
    }
}

// The calls are a list: their number, then each call.
fn run(
    out: &impl Print,
    case: &[u8],
    first: State,
    volume: &mut [u8],
    before: &mut [u8],
) -> io::Result<()> {
    let calls = item(case, 7);
    let mut state = first;
    for k in 0..number(calls, 0) {
        store_bytes(before, 0, volume);
        let call = item(calls, (k as usize).wrapping_add(1));
        one_call(out, case, call, &mut state, volume)?;
        change_fields(out, before, volume)?;
        end(out)?;
    }
    Ok(())
}

// A call is a list: which, by a number of the script's, and its arguments.
fn one_call(
    out: &impl Print,
    case: &[u8],
    call: &[u8],
    state: &mut State,
    volume: &mut [u8],
) -> io::Result<()> {
    match number(call, 0) {
        0 => {
            begin(out, case, "get attributes")?;
            answer_fields(out, get_attributes(state).map(u64::from))
        }
        1 => {
            begin(out, case, "set attributes")?;
            let set = set_attributes(state, u32_at(item(call, 1), 0));
            answer_fields(out, set.map(u64::from))?;
            state_fields(out, state)
        }
        2 => {
            begin(out, case, "get physical address")?;
            answer_fields(out, get_physical_address(state))
        }
        3 => size_call(out, case, call, state),
        4 => read_call(out, case, call, state, volume),
        5 => write_call(out, case, call, state, volume),
        6 => erase_call(out, case, call, state, volume),
        _ => {
            begin(out, case, "protect blocks")?;
            field(out, number(call, 1))?;
            done_field(out, protect_blocks(state, number(call, 1)))?;
            state_fields(out, state)
        }
    }
}

// 0 and the value, or the refusal.
fn answer_fields(out: &impl Print, answer: Result<u64, Refusal>) -> io::Result<()> {
    match answer {
        Ok(x) => fields(out, &[0, x]),
        Err(refusal) => refusal_field(out, refusal),
    }
}

// 0, or the refusal.
fn done_field(out: &impl Print, answer: Result<(), Refusal>) -> io::Result<()> {
    match answer {
        Ok(()) => field(out, 0),
        Err(refusal) => refusal_field(out, refusal),
    }
}

fn size_call(out: &impl Print, case: &[u8], call: &[u8], state: &State) -> io::Result<()> {
    begin(out, case, "get block size")?;
    field(out, number(call, 1))?;
    match get_block_size(state, number(call, 1)) {
        Ok(BlockSize { length, count }) => fields(out, &[0, length as u64, count as u64]),
        Err(refusal) => refusal_field(out, refusal),
    }
}

fn moved_fields(out: &impl Print, answer: Result<Moved, Refusal>) -> io::Result<()> {
    match answer {
        Ok(Moved::All(count)) => fields(out, &[0, count as u64]),
        Ok(Moved::Short(count)) => fields(out, &[4, count as u64]),
        Err(refusal) => refusal_field(out, refusal),
    }
}

// A read: the lent length, block, offset, the buffer's bytes before.
fn read_call(
    out: &impl Print,
    case: &[u8],
    call: &[u8],
    state: &State,
    volume: &[u8],
) -> io::Result<()> {
    let mut room = [0u8; 1024];
    let given = item(call, 4);
    store_bytes(&mut room, 0, given);
    let n = given.len().min(1024);
    let buffer = &mut room[..n];
    let lent = prefix(volume, number(call, 1) as usize);
    let (block, offset) = (number(call, 2), number(call, 3));
    begin(out, case, "read")?;
    fields(out, &[block, offset, n as u64])?;
    moved_fields(out, read(state, lent, block, offset as usize, buffer))?;
    change_fields(out, given, buffer)
}

// A write: the lent length, block, offset, the data.
fn write_call(
    out: &impl Print,
    case: &[u8],
    call: &[u8],
    state: &State,
    volume: &mut [u8],
) -> io::Result<()> {
    let n = volume.len().min(number(call, 1) as usize);
    let data = item(call, 4);
    let (block, offset) = (number(call, 2), number(call, 3));
    begin(out, case, "write")?;
    fields(out, &[block, offset, data.len() as u64])?;
    moved_fields(
        out,
        write(state, &mut volume[..n], block, offset as usize, data),
    )
}

// An erase: the lent length, the list's words.
fn erase_call(
    out: &impl Print,
    case: &[u8],
    call: &[u8],
    state: &State,
    volume: &mut [u8],
) -> io::Result<()> {
    let mut words = [0u64; 96];
    let given = item(call, 2);
    words_of(given, 8, |bytes| u64_at(bytes, 0), &mut words);
    let n = volume.len().min(number(call, 1) as usize);
    let k = words.len().min(given.len() / 8);
    begin(out, case, "erase blocks")?;
    field(out, k)?;
    done_field(
        out,
        erase_blocks(state, &mut volume[..n], Words(&words[..k])),
    )
}
