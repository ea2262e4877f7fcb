// The cases of headers: opening, writing, listing, the word sum, the extended header's entries.
use crate::print::{
    begin, bytes_field, change_fields, end, field, fields, lines_field, refusal_field, text,
    words_field,
};
use crate::script::{item, number, prefix, prepare, words_of};
use listing::list_volume;
use numbers::{store_bytes, u16_at, u32_at};
use std::io;
use volume::{Edition, ExtEntry, State, ext_entry, open_volume, word_sum, write_header};

// The most bytes of a volume that is opened.
const VOLUME: usize = 4096;

// The state that is printed beside a refusal of opening, and that later calls are then made with.
pub(crate) const NO_STATE: State = State {
    guid: [0; 16],
    length: 0,
    attributes: 0,
    edition: 0,
    base: 0,
    protected: 0,
    entries: 0,
    map: [0; 64],
};

// Opening: the lent length, the base, the header's bytes, the pattern behind them.
pub(crate) fn open_case(out: &impl Print, case: &[u8]) -> io::Result<()> {
    let mut volume = [0u8; VOLUME];
    prepare(item(case, 4), item(case, 5), &mut volume);
    begin(out, case, "open")?;
    let lent = prefix(&volume, number(case, 2) as usize);
    match open_volume(lent, number(case, 3)) {
        Ok(state) => {
            field(out, 0)?;
            state_fields(out, &state)?;
        }
        Err(refusal) => {
            refusal_field(out, refusal)?;
            state_fields(out, &NO_STATE)?;
        }
    }
    end(out)
}

// A state: length, attributes, edition, first protected block, entries, base, GUID, map words.
pub(crate) fn state_fields(out: &impl Print, state: &State) -> io::Result<()> {
    field(out, state.length)?;
    field(out, state.attributes)?;
    field(out, state.edition)?;
    field(out, state.protected)?;
    field(out, state.entries)?;
    field(out, state.base)?;
    bytes_field(out, &state.guid)?;
    words_field(out, &state.map)
}

// Writing a header: the room's length, the GUID, the volume's length, the attributes, the map's
// words, the pattern and the bytes that the room holds before; of edition 2, the offset too.
pub(crate) fn write_case(out: &impl Print, case: &[u8]) -> io::Result<()> {
    write_call(out, case, "write header", Edition::Framework)
}

pub(crate) fn write_pi_case(out: &impl Print, case: &[u8]) -> io::Result<()> {
    let ext_header_offset = u16_at(item(case, 9), 0);
    write_call(
        out,
        case,
        "write pi header",
        Edition::Pi { ext_header_offset },
    )
}

fn write_call(out: &impl Print, case: &[u8], call: &str, edition: Edition) -> io::Result<()> {
    let mut guid = [0u8; 16];
    store_bytes(&mut guid, 0, item(case, 3));
    let attributes = u32_at(item(case, 5), 0);
    let given = item(case, 6);
    let mut words = [0u32; 80];
    words_of(given, 4, |bytes| u32_at(bytes, 0), &mut words);
    let map = &words[..words.len().min(given.len() / 4)];
    let mut before = [0u8; 512];
    prepare(item(case, 8), item(case, 7), &mut before);
    let mut room = before;
    let n = room.len().min(number(case, 2) as usize);
    begin(out, case, call)?;
    match write_header(
        edition,
        guid,
        number(case, 4),
        attributes,
        map,
        &mut room[..n],
    ) {
        Ok(len) => fields(out, &[0, len as u64])?,
        Err(refusal) => refusal_field(out, refusal)?,
    }
    change_fields(out, &before, &room)?;
    end(out)
}

// Listing: the lent length, the room's length, the header's bytes and the pattern behind them, the pattern
// and the bytes that the room holds before.
pub(crate) fn list_case(out: &impl Print, case: &[u8]) -> io::Result<()> {
    let mut volume = [0u8; VOLUME];
    prepare(item(case, 4), item(case, 5), &mut volume);
    let mut before = [0u8; 1024];
    prepare(item(case, 7), item(case, 6), &mut before);
    let mut room = before;
    let n = room.len().min(number(case, 3) as usize);
    begin(out, case, "list")?;
    let lent = prefix(&volume, number(case, 2) as usize);
    let len = match list_volume(lent, &mut room[..n]) {
        Ok(len) => {
            fields(out, &[0, len as u64])?;
            len
        }
        Err(refusal) => {
            refusal_field(out, refusal)?;
            0
        }
    };
    lines_field(out, prefix(&room, len))?;
    change_fields(out, &before, &room)?;
    end(out)
}

// An entry of an extended header: the lent length, the entry's number, the header's bytes, the pattern behind them.
pub(crate) fn entry_case(out: &impl Print, case: &[u8]) -> io::Result<()> {
    let mut volume = [0u8; VOLUME];
    prepare(item(case, 4), item(case, 5), &mut volume);
    begin(out, case, "ext entry")?;
    field(out, number(case, 3))?;
    let lent = prefix(&volume, number(case, 2) as usize);
    match ext_entry(lent, number(case, 3)) {
        Ok(
            ExtEntry {
                first,
                size,
                entry_type,
            },
        ) => fields(out, &[0, first as u64, size as u64, entry_type as u64])?,
        Err(refusal) => refusal_field(out, refusal)?,
    }
    end(out)
}

// The word sum: the bytes. It is asked for after each word, as the boot block's listing has it, and of all the bytes.
pub(crate) fn sum_case(out: &impl Print, case: &[u8]) -> io::Result<()> {
    let s = item(case, 2);
    begin(out, case, "word sum")?;
    text(out, b"\t")?;
    for words in 0..s.len().div_ceil(2) {
        let sum = word_sum(prefix(s, words.wrapping_mul(2).wrapping_add(2)));
        print!(out; "{sum:04x},")?;
    }
    print!(out; "\t{:04x}", word_sum(s))?;
    end(out)
}
