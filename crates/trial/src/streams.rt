// The cases of section streams: searching, the first of a type, and appending.
use crate::print::{begin, bytes_field, change_fields, end, field, fields, refusal_field};
use crate::script::{item, number, part, prefix, prepare};
use common::Refusal;
use numbers::byte_at;
use sections::append::append;
use sections::header::Mode;
use sections::search::{Part, search, search_first};
use std::io;

// The most bytes of a section buffer.
const ROOM: usize = 512;

// Searching: the stream, the type, the instance, and in PI mode the mode.
pub(crate) fn search_case(out: &impl Print, case: &[u8]) -> io::Result<()> {
    let mode = number(case, 5);
    begin(out, case, called(mode, "search", "search pi"))?;
    search_fields(
        out,
        mode,
        item(case, 2),
        byte_at(item(case, 3), 0),
        number(case, 4),
    )?;
    end(out)
}

// Mode 0, which a case without one has, is Framework, and any other PI: the script's rule, and no `From` of the type's.
pub(crate) fn mode_of(mode: u64) -> Mode {
    if mode == 0 { Mode::Framework } else { Mode::Pi }
}

// The call's word by the mode.
pub(crate) fn called<'a>(mode: u64, framework: &'a str, pi: &'a str) -> &'a str {
    match mode_of(mode) {
        Mode::Framework => framework,
        Mode::Pi => pi,
    }
}

// The type and instance, and the answer.
fn search_fields(
    out: &impl Print,
    mode: u64,
    stream: &[u8],
    section_type: u8,
    instance: u64,
) -> io::Result<()> {
    fields(out, &[section_type as u64, instance])?;
    found_fields(
        out,
        stream,
        search(mode_of(mode), stream, section_type, instance),
    )
}

// Searching for the first: the stream, the type, and in PI mode the mode.
pub(crate) fn first_case(out: &impl Print, case: &[u8]) -> io::Result<()> {
    let mode = number(case, 4);
    let stream = item(case, 2);
    let section_type = byte_at(item(case, 3), 0);
    begin(out, case, called(mode, "search first", "search first pi"))?;
    field(out, section_type)?;
    found_fields(
        out,
        stream,
        search_first(mode_of(mode), stream, section_type),
    )?;
    end(out)
}

// The answer, the part's first bytes.
fn found_fields(out: &impl Print, stream: &[u8], answer: Result<Part, Refusal>) -> io::Result<()> {
    match answer {
        Ok(Part { first, end }) => {
            fields(out, &[0, first as u64, end as u64])?;
            bytes_field(out, part(stream, first, end.wrapping_sub(first)))
        }
        Err(refusal) => refusal_field(out, refusal),
    }
}

// Appending: the buffer's length, the used count, the type, the body, the stream and the pattern that
// the buffer holds before, the instance that is then searched for, and in PI mode the mode.
pub(crate) fn append_case(out: &impl Print, case: &[u8]) -> io::Result<()> {
    let mut before = [0u8; ROOM];
    let mut buffer = [0u8; ROOM];
    prepare(item(case, 6), item(case, 7), &mut before);
    prepare(item(case, 6), item(case, 7), &mut buffer);
    let mode = number(case, 9);
    let section_type = byte_at(item(case, 4), 0);
    begin(out, case, called(mode, "append", "append pi"))?;
    let used = append_in(out, mode, case, section_type, &mut buffer)?;
    change_fields(out, &before, &buffer)?;
    search_fields(
        out,
        mode,
        prefix(&buffer, used),
        section_type,
        number(case, 8),
    )?;
    end(out)
}

// The used count afterwards; as it was on a refusal.
fn append_in(
    out: &impl Print,
    mode: u64,
    case: &[u8],
    section_type: u8,
    buffer: &mut [u8],
) -> io::Result<usize> {
    let n = buffer.len().min(number(case, 2) as usize);
    let used = number(case, 3) as usize;
    let body = item(case, 5);
    match append(mode_of(mode), &mut buffer[..n], used, section_type, body) {
        Ok(count) => {
            fields(out, &[0, count as u64])?;
            Ok(count)
        }
        Err(refusal) => {
            refusal_field(out, refusal)?;
            Ok(used)
        }
    }
}
