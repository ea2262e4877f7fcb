// The cases of section files that come in portions. The file is received as the case cuts it, in single
// bytes, and in two portions with the cut at every place.
use crate::print::{begin, end, field, fields, refusal_field};
use crate::script::{item, number, part};
use crate::streams::{called, mode_of};
use numbers::{byte_at, u64_at};
use receiver::{Received, Receiver};
use std::io;

// What a reception came to: the finish's answer, and the fault found.
#[derive(Clone, Copy, PartialEq, Eq)]
struct Outcome {
    answer: Result<Received, u16>,
    fault: Option<u16>,
}

// Receiving: the bytes that come, the type, the instance, the total announced, the portions' lengths, and
// in PI mode the mode.
pub(crate) fn receive_case(out: &impl Print, case: &[u8]) -> io::Result<()> {
    let bytes = item(case, 2);
    let mode = number(case, 7);
    let section_type = byte_at(item(case, 3), 0);
    let total = number(case, 5);
    begin(out, case, called(mode, "receive", "receive pi"))?;
    fields(
        out,
        &[
            section_type as u64,
            number(case, 4),
            total,
            bytes.len() as u64,
        ],
    )?;
    let announced = Receiver::announce(
        mode_of(mode),
        section_type,
        number(case, 4),
        total as usize,
    );
    let new = match announced {
        Ok(receiver) => {
            field(out, 0)?;
            receiver
        }
        Err(refusal) => {
            refusal_field(out, refusal)?;
            Receiver::refused(refusal)
        }
    };
    let listed = in_portions(bytes, item(case, 6), new);
    outcome_fields(out, listed)?;
    fault_fields(out, bytes, new)?;
    alike_field(out, bytes, new, listed)?;
    end(out)
}

// The bytes in portions of the lengths listed, 64-bit numbers, and what is left as one portion.
fn in_portions(bytes: &[u8], lengths: &[u8], new: Receiver) -> Outcome {
    let mut receiver = new;
    let mut rest = bytes;
    for length in lengths.chunks_exact(8) {
        let n = rest.len().min(u64_at(length, 0) as usize);
        receiver.receive(&rest[..n]);
        rest = &rest[n..];
    }
    receiver.receive(rest);
    finished(&receiver)
}

fn in_two(bytes: &[u8], cut: usize, new: Receiver) -> Outcome {
    let mut receiver = new;
    receiver.receive(part(bytes, 0, cut));
    receiver.receive(part(bytes, cut, bytes.len().saturating_sub(cut)));
    finished(&receiver)
}

fn in_bytes(bytes: &[u8], new: Receiver) -> Outcome {
    let mut receiver = new;
    for byte in bytes {
        receiver.receive(&[*byte]);
    }
    finished(&receiver)
}

fn finished(receiver: &Receiver) -> Outcome {
    Outcome {
        answer: receiver.finish(),
        fault: receiver.fault(),
    }
}

// The finish's answer.
fn outcome_fields(out: &impl Print, outcome: Outcome) -> io::Result<()> {
    match outcome.answer {
        Ok(received) => fields(
            out,
            &[
                0,
                received.count,
                received.part.first as u64,
                received.part.end as u64,
            ],
        ),
        Err(fault) => field(out, fault),
    }
}

// After how many single bytes a fault was found, and which; a dash and 0 where none was.
fn fault_fields(out: &impl Print, bytes: &[u8], new: Receiver) -> io::Result<()> {
    let mut receiver = new;
    for (n, byte) in bytes.iter().enumerate() {
        if let Some(fault) = receiver.fault() {
            field(out, n)?;
            return field(out, fault);
        }
        receiver.receive(&[*byte]);
    }
    match receiver.fault() {
        Some(fault) => {
            field(out, bytes.len())?;
            field(out, fault)
        }
        None => {
            field(out, '-')?;
            field(out, 0)
        }
    }
}

// How many of the other receptions came to the same, and how many there are: one in single bytes, and one in
// two portions for each cut.
fn alike_field(out: &impl Print, bytes: &[u8], new: Receiver, listed: Outcome) -> io::Result<()> {
    let singly = (in_bytes(bytes, new) == listed) as usize;
    let cuts = (0..=bytes.len())
        .filter(|cut| in_two(bytes, *cut, new) == listed)
        .count();
    field(out, singly.wrapping_add(cuts))?;
    print!(out; " of {}", bytes.len().wrapping_add(2))
}
