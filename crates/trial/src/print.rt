// Printing: the fields of a line, parted by tabs.
use crate::script::item;
use common::Refusal;
use numbers::byte_at;
use std::fmt::Display;
use std::io;

pub(crate) fn text(out: &impl Print, s: &[u8]) -> io::Result<()> {
    out.write_all(s)
}

// Begins a line: the case's name and what is called.
pub(crate) fn begin(out: &impl Print, case: &[u8], call: &str) -> io::Result<()> {
    text(out, item(case, 0))?;
    print!(out; "\t{call}")
}

pub(crate) fn end(out: &impl Print) -> io::Result<()> {
    println!(out; "")
}

pub(crate) fn field(out: &impl Print, x: impl Display + Drop) -> io::Result<()> {
    print!(out; "\t{x}")
}

pub(crate) fn fields(out: &impl Print, numbers: &[u64]) -> io::Result<()> {
    for x in numbers {
        field(out, *x)?;
    }
    Ok(())
}

// A refusal is printed as its number.
pub(crate) fn refusal_field(out: &impl Print, refusal: Refusal) -> io::Result<()> {
    field(out, refusal.number())
}

// The first bytes of a slice, at most 16, in hexadecimal.
pub(crate) fn bytes_field(out: &impl Print, s: &[u8]) -> io::Result<()> {
    text(out, b"\t")?;
    for x in s.iter().take(16) {
        print!(out; "{x:02x}")?;
    }
    Ok(())
}

// The words of a map that are not zero, each with its place.
pub(crate) fn words_field(out: &impl Print, words: &[u32]) -> io::Result<()> {
    text(out, b"\t")?;
    for (i, x) in words.iter().enumerate() {
        if *x != 0 {
            print!(out; "{i}:{x},")?;
        }
    }
    Ok(())
}

// A text with a bar for each line feed.
pub(crate) fn lines_field(out: &impl Print, s: &[u8]) -> io::Result<()> {
    text(out, b"\t")?;
    for x in s {
        text(out, &[if *x == b'\n' { b'|' } else { *x }])?;
    }
    Ok(())
}

// What became of lent bytes: how many changed, the first and the last that did, the first bytes from
// there on, and a checksum of all of them as they are now.
pub(crate) fn change_fields(out: &impl Print, before: &[u8], after: &[u8]) -> io::Result<()> {
    let changed = |i: &usize| byte_at(after, *i) != byte_at(before, *i);
    let count = (0..after.len()).filter(changed).count();
    field(out, count)?;
    // The first and the last are looked for only where there are some.
    if count > 0 {
        let first = (0..after.len()).find(changed).unwrap_or(0);
        let last = (0..after.len()).rev().find(changed).unwrap_or(0);
        field(out, first)?;
        field(out, last)?;
        bytes_field(out, after.get(first..=last).unwrap_or(&[]))?;
    }
    field(out, checksum(after))
}

fn checksum(s: &[u8]) -> u32 {
    s.iter().fold(0, |sum: u32, x| {
        ((u64::from(sum) * 31 + u64::from(*x)) % 4_294_967_291) as u32
    })
}
