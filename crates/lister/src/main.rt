// Lists a firmware volume: reads at most 65,536 bytes of standard input and prints the volume's
// listing, or `refused` and the number.
#![tactic(auto)]

ghost use Rattle.std.specs.Prelude.{IfSome, OnOk, take};
ghost use Rattle.std.specs.Io.KnownBytes.{Appends};
ghost use Rattle.listing.specs.Listing.{listing};

use input::read_full;
use listing::list_volume;
use std::io;
use std::io::{Read, Write};

// The most bytes of a volume that are read.
const INPUT: usize = 65536;

fn main(rt: HostRuntime) -> io::Result<()> {
    list(&mut rt.reader(), &mut io::writer(&rt))
}

// Reads up to 65,536 bytes and writes their listing. Where it is known which bytes the reader has,
// and what the writer holds, the listing of the first 65,536 is all that is written.
fn list<R: Read, W: Write>(from: &mut R, to: &mut W) -> io::Result<()>
    ensures { OnOk result (IfSome (R.remaining from.old) (λ xs. Appends (W.contents to.old) (W.contents to.new) (listing (take 65536 xs)))) }
{
    let mut input = [0u8; INPUT];
    let n = read_full(from, &mut input)?;
    let mut text = [0u8; 4096];
    match list_volume(&input[..n], &mut text) {
        Ok(k) => to.write_all(&text[..k]),
        // No listing is longer than the room: `unreachable` asks for a proof of that.
        Err(_) => unreachable!(),
    }
}
