// The listing of a volume: the lines that the lister prints, stored in a room that the caller lends.
#![tactic(auto)]

mod text;

ghost use Rattle.std.specs.Prelude.{◌≡◌, ◌+◌, ◌*◌, ◌≤◌, ◌++◌, length};
ghost use Rattle.volume.specs.BlockMap.{max_entries};
ghost use Rattle.listing.specs.Listing.{list_volume, listed_answer, listed_room, listing, map_lines, map_word, max_line, max_listing};
ghost use Rattle.listing.specs.Text.{text_of};

use common::Refusal;
use text::Text;
use volume::open_volume;

// Lists a volume at base 0: stores its lines at the start of the room and answers their length. A volume
// that does not open is listed by its refusal. Where the room is too short it answers 5 and stores nothing;
// a room of 2,214 bytes (`max_listing`) is never too short.
pub fn list_volume(volume: &[u8], room: &mut [u8]) -> Result<usize, Refusal>
    ensures room_after { listed_room (listed_answer result) room.new ≡ list_volume volume.now room.old }
    ensures volume_len_bound { length (listing volume.now) ≤ max_listing }
{
    let listing = list(volume);
    let lines = listing.as_bytes();
    if room.len() < lines.len() {
        return Err(Refusal::BufferTooSmall);
    }
    room[..lines.len()].copy_from_slice(lines);
    Ok(lines.len())
}

// The lines for what opening answers.
fn list(volume: &[u8]) -> Text
    ensures text { text_of result ≡ listing volume.now }
    ensures bound { result.len ≤ max_listing }
{
    let mut text = Text::new();
    match open_volume(volume, 0) {
        Ok(state) => {
            text.push_line(
                b"volume",
                state.length,
                u64::from(state.attributes),
                state.entries as u64,
            );
            push_map_lines(&mut text, state.map_words());
        }
        Err(refusal) => {
            text.push(b"refused");
            text.push_field(u64::from(refusal.number()));
            text.push(b"\n");
        }
    }
    text
}

// Appends the lines of a map's entries.
fn push_map_lines(text: &mut Text, words: &[u32])
    requires { (length words.now ≤ 2 * max_entries) × (text.old.len + max_line map_word * max_entries ≤ max_listing) }
    ensures text { text_of text.new ≡ text_of text.old ++ map_lines 0 words.now }
    ensures bound { text.new.len ≤ max_listing }
{
    let mut first: u64 = 0;
    for i in 0..words.len() / 2 {
        let count = u64::from(words[2 * i]);
        text.push_line(b"map", first, count, u64::from(words[2 * i + 1]));
        first += count;
    }
}
