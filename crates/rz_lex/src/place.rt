//! Places of a text, with their lines and columns.

ghost use Rattle.std.specs.Prelude.{◌≡◌, ◌+◌, ◌<◌, ◌≤◌, ◌^◌, length, if◌then◌else◌};
ghost use Rattle.rz_lex.specs.Text.{is_line_feed, begins_character};
ghost use Rattle.rz_lex.specs.Places.{IsPlaceOf};

use crate::table::LINE_FEED;

/// A place of a text: how many bytes and how many line feeds stand before it, and how many characters behind
/// the last of these.
#[derive(Clone, Copy, Debug, PartialEq, Eq)]
pub struct Place {
    pub at: usize,
    pub line_feeds: u64,
    pub characters: u64,
}

fn begins_character(byte: u8) -> bool
    ensures { result ≡ begins_character byte }
{
    byte < 128 || byte >= 192
}

// The place behind one more byte.
fn behind(place: Place, byte: u8) -> Place
    requires at { place.at + 1 < 2 ^ 64 }
    requires line_feeds { place.line_feeds ≤ place.at }
    requires characters { place.characters ≤ place.at }
    ensures at { result.at ≡ place.at + 1 }
    ensures line_feeds { result.line_feeds
        ≡ place.line_feeds + (if is_line_feed byte then 1 else 0) }
    ensures characters { result.characters
        ≡ (if is_line_feed byte then 0
        else place.characters + (if begins_character byte then 1 else 0)) }
{
    let at = place.at + 1;
    if byte == LINE_FEED {
        Place {
            at,
            line_feeds: place.line_feeds + 1,
            characters: 0,
        }
    } else if begins_character(byte) {
        Place {
            at,
            line_feeds: place.line_feeds,
            characters: place.characters + 1,
        }
    } else {
        Place {
            at,
            line_feeds: place.line_feeds,
            characters: place.characters,
        }
    }
}

/// The first place of any text.
pub const FIRST_PLACE: Place = Place {
    at: 0,
    line_feeds: 0,
    characters: 0,
};

/// The place so many bytes on.
pub fn place_after(text: &[u8], place: Place, len: usize) -> Place
    requires within { place.at + len ≤ length text.now }
    requires place { IsPlaceOf text.now place }
    ensures at { result.at ≡ place.at + len }
    ensures place { IsPlaceOf text.now result }
{
    let mut after = place;
    for i in place.at..place.at + len {
        after = behind(after, text[i]);
    }
    after
}
