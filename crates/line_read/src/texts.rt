// The commands on texts: a typed length, and a menu's line.
// `end` is where the command's own word ends.
ghost use Rattle.std.specs.Prelude.{◌≤◌, ◌<◌, ◌+◌, length};
ghost use Rattle.line.specs.Printed.{SameOut};
ghost use Rattle.line_read.specs.ReadWithin.{TextsWithin};

use line::out::Out;
use line::parts::{after, read_index, three_words};

// `length TEXT`: the bytes after one space, to the line's end. `length` alone is the empty text.
pub fn length(line: &[u8], end: usize, out: &mut Out<'_>)
    ensures { SameOut out.old out.new }
{
    if end < line.len() {
        typed_length(&line[end + 1..], out);
    } else {
        typed_length(b"", out);
    }
}

fn typed_length(text: &[u8], out: &mut Out<'_>)
    ensures { SameOut out.old out.new }
{
    match typed::typed_length(text) {
        Ok(steps) => {
            out.put(b"0");
            out.next_number(i64::from(steps));
            out.end();
        }
        Err(refusal) => out.refused(refusal.number()),
    }
}

// What a `line` asks: the number of the line, where the first of the two texts ends in the room, and where the second does.
#[derive(Drop)]
enum Request {
    Show(usize, usize, usize),
    Bad,
}

// `line K t e`: K is not negative, and the two texts are in hex.
pub fn line(line: &[u8], end: usize, room: &mut [u8], out: &mut Out<'_>)
    ensures { SameOut out.old out.new }
{
    match read_request(line, end, room) {
        Request::Show(k, first, both) => shown(&room[0..both], first, k, out),
        Request::Bad => out.wrong(),
    }
}

fn read_request(line: &[u8], end: usize, room: &mut [u8]) -> Request
    ensures { TextsWithin (length room.old) result }
{
    let start = after(line, end);
    let Some((a, b)) = three_words(line, start) else {
        return Request::Bad;
    };
    let Some(k) = read_index(&line[start..a]) else {
        return Request::Bad;
    };
    both_texts(&line[a + 1..b], &line[b + 1..], k, room)
}

// Puts the two texts into the room, one behind the other.
fn both_texts(translated: &[u8], english: &[u8], k: usize, room: &mut [u8]) -> Request
    ensures { TextsWithin (length room.old) result }
{
    let Some(m) = text_hex::read_text(translated, room) else {
        return Request::Bad;
    };
    let Some(n) = text_hex::read_text(english, &mut room[m..]) else {
        return Request::Bad;
    };
    Request::Show(k, m, m + n)
}

// The line, from one of the two texts, of which the first ends at a place.
fn shown(texts: &[u8], first: usize, k: usize, out: &mut Out<'_>)
    requires { first ≤ length texts.now }
    ensures { SameOut out.old out.new }
{
    let translated = &texts[0..first];
    let english = &texts[first..];
    if menus::from_translated(translated, k) {
        out.put(b"0 t:");
    } else {
        out.put(b"0 e:");
    }
    out.text(menus::menu_line(translated, english, k));
    out.end();
}
