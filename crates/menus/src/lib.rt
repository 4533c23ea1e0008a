// Menu lines: a line of the translated text, or of the English one (document 01, "Menu lines").
// The texts may be any bytes, also none, and the number of the line any: what is handed back is a part of one of the two.
#![tactic(auto)]

ghost use Rattle.std.specs.Prelude.{◌≡◌, true, ◌↔◌};
ghost use Rattle.menus.specs.Lines.{Full, from, Shown};
ghost use Rattle.menus.specs.Scan.{line_of, start_of};

use text_cut::part_end;

// Line k of the translated text, or of the English one where that line is missing or empty.
pub fn menu_line<'a>(translated: &'a [u8], english: &'a [u8], k: usize) -> &'a [u8]
    ensures { Shown translated.entry english.entry k result }
{
    if from_translated(translated, k) {
        return line(translated, k);
    }
    line(english, k)
}

// Whether line k is shown from the translated text: it is there, and it is not empty.
pub fn from_translated(translated: &[u8], k: usize) -> bool
    ensures { (result ≡ true) ↔ Full translated.now k }
{
    let start = line_start(translated, k);
    let end = part_end(translated, start, b'\n');
    start < end
}

// Line k of a text, as a part of it: the empty one at the text's end where there is no line k.
fn line<'a>(text: &'a [u8], k: usize) -> &'a [u8]
    ensures bytes { result.now ≡ line_of text.now k }
    ensures place { result.ref_ptr ≡ from text.entry (start_of text.now k) }
{
    let start = line_start(text, k);
    let end = part_end(text, start, b'\n');
    &text[start..end]
}

// Where line k starts, and the text's end where there is none.
fn line_start(text: &[u8], k: usize) -> usize
    ensures { result ≡ start_of text.now k }
{
    let mut start: usize = 0;
    for _passed in 0..k {
        let end = part_end(text, start, b'\n');
        if end == text.len() {
            return end;
        }
        start = end + 1;
    }
    start
}
