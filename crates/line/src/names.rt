// A word looked up in a table of names, by one loop.
// The names stand in one text with a space before each of them.
ghost use Rattle.line.specs.Behind.{behind};
ghost use Rattle.line.specs.Named.{NameOf};

// The number of a word among the names, counted from 0; as many as there are where it is none of them.
pub fn name_of(word: &[u8], names: &[u8]) -> usize
    ensures { NameOf word.now (behind names.now 0) result }
{
    let mut number: usize = 0;
    let mut end: usize = 0;
    while end < names.len() {
        let next = text_words::word_end(names, end + 1);
        if word == &names[end + 1..next] {
            return number;
        }
        end = next;
        number += 1;
    }
    number
}
