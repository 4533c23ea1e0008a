// The words after the program's name: `--trial` has the test tools answered, and `--echo` each line written before its answer.
// Any other word is unknown, and so is one that is too long to be read.
ghost use Rattle.std.specs.Prelude.{◌≤◌, ◌≡◌, length};

use line::names::name_of;
use std::env::{Env, FillError};

// Which of them there are, and whether there is no other.
#[derive(Drop)]
pub struct Found {
    pub trial: bool,
    pub echo: bool,
    pub known: bool,
}

// Longer than each word that is known.
const WORD: usize = 16;

fn buffer() -> [u8; WORD]
    ensures { 16 ≡ length result }
{
    [0; WORD]
}

pub fn words(rt: &impl Env) -> Found {
    let mut found = Found {
        trial: false,
        echo: false,
        known: true,
    };
    for i in 1..usize::MAX {
        let mut word = buffer();
        match rt.arg(i, &mut word) {
            Ok(n) => found = named(found, &word[..n]),
            Err(FillError::TooLong) => found.known = false,
            Err(FillError::NotPresent) => return found,
        }
    }
    found
}

fn named(found: Found, word: &[u8]) -> Found {
    let trial = found.trial;
    let echo = found.echo;
    let known = found.known;
    match name_of(word, b" --trial --echo") {
        0 => Found {
            trial: true,
            echo,
            known,
        },
        1 => Found {
            trial,
            echo: true,
            known,
        },
        _ => Found {
            trial,
            echo,
            known: false,
        },
    }
}
