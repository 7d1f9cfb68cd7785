// A picture as text, for people: a character for each dot and a line for each row.
ghost use Rattle.std.specs.Prelude.{◌≡◌, ◌++◌, IfOk, string_bytes, OnOk};
ghost use Rattle.picture.specs.Text.{character_of, dot_text, text_from};

use crate::{BALL, DIGIT, LINE, PADDLE, WIDTH};
use std::alloc::{AllocError, Global};

fn character(dot: u8) -> char
    ensures { result ≡ character_of dot }
{
    match dot {
        0 => '.',
        LINE => '|',
        BALL => 'o',
        PADDLE => '#',
        DIGIT => '*',
        _ => '?',
    }
}

// Dot k of a picture, and the line's end behind it where it is the last of its row. By the dot's number: by chunks of a row's length
// a part of a row at the end would get a line's end too.
fn push_dot(text: &mut String, k: usize, dot: u8) -> Result<(), AllocError>
    ensures { OnOk result (string_bytes text.new ≡ string_bytes text.old ++ dot_text k dot) }
{
    text.push(character(dot))?;
    if k % WIDTH == WIDTH - 1 {
        text.push('\n')?;
    }
    Ok(())
}

pub fn text_of(heap: Global, picture: &[u8]) -> Result<String, AllocError>
    ensures { IfOk result (λ t. string_bytes t ≡ text_from 0 picture.now) }
{
    let mut text = String::new(heap);
    for (k, dot) in picture.iter().enumerate() {
        push_dot(&mut text, k, *dot)?;
    }
    Ok(text)
}
