// The lines of a text.
ghost use Rattle.std.specs.Prelude.{◌≡◌, ◌==◌, option_copied, slice_get};
ghost use Rattle.std.specs.List.{slice_split};
ghost use Rattle.std.specs.Str.Lines.{strip_carriage_return};
ghost use Rattle.sg_hint.specs.Lines.{behind_bytes, first_place, numbered_line};

/// A place in a text: its line and the byte of that line, both counted from 1.
#[derive(Clone, Copy, PartialEq, Eq, Drop)]
pub struct TextPlace {
    pub line: u32,
    pub column: u32,
}

/// The place behind these bytes.
pub fn place_behind(text: &[u8]) -> TextPlace
    ensures { result ≡ behind_bytes first_place text.now }
{
    let mut place = TextPlace { line: 1, column: 1 };
    for byte in text {
        if *byte == b'\n' {
            place = TextPlace {
                line: place.line.saturating_add(1),
                column: 1,
            };
        } else {
            place.column = place.column.saturating_add(1);
        }
    }
    place
}

/// The line without a CR at its end.
fn before_return(line: &[u8]) -> &[u8]
    ensures { result.now ≡ strip_carriage_return line.now }
{
    match line {
        [before @ .., b'\r'] => before,
        _ => line,
    }
}

/// What stands between the LFs around that piece of the text, counted from 0.
fn piece_of(text: &[u8], number: usize) -> Option<&[u8]>
    ensures { option_copied result ≡ slice_get (slice_split (λ byte. byte == 10) text.now) number }
{
    text.split(|byte| *byte == b'\n').nth(number)
}

/// The line of that number, counted from 1, without its end.
pub fn line_of(text: &[u8], number: u32) -> Option<&[u8]>
    ensures { option_copied result ≡ numbered_line text.now number }
{
    if number == 0 {
        return None;
    }
    match piece_of(text, number as usize - 1) {
        Some(line) => Some(before_return(line)),
        None => None,
    }
}
