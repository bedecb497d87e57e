// Taking single bytes, names and fields off the front of a text.
ghost use Rattle.std.specs.Prelude.{◌≡◌, ◌≤◌, ℕ, List, ◌∷◌, ◌++◌, length, drop, nat_eq, MatchBool, IfSome};
ghost use Rattle.std.specs.List.{prefix_len, starts_with};
ghost use Rattle.std.specs.Bool.{OnFalse};
ghost use Rattle.sg_msg.specs.Sets.{is_print, is_sd_byte};
ghost use Rattle.sg_r5424.specs.Data.{IsSdName};
ghost use Rattle.sg_r5424.specs.Grammar.{IsField};
ghost use Rattle.sg_r5424.specs.Spans.{span_text, IsWithin, TakesSpan, TakesSaid};

use bytes::Bytes;
use sg_msg::{is_print, is_sd_byte};

// Whether the byte stands at the front.
pub(crate) fn first_is(text: &[u8], byte: u8) -> bool
    ensures { MatchBool result (text.now ≡ byte ∷ drop 1 text.now)
        ((rest : List ℕ) → ¬ (text.now ≡ byte ∷ rest)) }
{
    match text {
        [first, ..] => *first == byte,
        [] => false,
    }
}

// Whether these bytes stand at the front.
fn begins(text: &[u8], front: &[u8]) -> bool
    ensures { result ≡ starts_with nat_eq text.now front.now }
{
    match front {
        [] => true,
        [first, rest @ ..] => match text {
            [] => false,
            [other, others @ ..] => *first == *other && begins(others, rest),
        },
    }
}

// Takes these bytes, where they stand at the front.
pub(crate) fn take_text(text: &mut Bytes, front: &[u8]) -> bool
    ensures taken { MatchBool result (text.old ≡ front.now ++ text.new)
        ((rest : List ℕ) → ¬ (text.old ≡ front.now ++ rest)) }
    ensures kept { OnFalse result (text.new ≡ text.old) }
    ensures shorter { length text.new ≤ length text.old }
{
    if !begins(text.as_slice(), front) {
        return false;
    }
    text.advance(front.len());
    true
}

fn print_len(text: &[u8]) -> usize
    ensures value { result ≡ prefix_len is_print text.now }
    ensures within { result ≤ length text.now }
{
    text.iter().take_while(|byte| is_print(**byte)).count()
}

fn name_len(text: &[u8]) -> usize
    ensures value { result ≡ prefix_len is_sd_byte text.now }
    ensures within { result ≤ length text.now }
{
    text.iter().take_while(|byte| is_sd_byte(**byte)).count()
}

/// A part of the item, by its places.
#[derive(Clone, Copy, Drop)]
pub(crate) struct Span {
    pub(crate) from: usize,
    pub(crate) to: usize,
}

/// The text of the part.
pub(crate) fn span_text(item: &[u8], span: Span) -> &[u8]
    requires { IsWithin (length item.now) span }
    ensures { result.now ≡ span_text item.now span }
{
    &item[span.from..span.to]
}

// Takes so many bytes off a text that ends where the item does, at this place.
pub(crate) fn take_span(text: &mut Bytes, end: usize, len: usize) -> Span
    requires { (len ≤ length text.old) × (length text.old ≤ end) }
    ensures { TakesSpan end text.old text.new len result }
{
    let from = end - text.len();
    text.advance(len);
    Span {
        from,
        to: from + len,
    }
}

// Takes an SD-ID or a PARAM-NAME.
pub(crate) fn take_name(text: &mut Bytes, end: usize) -> Option<Span>
    requires { length text.old ≤ end }
    ensures name { TakesSaid span_text IsSdName end text.old text.new result }
    ensures within { IfSome result (IsWithin end) }
    ensures shorter { length text.new ≤ length text.old }
{
    let len = name_len(text.as_slice());
    if len == 0 || len > 32 {
        return None;
    }
    Some(take_span(text, end, len))
}

// Takes a field of one to so many bytes, and the space behind it.
pub(crate) fn take_field(text: &mut Bytes, end: usize, most: usize) -> Option<Span>
    requires { length text.old ≤ end }
    ensures field { TakesSaid span_text (IsField most) end text.old text.new result }
    ensures within { IfSome result (IsWithin end) }
    ensures shorter { length text.new ≤ length text.old }
{
    let len = print_len(text.as_slice());
    if len == 0 || len > most {
        return None;
    }
    let field = take_span(text, end, len);
    if !take_text(text, b" ") {
        return None;
    }
    Some(field)
}
