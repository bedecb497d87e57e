// The order of names.
ghost use Rattle.std.specs.Prelude.{◌≡◌};
ghost use Rattle.sg_msg.specs.Message.{byte_order};

use crate::same::are_same_eight;
use std::cmp::Ordering;

// From so many bytes on what two names have in common is passed over eight bytes at a time.
const LONG: usize = 16;

/// Which of two names stands before the other. Most differ in their first byte.
pub(crate) fn order(a: &[u8], b: &[u8]) -> Ordering
    ensures { result ≡ byte_order a.now b.now }
{
    match a {
        [first, rest @ ..] => match b {
            [other, others @ ..] => {
                if *first == *other {
                    order_behind(rest, others)
                } else {
                    first.cmp(other)
                }
            }
            [] => Ordering::Greater,
        },
        [] => {
            if b.is_empty() {
                Ordering::Equal
            } else {
                Ordering::Less
            }
        }
    }
}

// The same behind what they have in common.
fn order_behind(a: &[u8], b: &[u8]) -> Ordering
    ensures { result ≡ byte_order a.now b.now }
{
    if a.len() >= LONG && b.len() >= LONG {
        return order_long(a, b);
    }
    order_short(a, b)
}

fn order_long(a: &[u8], b: &[u8]) -> Ordering
    ensures { result ≡ byte_order a.now b.now }
{
    if let (Some((first, rest)), Some((other, others))) = (
        a.split_first_chunk::<8>(),
        b.split_first_chunk::<8>(),
    ) {
        if are_same_eight(first, other) {
            return order_long(rest, others);
        }
    }
    order_short(a, b)
}

fn order_short(a: &[u8], b: &[u8]) -> Ordering
    ensures { result ≡ byte_order a.now b.now }
{
    match a {
        [first, rest @ ..] => match b {
            [other, others @ ..] => {
                if *first == *other {
                    order_short(rest, others)
                } else {
                    first.cmp(other)
                }
            }
            [] => Ordering::Greater,
        },
        [] => {
            if b.is_empty() {
                Ordering::Equal
            } else {
                Ordering::Less
            }
        }
    }
}
