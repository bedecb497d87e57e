// Pairs in the order of their names, the later of two of one name.
ghost use Rattle.std.specs.Prelude.{◌≡◌, ◌<◌, ◌-◌, true, [], ◌∷◌, length, IfOk, IfErr, OnOk, OnErr, slice_get};
ghost use Rattle.std.specs.declared.cmp.Ordering.TheVariants.{Greater};
ghost use Rattle.sg_msg.specs.Message.{byte_order, with_all, with_pair, IsAscending};
ghost use Rattle.sg_msg.specs.Places.{IsPairAt, IsGapFor};
ghost use Rattle.sg_msg.specs.Parts.{name_in, pair_of, pairs_of, AreInTexts};
ghost use Rattle.sg_msg.specs.Sorting.{is_named, put_last, put_each, IsInOrder, KeepsEachName};

use crate::pair::{Name, Pair};
use crate::texts::Texts;
use std::alloc::{AllocError, Global};
use std::cmp::Ordering;

// Of so many pairs each sinks to where its name belongs. More are sorted.
const FEW: usize = 16;

// Whether each name is less than those behind it, from this pair on.
fn ascend_from(texts: &Texts, first: Pair, pairs: &[Pair]) -> bool
    ensures { result ≡ true → IsAscending (pairs_of texts.now (first ∷ pairs.now)) }
{
    match pairs {
        [second, rest @ ..] => {
            texts.order(first.name, second.name) == Ordering::Less
                && ascend_from(texts, *second, rest)
        }
        [] => true,
    }
}

fn ascend(texts: &Texts, pairs: &[Pair]) -> bool
    ensures { result ≡ true → IsAscending (pairs_of texts.now pairs.now) }
{
    match pairs {
        [first, rest @ ..] => ascend_from(texts, *first, rest),
        [] => true,
    }
}

// Where the name is among these, or where it would go.
fn search(texts: &Texts, pairs: &[Pair], name: Name) -> Result<usize, usize>
    requires { IsAscending (pairs_of texts.now pairs.now) }
    ensures found { IfOk result
        (IsPairAt (pairs_of texts.now pairs.now) (name_in texts.now.own.items name)) }
    ensures absent { IfErr result
        (IsGapFor (pairs_of texts.now pairs.now) (name_in texts.now.own.items name)) }
{
    pairs.binary_search_by(|pair| texts.order(pair.name, name))
}

// Sets a pair.
fn add(texts: &Texts, pairs: &mut Vec<Pair>, pair: Pair) -> Result<(), AllocError>
    requires { IsAscending (pairs_of texts.now pairs.old.items) }
    ensures pairs { OnOk result (pairs_of texts.now pairs.new.items
        ≡ with_pair (pair_of texts.now pair).name (pair_of texts.now pair).value
        (pairs_of texts.now pairs.old.items)) }
    ensures within { AreInTexts texts.now (pair ∷ pairs.old.items)
        → OnOk result (AreInTexts texts.now pairs.new.items) }
{
    match search(texts, pairs.as_slice(), pair.name) {
        Ok(place) => pairs[place] = pair,
        Err(place) => pairs.insert(place, pair)?,
    }
    Ok(())
}

// Those that setting these one after another gives.
fn of_each(alloc: Global, texts: &Texts, pairs: &[Pair]) -> Result<Vec<Pair>, AllocError>
    ensures pairs { IfOk result (λ kept. pairs_of texts.now kept.items
        ≡ with_all (pairs_of texts.now pairs.now) []) }
    ensures within { AreInTexts texts.now pairs.now
        → IfOk result (λ kept. AreInTexts texts.now kept.items) }
{
    let mut kept = Vec::with_capacity(alloc, pairs.len())?;
    for pair in pairs {
        add(texts, &mut kept, *pair)?;
    }
    Ok(kept)
}

// Whether the name of the first is greater.
fn is_over(texts: &Texts, first: Pair, second: Pair) -> bool
    ensures { result ≡ true → byte_order (pair_of texts.now first).name
        (pair_of texts.now second).name ≡ Greater }
{
    match texts.order(first.name, second.name) {
        Ordering::Greater => true,
        _ => false,
    }
}

// The pair at this place sinks below those before it whose names are greater.
fn sink(texts: &Texts, pairs: &mut Vec<Pair>, at: usize)
    requires { at < length pairs.old.items }
    ensures same { with_all (pairs_of texts.now pairs.new.items) []
        ≡ with_all (pairs_of texts.now pairs.old.items) [] }
    ensures len { length pairs.new.items ≡ length pairs.old.items }
    ensures within { AreInTexts texts.now pairs.old.items
        → AreInTexts texts.now pairs.new.items }
{
    if at == 0 {
        return;
    }
    if is_over(texts, pairs[at - 1], pairs[at]) {
        pairs.swap(at - 1, at);
        sink(texts, pairs, at - 1);
    }
}

// Each pair sinks, one after another.
fn sink_each(texts: &Texts, pairs: &mut Vec<Pair>)
    ensures same { with_all (pairs_of texts.now pairs.new.items) []
        ≡ with_all (pairs_of texts.now pairs.old.items) [] }
    ensures within { AreInTexts texts.now pairs.old.items
        → AreInTexts texts.now pairs.new.items }
{
    let count = pairs.len();
    for at in 0..count {
        sink(texts, pairs, at);
    }
}

// The pairs that setting these few one after another gives.
fn few_in_order(alloc: Global, texts: &Texts, mut pairs: Vec<Pair>) -> Result<Vec<Pair>, AllocError>
    ensures pairs { IfOk result (λ kept. pairs_of texts.now kept.items
        ≡ with_all (pairs_of texts.now pairs.items) []) }
    ensures within { AreInTexts texts.now pairs.items
        → IfOk result (λ kept. AreInTexts texts.now kept.items) }
{
    sink_each(texts, &mut pairs);
    if !ascend(texts, pairs.as_slice()) {
        return of_each(alloc, texts, pairs.as_slice());
    }
    Ok(pairs)
}

// Whether the pair that stands last has this name.
fn ends_with_name(texts: &Texts, pairs: &[Pair], name: Name) -> bool
    ensures { result ≡ is_named (name_in texts.now.own.items name)
        (slice_get (pairs_of texts.now pairs.now) (length pairs.now - 1)) }
{
    match pairs.last() {
        Some(pair) => texts.is_named(pair.name, texts.name(name)),
        None => false,
    }
}

fn put_last(texts: &Texts, pairs: &mut Vec<Pair>, pair: Pair) -> Result<(), AllocError>
    ensures pairs { OnOk result (pairs_of texts.now pairs.new.items
        ≡ put_last (pair_of texts.now pair) (pairs_of texts.now pairs.old.items)) }
    ensures within { AreInTexts texts.now (pair ∷ pairs.old.items)
        → OnOk result (AreInTexts texts.now pairs.new.items) }
{
    if ends_with_name(texts, pairs.as_slice(), pair.name) {
        pairs.pop();
    }
    pairs.push(pair)?;
    Ok(())
}

fn sort(texts: &Texts, pairs: &mut Vec<Pair>) -> Result<(), AllocError>
    ensures sorted { OnOk result (IsInOrder (pairs_of texts.now pairs.new.items)) }
    ensures stable { KeepsEachName (pairs_of texts.now pairs.old.items)
        (pairs_of texts.now pairs.new.items) }
    ensures within { AreInTexts texts.now pairs.old.items
        → AreInTexts texts.now pairs.new.items }
{
    pairs.sort_by(|a, b| texts.order(a.name, b.name))
}

// The pairs, where they stand in order: of those of one name the last.
fn last_of_each(alloc: Global, texts: &Texts, pairs: &[Pair]) -> Result<Vec<Pair>, AllocError>
    ensures pairs { IfOk result (λ kept. pairs_of texts.now kept.items
        ≡ put_each (pairs_of texts.now pairs.now) []) }
    ensures within { AreInTexts texts.now pairs.now
        → IfOk result (λ kept. AreInTexts texts.now kept.items) }
{
    let mut kept = Vec::with_capacity(alloc, pairs.len())?;
    for pair in pairs {
        put_last(texts, &mut kept, *pair)?;
    }
    Ok(kept)
}

// The pairs that setting these one after another gives.
fn sorted(alloc: Global, texts: &Texts, mut pairs: Vec<Pair>) -> Result<Vec<Pair>, AllocError>
    ensures pairs { IfOk result (λ kept. pairs_of texts.now kept.items
        ≡ with_all (pairs_of texts.now pairs.items) []) }
    ensures within { AreInTexts texts.now pairs.items
        → IfOk result (λ kept. AreInTexts texts.now kept.items) }
{
    sort(texts, &mut pairs)?;
    let kept = last_of_each(alloc, texts, pairs.as_slice())?;
    Ok(kept)
}

/// The pairs that setting these one after another gives.
pub(crate) fn in_order(
    alloc: Global,
    texts: &Texts,
    pairs: Vec<Pair>,
) -> Result<Vec<Pair>, AllocError>
    ensures pairs { IfOk result (λ kept. pairs_of texts.now kept.items
        ≡ with_all (pairs_of texts.now pairs.items) []) }
    ensures within { AreInTexts texts.now pairs.items
        → IfOk result (λ kept. AreInTexts texts.now kept.items) }
{
    if ascend(texts, pairs.as_slice()) {
        return Ok(pairs);
    }
    if pairs.len() <= FEW {
        return few_in_order(alloc, texts, pairs);
    }
    sorted(alloc, texts, pairs)
}
