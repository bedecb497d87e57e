// The pairs of a message, in one sorted list that its handles share.
ghost use Rattle.std.specs.Prelude.{◌≡◌, ◌<◌, ◌≤◌, ◌+◌, true, [], length, set, insert, remove, get_or, IfOk, IfErr, OnOk, OnErr, None, Some, option_copied, slice_get, option_map};
ghost use Rattle.std.specs.declared.cmp.Ordering.TheVariants.{Less, Greater};
ghost use Rattle.sg_msg.specs.Message.{NameValue as NamedValue, byte_order, value_of, with_all, with_pair, without_pair, IsAscending};
ghost use Rattle.sg_msg.specs.Places.{IsPairAt, IsGapFor};
ghost use Rattle.sg_msg.specs.Parts.{known_name, name_in, pairs_of, AreInTexts};

use crate::pair::{Name, Pair, Text, is_one, known_name};
use crate::texts::{Texts, keep, keep_name};
use bytes::Bytes;
use std::alloc::{AllocError, Global};
use std::cmp::Ordering;
use std::marker::Model;
use std::sync::Arc;

// Among so many pairs a name is looked for one pair after another.
const SCANNED: usize = 8;

// Among so many pairs the place of a name is looked for one pair after another.
const WALKED: usize = 24;

/// A record, texts that aren't parts of it, and the pairs in order.
#[derive(Drop)]
pub(crate) struct Base {
    texts: Texts,
    pairs: Vec<Pair>,
}

impl Model for Base {
    ghost use Rattle.std.specs.Prelude.{List};
    ghost use Rattle.sg_msg.specs.Message.{NameValue};
    ghost use Rattle.sg_msg.specs.Parts.{pairs_of, AreInTexts};

    ghost Value = { List NameValue };

    ghost view = { λ b. pairs_of b.texts b.pairs.items };

    ghost invariant = { λ b. AreInTexts b.texts b.pairs.items };
}

impl Clone for Base {
    ghost is_clone = { λ base copy. copy ≡ base };

    fn clone(&self) -> Result<Base, AllocError> {
        Ok(Base {
            texts: self.texts.clone()?,
            pairs: self.pairs.clone()?,
        })
    }
}

// The texts, in a list with room for so many more.
fn own_copied(alloc: Global, own: &[Bytes], more: usize) -> Result<Vec<Bytes>, AllocError>
    ensures { IfOk result (λ copies. copies.items ≡ own.now) }
{
    let mut copies = Vec::with_capacity(alloc, own.len().saturating_add(more))?;
    for text in own {
        copies.push(text.clone()?)?;
    }
    Ok(copies)
}

// The pairs, in a list with room for so many more.
fn pairs_copied(alloc: Global, pairs: &[Pair], more: usize) -> Result<Vec<Pair>, AllocError>
    ensures { IfOk result (λ copies. copies.items ≡ pairs.now) }
{
    let mut copies = Vec::with_capacity(alloc, pairs.len().saturating_add(more))?;
    for pair in pairs {
        copies.push(*pair)?;
    }
    Ok(copies)
}

// The pair at this place.
fn pair_at(pairs: &[Pair], place: usize) -> Pair
    requires { place < length pairs.now }
    ensures { slice_get pairs.now place ≡ Some result }
{
    pairs[place]
}

// Where the name is, or where it would go, looked for from the last pair on: names are often set in
// their order.
fn place_among(texts: &Texts, pairs: &[Pair], name: &[u8]) -> Result<usize, usize>
    requires { IsAscending (pairs_of texts.now pairs.now) }
    ensures found { IfOk result (IsPairAt (pairs_of texts.now pairs.now) name.now) }
    ensures absent { IfErr result (IsGapFor (pairs_of texts.now pairs.now) name.now) }
{
    let mut end = pairs.len();
    'greater: while end > 0 {
        let place = end - 1;
        let pair = pair_at(pairs, place);
        match texts.order_text(pair.name, name) {
            Ordering::Greater => end = place,
            Ordering::Equal => return Ok(place),
            Ordering::Less => return Err(end),
        }
    }
    Err(0)
}

// The same, where there are many pairs.
fn halve(texts: &Texts, pairs: &[Pair], name: &[u8]) -> Result<usize, usize>
    requires { IsAscending (pairs_of texts.now pairs.now) }
    ensures found { IfOk result (IsPairAt (pairs_of texts.now pairs.now) name.now) }
    ensures absent { IfErr result (IsGapFor (pairs_of texts.now pairs.now) name.now) }
{
    pairs.binary_search_by(|pair| texts.order_text(pair.name, name))
}

/// Where the name is, or where it would go.
pub(crate) fn place_of(texts: &Texts, pairs: &[Pair], name: &[u8]) -> Result<usize, usize>
    requires { IsAscending (pairs_of texts.now pairs.now) }
    ensures found { IfOk result (IsPairAt (pairs_of texts.now pairs.now) name.now) }
    ensures absent { IfErr result (IsGapFor (pairs_of texts.now pairs.now) name.now) }
{
    if pairs.len() <= WALKED {
        return place_among(texts, pairs, name);
    }
    halve(texts, pairs, name)
}

// Whether the name stands before the text.
fn is_less(texts: &Texts, name: Name, text: &[u8]) -> bool
    ensures { result ≡ true → byte_order (name_in texts.now.own.items name) text.now ≡ Less }
{
    match texts.order_text(name, text) {
        Ordering::Less => true,
        _ => false,
    }
}

// Whether the text stands before the name.
fn is_greater(texts: &Texts, name: Name, text: &[u8]) -> bool
    ensures { result ≡ true → byte_order (name_in texts.now.own.items name) text.now ≡ Greater }
{
    match texts.order_text(name, text) {
        Ordering::Greater => true,
        _ => false,
    }
}

// Whether the name would go just behind this place.
fn goes_behind(texts: &Texts, pairs: &[Pair], place: usize, name: &[u8]) -> bool
    requires { IsAscending (pairs_of texts.now pairs.now) }
    ensures { result ≡ true
        → IsGapFor (pairs_of texts.now pairs.now) name.now (place + 1) }
{
    if place >= pairs.len().saturating_sub(1) {
        return false;
    }
    let pair = pair_at(pairs, place);
    let next = pair_at(pairs, place + 1);
    if !is_greater(texts, next.name, name) {
        return false;
    }
    is_less(texts, pair.name, name)
}

/// As `place_of`, looked for at first just behind this place: names are often set in their order.
pub(crate) fn place_behind(
    texts: &Texts,
    pairs: &[Pair],
    place: usize,
    name: &[u8],
) -> Result<usize, usize>
    requires { IsAscending (pairs_of texts.now pairs.now) }
    ensures found { IfOk result (IsPairAt (pairs_of texts.now pairs.now) name.now) }
    ensures absent { IfErr result (IsGapFor (pairs_of texts.now pairs.now) name.now) }
{
    if goes_behind(texts, pairs, place, name) {
        return Err(place.saturating_add(1));
    }
    place_of(texts, pairs, name)
}

// The value of a name that most records have.
fn known_value<'a>(texts: &'a Texts, pairs: &[Pair], name: &[u8], known: Name) -> Option<&'a [u8]>
    requires within { AreInTexts texts.now pairs.now }
    requires known { known_name name.now ≡ Some known }
    ensures { option_copied result ≡ value_of name.now (pairs_of texts.now pairs.now) }
{
    for pair in pairs {
        if is_one(pair.name, known) {
            return Some(texts.value(pair.value));
        }
    }
    None
}

// The value of the name, which is looked for one pair after another.
fn value_among<'a>(texts: &'a Texts, pairs: &[Pair], name: &[u8]) -> Option<&'a [u8]>
    ensures { option_copied result ≡ value_of name.now (pairs_of texts.now pairs.now) }
{
    for pair in pairs {
        if texts.is_named(pair.name, name) {
            return Some(texts.value(pair.value));
        }
    }
    None
}

impl Base {
    /// Takes pairs in their order.
    pub(crate) fn new(texts: Texts, pairs: Vec<Pair>) -> Base
        requires { AreInTexts texts pairs.items }
        ensures { result ≡ pairs_of texts pairs.items }
    {
        Base { texts, pairs }
    }

    // The same, in lists with room for so many more.
    fn with_room(&self, alloc: Global, more: usize) -> Result<Base, AllocError>
        ensures { IfOk result (λ base. base ≡ self.now) }
    {
        let (texts, pairs) = self.parts(alloc, more)?;
        Ok(Base { texts, pairs })
    }

    // Its texts and its pairs, in lists with room for so many more.
    fn parts(&self, alloc: Global, more: usize) -> Result<(Texts, Vec<Pair>), AllocError>
        ensures pairs { IfOk result (λ parts. pairs_of parts.0 parts.1.items ≡ self.now) }
        ensures within { IfOk result (λ parts. AreInTexts parts.0 parts.1.items) }
    {
        let item = self.texts.item.clone()?;
        let own = own_copied(alloc, self.texts.own.as_slice(), more)?;
        let pairs = pairs_copied(alloc, self.pairs.as_slice(), more)?;
        Ok((Texts { item, own }, pairs))
    }

    // Where the name is, or where it would go.
    fn search(&self, name: &[u8]) -> Result<usize, usize>
        requires { IsAscending self.now }
        ensures found { IfOk result (IsPairAt self.now name.now) }
        ensures absent { IfErr result (IsGapFor self.now name.now) }
    {
        place_of(&self.texts, self.pairs.as_slice(), name)
    }

    fn get(&self, name: &[u8]) -> Option<&[u8]>
        requires { IsAscending self.now }
        ensures { option_copied result ≡ value_of name.now self.now }
    {
        if let Some(known) = known_name(name) {
            return known_value(&self.texts, self.pairs.as_slice(), name, known);
        }
        if self.pairs.len() <= SCANNED {
            return value_among(&self.texts, self.pairs.as_slice(), name);
        }
        match halve(&self.texts, self.pairs.as_slice(), name) {
            Ok(place) => Some(
                self.texts
                    .value(pair_at(self.pairs.as_slice(), place).value),
            ),
            Err(_) => None,
        }
    }

    fn pair(&self, place: usize) -> Option<(&[u8], &[u8])>
        ensures { option_map (λ pair. record { name = pair.0.now; value = pair.1.now }) result
            ≡ slice_get self.now place }
    {
        let pair = self.pairs.get(place)?;
        Some((self.texts.name(pair.name), self.texts.value(pair.value)))
    }

    // Gives the pair at this place the value.
    fn replace(&mut self, place: usize, value: Bytes) -> Result<(), AllocError>
        requires { place < length self.old }
        ensures ok { OnOk result ((d : NamedValue) → self.new ≡ set self.old place (record {
          name = (get_or self.old place d).name;
          value = value;
        })) }
        ensures err { OnErr result (self.new ≡ self.old) }
    {
        let kept = keep(&mut self.texts.own, value)?;
        let pair = pair_at(self.pairs.as_slice(), place);
        self.pairs[place] = Pair {
            name: pair.name,
            value: Text::Own(kept),
        };
        Ok(())
    }

    // Puts a pair at this place.
    fn insert(&mut self, place: usize, name: Bytes, value: Bytes) -> Result<(), AllocError>
        requires { place ≤ length self.old }
        ensures ok { OnOk result (self.new
            ≡ insert self.old place (record { name = name; value = value })) }
        ensures err { OnErr result (self.new ≡ self.old) }
    {
        let name = keep_name(&mut self.texts.own, name)?;
        let value = Text::Own(keep(&mut self.texts.own, value)?);
        self.pairs.insert(place, Pair { name, value })?;
        Ok(())
    }

    fn set(&mut self, alloc: Global, name: &[u8], value: Bytes) -> Result<(), AllocError>
        requires { IsAscending self.old }
        ensures ok { OnOk result (self.new ≡ with_pair name.now value self.old) }
        ensures err { OnErr result (self.new ≡ self.old) }
    {
        match self.search(name) {
            Ok(place) => self.replace(place, value),
            Err(place) => {
                let name = Bytes::copy_from_slice(alloc, name)?;
                self.insert(place, name, value)
            }
        }
    }

    // As `set`, with a name whose memory is shared.
    fn put(&mut self, name: &Bytes, value: Bytes) -> Result<(), AllocError>
        requires { IsAscending self.old }
        ensures ok { OnOk result (self.new ≡ with_pair name.now value self.old) }
        ensures err { OnErr result (self.new ≡ self.old) }
    {
        match self.search(name.as_slice()) {
            Ok(place) => self.replace(place, value),
            Err(place) => {
                let name = name.clone()?;
                self.insert(place, name, value)
            }
        }
    }

    fn remove(&mut self, place: usize)
        requires { place < length self.old }
        ensures { self.new ≡ remove self.old place }
    {
        self.pairs.remove(place);
    }
}

/// The pairs of a message, seen as their list.
#[derive(Drop)]
pub(crate) struct Pairs {
    alloc: Global,
    base: Arc<Base>,
}

impl Model for Pairs {
    ghost use Rattle.std.specs.Prelude.{List};
    ghost use Rattle.std.specs.Arc.{arc_value};
    ghost use Rattle.sg_msg.specs.Message.{NameValue};

    ghost Value = { List NameValue };

    ghost view = { λ p. arc_value p.base };
}

impl Pairs {
    pub(crate) fn new(alloc: Global) -> Result<Pairs, AllocError>
        ensures { IfOk result (λ pairs. pairs ≡ []) }
    {
        let texts = Texts {
            item: Bytes::new(),
            own: Vec::new(alloc),
        };
        Pairs::of(alloc, Base::new(texts, Vec::new(alloc)))
    }

    pub(crate) fn of(alloc: Global, base: Base) -> Result<Pairs, AllocError>
        ensures { IfOk result (λ shared. shared ≡ base) }
    {
        Ok(Pairs {
            alloc,
            base: Arc::new(alloc, base)?,
        })
    }

    pub(crate) fn share(&self) -> Result<Pairs, AllocError>
        ensures { IfOk result (λ pairs. pairs ≡ self.now) }
    {
        Ok(Pairs {
            alloc: self.alloc,
            base: Arc::try_clone(&self.base)?,
        })
    }

    /// The same, in a list of its own, which has room for so many more.
    pub(crate) fn with_room(&self, more: usize) -> Result<Pairs, AllocError>
        ensures { IfOk result (λ pairs. pairs ≡ self.now) }
    {
        let base = self.base.with_room(self.alloc, more)?;
        Ok(Pairs {
            alloc: self.alloc,
            base: Arc::new(self.alloc, base)?,
        })
    }

    /// Its texts and its pairs, in lists with room for so many more.
    pub(crate) fn parts(&self, more: usize) -> Result<(Texts, Vec<Pair>), AllocError>
        ensures pairs { IfOk result (λ parts. pairs_of parts.0 parts.1.items ≡ self.now) }
        ensures within { IfOk result (λ parts. AreInTexts parts.0 parts.1.items) }
    {
        self.base.parts(self.alloc, more)
    }

    pub(crate) fn alloc(&self) -> Global {
        self.alloc
    }

    pub(crate) fn get(&self, name: &[u8]) -> Option<&[u8]>
        requires { IsAscending self.now }
        ensures { option_copied result ≡ value_of name.now self.now }
    {
        self.base.get(name)
    }

    pub(crate) fn len(&self) -> usize
        ensures { result ≡ length self.now }
    {
        self.base.pairs.len()
    }

    pub(crate) fn pair(&self, place: usize) -> Option<(&[u8], &[u8])>
        ensures { option_map (λ pair. record { name = pair.0.now; value = pair.1.now }) result
            ≡ slice_get self.now place }
    {
        self.base.pair(place)
    }

    pub(crate) fn set(&mut self, name: &[u8], value: Bytes) -> Result<(), AllocError>
        requires { IsAscending self.old }
        ensures ok { OnOk result (self.new ≡ with_pair name.now value self.old) }
        ensures err { OnErr result (self.new ≡ self.old) }
    {
        let alloc = self.alloc;
        Arc::make_mut(&mut self.base)?.set(alloc, name, value)
    }

    pub(crate) fn put(&mut self, name: &Bytes, value: Bytes) -> Result<(), AllocError>
        requires { IsAscending self.old }
        ensures ok { OnOk result (self.new ≡ with_pair name.now value self.old) }
        ensures err { OnErr result (self.new ≡ self.old) }
    {
        Arc::make_mut(&mut self.base)?.put(name, value)
    }

    pub(crate) fn unset(&mut self, name: &[u8]) -> Result<(), AllocError>
        requires { IsAscending self.old }
        ensures ok { OnOk result (self.new ≡ without_pair name.now self.old) }
        ensures err { OnErr result (self.new ≡ self.old) }
    {
        match self.base.search(name) {
            Ok(place) => Arc::make_mut(&mut self.base)?.remove(place),
            Err(_) => {}
        }
        Ok(())
    }
}
