// The names of pairs of structured data.
ghost use Rattle.std.specs.Prelude.{◌≡◌, ◌≤◌, ◌++◌, true, codes, IfOk, IfSome};
ghost use Rattle.sg_r5424.specs.Data.{element_name, param_name};

use bytes::Bytes;
use sg_msg::is_same;
use std::alloc::{AllocError, Global};

// So many names are kept.
const KEPT: usize = 64;

/// The names of pairs that the records before had, each at its place in its record. A record whose
/// pairs have the same names shares their memory.
#[derive(Drop)]
pub struct SdNames {
    alloc: Global,
    kept: Vec<Bytes>,
    // The place of the pair that comes next.
    next: usize,
    // How many pairs the last record had.
    last: usize,
}

impl SdNames {
    /// None is kept yet. It takes no memory.
    pub fn new(alloc: Global) -> SdNames {
        SdNames {
            alloc,
            kept: Vec::new(alloc),
            next: 0,
            last: 0,
        }
    }

    /// A record begins. How many pairs it is likely to have.
    pub(crate) fn restart(&mut self) -> usize
        ensures { result ≤ 64 }
    {
        self.last = self.next.min(KEPT);
        self.next = 0;
        self.last
    }

    // The place of the pair that comes next, behind which another one comes.
    fn step(&mut self) -> usize {
        let place = self.next;
        self.next = place.saturating_add(1);
        place
    }

    // Keeps the name of the pair at a place.
    fn keep(&mut self, place: usize, name: Bytes) -> Result<(), AllocError> {
        if place < self.kept.len() {
            self.kept[place] = name;
            return Ok(());
        }
        if place < KEPT {
            self.kept.push(name)?;
        }
        Ok(())
    }

    /// The name of the pair of an element without parameters.
    pub(crate) fn element(&mut self, id: &[u8]) -> Result<Bytes, AllocError>
        ensures { IfOk result (λ name. name ≡ element_name id.now) }
    {
        let place = self.step();
        if let Some(name) = self.kept.get(place) {
            if is_element(name.as_slice(), id) {
                return name.clone();
            }
        }
        let name = made_element(self.alloc, id)?;
        self.keep(place, name.clone()?)?;
        Ok(name)
    }

    /// The name of the pair of a parameter.
    pub(crate) fn param(&mut self, id: &[u8], param: &[u8]) -> Result<Bytes, AllocError>
        ensures { IfOk result (λ name. name ≡ param_name id.now param.now) }
    {
        let place = self.step();
        if let Some(name) = self.kept.get(place) {
            if is_param(name.as_slice(), id, param) {
                return name.clone();
            }
        }
        let name = made_param(self.alloc, id, param)?;
        self.keep(place, name.clone()?)?;
        Ok(name)
    }
}

// What stands behind `.SDATA.`.
fn behind_data(name: &[u8]) -> Option<&[u8]>
    ensures { IfSome result (λ rest. name.now ≡ codes ".SDATA." ++ rest.now) }
{
    match name {
        [b'.', b'S', b'D', b'A', b'T', b'A', b'.', rest @ ..] => Some(rest),
        _ => None,
    }
}

// What stands behind this ID and a dot.
fn behind_id<'a>(text: &'a [u8], id: &[u8]) -> Option<&'a [u8]>
    ensures { IfSome result (λ rest. text.now ≡ id.now ++ codes "." ++ rest.now) }
{
    if text.len() < id.len() || !is_same(&text[..id.len()], id) {
        return None;
    }
    match &text[id.len()..] {
        [b'.', rest @ ..] => Some(rest),
        _ => None,
    }
}

fn is_element(name: &[u8], id: &[u8]) -> bool
    ensures { result ≡ true → name.now ≡ element_name id.now }
{
    let Some(rest) = behind_data(name) else {
        return false;
    };
    is_same(rest, id)
}

fn is_param(name: &[u8], id: &[u8], param: &[u8]) -> bool
    ensures { result ≡ true → name.now ≡ param_name id.now param.now }
{
    let Some(rest) = behind_data(name) else {
        return false;
    };
    let Some(rest) = behind_id(rest, id) else {
        return false;
    };
    is_same(rest, param)
}

fn made_element(alloc: Global, id: &[u8]) -> Result<Bytes, AllocError>
    ensures { IfOk result (λ name. name ≡ element_name id.now) }
{
    let mut name = Vec::with_capacity(alloc, id.len().saturating_add(7))?;
    name.extend_from_slice(b".SDATA.")?;
    name.extend_from_slice(id)?;
    Ok(Bytes::from_vec(name)?)
}

fn made_param(alloc: Global, id: &[u8], param: &[u8]) -> Result<Bytes, AllocError>
    ensures { IfOk result (λ name. name ≡ param_name id.now param.now) }
{
    let room = id.len().saturating_add(param.len()).saturating_add(8);
    let mut name = Vec::with_capacity(alloc, room)?;
    name.extend_from_slice(b".SDATA.")?;
    name.extend_from_slice(id)?;
    name.extend_from_slice(b".")?;
    name.extend_from_slice(param)?;
    Ok(Bytes::from_vec(name)?)
}
