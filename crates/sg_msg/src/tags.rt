// The tags of a message, in one list that its handles share.
ghost use Rattle.std.specs.Prelude.{◌≡◌, ◌<◌, [], ◌∷◌, ◌++◌, length, remove, IfOk, OnOk, OnErr, option_copied, slice_get, position, bytes_eq};
ghost use Rattle.std.specs.Arc.{arc_value};
ghost use Rattle.sg_msg.specs.Message.{has_tag, with_tag, without_tag};

use bytes::Bytes;
use std::alloc::{AllocError, Global};
use std::marker::Model;
use std::sync::Arc;

/// The tags in order.
#[derive(Drop)]
struct TagList {
    tags: Vec<Bytes>,
}

impl Model for TagList {
    ghost use Rattle.std.specs.Prelude.{ℕ, List as Sequence};

    ghost Value = { Sequence (Sequence ℕ) };

    ghost view = { λ l. l.tags.items };
}

impl Clone for TagList {
    ghost is_clone = { λ list copy. copy ≡ list };

    fn clone(&self) -> Result<TagList, AllocError> {
        Ok(TagList {
            tags: self.tags.clone()?,
        })
    }
}

impl TagList {
    fn push(&mut self, tag: Bytes) -> Result<(), AllocError>
        ensures ok { OnOk result (self.new ≡ self.old ++ tag ∷ []) }
        ensures err { OnErr result (self.new ≡ self.old) }
    {
        self.tags.push(tag)?;
        Ok(())
    }

    fn remove(&mut self, place: usize)
        requires { place < length self.old }
        ensures { self.new ≡ remove self.old place }
    {
        self.tags.remove(place);
    }
}

/// The tags of a message, seen as their list, which takes no memory where it is empty from the start.
#[derive(Drop)]
pub(crate) struct Tags {
    alloc: Global,
    list: Option<Arc<TagList>>,
}

impl Model for Tags {
    ghost use Rattle.std.specs.Prelude.{ℕ, List as Sequence};
    ghost use Rattle.sg_msg.specs.Tags.{listed};

    ghost Value = { Sequence (Sequence ℕ) };

    ghost view = { λ t. listed t.list };
}

impl Tags {
    pub(crate) fn new(alloc: Global) -> Tags
        ensures { result ≡ [] }
    {
        Tags { alloc, list: None }
    }

    pub(crate) fn share(&self) -> Result<Tags, AllocError>
        ensures { IfOk result (λ tags. tags ≡ self.now) }
    {
        let list = match &self.list {
            Some(list) => Some(Arc::try_clone(list)?),
            None => None,
        };
        Ok(Tags {
            alloc: self.alloc,
            list,
        })
    }

    // The tags in order.
    fn tags(&self) -> &[Bytes]
        ensures { result.now ≡ self.now }
    {
        match &self.list {
            Some(list) => list.tags.as_slice(),
            None => &[],
        }
    }

    pub(crate) fn get(&self, place: usize) -> Option<&[u8]>
        ensures { option_copied result ≡ slice_get self.now place }
    {
        Some(self.tags().get(place)?.as_slice())
    }

    pub(crate) fn set(&mut self, tag: &[u8]) -> Result<(), AllocError>
        ensures ok { OnOk result (self.new ≡ with_tag tag.now self.old) }
        ensures err { OnErr result (self.new ≡ self.old) }
    {
        if self.has(tag) {
            return Ok(());
        }
        let tag = Bytes::copy_from_slice(self.alloc, tag)?;
        self.push(tag)
    }

    fn push(&mut self, tag: Bytes) -> Result<(), AllocError>
        ensures ok { OnOk result (self.new ≡ self.old ++ tag ∷ []) }
        ensures err { OnErr result (self.new ≡ self.old) }
    {
        match &mut self.list {
            Some(list) => Arc::make_mut(list)?.push(tag),
            None => {
                self.list = Some(only(self.alloc, tag)?);
                Ok(())
            }
        }
    }

    pub(crate) fn clear(&mut self, tag: &[u8]) -> Result<(), AllocError>
        ensures ok { OnOk result (self.new ≡ without_tag tag.now self.old) }
        ensures err { OnErr result (self.new ≡ self.old) }
    {
        match self.place(tag) {
            Some(place) => self.remove(place)?,
            None => {}
        }
        Ok(())
    }

    fn remove(&mut self, place: usize) -> Result<(), AllocError>
        requires { place < length self.old }
        ensures ok { OnOk result (self.new ≡ remove self.old place) }
        ensures err { OnErr result (self.new ≡ self.old) }
    {
        match &mut self.list {
            Some(list) => Arc::make_mut(list)?.remove(place),
            None => {}
        }
        Ok(())
    }

    fn has(&self, tag: &[u8]) -> bool
        ensures { result ≡ has_tag tag.now self.now }
    {
        self.tags().iter().any(|set| set.as_slice() == tag)
    }

    fn place(&self, tag: &[u8]) -> Option<usize>
        ensures { result ≡ position (λ set. bytes_eq set tag.now) self.now }
    {
        self.tags().iter().position(|set| set.as_slice() == tag)
    }
}

// A list of one tag.
fn only(alloc: Global, tag: Bytes) -> Result<Arc<TagList>, AllocError>
    ensures { IfOk result (λ list. arc_value list ≡ tag ∷ []) }
{
    let mut list = TagList {
        tags: Vec::new(alloc),
    };
    list.push(tag)?;
    Ok(Arc::new(alloc, list)?)
}
