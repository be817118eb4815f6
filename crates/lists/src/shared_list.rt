ghost use Rattle.std.specs.Prelude.{◌≡◌, [], ◌∷◌, ◌++◌, ◌<◌, ◌↔◌, length, slice_get, IsTrue, IfOk, OnOk, OnErr};

use crate::copying::Copying;
use crate::listed::Listed;
use crate::shared::Shared;
use std::alloc::{AllocError, Global};
use std::marker::Model;

/// A list whose content is shared: copying it counts one more owner, whatever its length.
#[derive(Drop)]
pub struct SharedList<T> {
    held: Option<Shared<Listed<T>>>,
    alloc: Global,
}

impl<T> Model for SharedList<T> {
    ghost use Rattle.std.specs.Prelude.{List};
    ghost use Rattle.std.specs.Coded.{coded_list};
    ghost use Rattle.lists.specs.Held.{members};

    ghost Value = { List T };

    ghost coded = { coded_list T.code };

    ghost view = { λ list. members list.held };
}

impl<T> SharedList<T> {
    /// The empty list, which takes no memory.
    pub fn new(alloc: Global) -> SharedList<T>
        ensures { result ≡ [] }
    {
        SharedList { held: None, alloc }
    }

    /// The members in their order.
    pub fn as_slice(&self) -> &[T]
        ensures { result.now ≡ self.now }
    {
        match &self.held {
            None => &[],
            Some(list) => list.get().as_slice(),
        }
    }

    /// The number of members.
    pub fn len(&self) -> usize
        ensures { result ≡ length self.now }
    {
        self.as_slice().len()
    }

    /// Whether there is no member.
    pub fn is_empty(&self) -> bool
        ensures { IsTrue result ↔ (self.now ≡ []) }
    {
        self.as_slice().is_empty()
    }

    /// The member at this place, which is counted from 0.
    pub fn at(&self, place: usize) -> &T
        requires { place < length self.now }
        ensures { slice_get self.now place ≡ Some result.now }
    {
        &self.as_slice()[place]
    }
}

impl<T: Drop> SharedList<T> {
    /// The list of a vector's members, none of which is copied. Where memory runs out, they are dropped.
    pub fn from_vec(alloc: Global, items: Vec<T>) -> Result<SharedList<T>, AllocError>
        ensures { IfOk result (λ list. list ≡ items.items) }
    {
        Ok(SharedList {
            held: Some(Shared::new(alloc, Listed::from_vec(items))?),
            alloc,
        })
    }
}

impl<T: Copying> SharedList<T> {
    /// The members of `items`, each copied.
    pub fn from_slice(alloc: Global, items: &[T]) -> Result<SharedList<T>, AllocError>
        ensures { IfOk result (λ list. list ≡ items.now) }
    {
        let list = Listed::from_slice(alloc, items)?;
        SharedList::from_vec(alloc, list.into_vec())
    }

    /// Adds at the end: in place where nobody else shares the list, else to a copy of it.
    /// A refused push drops the item and leaves the list as it was.
    pub fn push(&mut self, item: T) -> Result<(), AllocError>
        ensures ok { OnOk result (self.new ≡ self.old ++ item ∷ []) }
        ensures err { OnErr result (self.new ≡ self.old) }
    {
        match &mut self.held {
            Some(list) => list.push(self.alloc, item),
            None => {
                let mut list = Listed::new(self.alloc);
                list.push(item)?;
                self.held = Some(Shared::new(self.alloc, list)?);
                Ok(())
            }
        }
    }
}

impl<T: Drop> Copying for SharedList<T> {
    fn copy(&self) -> Result<SharedList<T>, AllocError> {
        let held = match &self.held {
            None => None,
            Some(list) => Some(list.share()?),
        };
        Ok(SharedList {
            held,
            alloc: self.alloc,
        })
    }
}

impl SharedList<u8> {
    /// The list of these bytes, copied; an error where memory runs out.
    pub fn from_bytes(alloc: Global, bytes: &[u8]) -> Result<SharedList<u8>, AllocError>
        ensures { IfOk result (λ text. text ≡ bytes.now) }
    {
        SharedList::from_vec(alloc, Vec::from_slice(alloc, bytes)?)
    }

    /// The bytes in their order.
    pub fn as_bytes(&self) -> &[u8]
        ensures { result.now ≡ self.now }
    {
        self.as_slice()
    }
}

#[cfg(test)]
mod tests {
    use super::*;
    use std::test::Fail;
    use std::time::{Duration, Instant};

    #[test]
    fn copies_of_a_long_list_cost_no_more_than_counting(rt: HostRuntime) -> Result<(), Fail> {
        let mut long = Vec::with_capacity(rt.alloc(), 1_000_000)?;
        for number in 0..1_000_000u64 {
            long.push(number)?;
        }
        let long = SharedList::from_vec(rt.alloc(), long)?;
        let start = Instant::now(&rt)?;
        let mut copies = Vec::new(rt.alloc());
        for _ in 0..1_000 {
            copies.push(long.copy()?)?;
        }
        assert!(rt;
            start.elapsed(&rt)? < Duration::from_millis(200),
            "a thousand copies"
        );
        assert_eq!(rt; copies.len(), 1_000);
        for copied in copies.as_slice() {
            assert_eq!(rt; copied.len(), 1_000_000);
        }
        Ok(())
    }

    #[test]
    fn a_push_is_seen_by_its_own_list_alone(rt: HostRuntime) -> Result<(), Fail> {
        let mut first = SharedList::from_bytes(rt.alloc(), b"ab")?;
        let second = first.copy()?;
        first.push(b'c')?;
        first.push(b'd')?;
        assert_eq!(rt; first.as_bytes(), b"abcd".as_slice());
        assert_eq!(rt; second.as_bytes(), b"ab".as_slice());
        let mut pairs = SharedList::new(rt.alloc());
        pairs.push((1u64, first))?;
        let others = pairs.copy()?;
        pairs.push((2u64, second))?;
        assert_eq!(rt; others.len(), 1);
        assert_eq!(rt; pairs.len(), 2);
        assert_eq!(rt; pairs.at(0).1.as_bytes(), b"abcd".as_slice());
        Ok(())
    }
}
