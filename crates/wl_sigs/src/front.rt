//! A list of few items.
ghost use Rattle.std.specs.Prelude.{◌≡◌, ◌≤◌, length, take};

use std::fmt::{self, Debug, Formatter};
use std::marker::Model;

/// Up to `N` items at the front of an array, followed by blanks. The count is a byte, to save
/// space.
#[derive(Drop)]
pub(crate) struct Front<T, const N: usize> {
    len: u8,
    items: [T; N],
}

impl<T, const N: usize> Model for Front<T, N> {
    ghost use Rattle.std.specs.Prelude.{◌≤◌, List, take};
    ghost use Rattle.std.specs.Coded.{coded_list};

    ghost Value = { List T };

    ghost coded = { coded_list T.code };

    ghost view = { λ f. take f.len f.items };

    ghost invariant = { λ f. f.len ≤ N };
}

impl<T, const N: usize> Front<T, N> {
    /// The first `len` items of an array.
    pub(crate) fn of(items: [T; N], len: usize) -> Self
        requires fits { len ≤ N }
        requires counted { N ≤ 255 }
        ensures { result ≡ take len items }
    {
        Front {
            len: len as u8,
            items,
        }
    }

    /// The items, in order.
    #[inline]
    pub(crate) fn as_slice(&self) -> &[T]
        ensures { result.now ≡ self.now }
    {
        &self.items[..self.len as usize]
    }
}

impl<T: Copy, const N: usize> Front<T, N> {
    /// A copy of a slice, followed by this blank.
    pub(crate) fn from_slice(blank: T, slice: &[T]) -> Self
        requires fits { length slice.now ≤ N }
        requires counted { N ≤ 255 }
        ensures { result ≡ slice.now }
    {
        let mut items = [blank; N];
        items[..slice.len()].copy_from_slice(slice);
        Self::of(items, slice.len())
    }

    pub(crate) fn copy(&self) -> Self
        ensures { result ≡ self.now }
    {
        Front {
            len: self.len,
            items: self.items,
        }
    }
}

impl<T: Debug, const N: usize> Debug for Front<T, N> {
    fn fmt<W: fmt::Write>(&self, f: &mut Formatter<W>) -> fmt::Result {
        self.as_slice().fmt(f)
    }
}
