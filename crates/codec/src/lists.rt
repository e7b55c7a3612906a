// Lists of at most so many items, which lie in the value itself and are copied with it; those of a contents and of a body have a value for
// each column.
ghost use Rattle.std.specs.Prelude.{⊤, ◌≡◌, ◌==◌, ◌<◌, ◌≤◌, [], ◌∷◌, ◌++◌, length};
ghost use Rattle.arrayvec.specs.ArrayVec.{array_vec_len};
ghost use Rattle.decimal.specs.Number.{zero_number};
ghost use Rattle.decimal.specs.Remainder.{zero_remainder};
ghost use Rattle.codec.specs.Lists.{no_image};

use decimal::{Image, Number, Remainder};
use std::alloc::AllocError;
use std::fmt;
use std::marker::Model;
use std::ops::DerefSlice;

// The most columns that a contents has.
pub const MAX_COLUMNS: usize = 16;

// Images, as a contents has them.
pub type Images = FixedList<Image, MAX_COLUMNS>;

// Numbers, as a body has them.
pub type Numbers = FixedList<Number, MAX_COLUMNS>;

// What truncation cut off the numbers of a body.
pub type Remainders = FixedList<Remainder, MAX_COLUMNS>;

// What stands in a place of a list behind its last item.
pub trait Blank: Copy {
    ghost blank: { Self };

    // That value.
    fn blank() -> Self
        ensures { result ≡ blank };
}

impl Blank for Image {
    ghost blank = { no_image };

    // An unsigned image with no # sign.
    fn blank() -> Image {
        Image::default()
    }
}

impl Blank for Number {
    ghost blank = { zero_number };

    // Zero.
    fn blank() -> Number {
        Number::ZERO
    }
}

impl Blank for Remainder {
    ghost blank = { zero_remainder };

    // The remainder of zero.
    fn blank() -> Remainder {
        Remainder::ZERO
    }
}

impl Blank for usize {
    ghost blank = { 0 };

    // Zero.
    fn blank() -> usize {
        0
    }
}

// A list of at most N items. It lies in an array, with blanks behind its last item, and is copied as the array is.
#[derive(Copy, PartialEq, Eq, Hash)]
pub struct FixedList<T: Blank, const N: usize> {
    values: [T; N],
    count: usize,
}

impl<T: Blank, const N: usize> Model for FixedList<T, N> {
    ghost use Rattle.std.specs.Prelude.{◌≡◌, ◌-◌, ◌≤◌, ◌++◌, length, take, replicate};
    ghost use Rattle.arrayvec.specs.ArrayVec.{ArrayVec as Items, array_vec_code};

    ghost Value = { Items T };

    ghost coded = { array_vec_code T.code };

    ghost view = { λ v. record { items = take v.count v.values } };

    ghost invariant = { λ v. (v.count ≤ N) × (length v.values ≡ N) × (v.values ≡ take v.count v.values ++ replicate (N - v.count) T.blank) };

    ghost inverse = { λ v. record { values = v.items ++ replicate (N - length v.items) T.blank; count = length v.items } };
}

impl<T: Blank, const N: usize> Clone for FixedList<T, N> {
    ghost is_clone = { λ list copy. copy ≡ list };

    ghost is_infallible = { λ _. ⊤ };

    // The same list; it can't fail.
    fn clone(&self) -> Result<Self, AllocError> {
        Ok(*self)
    }
}

impl<T: Blank + fmt::Debug, const N: usize> fmt::Debug for FixedList<T, N> {
    // The items, as a slice prints them.
    fn fmt<W: fmt::Write>(&self, f: &mut fmt::Formatter<W>) -> fmt::Result {
        f.debug_list().entries(self.as_slice()).finish()
    }
}

impl<T: Blank, const N: usize> DerefSlice for FixedList<T, N> {
    type Elem = T;

    ghost deref_gives = { λ v xs. (xs ≡ v.items) × (length xs ≤ N) };

    // The items.
    #[inline]
    fn deref(&self) -> &[T] {
        self.as_slice()
    }
}

impl<T: Blank, const N: usize> Default for FixedList<T, N> {
    ghost is_default = { λ v. v.items ≡ [] };

    // A list with no item.
    fn default() -> Self {
        FixedList::new()
    }
}

impl<T: Blank, const N: usize> FixedList<T, N> {
    // A list with no item.
    #[inline]
    pub fn new() -> Self
        ensures { result.items ≡ [] }
    {
        FixedList {
            values: [T::blank(); N],
            count: 0,
        }
    }

    // The count of items.
    #[inline]
    pub fn len(&self) -> usize
        ensures value { result ≡ array_vec_len self.now }
        ensures fits { result ≤ N }
    {
        self.count
    }

    // Whether there is no item.
    #[inline]
    pub fn is_empty(&self) -> bool
        ensures { result ≡ (array_vec_len self.now == 0) }
    {
        self.count == 0
    }

    // Whether there is no room left.
    #[inline]
    pub fn is_full(&self) -> bool
        ensures value { result ≡ (array_vec_len self.now == N) }
        ensures fits { array_vec_len self.now ≤ N }
    {
        self.count == N
    }

    // The items.
    #[inline]
    pub fn as_slice(&self) -> &[T]
        ensures value { result.now ≡ self.now.items }
        ensures fits { length result.now ≤ N }
    {
        &self.values[..self.count]
    }

    // Puts an item behind the last one; a full list stays as it is.
    #[inline]
    pub fn push(&mut self, item: T)
        ensures items { array_vec_len self.old < N → self.new.items ≡ self.old.items ++ item ∷ [] }
        ensures full { N ≤ array_vec_len self.old → self.new.items ≡ self.old.items }
    {
        if self.count < N {
            self.values[self.count] = item;
            self.count += 1;
        }
    }

    // Takes all items out.
    pub fn clear(&mut self)
        ensures { self.new.items ≡ [] }
    {
        if self.count != 0 {
            *self = FixedList::new();
        }
    }
}
