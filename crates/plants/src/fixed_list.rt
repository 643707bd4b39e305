// A list of a fixed capacity, which allocates nothing and is copied as its array is: the kit's `arrayvec::ArrayVec` is
// not `Copy`, as a layout is for its callers.
ghost use Rattle.std.specs.Prelude.{◌≡◌, ◌<◌, ◌≤◌, ◌==◌, [], ◌∷◌, ◌++◌, length};
ghost use Rattle.std.specs.Cmp.{on_equiv, on_per};
ghost use Rattle.std.specs.Cmp.Lexicographic.{pointwise, lists_per, lists_equiv};

use std::alloc::AllocError;
use std::fmt;
use std::marker::Model;
use std::ops::DerefSlice;

// What stands in the places of a list that are not in use.
pub trait Unused: Copy {
    ghost filler: { Self };

    fn unused() -> Self
        ensures { result ≡ filler };
}

// Contracts see the list of the elements: the places behind them all hold the same.
#[derive(Copy)]
pub struct FixedList<T: Unused, const CAP: usize> {
    places: [T; CAP],
    count: usize,
}

impl<T: Unused, const CAP: usize> Model for FixedList<T, CAP> {
    ghost use Rattle.std.specs.Prelude.{◌≡◌, ◌-◌, ◌≤◌, List, ◌++◌, length, take, drop, replicate};
    ghost use Rattle.std.proofs.Common.{arith, sym, ap, ◌∙◌, take-append-drop, length-take-le};

    ghost Value = { List T };

    ghost view = { λ x. take x.count x.places };

    ghost invariant = { λ x. (x.count ≤ CAP) × (length x.places ≡ CAP) × (drop x.count x.places ≡ replicate (CAP - x.count) T.filler) };

    ghost inverse = { λ ts. record { places = ts ++ replicate (CAP - length ts) T.filler; count = length ts } };

    ghost inverse_ok = { λ x h i.
        let counted = length-take-le x.count x.places (omega (arith, h.0, h.1)) in
        record {
          places = (ap (λ k. take x.count x.places ++ replicate (CAP - k) T.filler) counted ∙ ap (λ rest. take x.count x.places ++ rest) (sym h.2) ∙ take-append-drop x.count x.places) i;
          count = counted i;
        } };
}

impl<T: Unused, const CAP: usize> FixedList<T, CAP> {
    // A list with no element.
    pub fn new() -> Self
        ensures { result ≡ [] }
    {
        FixedList {
            places: [T::unused(); CAP],
            count: 0,
        }
    }

    // How many elements there are.
    pub fn len(&self) -> usize
        ensures value { result ≡ length self.now }
        ensures fits { result ≤ CAP }
    {
        self.count
    }

    // Whether there is no room left.
    pub fn is_full(&self) -> bool
        ensures value { result ≡ (length self.now == CAP) }
        ensures fits { length self.now ≤ CAP }
    {
        self.count == CAP
    }

    // Adds an element.
    pub(crate) fn push(&mut self, element: T)
        requires { length self.old < CAP }
        ensures items { self.new ≡ self.old ++ element ∷ [] }
    {
        self.places[self.count] = element;
        self.count += 1;
    }
}

impl<T: Unused, const CAP: usize> DerefSlice for FixedList<T, CAP> {
    type Elem = T;

    ghost deref_gives = { λ list items. (items ≡ list) × (length items ≤ CAP) };

    fn deref(&self) -> &[T] {
        &self.places[..self.count]
    }
}

impl<T: Unused, const CAP: usize> Clone for FixedList<T, CAP> {
    ghost is_clone = { λ list other. list ≡ other };

    fn clone(&self) -> Result<Self, AllocError> {
        Ok(*self)
    }
}

impl<T: Unused + PartialEq, const CAP: usize> PartialEq for FixedList<T, CAP> {
    ghost eq = { λ list other. pointwise T.eq list other };

    ghost laws = { on_per (λ list. list) (lists_per T.laws) };

    fn eq(&self, other: &Self) -> bool {
        self[..] == other[..]
    }
}

impl<T: Unused + Eq, const CAP: usize> Eq for FixedList<T, CAP> {
    ghost laws = { on_equiv (λ list. list) (lists_equiv T.Eq.laws) };
}

impl<T: Unused + fmt::Debug, const CAP: usize> fmt::Debug for FixedList<T, CAP> {
    fn fmt<W: fmt::Write>(&self, f: &mut fmt::Formatter<W>) -> fmt::Result {
        f.debug_list().entries(&self[..]).finish()
    }
}
