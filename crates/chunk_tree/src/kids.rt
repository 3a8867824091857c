ghost use Rattle.std.specs.Prelude.{◌≡◌, ◌++◌, ◌∷◌, ◌<◌, [], length, MatchOption};

use std::marker::Model;

/// What the children of a node hand on, in order of number: at most eight values, since a node has at most
/// eight children. None of its calls takes memory.
///
/// The places are fields, since an array of a type parameter would owe at each call that it has a size.
#[derive(Drop)]
pub struct Kids<R> {
    first: Option<R>,
    second: Option<R>,
    third: Option<R>,
    fourth: Option<R>,
    fifth: Option<R>,
    sixth: Option<R>,
    seventh: Option<R>,
    eighth: Option<R>,
}

impl<R> Model for Kids<R> {
    ghost use Rattle.std.specs.Prelude.{List};
    ghost use Rattle.std.specs.Coded.{coded_list};
    ghost use Rattle.chunk_tree.specs.Kids.{given, AreFilledInOrder};

    ghost Value = { List R };

    ghost coded = { coded_list R.code };

    ghost view = { λ kids. given kids.first kids.second kids.third kids.fourth kids.fifth kids.sixth kids.seventh kids.eighth };

    ghost invariant = { λ kids. AreFilledInOrder kids.first kids.second kids.third kids.fourth kids.fifth kids.sixth kids.seventh kids.eighth };
}

impl<R: Drop> Kids<R> {
    /// No value.
    pub fn none() -> Kids<R>
        ensures { result ≡ [] }
    {
        Kids {
            first: None,
            second: None,
            third: None,
            fourth: None,
            fifth: None,
            sixth: None,
            seventh: None,
            eighth: None,
        }
    }

    /// Takes the first value, or answers None where there is none.
    pub fn take_first(&mut self) -> Option<R>
        ensures { MatchOption result
            ((self.old ≡ []) × (self.new ≡ []))
            (λ value. self.old ≡ value ∷ self.new) }
    {
        let taken = self.first.take();
        self.first = self.second.take();
        self.second = self.third.take();
        self.third = self.fourth.take();
        self.fourth = self.fifth.take();
        self.fifth = self.sixth.take();
        self.sixth = self.seventh.take();
        self.seventh = self.eighth.take();
        taken
    }

    /// How many values there are.
    pub fn len(&self) -> u32
        ensures { result ≡ length self.now }
    {
        u32::from(self.first.is_some())
            + u32::from(self.second.is_some())
            + u32::from(self.third.is_some())
            + u32::from(self.fourth.is_some())
            + u32::from(self.fifth.is_some())
            + u32::from(self.sixth.is_some())
            + u32::from(self.seventh.is_some())
            + u32::from(self.eighth.is_some())
    }

    /// Adds a value after the others.
    pub fn push(&mut self, value: R)
        requires { length self.old < 8 }
        ensures { self.new ≡ self.old ++ value ∷ [] }
    {
        if self.first.is_none() {
            self.first = Some(value);
        } else if self.second.is_none() {
            self.second = Some(value);
        } else if self.third.is_none() {
            self.third = Some(value);
        } else if self.fourth.is_none() {
            self.fourth = Some(value);
        } else if self.fifth.is_none() {
            self.fifth = Some(value);
        } else if self.sixth.is_none() {
            self.sixth = Some(value);
        } else if self.seventh.is_none() {
            self.seventh = Some(value);
        } else {
            self.eighth = Some(value);
        }
    }
}
