// Places for values of a type parameter. Generic code does not know that an array of such values fits into memory, and every caller of a put or a take would have to show it, so places are fields, four by four.
ghost use Rattle.std.specs.Prelude.{◌≡◌, ◌<◌, slice_index_or, slice_set};
ghost use Rattle.hand.specs.Places.{four};

// Four places.
#[derive(Clone, Copy)]
pub(crate) struct Four<T> {
    a: T,
    b: T,
    c: T,
    d: T,
}

impl<T: Copy> Four<T> {
    // The same value in every place.
    pub(crate) fn all(item: T) -> Four<T>
        ensures { result ≡ record { a = item; b = item; c = item; d = item } }
    {
        Four {
            a: item,
            b: item,
            c: item,
            d: item,
        }
    }

    // The value at a place.
    pub(crate) fn at(&self, place: usize) -> T
        requires { place < 4 }
        ensures { result ≡ slice_index_or (four self.now) place result }
    {
        match place {
            0 => self.a,
            1 => self.b,
            2 => self.c,
            _ => self.d,
        }
    }

    // Another value at a place.
    pub(crate) fn put(&mut self, place: usize, item: T)
        requires { place < 4 }
        ensures { four self.new ≡ slice_set (four self.old) place item }
    {
        match place {
            0 => self.a = item,
            1 => self.b = item,
            2 => self.c = item,
            _ => self.d = item,
        }
    }
}
