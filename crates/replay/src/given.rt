// What a record gives of a kind, at the front of an array.
#[derive(Clone, Copy)]
pub(crate) struct Given<T, const N: usize> {
    places: [T; N],
    n: usize,
}

impl<T: Copy, const N: usize> Given<T, N> {
    // As many as there are places for, one after another.
    pub(crate) fn new<F: FnMut() -> T>(n: usize, blank: T, mut next: F) -> Given<T, N>
        requires { F.IsAlwaysCallable next }
    {
        let n = n.min(N);
        let mut places = [blank; N];
        for place in places.iter_mut().take(n) {
            *place = next();
        }
        Given { places, n }
    }

    pub(crate) fn as_slice(&self) -> &[T] {
        self.places.get(..self.n).unwrap_or(&self.places)
    }

    // A part of each.
    pub(crate) fn map<U: Copy, F: Fn(T) -> U>(&self, blank: U, part: F) -> Given<U, N>
        requires { F.IsAlwaysCallable part }
    {
        let mut places = [blank; N];
        for (place, x) in places.iter_mut().zip(self.as_slice()) {
            *place = part(*x);
        }
        Given { places, n: self.n }
    }
}
