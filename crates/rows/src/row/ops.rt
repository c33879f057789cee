ghost use Rattle.std.specs.Prelude.{◌≡◌, ◌+◌, [], ◌++◌, length, drop, replicate, if◌then◌else◌, nat_le, slice_index_or, slice_set};
ghost use Rattle.rows.specs.Rows.{held};

use super::Row;

impl<T: Copy, const N: usize> Row<T, N> {
    // No values. The places take some value of the type.
    pub fn empty(fill: T) -> Self
        ensures { held result ≡ [] }
    {
        Row {
            places: [fill; N],
            front: N,
        }
    }

    // How many values there are.
    pub fn depth(&self) -> usize
        ensures value { result ≡ length (held self.now) }
        ensures place { self.now.front + result ≡ N }
    {
        N - self.front
    }

    // The values, the front one first.
    pub fn values(&self) -> &[T]
        ensures { result.now ≡ held self.now }
    {
        let all = &self.places[..];
        &all[self.front..]
    }

    // The value at n from the front, or another where there is none.
    pub fn get(&self, n: usize, otherwise: T) -> T
        ensures { result ≡ slice_index_or (held self.now) n otherwise }
    {
        self.values().get(n).copied().unwrap_or(otherwise)
    }

    // The value at n from the front is replaced; where there is none nothing changes.
    pub fn put(&mut self, n: usize, value: T)
        ensures { held self.new ≡ slice_set (held self.old) n value }
    {
        // by index, since `get_mut` says nothing of what the places are after the write
        if n < self.depth() {
            self.places[self.front + n] = value;
        }
    }

    // So many values more in front, all of them the same. Where there is no room, nothing changes.
    // A `bool` says which it was: no caller has an error to hand on, and one that knows of the room drops it.
    pub fn push(&mut self, count: usize, value: T) -> bool
        ensures room { result ≡ nat_le (length (held self.old) + count) N }
        ensures after { held self.new ≡ (if result then replicate count value ++ held self.old else held self.old) }
    {
        if count > self.front {
            return false;
        }
        let front = self.front - count;
        let all = &mut self.places[..];
        // not by `fill`, which asks what a clone of the value is
        all[front..self.front].fill_with(|| value);
        self.front = front;
        true
    }

    // So many values fewer in front, none where there are no more.
    pub fn pop(&mut self, count: usize)
        ensures { held self.new ≡ drop count (held self.old) }
    {
        self.front += count.min(self.depth());
    }
}
