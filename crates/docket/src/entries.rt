// The caller's table of entries.
ghost use Rattle.std.specs.Prelude.{◌≡◌, ◌<◌, length, slice_set};
ghost use Rattle.docket_theory.specs.Worlds.{row_in};

use docket_theory::Entry;

// The most entries that are ever live.
pub const MOST_ENTRIES: usize = 256;

// A table of the caller's, of which the first `live` rows are entries: a lent slice and a count, since the docket has no memory of its own.
// The marks are lent beside it and stand in no struct with it: settle and sweep only read the entries, and verdict reads both, so one struct would ask for more than they need.
#[derive(Drop)]
pub struct Entries<'a, S> {
    pub rows: &'a mut [Entry<S>],
    pub live: u16,
}

impl<'a, S> Entries<'a, S> {
    // A table with no entry live.
    pub fn new(rows: &'a mut [Entry<S>]) -> Entries<'a, S>
        ensures live { result.live ≡ 0 }
        ensures rows { result.rows.now ≡ rows.old }
    {
        Entries { rows, live: 0 }
    }
}

impl<'a, S: Copy> Entries<'a, S> {
    // The live entry of that number.
    pub(crate) fn row(&self, i: usize) -> Option<Entry<S>>
        ensures { result ≡ row_in self.now.rows.now self.now.live i }
    {
        let rows = &*self.rows;
        if i < self.live as usize {
            rows.get(i).copied()
        } else {
            None
        }
    }
}

pub(crate) fn put_row<S: Copy>(rows: &mut [Entry<S>], i: usize, new: Entry<S>)
    requires { i < length rows.old }
    ensures { rows.new ≡ slice_set rows.old i new }
{
    rows[i] = new;
}
