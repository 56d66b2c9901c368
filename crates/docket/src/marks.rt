// The caller's table of marks. A mark past the table reads as open, and is not written.
ghost use Rattle.std.specs.Prelude.{◌≡◌, map, slice_index_or, slice_set};
ghost use Rattle.docket_theory.specs.Docket.{entry_opened, forget};
ghost use Rattle.docket_theory.specs.Worlds.{open_mark};

// The mark of a duty that is not settled; it also names the opening duty, as callers number it.
// Marks are numbers and no enum, as they stand in a table of the caller's.
pub const OPEN: u16 = 65_535;

// The mark of a duty whose image is empty.
pub const EMPTY: u16 = 65_534;

// How many marks an entry has, one for each step out of its cell.
pub const STEPS_PER_ENTRY: usize = 16;

pub(crate) fn mark_at(marks: &[u16], place: usize) -> u16
    ensures { result ≡ slice_index_or marks.now place open_mark }
{
    marks.get(place).copied().unwrap_or(OPEN)
}

pub(crate) fn put_mark(marks: &mut [u16], place: usize, mark: u16)
    ensures { marks.new ≡ slice_set marks.old place mark }
{
    if place < marks.len() {
        marks[place] = mark;
    }
}

// Opens the marks of entry i. One place after another, since the table may end among them.
pub(crate) fn open_entry(marks: &mut [u16], i: u16)
    ensures { marks.new ≡ entry_opened marks.old i }
{
    let first = i as usize * STEPS_PER_ENTRY;
    for j in 0..STEPS_PER_ENTRY {
        put_mark(marks, first + j, OPEN);
    }
}

// A mark that names the entry becomes open.
pub(crate) fn forgotten(mark: u16, number: u16) -> u16
    ensures { result ≡ forget number mark }
{
    if mark == number { OPEN } else { mark }
}

// Opens every mark that names the entry.
pub(crate) fn forget_entry(marks: &mut [u16], number: u16)
    ensures { marks.new ≡ map (forget number) marks.old }
{
    for mark in marks.iter_mut() {
        *mark = forgotten(*mark, number);
    }
}
