//! The session that a picture is of.

ghost use Rattle.std.specs.Prelude.{◌≡◌, [], map, slice_get, unwrap_or};

use srm_entries::Entry;

/// The session that a picture is of: what a drawing needs besides the shapes.
#[derive(Drop)]
pub struct Subject<'a> {
    /// How many members there are. They are numbered from 0.
    pub members: u8,
    /// What happened, oldest first.
    pub entries: &'a [Entry],
    /// The lines of each entry, as `srm world` prints them with timers, each with its line feed.
    pub lines: &'a [Vec<u8>],
}

impl Subject<'_> {
    /// Returns the lines of an entry, by its place from 0; none if there is no such entry.
    pub fn lines_of(&self, index: usize) -> &[u8]
        ensures { result.now ≡ unwrap_or (slice_get (map (λ lines. lines.items) self.now.lines.now) index) [] }
    {
        match self.lines.get(index) {
            Some(lines) => lines.as_slice(),
            None => &[],
        }
    }
}
