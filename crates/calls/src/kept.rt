// What is kept of a line that has not ended yet.

ghost use Rattle.std.specs.Prelude.{◌≤◌};
ghost use Rattle.calls.specs.declared.kept.TheConstants.{ROOM};

use console::arguments::PATH_MAX;

// One byte more than `load ` and the longest path have, since PATH_MAX counts the zero byte behind a path. A line that fills it is no call, whatever follows.
pub(crate) const ROOM: usize = PATH_MAX + 5;

// The bytes of the line, at the front of the room for them.
#[derive(Drop)]
pub(crate) struct Kept {
    room: [u8; ROOM],
    size: usize,
    ghost within: { size ≤ ROOM },
}

impl Kept {
    pub(crate) fn new() -> Kept {
        Kept {
            room: [0; ROOM],
            size: 0,
        }
    }

    // Keeps a part of the line behind what is kept already, as far as there is room.
    pub(crate) fn keep(&mut self, part: &[u8]) {
        let room = &mut self.room[self.size..];
        let count = room.len().min(part.len());
        room[..count].copy_from_slice(&part[..count]);
        self.size += count;
    }

    pub(crate) fn bytes(&self) -> &[u8] {
        &self.room[..self.size]
    }

    // A new line begins.
    pub(crate) fn clear(&mut self) {
        self.size = 0;
    }
}
