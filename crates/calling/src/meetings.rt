// What a process meets of one file: taken from a store, with one thing changed, and put back.
ghost use Rattle.std.specs.Prelude.{◌≡◌, ◌<◌};
ghost use Rattle.rules.specs.Sizes.{most_processes, most_files};
ghost use Rattle.calling.specs.Looking.{meeting_of, with_meeting};
ghost use Rattle.calling.specs.Turns.{with_holder, with_content, with_mark};

use crate::Meeting;
use rules::{Cell, PROCESSES, Store};

impl Meeting {
    pub(crate) fn of(store: &Store, p: usize, f: usize) -> Meeting
        requires { (p < most_processes) × (f < most_files) }
        ensures { result ≡ meeting_of store.now p f }
    {
        Meeting {
            holder: store.holders[f],
            content: store.cells[f],
            mark: store.marks[f * PROCESSES + p],
        }
    }

    pub(crate) fn put(self, store: &mut Store, p: usize, f: usize)
        requires { (p < most_processes) × (f < most_files) }
        ensures { store.new ≡ with_meeting store.old p f self }
    {
        store.holders[f] = self.holder;
        store.cells[f] = self.content;
        store.marks[f * PROCESSES + p] = self.mark;
    }

    pub(crate) fn with_holder(self, holder: u32) -> Meeting
        ensures { result ≡ with_holder self holder }
    {
        Meeting { holder, ..self }
    }

    pub(crate) fn with_content(self, content: Cell) -> Meeting
        ensures { result ≡ with_content self content }
    {
        Meeting { content, ..self }
    }

    pub(crate) fn with_mark(self, mark: u8) -> Meeting
        ensures { result ≡ with_mark self mark }
    {
        Meeting { mark, ..self }
    }
}
