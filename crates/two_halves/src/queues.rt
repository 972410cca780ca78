// Messages: one enters a queue at its end, and leaves it at its front.
ghost use Rattle.std.specs.Prelude.{◌≡◌, ◌+◌, ◌≤◌, length};
ghost use Rattle.two_halves.specs.declared.halves.TheConstants.{PLACE_WORDS};
ghost use Rattle.two_halves.specs.Copying.{CanCopyIn, CopiesIn};
ghost use Rattle.two_halves.specs.Queues.{CanQueue, CanSend, PlaceFollows, HasRow, Queues, Receives, Sends};

use crate::halves::{Halves, PLACE_WORDS};
use crate::table::Proc;
use cheney::Stay;
use object_rows::chain_row;
use term_copy::copy_tree;
use word_mem::WordMem;

impl Halves {
    /// Sends the term of this word to the process with this row: a copy of it is the last message of its queue.
    pub fn send(&mut self, row: usize, w: u64)
        requires can { CanSend self.old row w }
        ensures { Sends self.old self.new row w }
    {
        let copy = self.copy_in(w);
        self.enqueue(row, copy);
    }

    // Copies the term of this word, whole, to the free words, and answers its new word.
    fn copy_in(&mut self, w: u64) -> u64
        requires can { CanCopyIn self.old w }
        ensures { CopiesIn self.old self.new w result }
    {
        self.mem.bounded();
        let from = self.room.top;
        let stay = Stay::none();
        let copy = copy_tree(&mut self.mem, &mut self.room, &stay, w);
        if self.linked == 0 {
            return copy;
        }
        let chained = chain_row(&mut self.mem, from, self.room.top, self.head);
        self.head = chained.head;
        self.linked += chained.count;
        copy
    }

    // Puts this word at the end of the queue of the process with this row, in a new place below all places and records.
    fn enqueue(&mut self, row: usize, w: u64)
        requires can { CanQueue self.old row w }
        ensures { Queues self.old self.new row w }
    {
        self.mem.bounded();
        let place = self.room.end - PLACE_WORDS;
        let process = *self.process(row);
        let first = follow(
            &mut self.mem,
            process.queue,
            process.last,
            process.waiting,
            place,
        );
        self.mem.set(place, w);
        self.room.end = place;
        *self.process_mut(row) = Proc {
            queue: first,
            last: place,
            waiting: process.waiting + 1,
            ..process
        };
    }

    /// Takes the first message off the queue of the process with this row, and answers its word; none where no message waits.
    pub fn receive(&mut self, row: usize) -> Option<u64>
        requires has { HasRow self.old row }
        ensures { Receives self.old self.new row result }
    {
        let mut process = *self.process(row);
        if process.waiting == 0 {
            return None;
        }
        self.mem.bounded();
        let place = process.queue;
        process.queue = self.mem.get(place + 1);
        process.waiting -= 1;
        *self.process_mut(row) = process;
        Some(self.mem.get(place))
    }
}

// Lets a place follow the last one of a queue in which so many messages wait, and answers the first place then.
fn follow(mem: &mut WordMem, queue: u64, last: u64, waiting: u64, place: u64) -> u64
    requires { (waiting ≡ 0 → ⊥) → last + PLACE_WORDS ≤ length mem.old }
    ensures { PlaceFollows mem.old mem.new queue last waiting place result }
{
    if waiting == 0 {
        return place;
    }
    mem.bounded();
    mem.set(last + 1, place);
    queue
}
