// A machine that is talked to, one line at a time.
ghost use Rattle.std.specs.Prelude.{◌≡◌, ℕ, ◌+◌, ◌<◌, ◌≤◌, length, true, IfSome};
ghost use Rattle.command_line.specs.Values.{is_arena};
ghost use Rattle.line_io.specs.Lines.{text};
ghost use Rattle.line_io.specs.declared.reader.TheConstants.{LONGEST_LINE};
ghost use Rattle.store_image.specs.Image.{ImageStands};
ghost use Rattle.plain_machine.specs.State.{State, first_state};
ghost use Rattle.space_api.specs.Calls.{most_calls};
ghost use Rattle.plain_machine.specs.Step.{is_printing};
ghost use Rattle.script_grammar.specs.Names.{Parsed};
ghost use Rattle.script_grammar.specs.ReadAs.{IsRead};
ghost use Rattle.engine.specs.Last.{SaysNothing};
ghost use Rattle.engine.specs.Steps.{Steps};

use engine::{Machine, Stepped, step};
use line_io::Sink;
use machine_run::first_machine;
use one_space::OneSpace;
use space_api::Space;
use std::alloc::Global;
use store_image::Imaged;

/// A machine, and how many lines may still be said to it.
#[derive(Drop)]
pub struct Talk {
    machine: Machine<OneSpace>,
    left: u64,
    ghost calls: { ⟦<OneSpace as Space>⟧.calls machine.space + left ≤ most_calls },
    ghost named: { ⟦<OneSpace as Space>⟧.named machine.space ≤ length machine.names },
}

impl Talk {
    ghost use Rattle.embedding.specs.Talk.{StandsFor, lines_to_say, arena_words};

    /// A machine in its first state, over an arena of so many words, to which so many lines may be said. All memory is taken here.
    pub fn open(alloc: Global, words: u64, lines: u64) -> Option<Talk>
        requires arena { is_arena words ≡ true }
        requires lines { lines ≤ most_calls }
        ensures first { IfSome result (λ t. StandsFor t first_state) }
        ensures words { IfSome result (λ t. arena_words t ≡ words) }
        ensures left { IfSome result (λ t. lines_to_say t ≡ lines) }
    {
        let machine = first_machine(alloc, words)?;
        Some(Talk {
            machine,
            left: lines,
        })
    }

    /// Has a line done, and writes its reply to `sink`. A refused line is answered too, and leaves the state as it was. What a dump
    /// would tell afterwards stands for the state.
    pub fn say<K: Sink>(&mut self, line: &[u8], sink: &mut K) -> Stepped
        requires short { length line.now ≤ LONGEST_LINE }
        requires left { 0 < lines_to_say self.old }
        ensures steps { (s : State) → StandsFor self.old s
            → Steps (arena_words self.old) s (text line.now)
            (record { stands = StandsFor self.new; text = ⟦<OneSpace as Space>⟧.text self.new.machine.space self.new.machine.names })
            (record { wrote = K.wrote; faults = K.faults; before = sink.old; after = sink.new }) result }
        ensures leaves { (p : Parsed) → IsRead self.old.machine.names line.now p → is_printing p.command ≡ true
            → (self.new.machine.space ≡ self.old.machine.space) × (self.new.machine.names ≡ self.old.machine.names) }
        ensures idle { SaysNothing self.old.machine.names (text line.now)
            → (self.new.machine.space ≡ self.old.machine.space) × (self.new.machine.names ≡ self.old.machine.names) }
        ensures images { (s : State) → StandsFor self.new s → ImageStands (⟦<OneSpace as Imaged>⟧.image self.new.machine.space) s }
        ensures left { lines_to_say self.old ≡ lines_to_say self.new + 1 }
        ensures words { arena_words self.new ≡ arena_words self.old }
    {
        self.left -= 1;
        let came = step(&mut self.machine, line, sink);
        self.machine.space.images_stand();
        came
    }

    /// How many lines may still be said.
    pub fn left(&self) -> u64
        ensures { result ≡ lines_to_say self.now }
    {
        self.left
    }
}
