// What a run begins with.
ghost use Rattle.std.specs.Prelude.{◌≡◌, ◌≤◌, length, IfSome, true};
ghost use Rattle.plain_machine.specs.State.{first_state};
ghost use Rattle.store_image.specs.Image.{HoldsNothing};
ghost use Rattle.process_verbs.specs.Listing.{image};
ghost use Rattle.one_space.specs.Heap.{one_meaning};
ghost use Rattle.one_space.specs.Space.{AllFree};
ghost use Rattle.command_line.specs.Values.{is_arena};
ghost use Rattle.engine.specs.Acts.{StandsWith};

use atom_names::AtomNames;
use engine::Machine;
use one_space::OneSpace;
use script_parse::Code;
use space_api::Space;
use std::alloc::Global;

/// A machine in its first state, over an arena of so many words, both halves: process 1 lives, there are no
/// names, the image of the space holds nothing, and all words of a half but those that are never used are free.
pub fn first_machine(alloc: Global, words: u64) -> Option<Machine<OneSpace>>
    requires { is_arena words ≡ true }
    ensures stands { IfSome result (λ m. StandsWith (⟦<OneSpace as Space>⟧.stands m.space) m.names first_state) }
    ensures words { IfSome result (λ m. ⟦<OneSpace as Space>⟧.words m.space ≡ words) }
    ensures calls { IfSome result (λ m. ⟦<OneSpace as Space>⟧.calls m.space ≡ 0) }
    ensures named { IfSome result (λ m. ⟦<OneSpace as Space>⟧.named m.space ≤ length m.names) }
    ensures empty { IfSome result (λ m. HoldsNothing (image one_meaning m.space)) }
    ensures free { IfSome result (λ m. AllFree m.space) }
{
    if let Ok(space) = one_space::start(alloc, words)
        && let Ok(names) = AtomNames::new(alloc)
        && let Ok(code) = Code::new(alloc)
    {
        Some(Machine { space, names, code })
    } else {
        None
    }
}
