// The trait of spaces over words, each of which has an image.
ghost use Rattle.std.specs.Prelude.{◌≡◌, ℕ, ◌≤◌, List, length};
ghost use Rattle.atom_names.specs.Names.{AreNames};
ghost use Rattle.script_grammar.specs.declared.command.Command.TheVariants.{System};
ghost use Rattle.script_grammar.specs.declared.command.SysVerb.TheVariants.{Counts};
ghost use Rattle.plain_machine.specs.State.{State};
ghost use Rattle.store_image.specs.Image.{Image, ImageStands};
ghost use Rattle.store_image.specs.Counting.{image_counts};

use space_api::Space;

/// A space that keeps what lives in words: it has an image, which is what a dump tells of it.
///
/// Whoever makes single steps on a machine over such a space has, for each state that it stands for, an image that stands for
/// it: so its counts are exact where that state is swept. Its text of `counts` is that of the records in its image.
pub trait Imaged: Space {
    /// What a dump tells of the space.
    ghost image: { Self → Image };

    /// The image stands for each state that the space stands for, and tells the text of `counts`, with all names that are
    /// kept. Nothing is done.
    fn images_stand(&self)
        ensures stands { (s : State) → Self.stands self.now s → ImageStands (image self.now) s }
        ensures counts { (names : List (List ℕ)) → AreNames names → Self.named self.now ≤ length names
            → Self.text self.now names (System Counts) ≡ image_counts names (image self.now) };
}
