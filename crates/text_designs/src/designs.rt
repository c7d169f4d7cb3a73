//! The flat design of a text is well formed.
ghost use Rattle.text_designs.specs.Designs.{TextsGiveDesigns};

use accepted_laws::accepted_are_designs;

/// The flat design that a text of at most 1,048,576 bytes gives is well formed.
pub fn texts_give_designs()
    ensures { TextsGiveDesigns }
{
    accepted_are_designs();
}
