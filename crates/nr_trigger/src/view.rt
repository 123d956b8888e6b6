//! What a pass of the queue knows.
use std::marker::Model;

/// For contracts alone, which see it as the data of that name. No value of it is made.
pub struct View {}

impl Model for View {
    ghost use Rattle.nr_trigger.specs.Views.{PassView, Opener};

    ghost Value = { PassView };

    ghost view = { λ _. Opener };
}
