//! What the token of a caller knows.
use std::marker::Model;

/// For contracts alone, which see it as the record of that name. No value of it is made.
pub struct View {}

impl Model for View {
    ghost use Rattle.nr_board.specs.Views.{View, no_plan, opener};

    ghost Value = { View };

    ghost view = { λ _. opener no_plan };
}
