//! What a token knows.
use std::marker::Model;

/// For contracts alone, which see it as the record of that name. No value of it is made.
pub struct View {}

impl Model for View {
    ghost use Rattle.nr_ids.specs.Rule.{View, spent};

    ghost Value = { View };

    ghost view = { λ _. spent };
}
