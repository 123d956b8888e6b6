//! A round of gathers, with the hand of the line first.
ghost use Rattle.std.specs.Prelude.{◌≡◌, ◌<◌, All, length, slice_index_or};
ghost use Rattle.nr_map.specs.Hands.{Handed};
ghost use Rattle.nr_script.specs.Rounds.{GathersHand, IsShown, IsSoundWriter, Round, Gathered};

use nr_map::{Hand, ReaderMap, Writer};

/// Gathers every reader, that of the first hand before the others.
pub(crate) fn gather_round(map: &ReaderMap, writer: &mut Writer, hands: &mut [Hand], first: usize)
    requires own { writer.old.table ≡ map.now }
    requires hands { All (λ s. s.reader.table ≡ map.now) hands.old }
    requires first { first < length hands.old }
    ensures { Gathered first writer.old hands.old writer.new hands.new }
{
    gather_one(map, writer, &mut hands[first]);
    gather_others(map, writer, hands, first);
}

fn gather_others(map: &ReaderMap, writer: &mut Writer, hands: &mut [Hand], first: usize)
    requires own { writer.old.table ≡ map.now }
    requires hands { All (λ s. s.reader.table ≡ map.now) hands.old }
    requires sound { IsSoundWriter writer.old }
    requires first { (other : Handed) → IsShown writer.old.seen writer.old (slice_index_or hands.old first other) }
    ensures { Round writer.old hands.old writer.new hands.new }
{
    for (at, hand) in hands.iter_mut().enumerate() {
        if at != first {
            gather_one(map, writer, hand);
        }
    }
}

fn gather_one(map: &ReaderMap, writer: &mut Writer, hand: &mut Hand)
    requires own { (writer.old.table ≡ map.now) × (hand.old.reader.table ≡ map.now) }
    ensures { GathersHand writer.old hand.old writer.new hand.new }
{
    map.gather_hand(writer, hand);
}
