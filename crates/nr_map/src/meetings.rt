//! What one token learns of another: each learns a history that begins with all that both had seen.
ghost use Rattle.std.specs.Prelude.{◌≡◌, ◌<◌};
ghost use Rattle.nr_board.specs.Meetings.{Gathers, Meets, StatesKey, with_step};

use crate::hand::Hand;
use crate::pin::Pin;
use crate::reader::Reader;
use crate::reader_map::ReaderMap;
use crate::writer::Writer;
use nr_board::KeyKind;

impl ReaderMap {
    /// What a key is, in 1 step. The writer learns the history so far, and the answer is the key's
    /// state after it.
    pub fn state(&self, writer: &mut Writer, key: u32) -> KeyKind
        requires own { writer.old.table ≡ self.now }
        requires key { key < self.now.shape.keys }
        ensures { StatesKey key writer.old writer.new result }
    {
        let word = self.board.learn_at(&mut writer.seat, key);
        KeyKind::of_word(word)
    }

    /// The reader learns, in 1 step, all that the writer has seen, which makes a note of it in 1 step,
    /// and else stays as it is.
    pub fn meet(&self, reader: &mut Reader, writer: &mut Writer)
        requires own { (reader.old.table ≡ self.now) × (writer.old.table ≡ self.now) }
        ensures reader { Meets 1 writer.old reader.old reader.new }
        ensures writer { writer.new ≡ with_step writer.old }
    {
        self.board.hear(&mut reader.caller.seat, &mut writer.seat);
    }

    /// The reader learns, in 1 step, all that another reader has seen, which makes a note of it in 1
    /// step, and else stays as it is.
    pub fn meet_readers(&self, reader: &mut Reader, other: &mut Reader)
        requires own { (reader.old.table ≡ self.now) × (other.old.table ≡ self.now) }
        ensures reader { Meets 1 other.old reader.old reader.new }
        ensures other { other.new ≡ with_step other.old }
    {
        self.board
            .hear(&mut reader.caller.seat, &mut other.caller.seat);
    }

    /// The writer learns all that the reader has seen, and then the reader all that the writer has:
    /// 2 steps for each, of which 1 is its note's. The writer's history then has exactly the calls of both.
    pub fn gather(&self, writer: &mut Writer, reader: &mut Reader)
        requires own { (reader.old.table ≡ self.now) × (writer.old.table ≡ self.now) }
        ensures { Gathers writer.old reader.old writer.new reader.new }
    {
        self.board.hear(&mut writer.seat, &mut reader.caller.seat);
        self.board.hear(&mut reader.caller.seat, &mut writer.seat);
    }

    /// The same with a reader that holds a set, which it keeps.
    pub fn gather_pin(&self, writer: &mut Writer, pin: &mut Pin)
        requires own { (pin.old.reader.table ≡ self.now) × (writer.old.table ≡ self.now) }
        ensures gathers { Gathers writer.old pin.old.reader writer.new pin.new.reader }
        ensures rows { pin.new.rows ≡ pin.old.rows }
    {
        self.board.hear(&mut writer.seat, &mut pin.caller.seat);
        self.board.hear(&mut pin.caller.seat, &mut writer.seat);
    }

    /// The same with a hand's reader. What the hand holds stays held.
    pub fn gather_hand(&self, writer: &mut Writer, hand: &mut Hand)
        requires own { (hand.old.reader.table ≡ self.now) × (writer.old.table ≡ self.now) }
        ensures gathers { Gathers writer.old hand.old.reader writer.new hand.new.reader }
        ensures held { (hand.new.key ≡ hand.old.key) × (hand.new.rows ≡ hand.old.rows) }
    {
        self.board.hear(&mut writer.seat, &mut hand.caller.seat);
        self.board.hear(&mut hand.caller.seat, &mut writer.seat);
    }
}
