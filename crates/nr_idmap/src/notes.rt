//! What the tokens of a map over ids tell each other.
ghost use Rattle.std.specs.Prelude.{◌≡◌};
ghost use Rattle.nr_board.specs.Meetings.{known_to, with_step};
ghost use Rattle.nr_ids.specs.Tokens as ids;
ghost use Rattle.nr_idmap.specs.IdNotes.{HearsIdNote, GathersById, WriterHears, known_to_reader, note_table_of, with_steps_of_note, with_steps_of_split};
ghost use Rattle.nr_idmap.specs.IdHands.{HoldsSame, hand_table_of, reader_of};
ghost use Rattle.nr_idmap.specs.Keepers.{OwesSame, id_table_of};

use crate::hands::IdHand;
use crate::id_map::IdMap;
use crate::tokens::{IdReader, IdWriter};
use nr_map::Note;
use std::marker::Model;

/// What its maker had seen of the map and of the directory when the note was made. It goes to any
/// thread with a message, and a reader hears it there. Its steps are the maker's, so nothing is lost
/// where a note is dropped.
#[derive(Drop)]
pub struct IdNote {
    map: Note,
    ids: nr_ids::Note,
}

impl Model for IdNote {
    ghost use Rattle.nr_idmap.specs.IdNotes.{IdKnown};

    ghost Value = { IdKnown };

    ghost view = { λ note. record { map = note.map; ids = note.ids } };
}

impl IdMap {
    /// A note of what the reader has seen, in 1 step of the map and 1 of the directory. Else the reader
    /// stays as it is.
    pub fn note(&self, reader: &mut IdReader) -> IdNote
        requires own { id_table_of reader.old ≡ self.now }
        ensures reader { reader.new ≡ with_steps_of_note reader.old }
        ensures note { result ≡ known_to_reader reader.old }
        ensures of { note_table_of result ≡ self.now }
    {
        IdNote {
            map: self.map.note(&mut reader.reader),
            ids: self.directory.note(&mut reader.ids),
        }
    }

    /// A note of what the writer has seen, in 1 step of the map and 1 of the directory. It goes with the
    /// acknowledgement of a write.
    pub fn note_writer(&self, writer: &mut IdWriter) -> IdNote
        requires own { writer.old.table ≡ self.now }
        ensures own { writer.new.table ≡ self.now }
        ensures map { writer.new.writer ≡ with_step writer.old.writer }
        ensures clerk { writer.new.clerk ≡ ids.with_step writer.old.clerk }
        ensures asker { writer.new.asker ≡ writer.old.asker }
        ensures note { result ≡ record { map = known_to writer.old.writer; ids = ids.known_to writer.old.clerk } }
        ensures of { note_table_of result ≡ self.now }
        ensures owes { OwesSame writer.old writer.new }
    {
        IdNote {
            map: self.map.note_writer(&mut writer.writer),
            ids: self.directory.note_clerk(&mut writer.clerk),
        }
    }

    /// The reader learns, in 1 step of the map and 2 of the directory, all that the note's maker had
    /// seen.
    pub fn hear(&self, reader: &mut IdReader, note: IdNote)
        requires own { id_table_of reader.old ≡ self.now }
        requires note { note_table_of note ≡ self.now }
        ensures own { id_table_of reader.new ≡ self.now }
        ensures hears { HearsIdNote note reader.old reader.new }
    {
        let IdNote { map, ids } = note;
        self.map.hear(&mut reader.reader, map);
        self.directory.hear(&mut reader.ids, ids);
    }

    /// Makes two notes of one, for two hearers: each says what the one said. The reader takes 3 steps on
    /// the map and 3 on the directory, learns nothing, and otherwise stays as it is.
    pub fn split_note(&self, reader: &mut IdReader, note: IdNote) -> (IdNote, IdNote)
        requires own { (note_table_of note ≡ self.now) × (id_table_of reader.old ≡ self.now) }
        ensures reader { reader.new ≡ with_steps_of_split reader.old }
        ensures notes { result ≡ (note, note) }
    {
        let IdNote { map, ids } = note;
        let (one, other) = self.map.split_note(&mut reader.reader, map);
        let (first, second) = self.directory.split_note(&mut reader.ids, ids);
        let one = IdNote {
            map: one,
            ids: first,
        };
        let other = IdNote {
            map: other,
            ids: second,
        };
        (one, other)
    }

    /// The writer learns the same, in as many steps. Laws then tell of the finds that the note's maker
    /// had seen.
    pub fn hear_writer(&self, writer: &mut IdWriter, note: IdNote)
        requires own { writer.old.table ≡ self.now }
        requires note { note_table_of note ≡ self.now }
        ensures own { writer.new.table ≡ self.now }
        ensures hears { WriterHears note writer.old writer.new }
        ensures owes { OwesSame writer.old writer.new }
    {
        let IdNote { map, ids } = note;
        self.map.hear_writer(&mut writer.writer, map);
        self.directory.hear_clerk(&mut writer.clerk, ids);
    }

    /// The writer learns of all finds that the reader has made, and then the reader of all that the
    /// writer has seen: 2 steps of the map for each. Laws then tell of these finds.
    pub fn gather(&self, writer: &mut IdWriter, reader: &mut IdReader)
        requires own { (writer.old.table ≡ self.now) × (id_table_of reader.old ≡ self.now) }
        ensures own { (writer.new.table ≡ self.now) × (id_table_of reader.new ≡ self.now) }
        ensures gathers { GathersById writer.old reader.old writer.new reader.new }
        ensures owes { OwesSame writer.old writer.new }
    {
        self.map.gather(&mut writer.writer, &mut reader.reader);
    }
}

impl IdHand {
    /// A note of what its reader has seen, in 1 step of the map and 1 of the directory. Else the hand
    /// stays as it is.
    pub fn note(&mut self, map: &IdMap) -> IdNote
        requires own { hand_table_of self.old ≡ map.now }
        ensures map { self.new.hand.reader ≡ with_step self.old.hand.reader }
        ensures ids { self.new.ids ≡ ids.with_step self.old.ids }
        ensures held { HoldsSame self.old self.new }
        ensures note { result ≡ known_to_reader (reader_of self.old) }
        ensures of { note_table_of result ≡ map.now }
    {
        IdNote {
            map: self.hand.note(&map.map),
            ids: map.directory.note(&mut self.ids),
        }
    }

    /// Its reader learns, in 1 step of the map and 2 of the directory, all that the note's maker had
    /// seen. What is held stays held.
    pub fn hear(&mut self, map: &IdMap, note: IdNote)
        requires own { hand_table_of self.old ≡ map.now }
        requires note { note_table_of note ≡ map.now }
        ensures own { hand_table_of self.new ≡ map.now }
        ensures hears { HearsIdNote note (reader_of self.old) (reader_of self.new) }
        ensures held { HoldsSame self.old self.new }
    {
        let IdNote { map: told, ids } = note;
        self.hand.hear(&map.map, told);
        map.directory.hear(&mut self.ids, ids);
    }
}
