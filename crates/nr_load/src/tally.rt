//! What all callers of a map did, once its writer has gathered them: two rounds of gathers, and between
//! them a count of the keys that are asked. The count is exact, and that is proved.
ghost use Rattle.std.specs.Prelude.{◌≡◌, ◌<◌, All};
ghost use Rattle.nr_load.specs.Gathers.{CountsAsked, GathersAll, IsInOrder, IsTally, asked_one};
ghost use Rattle.nr_load.specs.Balance.{Balances, Stays, StaysEach};

use nr_map::{KeyKind, Reader, ReaderMap, Writer, laws};

// Gathers each reader once.
fn gather_all(map: &ReaderMap, writer: &mut Writer, readers: &mut [Reader])
    requires writer { writer.old.table ≡ map.now }
    requires readers { All (λ reader. reader.table ≡ map.now) readers.old }
    ensures { GathersAll writer.old readers.old writer.new readers.new }
{
    laws::calls_stay();
    for reader in readers.iter_mut() {
        map.gather(writer, reader);
    }
}

fn one_if_asked(kind: KeyKind) -> u64
    ensures { result ≡ asked_one kind }
{
    match kind {
        KeyKind::Asked => 1,
        KeyKind::Hole | KeyKind::Rows => 0,
    }
}

// How many keys are asked; exact where the writer learnt of no call meanwhile.
fn count_asked(map: &ReaderMap, writer: &mut Writer) -> u64
    requires { writer.old.table ≡ map.now }
    ensures { CountsAsked writer.old writer.new result }
{
    laws::beginnings_meet();
    let mut asked: u64 = 0;
    for key in 0..map.keys() {
        asked += one_if_asked(map.state(writer, key));
    }
    asked
}

/// How many keys are asked after all calls of the writer and the readers of a map, who are all here
/// and make no call meanwhile. All readers are gathered, the keys are counted, and all are gathered
/// once more: the second round shows that nobody called in between. With r readers and k keys it
/// takes 8r + k steps. No token makes a call.
pub(crate) fn tally(map: &ReaderMap, writer: &mut Writer, readers: &mut [Reader]) -> u64
    requires own { writer.old.table ≡ map.now }
    requires writer { writer.old.number ≡ 0 }
    requires tables { All (λ reader. reader.table ≡ map.now) readers.old }
    requires order { IsInOrder map.now.shape.readers readers.old }
    requires some { 0 < map.now.shape.readers }
    ensures tally { IsTally writer.new readers.new result }
    ensures balances { Balances writer.new readers.new result }
    ensures writer { Stays writer.old writer.new }
    ensures readers { StaysEach readers.old readers.new }
{
    laws::calls_stay();
    laws::rounds_tell_all();
    laws::entries_are_callers();
    laws::sends_of_all_keys();
    gather_all(map, writer, readers);
    let asked = count_asked(map, writer);
    gather_all(map, writer, readers);
    asked
}
