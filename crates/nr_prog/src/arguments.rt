//! What the arguments of the program's process ask for.
ghost use Rattle.std.specs.Prelude.{◌≡◌, drop, take};
ghost use Rattle.std.specs.Vec.Iter.{into_iter_items};
ghost use Rattle.nr_prog.specs.Tasks.{IsRunnable, task_given};

use crate::task::{Misuse, Task, task_of};
use arrayvec::ArrayVec;
use std::alloc::Global;
use std::env::Args;
use std::io;

/// One word more than the longest of the program's commands has, so that a word too many is seen.
const ROOM: usize = 6;

/// What the arguments ask for, of which the first is the program's name.
pub(crate) fn task_given(alloc: Global, args: io::Result<Args>) -> Task
    ensures task { result ≡ task_given args }
    ensures runnable { IsRunnable result }
{
    let Ok(args) = args else {
        return Task::Explain(Misuse::Words);
    };
    let words = words_of(alloc, args);
    task_of(words.as_slice())
}

/// The words after the program's name, as many as there is room for.
fn words_of(alloc: Global, args: Args) -> ArrayVec<String, ROOM, Global>
    ensures { result.items ≡ take ROOM (drop 1 (into_iter_items args)) }
{
    let mut args = args;
    let _ = args.next();
    first_words(alloc, args)
}

fn first_words(alloc: Global, args: Args) -> ArrayVec<String, ROOM, Global>
    ensures { result.items ≡ take ROOM (into_iter_items args) }
{
    let mut args = args;
    let mut words = ArrayVec::new_in(alloc);
    while let Some(word) = args.next() {
        if words.is_full() {
            return words;
        }
        words.push(word);
    }
    words
}
