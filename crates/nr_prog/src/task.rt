//! What the words after the program's name ask for.
ghost use Rattle.std.specs.Prelude.{◌≡◌, ◌<◌, ◌≤◌, ◌∷◌, [], map, string_bytes, IfSome};
ghost use Rattle.nr_prog.specs.Tasks.{IsRunnable, load_asked, load_of, number_within, task};

use nr_core::MAX_READERS;
use nr_load::Plan;
use nr_model::MAX_KEYS;
use nr_text::number;

/// The most gets of a reader.
const MAX_GETS: u32 = 1_000_000;

/// What the program is to do.
#[derive(Clone, Copy, Debug, PartialEq, Eq)]
pub(crate) enum Task {
    Script,
    Schedule,
    Load(Plan),
    /// Nothing but to tell what is wrong with its words.
    Explain(Misuse),
}

/// What is wrong with the program's words.
#[derive(Clone, Copy, Debug, PartialEq, Eq)]
pub(crate) enum Misuse {
    /// They are none of the program's, or too few or too many.
    Words,
    Seed,
    Readers,
    Keys,
    Gets,
}

/// What the words ask for.
pub(crate) fn task_of(args: &[String]) -> Task
    ensures task { result ≡ task (map string_bytes args.now) }
    ensures runnable { IsRunnable result }
{
    match args {
        [] => Task::Script,
        [only] => task_of_one(only),
        [word, seed, readers, keys, gets] => load_asked(word, seed, readers, keys, gets),
        _ => Task::Explain(Misuse::Words),
    }
}

fn task_of_one(word: &String) -> Task
    ensures task { result ≡ task (string_bytes word.now ∷ []) }
    ensures runnable { IsRunnable result }
{
    if word.as_str() == "steps" {
        Task::Schedule
    } else {
        Task::Explain(Misuse::Words)
    }
}

// A load of these words.
fn load_asked(word: &String, seed: &String, readers: &String, keys: &String, gets: &String) -> Task
    ensures task { result ≡ load_asked (string_bytes word.now) (string_bytes seed.now) (string_bytes readers.now) (string_bytes keys.now) (string_bytes gets.now) }
    ensures runnable { IsRunnable result }
{
    if word.as_str() == "load" {
        load_of(
            number(seed.as_bytes()),
            number_within(1, MAX_READERS, readers.as_bytes()),
            number_within(1, MAX_KEYS, keys.as_bytes()),
            number_within(0, MAX_GETS, gets.as_bytes()),
        )
    } else {
        Task::Explain(Misuse::Words)
    }
}

/// The number that the word spells, where it is within these limits.
fn number_within(least: u32, most: u32, word: &[u8]) -> Option<u32>
    ensures number { result ≡ number_within least most word.now }
    ensures within { IfSome result (λ n. (least ≤ n) × (n ≤ most)) }
{
    let n = number(word)?;
    if n < u64::from(least) {
        return None;
    }
    if u64::from(most) < n {
        return None;
    }
    Some(n as u32)
}

/// The load of these numbers, or which of them is missing first.
fn load_of(seed: Option<u64>, readers: Option<u32>, keys: Option<u32>, gets: Option<u32>) -> Task
    requires readers { IfSome readers (λ n. (0 < n) × (n ≤ 1024)) }
    requires keys { IfSome keys (λ n. (0 < n) × (n ≤ 65536)) }
    ensures task { result ≡ load_of seed readers keys gets }
    ensures runnable { IsRunnable result }
{
    let Some(seed) = seed else {
        return Task::Explain(Misuse::Seed);
    };
    let Some(readers) = readers else {
        return Task::Explain(Misuse::Readers);
    };
    let Some(keys) = keys else {
        return Task::Explain(Misuse::Keys);
    };
    let Some(gets) = gets else {
        return Task::Explain(Misuse::Gets);
    };
    Task::Load(Plan {
        seed,
        readers,
        keys,
        gets,
    })
}
