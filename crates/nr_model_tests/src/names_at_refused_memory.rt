//! Each call that takes memory is made once more where it was refused, so these tests pass as well
//! where any one request for memory is refused (tests/refused_memory refuses each in turn).
ghost use Rattle.std.specs.Prelude.{◌<◌, ◌≤◌};
ghost use Rattle.nr_names.specs.declared.table.TheConstants.{MAX_KEYS};

use crate::same::is_same;
use nr_names::{NameFault, NameTable, Names};
use std::process::Abort;
use std::sync::Wait;
use std::thread::{Threads, join};

// What a name was answered: its number.
type Reply = Result<u32, NameFault>;

// Whether a call said what it was to say.
fn says(rt: &impl Abort, told: Result<(), NameFault>, wanted: Result<(), NameFault>) {
    is_same(rt, &told, &wanted);
}

fn reads(rt: &impl Abort, text: &str, wanted: &str) {
    is_same(rt, &text, &wanted);
}

fn opened(rt: &(impl Abort + AllocGlobal)) -> NameTable {
    let opened = match NameTable::open(rt.alloc(), 2) {
        Err(NameFault::Memory) => NameTable::open(rt.alloc(), 2),
        opened => opened,
    };
    opened.expect(rt, "a table opens where one request for memory is refused")
}

// A refusal gives the number to no name.
fn names_nothing(rt: &(impl Abort + AllocGlobal), table: &NameTable, number: u32) {
    let mut text = String::new(rt.alloc());
    says(rt, table.name(number, &mut text), Err(NameFault::NoName));
}

// Interns a name that is new.
fn intern_new(
    rt: &(impl Abort + AllocGlobal),
    table: &mut NameTable,
    name: &str,
    number: u32,
) -> Reply {
    let reply = table.intern(name);
    if reply != Err(NameFault::Memory) {
        return reply;
    }
    names_nothing(rt, table, number);
    table.intern(name)
}

// Reads a name over a text. A refusal leaves the text as it was.
fn read_over(rt: &impl Abort, table: &NameTable, number: u32, text: &mut String, before: &str) {
    let mut reply = table.name(number, text);
    if reply == Err(NameFault::Memory) {
        reads(rt, text, before);
        reply = table.name(number, text);
    }
    says(rt, reply, Ok(()));
}

// Reads the two names of a table, one over the other.
fn reads_both(rt: &impl Abort, table: &NameTable, text: &mut String, first: &str, second: &str) {
    read_over(rt, table, 0, text, "");
    reads(rt, text, first);
    read_over(rt, table, 1, text, first);
    reads(rt, text, second);
}

// Number 2 names nothing, which leaves the text as it was.
fn stays(rt: &impl Abort, table: &NameTable, text: &mut String, before: &str) {
    says(rt, table.name(2, text), Err(NameFault::NoName));
    reads(rt, text, before);
}

#[test]
fn numbers_come_in_order(rt: HostRuntime) {
    let mut table = opened(&rt);
    let replies = [
        intern_new(&rt, &mut table, "a", 0),
        table.intern(""),
        intern_new(&rt, &mut table, "b", 1),
        table.intern("a"),
        table.intern("c"),
    ];
    is_same(
        &rt,
        &replies,
        &[
            Ok(0),
            Err(NameFault::Empty),
            Ok(1),
            Ok(0),
            Err(NameFault::Full),
        ],
    );
    let mut text = String::new(rt.alloc());
    reads_both(&rt, &table, &mut text, "a", "b");
    stays(&rt, &table, &mut text, "b");
}

fn text_of<'a>(rt: &impl Abort, bytes: &'a [u8]) -> &'a str {
    std::str::from_utf8(bytes).expect(rt, "bytes of ASCII")
}

#[test]
fn names_have_at_most_255_bytes(rt: HostRuntime) {
    let bytes = [b'x'; 256];
    let longest = text_of(&rt, &bytes[..255]);
    let mut table = opened(&rt);
    let replies = [
        table.intern(text_of(&rt, &bytes)),
        intern_new(&rt, &mut table, "a", 0),
        intern_new(&rt, &mut table, longest, 1),
    ];
    is_same(&rt, &replies, &[Err(NameFault::TooLong), Ok(0), Ok(1)]);
    reads_both(&rt, &table, &mut String::new(rt.alloc()), "a", longest);
}

fn opened_shared(rt: &(impl Abort + AllocGlobal), keys: u32) -> Names
    requires { (0 < keys) × (keys ≤ MAX_KEYS) }
{
    let opened = match Names::open(rt.alloc(), keys) {
        Err(NameFault::Memory) => Names::open(rt.alloc(), keys),
        opened => opened,
    };
    opened.expect(rt, "a table opens where one request for memory is refused")
}

fn interned_shared(rt: &impl Wait, names: &Names, name: &str) -> Reply {
    match names.intern(rt, name) {
        Err(NameFault::Memory) => names.intern(rt, name),
        reply => reply,
    }
}

// Reads a name that has the number over a text that is another.
fn read_shared_over(
    rt: &(impl Wait + Abort),
    names: &Names,
    number: u32,
    text: &mut String,
    before: &str,
) {
    let mut reply = names.name(rt, number, text);
    if reply == Err(NameFault::Memory) {
        reads(rt, text, before);
        reply = names.name(rt, number, text);
    }
    says(rt, reply, Ok(()));
}

// Reads the two names of a table, one over the other.
fn reads_both_shared(rt: &(impl Wait + Abort), names: &Names, text: &mut String) {
    read_shared_over(rt, names, 0, text, "");
    reads(rt, text, "a");
    read_shared_over(rt, names, 1, text, "a");
    reads(rt, text, "b");
}

// Number 2 names nothing, which leaves the text as it was.
fn stays_shared(rt: &(impl Wait + Abort), names: &Names, text: &mut String) {
    says(rt, names.name(rt, 2, text), Err(NameFault::NoName));
    reads(rt, text, "b");
}

// The number is no name's yet.
fn names_nothing_shared(rt: &(impl Wait + Abort + AllocGlobal), names: &Names, number: u32) {
    let mut text = String::new(rt.alloc());
    says(
        rt,
        names.name(rt, number, &mut text),
        Err(NameFault::NoName),
    );
}

// What two threads are answered that intern one name.
fn both_intern<R: Threads + Wait + Sync>(rt: &R, names: &Names) -> (Reply, Reply) {
    join(
        rt,
        || interned_shared(rt, names, "a"),
        || interned_shared(rt, names, "a"),
    )
}

// What the calls are answered that come after those of the threads.
fn intern_four(rt: &impl Wait, names: &Names) -> [Reply; 4] {
    [
        interned_shared(rt, names, "b"),
        names.intern(rt, "c"),
        names.intern(rt, "a"),
        names.intern(rt, ""),
    ]
}

fn gives_two_numbers<R: Threads + Wait + Abort + AllocGlobal + Sync>(rt: &R) {
    let names = opened_shared(rt, 2);
    is_same(rt, &both_intern(rt, &names), &(Ok(0), Ok(0)));
    names_nothing_shared(rt, &names, 1);
    is_same(
        rt,
        &intern_four(rt, &names),
        &[Ok(1), Err(NameFault::Full), Ok(0), Err(NameFault::Empty)],
    );
    let mut text = String::new(rt.alloc());
    reads_both_shared(rt, &names, &mut text);
    stays_shared(rt, &names, &mut text);
}

#[test]
fn a_shared_table_gives_numbers(rt: HostRuntime) {
    gives_two_numbers(&rt);
}

const WORDS: [&str; 5] = ["ant", "bee", "cow", "dog", "elk"];

// What each word was answered, in the order of the words.
type Replies = [Reply; 5];

fn forwards(rt: &impl Wait, names: &Names) -> Replies {
    let mut replies = [Err(NameFault::NoName); 5];
    for i in 0..5 {
        replies[i] = interned_shared(rt, names, WORDS[i]);
    }
    replies
}

fn backwards(rt: &impl Wait, names: &Names) -> Replies {
    let mut replies = [Err(NameFault::NoName); 5];
    for i in 0..5 {
        replies[4 - i] = interned_shared(rt, names, WORDS[4 - i]);
    }
    replies
}

// What two threads are answered that intern the same words, one of them from the end, so either may find a
// word new.
fn both_intern_words<R: Threads + Wait + Sync>(rt: &R, names: &Names) -> (Replies, Replies) {
    join(rt, || forwards(rt, names), || backwards(rt, names))
}

// The numbers have no gaps, and no two words share one.
fn numbers_of(rt: &impl Abort, replies: &Replies) -> [u32; 5] {
    let mut numbers = [0; 5];
    let mut named = [false; 5];
    for i in 0..5 {
        numbers[i] = replies[i].expect(rt, "a word that fits has a number");
        assert!(rt; numbers[i] < 5, "numbers have no gaps");
        named[numbers[i] as usize] = true;
    }
    is_same(rt, &named, &[true; 5]);
    numbers
}

// Reads a word by its number, over the word before it.
fn reads_word(
    rt: &(impl Wait + Abort),
    names: &Names,
    number: u32,
    text: &mut String,
    before: &str,
    word: &str,
) {
    read_shared_over(rt, names, number, text, before);
    reads(rt, text, word);
    is_same(rt, &names.intern(rt, word), &Ok(number));
}

fn reads_words(rt: &(impl Wait + Abort), names: &Names, numbers: [u32; 5], text: &mut String) {
    let mut before = "";
    for i in 0..5 {
        reads_word(rt, names, numbers[i], text, before, WORDS[i]);
        before = WORDS[i];
    }
}

fn agrees_on_five_words<R: Threads + Wait + Abort + AllocGlobal + Sync>(rt: &R) {
    let names = opened_shared(rt, 5);
    let (here, there) = both_intern_words(rt, &names);
    is_same(rt, &here, &there);
    reads_words(
        rt,
        &names,
        numbers_of(rt, &here),
        &mut String::new(rt.alloc()),
    );
    is_same(rt, &names.intern(rt, "fox"), &Err(NameFault::Full));
    names_nothing_shared(rt, &names, 5);
}

#[test]
fn threads_agree_on_names_and_numbers(rt: HostRuntime) {
    agrees_on_five_words(&rt);
}
