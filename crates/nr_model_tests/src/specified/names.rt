//! Names, of one caller's and of threads that share them.
ghost use Rattle.std.specs.Prelude.{◌≡◌};

use crate::same::is_same;
use nr_names::{Keys, NameFault, NameTable, Names, NamesBelow};
use std::alloc::Global;
use std::marker::Brand;
use std::sync::Wait;

// What a table of one key answers, and whether its name is the one that was interned.
fn named(alloc: Global) -> Result<([Result<u32, NameFault>; 3], bool), NameFault> {
    let mut table: NameTable = NameTable::open(alloc, 1)?;
    let mut text = String::new(alloc);
    let number: u32 = table.intern("a")?;
    table.name(number, &mut text)?;
    let refused: Result<(), NameFault> = table.name(1, &mut text);
    let replies = [table.intern("a"), table.intern(""), table.intern("b")];
    Ok((
        replies,
        text.as_str() == "a" && refused == Err(NameFault::NoName),
    ))
}

// The same of a table that threads share.
fn named_together(
    rt: &impl Wait,
    alloc: Global,
) -> Result<([Result<u32, NameFault>; 3], bool), NameFault> {
    let names: Names = Names::open(alloc, 1)?;
    let mut text = String::new(alloc);
    let number: u32 = names.intern(rt, "a")?;
    names.name(rt, number, &mut text)?;
    let refused: Result<(), NameFault> = names.name(rt, 1, &mut text);
    let replies = [
        names.intern(rt, "a"),
        names.intern(rt, ""),
        names.intern(rt, "b"),
    ];
    Ok((
        replies,
        text.as_str() == "a" && refused == Err(NameFault::NoName),
    ))
}

#[test]
fn a_name_has_a_number(rt: HostRuntime) {
    let replies = [Ok(0), Err(NameFault::Empty), Err(NameFault::Full)];
    is_same(&rt, &named(rt.alloc()), &Ok((replies, true)));
    is_same(&rt, &named_together(&rt, rt.alloc()), &Ok((replies, true)));
}

// Why a name is refused, in the order in which it is.
const FAULTS: [NameFault; 5] = [
    NameFault::Empty,
    NameFault::TooLong,
    NameFault::Full,
    NameFault::Memory,
    NameFault::NoName,
];

#[test]
fn each_refusal_is_another(rt: HostRuntime) {
    for (place, fault) in FAULTS.iter().enumerate() {
        let first = FAULTS.iter().position(|other| other == fault);
        is_same(&rt, &first, &Some(place));
    }
}

// What a table of one key is answered that has the number of its keys in its type.
fn named_below<K: Keys>(
    rt: &impl Wait,
    alloc: Global,
) -> Result<([Result<u32, NameFault>; 2], bool), NameFault>
    requires { K.keys ≡ 1 }
{
    let names: NamesBelow<K> = NamesBelow::open(alloc, 1)?;
    let mut text = String::new(alloc);
    let number: u32 = names.intern(rt, "a")?;
    names.name(rt, number, &mut text)?;
    Ok(([Ok(number), names.intern(rt, "b")], text.as_str() == "a"))
}

#[test]
fn a_table_may_have_its_number_of_keys_in_its_type(rt: HostRuntime) {
    let replies = [Ok(0), Err(NameFault::Full)];
    is_same(
        &rt,
        &named_below::<Brand>(&rt, rt.alloc()),
        &Ok((replies, true)),
    );
}
