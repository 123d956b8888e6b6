//! Threads over one directory. What is asserted does not depend on how their steps fall.
ghost use Rattle.std.specs.Prelude.{◌≡◌};

use crate::ids::office::{Office, Told, request};
use nr_ids::{Directory, Reader};
use std::process::Abort;
use std::thread::{Threads, join};

fn both_request<R: Threads + Sync>(
    rt: &R,
    directory: &Directory,
    mut one: Reader,
    mut two: Reader,
) -> (Told, Told)
    requires own { (one.directory ≡ directory.now) × (two.directory ≡ directory.now) }
{
    join(
        rt,
        move || -> Told
            requires { one.directory ≡ directory.now }
        { request(directory, &mut one, 1) },
        move || -> Told
            requires { two.directory ≡ directory.now }
        { request(directory, &mut two, 1) },
    )
}

fn is_refused(told: Told) -> bool {
    matches!(told, Told::Busy | Told::Outrun)
}

// Nobody answers the claim, so the group's first one is its only one.
#[test]
fn one_of_two_requests_is_granted(rt: HostRuntime) {
    let Office {
        directory,
        mut clerk,
        reader,
    } = Office::open(&rt, 1);
    let other = directory.reader(&mut clerk);
    let (one, two) = both_request(&rt, &directory, reader, other);
    assert!(rt;
        one == Told::Granted(1) && is_refused(two) || two == Told::Granted(1) && is_refused(one)
    );
}
