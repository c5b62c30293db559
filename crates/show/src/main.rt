// Plays the script on standard input, and shows the tasks and packets that it leaves. An argument says how many rows the listing is
// lent; without one it is lent 32.
#![tactic(auto)]

mod pages;

use listing::Listed;
use pages::shown;
use std::io::Read;
use std::process::ExitCode;
use std::{env, io};

fn main(rt: HostRuntime) -> io::Result<ExitCode> {
    let mut arguments = env::args(&rt)?.skip(1);
    let asked = match (arguments.next(), arguments.next()) {
        (None, _) => Some(32),
        (Some(count), None) => count.parse::<u16>().ok(),
        _ => None,
    };
    let Some(count) = asked else {
        eprintln!(rt;
            "usage: show [ROWS], of which ROWS is how many rows the listing is lent, from 0 to 65535"
        )?;
        return Ok(ExitCode::from(2));
    };
    let mut bytes = Vec::new(rt.alloc());
    rt.stdin().read_to_end(&mut bytes)?;
    let mut rows = vec![in rt.alloc(); Listed::default(); usize::from(count)]?;
    let text = shown(&bytes, &mut rows, rt.alloc())?;
    print!(rt; "{text}")?;
    Ok(ExitCode::SUCCESS)
}
