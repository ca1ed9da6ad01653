// Makes the calls of a script on real stations, one to a line of standard input, and prints the answers.
#![tactic(auto)]

use session::Session;
use std::io::{BufRead, BufReader};

// Follows every line of the input and prints what it answers.
fn follow_all(rt: &HostRuntime, session: &mut Session) -> anyhow::Result<()> {
    let heap = rt.alloc();
    let mut input = BufReader::new(heap, rt.stdin())?;
    // One buffer for all lines: the library's split wants memory for each.
    let mut line = Vec::new(heap);
    for number in 1..u64::MAX {
        line.clear();
        if input.read_until(b'\n', &mut line)? == 0 {
            break;
        }
        if line.last() == Some(&b'\n') {
            line.pop();
        }
        let text = session.follow(heap, number, line.as_slice())?;
        rt.print(text.as_str())?;
    }
    Ok(())
}

fn main(rt: HostRuntime) -> anyhow::Result<()> {
    let mut session = Session::new(rt.alloc());
    let followed = follow_all(&rt, &mut session);
    let tally = session.end();
    followed?;
    println!(rt; "{tally}")?;
    Ok(())
}
