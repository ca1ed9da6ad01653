// Compares published values, and values of an implementation written apart, with what this software computes.
#![tactic(auto)]

mod compare;
mod row;

use anyhow::anyhow;
use row::{Line, Row};
use std::io;

// How many rows came out the same, and how many did not.
#[derive(Drop)]
struct Count {
    same: usize,
    differ: usize,
}

// Compares one row, and says its name and how it came out.
fn judge(rt: &HostRuntime, row: &Row, key: [u8; 16], count: &mut Count) -> anyhow::Result<()> {
    if compare::holds(rt.alloc(), row, key)? {
        count.same = count.same.saturating_add(1);
        println!(rt; "{row}: ok")?;
    } else {
        count.differ = count.differ.saturating_add(1);
        println!(rt; "{row}: DIFFERS")?;
    }
    Ok(())
}

// Goes through the rows; a key stands for the rows below it.
fn run(rt: &HostRuntime, text: &str, count: &mut Count) -> anyhow::Result<()> {
    let mut key = [0; 16];
    for (line, words) in (1usize..).zip(text.lines()) {
        match row::read(rt.alloc(), words) {
            Ok(Line::Remark) => {}
            Ok(Line::Key(next)) => key = next,
            Ok(Line::Row(row)) => judge(rt, &row, key, count)?,
            Err(unread) => {
                eprintln!(rt; "vectors: line {line}: {unread}")?;
                return Err(anyhow!("the rows cannot be read"));
            }
        }
    }
    Ok(())
}

fn main(rt: HostRuntime) -> anyhow::Result<()> {
    let text = io::read_to_string(rt.alloc(), rt.stdin())?;
    let mut count = Count { same: 0, differ: 0 };
    run(&rt, text.as_str(), &mut count)?;
    println!(rt; "{} ok, {} differ", count.same, count.differ)?;
    if count.differ > 0 {
        return Err(anyhow!("a value differs"));
    }
    Ok(())
}
