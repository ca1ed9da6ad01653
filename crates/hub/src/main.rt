// The hub's task: it seals probe offsets for a valve head, the valve head opens them, and each step is said in plain words.
#![tactic(auto)]

mod reading;
mod shown;
mod steps;

use aes::Aes128;
use anyhow::anyhow;
use cipher::Speck;
use reading::Task;
use std::io::Read;
use task::ValveHead;

// Does the task with the cipher that the valve head has.
fn serve(rt: &HostRuntime, task: &Task) -> anyhow::Result<()> {
    match task.valve_head {
        ValveHead::Battery => {
            let hub = Speck::new(task.key);
            let valve = Speck::new(task.key);
            steps::exchange(rt, "Speck128/128", hub, valve, task)
        }
        ValveHead::Mains => {
            let hub = Aes128::new(task.key);
            let valve = Aes128::new(task.key);
            steps::exchange(rt, "AES-128", hub, valve, task)
        }
    }
}

fn main(rt: HostRuntime) -> anyhow::Result<()> {
    let mut input = Vec::new(rt.alloc());
    rt.stdin().read_to_end(&mut input)?;
    match reading::read(rt.alloc(), input.as_slice()) {
        Ok(task) => serve(&rt, &task),
        Err(unread) => {
            eprintln!(rt; "hub: {unread}")?;
            Err(anyhow!("the task cannot be read"))
        }
    }
}
