// The steps between the hub and the valve head, each said as it is done.
use crate::reading::Task;
use crate::shown::Line;
use cipher::Cipher;
use hexadecimal::Digits;
use masking::Doubling;
use mode::{Mode, Pair};
use station::{Station, Ticket};
use task::Offset;

// The most bytes that a message has.
const MOST: usize = 1024;

// How many bytes of a frame lie before its sealed part here: the head, and a clear part of eight bytes.
const BEFORE: usize = 40;

// Says the offsets, a line each.
fn list(rt: &HostRuntime, offsets: &[Offset]) -> anyhow::Result<()> {
    for offset in offsets {
        println!(rt; "   {}", Line(*offset))?;
    }
    Ok(())
}

// Says what the hub is asked to do.
fn introduce(rt: &HostRuntime, cipher: &str, task: &Task) -> anyhow::Result<()> {
    println!(rt;
        "The hub has {} probe offsets for a valve head on {}, whose cipher is {cipher}.",
        task.offsets.len(),
        task.valve_head
    )?;
    list(rt, task.offsets.as_slice())
}

// Packs the offsets, and says the blocks.
fn pack(rt: &HostRuntime, offsets: &[Offset]) -> anyhow::Result<Vec<u8>> {
    let message = task::pack(rt.alloc(), offsets)?;
    println!(rt;
        "\nThe hub packs them into {} bytes, six for each probe. In blocks of 16:",
        message.len()
    )?;
    for block in message.as_slice().chunks(16) {
        println!(rt; "   {}", Digits(block))?;
    }
    Ok(message)
}

// Says the parts of a frame.
fn show_frame(rt: &HostRuntime, bytes: &[u8]) -> anyhow::Result<()> {
    match frame::parts(bytes) {
        Ok(parts) => {
            println!(rt;
                "   head         {}",
                Digits(&bytes[0..bytes.len().min(32)])
            )?;
            println!(rt; "   clear part   {}", Digits(parts.clear.bytes))?;
            println!(rt; "   sealed part  {}", Digits(parts.sealed.bytes))?;
            println!(rt; "   tag          {}", Digits(parts.tag.bytes))?;
        }
        Err(fault) => println!(rt; "   refused {fault}")?,
    }
    Ok(())
}

// Notes a number before the radio wakes.
fn note(rt: &HostRuntime, number: u64) -> anyhow::Result<()> {
    println!(rt; "\nThe hub reserves number {number} and notes it.")?;
    Ok(())
}

// A station hears a frame, and says what it makes of it.
fn hear<C: Cipher + Drop>(
    rt: &HostRuntime,
    station: &mut Station<C, Doubling>,
    frame: &[u8],
    sent: &[Offset],
) -> anyhow::Result<()> {
    // An array: a vector would want memory, for a frame that is refused too.
    let mut out = [0u8; MOST];
    match station.open(frame, &mut out) {
        Err(fault) => println!(rt; "   refused {fault}")?,
        Ok(opened) => {
            let message = &out[0..opened.length.min(MOST)];
            let offsets = task::unpack(rt.alloc(), message)?;
            println!(rt; "   accepted under number {}:", opened.number)?;
            list(rt, offsets.as_slice())?;
            if offsets.as_slice() == sent {
                println!(rt; "   These are the hub's offsets.")?;
            } else {
                println!(rt; "   These are NOT the hub's offsets.")?;
            }
        }
    }
    Ok(())
}

// The two stations with what they are to do, and the screen on which each step is said.
#[derive(Drop)]
struct Talk<'a, C> {
    rt: &'a HostRuntime,
    task: &'a Task,
    hub: Station<C, Doubling>,
    valve: Station<C, Doubling>,
}

impl<C: Cipher + Drop> Talk<'_, C> {
    // The hub reserves a number, if it can; where it says why it cannot, the text before stands in front. No ticket is an answer here and below, and
    // no error: the errors are those of printing.
    fn reserve(&mut self, before: &str) -> anyhow::Result<Option<Ticket>> {
        match self.hub.reserve() {
            Ok(ticket) => Ok(Some(ticket)),
            Err(fault) => {
                println!(self.rt; "{before}The hub cannot reserve a number: refused {fault}")?;
                Ok(None)
            }
        }
    }

    // The hub reserves a number, notes it and seals the message; the frame, if nothing was refused.
    fn send(&mut self, mode: Mode, message: &[u8]) -> anyhow::Result<Option<Vec<u8>>> {
        let rt = self.rt;
        let mode = u8::from(mode);
        let clear = (self.task.offsets.len() as u64).to_be_bytes();
        let mut frame = vec![in rt.alloc(); 0u8; message.len().min(MOST) + BEFORE + 16]?;
        let Some(ticket) = self.reserve("")? else {
            return Ok(None);
        };
        let noted = note(rt, ticket.number());
        let answer = self
            .hub
            .seal(ticket, mode, &clear, message, frame.as_mut_slice());
        noted?;
        match answer {
            Ok(length) => {
                println!(rt;
                    "It seals the offsets in mode {mode} into a frame of {length} bytes:"
                )?;
                show_frame(rt, frame.as_slice())?;
                Ok(Some(frame))
            }
            Err(fault) => {
                println!(rt; "It cannot seal: refused {fault}")?;
                Ok(None)
            }
        }
    }

    // The hub hears a frame.
    fn hub_hears(&mut self, frame: &[u8]) -> anyhow::Result<()> {
        hear(self.rt, &mut self.hub, frame, self.task.offsets.as_slice())
    }

    // The valve head hears a frame. Beside the hub's, since each borrows its own station next to the rest.
    fn valve_hears(&mut self, frame: &[u8]) -> anyhow::Result<()> {
        hear(
            self.rt,
            &mut self.valve,
            frame,
            self.task.offsets.as_slice(),
        )
    }

    // A frame is opened, and comes in a second time.
    fn replay(&mut self, frame: &[u8]) -> anyhow::Result<()> {
        println!(self.rt; "The valve head opens the frame with its own copy of the key:")?;
        self.valve_hears(frame)?;
        println!(self.rt; "The same frame comes in again:")?;
        self.valve_hears(frame)
    }

    // A frame comes in damaged, and then whole; last, the hub hears its own radio.
    fn damage(&mut self, mut frame: Vec<u8>) -> anyhow::Result<()> {
        if frame.len() > BEFORE {
            println!(self.rt;
                "On its way to the valve head one bit behind the clear part is flipped:"
            )?;
            frame[BEFORE] ^= 1;
            self.valve_hears(frame.as_slice())?;
            frame[BEFORE] ^= 1;
        }
        println!(self.rt; "It is sent once more, and comes in whole:")?;
        self.valve_hears(frame.as_slice())?;
        println!(self.rt; "The hub hears its own frame, whose sender is not its peer:")?;
        self.hub_hears(frame.as_slice())
    }

    // The hub reserves a number that it does not use.
    fn give_up(&mut self) -> anyhow::Result<()> {
        let Some(ticket) = self.reserve("\n")? else {
            return Ok(());
        };
        let noted = note(self.rt, ticket.number());
        let answer = self.hub.give_up(ticket);
        noted?;
        if answer.is_ok() {
            println!(self.rt; "There is nothing more to send, so it gives the number up.")?;
        }
        Ok(())
    }

    // Says the counts at the end.
    fn count(&self) -> anyhow::Result<()> {
        let hub = &self.hub;
        println!(self.rt;
            "\nThe hub has reserved {} numbers: {} sealed, {} written off, {} out. Its next number is {}.",
            hub.reserved(),
            hub.sealed(),
            hub.written_off(),
            u8::from(hub.out().is_some()),
            hub.next()
        )?;
        println!(self.rt;
            "The highest number that the valve head has opened is {}.",
            self.valve.highest()
        )?;
        Ok(())
    }

    // The whole task.
    fn run(&mut self) -> anyhow::Result<()> {
        let message = pack(self.rt, self.task.offsets.as_slice())?;
        if let Some(frame) = self.send(Mode::Forward, message.as_slice())? {
            self.replay(frame.as_slice())?;
        }
        if let Some(frame) = self.send(Mode::Dual, message.as_slice())? {
            self.damage(frame)?;
        }
        self.give_up()?;
        self.count()
    }
}

// Makes the two stations, each with a cipher of its own under the same key, and lets them talk.
pub fn exchange<C: Cipher + Drop>(
    rt: &HostRuntime,
    name: &str,
    hub: C,
    valve: C,
    task: &Task,
) -> anyhow::Result<()> {
    introduce(rt, name, task)?;
    let ids = task.ids;
    let floor = task.number.saturating_sub(1);
    let hub = Station::new(Pair::new(hub, Doubling), ids.hub, ids.valve, task.number, 0);
    let valve = Station::new(Pair::new(valve, Doubling), ids.valve, ids.hub, 1, floor);
    match (hub, valve) {
        (Ok(hub), Ok(valve)) => Talk {
            rt,
            task,
            hub,
            valve,
        }
        .run(),
        (Err(fault), _) | (_, Err(fault)) => {
            println!(rt; "\nThere can be no such stations: refused {fault}")?;
            Ok(())
        }
    }
}
