// Named stations, the tickets that they handed out, and the calls on them.
ghost use Rattle.std.specs.Prelude.{◌≡◌, IfOk, OnOk, IsSome, replicate};
ghost use Rattle.std.specs.BTreeMap.{get_by_text};
ghost use Rattle.std.specs.Map.{keys_of};
ghost use Rattle.session.specs.Counting.{NoStations};

use crate::replies::{Halt, Reply};
use frame::FrameParts;
use mode::Pair;
use script::{
    Answer, Call, CipherSetting, HexText, MaskingSetting, OrDash, PartsLine, PlainSetting, Reason,
    StateLine, Unread,
};
use station::{Opened, Station, Ticket};
use std::alloc::Global;
use std::collections::BTreeMap;
use std::collections::btree_map::Entry;
use suite::{AnyCipher, AnyMasking};

// A station, and the tickets that it handed out and that are still held, each by the label that the script gave it. A ticket is linear, since it has
// to be spent. The station lies in a box, since a map keeps room for more members than it holds.
struct Member {
    station: Box<Station<AnyCipher, AnyMasking>>,
    held: BTreeMap<String, Ticket>,
}

impl Member {
    // Reserves a number and holds its ticket under a label.
    fn reserve(&mut self, label: String) -> Result<Answer, Halt> {
        let Entry::Vacant(place) = self.held.entry(label)? else {
            return Err(Halt::from(Reason::LabelInUse));
        };
        let ticket = self.station.reserve()?;
        let answer = Answer::Ticket {
            id: ticket.id(),
            number: ticket.number(),
        };
        place.insert(ticket);
        Ok(answer)
    }

    // Gives up every ticket that is still held. They are taken out one by one: a map's into_iter asks for values that may be dropped.
    fn end(self) {
        let Member {
            mut station,
            mut held,
        } = self;
        while let Some((_label, ticket)) = held.pop_first() {
            let _ = station.give_up(ticket);
        }
        held.destroy_empty();
    }
}

// Stations by name, and the cipher and masking of the stations to come.
pub struct Stations {
    pub cipher: CipherSetting,
    pub masking: MaskingSetting,
    members: BTreeMap<String, Member>,
}

// The parts of a frame.
fn parts(frame: &[u8]) -> Result<PartsLine<HexText<'_>>, Halt> {
    let FrameParts {
        clear,
        sealed,
        tag,
        ..
    } = frame::parts(frame)?;
    Ok(PartsLine {
        clear_at: clear.at,
        clear: HexText(clear.bytes),
        sealed_at: sealed.at,
        sealed: HexText(sealed.bytes),
        tag_at: tag.at,
        tag: HexText(tag.bytes),
    })
}

impl Stations {
    // Before the first cipher and the first masking, identity and doubling hold.
    pub fn new(heap: Global) -> Stations
        ensures { NoStations result }
    {
        Stations {
            cipher: CipherSetting::Plain(PlainSetting::Identity),
            masking: MaskingSetting::Doubling,
            members: BTreeMap::new(heap),
        }
    }

    fn station(
        &mut self,
        heap: Global,
        name: &str,
        own: u8,
        peer: u8,
        start: u64,
        floor: u64,
    ) -> Result<Answer, Halt> {
        // Asked first, since a name that is used needs neither memory nor a key's expansion. A station that is refused takes no place in the map.
        if self.members.contains_key(name) {
            return Err(Halt::from(Reason::UsedName));
        }
        let name = String::from_str(heap, name)?;
        let pair = Pair::new(AnyCipher::from(self.cipher), self.masking.into());
        let station = Box::new(heap, Station::new(pair, own, peer, start, floor)?)?;
        let Entry::Vacant(place) = self.members.entry(name)? else {
            return Err(Halt::from(Reason::UsedName));
        };
        place.insert(Member {
            station,
            held: BTreeMap::new(heap),
        });
        Ok(Answer::Made)
    }

    fn reserve(&mut self, heap: Global, name: &str, label: &str) -> Result<Answer, Halt> {
        let in_use = self
            .members
            .values()
            .any(|member| member.held.contains_key(label));
        let member = self.members.get_mut(name).ok_or(Reason::UnknownStation)?;
        if in_use {
            return Err(Halt::from(Reason::LabelInUse));
        }
        member.reserve(String::from_str(heap, label)?)
    }

    // Hands out the ticket of a label, whichever station made it, for a call on the station of a name.
    fn take(&mut self, name: &str, label: &str) -> Result<Ticket, Reason>
        ensures known { OnOk result (IsSome (get_by_text self.new.members name.now)) }
        ensures names { keys_of self.new.members.entries ≡ keys_of self.old.members.entries }
    {
        if !self.members.contains_key(name) {
            return Err(Reason::UnknownStation);
        }
        self.members
            .values_mut()
            .find_map(|member| member.held.remove(label))
            .ok_or(Reason::UnknownTicket)
    }

    fn give_up(&mut self, name: &str, label: &str) -> Result<Answer, Halt> {
        let ticket = self.take(name, label)?;
        let member = self.members.get_mut(name).unwrap();
        member.station.give_up(ticket)?;
        Ok(Answer::GivenUp)
    }

    // The output buffer of a call on the station of a name: each byte is ee. Without the station there is none, and no memory is taken.
    fn room(&self, heap: Global, name: &str, space: usize) -> Result<Vec<u8>, Unread>
        ensures known { OnOk result (IsSome (get_by_text self.now.members name.now)) }
        ensures filled { IfOk result (λ out. out.items ≡ replicate space 0xee) }
    {
        if !self.members.contains_key(name) {
            return Err(Unread::Because(Reason::UnknownStation));
        }
        Ok(vec![in heap; 0xee; space]?)
    }

    // The mode is a byte, as in Station::seal.
    fn seal(
        &mut self,
        name: &str,
        label: &str,
        mode: u8,
        clear: &[u8],
        message: &[u8],
        out: &mut [u8],
    ) -> Result<Answer, Halt> {
        let ticket = self.take(name, label)?;
        let member = self.members.get_mut(name).unwrap();
        let length = member.station.seal(ticket, mode, clear, message, out)?;
        Ok(Answer::Sealed { length })
    }

    fn open(&mut self, name: &str, frame: &[u8], out: &mut [u8]) -> Result<Answer, Halt> {
        let member = self.members.get_mut(name).ok_or(Reason::UnknownStation)?;
        let Opened { length, number } = member.station.open(frame, out)?;
        Ok(Answer::Opened { length, number })
    }

    fn state(&self, name: &str) -> Result<StateLine, Halt> {
        let Member { station, .. } = self.members.get(name).ok_or(Reason::UnknownStation)?;
        Ok(StateLine {
            next: station.next(),
            out: OrDash(station.out()),
            highest: station.highest(),
            reserved: station.reserved(),
            sealed: station.sealed(),
            written_off: station.written_off(),
        })
    }

    // Makes one call. An output buffer is printed for a refused call too.
    pub fn call(&mut self, heap: Global, call: &Call<'_>) -> Result<Reply, Unread> {
        match call {
            Call::Station {
                name,
                own,
                peer,
                start,
                floor,
            } => Reply::new(heap, self.station(heap, name, *own, *peer, *start, *floor)),
            Call::Reserve { name, ticket } => Reply::new(heap, self.reserve(heap, name, ticket)),
            Call::GiveUp { name, ticket } => Reply::new(heap, self.give_up(name, ticket)),
            Call::Seal {
                name,
                ticket,
                mode,
                clear,
                message,
                space,
            } => {
                let mut out = self.room(heap, name, *space)?;
                let answer = self.seal(
                    name,
                    ticket,
                    *mode,
                    clear.as_slice(),
                    message.as_slice(),
                    out.as_mut_slice(),
                );
                Reply::new(heap, answer)?.with_output(heap, out.as_slice())
            }
            Call::Open { name, frame, space } => {
                let mut out = self.room(heap, name, *space)?;
                let answer = self.open(name, frame.as_slice(), out.as_mut_slice());
                Reply::new(heap, answer)?.with_output(heap, out.as_slice())
            }
            Call::Parts { frame } => Reply::new(heap, parts(frame.as_slice())),
            Call::State { name } => Reply::new(heap, self.state(name)),
        }
    }

    // Ends every station, each taken out as a ticket is above.
    pub fn end(self) {
        let Stations {
            cipher: _cipher,
            masking: _masking,
            mut members,
        } = self;
        while let Some((_name, member)) = members.pop_first() {
            member.end();
        }
        members.destroy_empty();
    }
}
