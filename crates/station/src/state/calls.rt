// The making of a station and the four calls on it.
ghost use Rattle.std.specs.Prelude.{◌≡◌, true, is_some};
ghost use Rattle.mode.specs.Pairs.{maps};
ghost use Rattle.station.specs.Events.{Reserve, GiveUp, Seal, Open};
ghost use Rattle.station.specs.Ends.{is_sealed};
ghost use Rattle.station.specs.Steps.{Step, Founds, Spends, Settles, FitGives};
ghost use Rattle.station.specs.Laws.{Lasts};

use super::{End, Opened, Peer, Station, Ticket};
use crate::fault::StationFault;
use cipher::Cipher;
use frame::FrameParts;
use masking::Masking;
use mode::Pair;

// The last frame number, 2^48 - 1.
const LAST: u64 = 281_474_976_710_655;

impl<C: Cipher, M: Masking> Station<C, M> {
    // A station over a cipher and a masking, with its own id, its peer's, the first number that it hands out, and the floor above which it opens.
    // Whatever list of calls is then made on it keeps the laws. No struct holds the four numbers, since they part here at once.
    pub fn new(
        pair: Pair<C, M>,
        own: u8,
        peer: u8,
        start: u64,
        floor: u64,
    ) -> Result<Station<C, M>, StationFault>
    where
        C: Drop,
        M: Drop,
        ensures founds { Founds pair own peer start floor result }
        ensures lasts { Lasts (maps C.Cipher M.Masking) pair peer floor result }
    {
        if own == peer {
            return Err(StationFault::SameId);
        }
        if start == 0 || start > LAST || floor > LAST {
            return Err(StationFault::BadNumber);
        }
        Ok(Station {
            pair,
            own,
            peer: Peer {
                id: peer,
                highest: floor,
            },
            next: start,
            out: None,
            reserved: 0,
            sealed: 0,
            written_off: 0,
        })
    }

    // Hands out the next number on a ticket. A number that is still out is written off.
    pub fn reserve(&mut self) -> Result<Ticket, StationFault>
        ensures { Step (maps C.Cipher M.Masking) self.old (Reserve result) self.new }
    {
        if self.next > LAST {
            return Err(StationFault::Exhausted);
        }
        if self.out.is_some() {
            self.written_off += 1;
        }
        let number = self.next;
        self.out = Some(number);
        self.next = number + 1;
        self.reserved += 1;
        Ok(Ticket {
            id: self.own,
            number,
        })
    }

    // Takes a ticket apart: its number, if it is the one that is out here.
    fn spend(&self, ticket: Ticket) -> Result<u64, StationFault>
        ensures { Spends self.now ticket result }
    {
        let Ticket { id, number } = ticket;
        if id != self.own || self.out != Some(number) {
            return Err(StationFault::NotOut);
        }
        Ok(number)
    }

    // Clears out, and counts its number as what became of it.
    fn settle(&mut self, end: End)
        requires { is_some self.old.out ≡ true }
        ensures { Settles self.old (is_sealed end) self.new }
    {
        self.out = None;
        match end {
            End::Sealed => self.sealed += 1,
            End::WrittenOff => self.written_off += 1,
        }
    }

    // Writes off the number of a ticket.
    pub fn give_up(&mut self, ticket: Ticket) -> Result<(), StationFault>
        ensures { Step (maps C.Cipher M.Masking) self.old (GiveUp ticket result) self.new }
    {
        self.spend(ticket)?;
        self.settle(End::WrittenOff);
        Ok(())
    }

    // Seals a message under a ticket's number into a frame at the output's start, and answers its length. The mode is a byte, as in frame::seal.
    pub fn seal(
        &mut self,
        ticket: Ticket,
        mode: u8,
        clear: &[u8],
        message: &[u8],
        out: &mut [u8],
    ) -> Result<usize, StationFault>
        ensures { Step (maps C.Cipher M.Masking) self.old (Seal ticket mode clear.now message.now out.old out.new result) self.new }
    {
        let number = self.spend(ticket)?;
        let answer = frame::seal(&self.pair, self.own, number, mode, clear, message, out);
        let end = if answer.is_ok() {
            End::Sealed
        } else {
            End::WrittenOff
        };
        self.settle(end);
        Ok(answer?)
    }

    // The parts of a frame of the peer with a number above the highest, or why it is not one.
    fn fit<'a>(&self, frame: &'a [u8]) -> Result<FrameParts<'a>, StationFault>
        ensures { FitGives self.now frame.now result }
    {
        let parts = frame::parts(frame)?;
        if parts.sender != self.peer.id {
            return Err(StationFault::UnknownSender);
        }
        if parts.number <= self.peer.highest {
            return Err(StationFault::NotAbove);
        }
        Ok(parts)
    }

    // Opens a frame of the peer, with a number above the highest, into the output's start.
    pub fn open(&mut self, frame: &[u8], out: &mut [u8]) -> Result<Opened, StationFault>
        ensures { Step (maps C.Cipher M.Masking) self.old (Open frame.now out.old out.new result) self.new }
    {
        let parts = self.fit(frame)?;
        let length = parts.open(&self.pair, out)?;
        let number = parts.number;
        self.peer.highest = number;
        Ok(Opened { length, number })
    }
}
