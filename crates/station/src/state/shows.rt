// What a hub shows or notes of a station and of a ticket; nothing here changes them.
ghost use Rattle.std.specs.Prelude.{◌≡◌};

use super::{Station, Ticket};

impl Ticket {
    // The id of the station that handed it out.
    pub fn id(&self) -> u8
        ensures { result ≡ self.now.id }
    {
        self.id
    }

    // The number that it holds.
    pub fn number(&self) -> u64
        ensures { result ≡ self.now.number }
    {
        self.number
    }
}

impl<C, M> Station<C, M> {
    // Its own id.
    pub fn own(&self) -> u8
        ensures { result ≡ self.now.own }
    {
        self.own
    }

    // Its peer's id.
    pub fn peer(&self) -> u8
        ensures { result ≡ self.now.peer.id }
    {
        self.peer.id
    }

    // The number that the next reserve hands out.
    pub fn next(&self) -> u64
        ensures { result ≡ self.now.next }
    {
        self.next
    }

    // The number that is out, if one is.
    pub fn out(&self) -> Option<u64>
        ensures { result ≡ self.now.out }
    {
        self.out
    }

    // The highest number opened, or the floor.
    pub fn highest(&self) -> u64
        ensures { result ≡ self.now.peer.highest }
    {
        self.peer.highest
    }

    // How many numbers were reserved.
    pub fn reserved(&self) -> u64
        ensures { result ≡ self.now.reserved }
    {
        self.reserved
    }

    // How many frames were sealed.
    pub fn sealed(&self) -> u64
        ensures { result ≡ self.now.sealed }
    {
        self.sealed
    }

    // How many numbers were written off.
    pub fn written_off(&self) -> u64
        ensures { result ≡ self.now.written_off }
    {
        self.written_off
    }
}
