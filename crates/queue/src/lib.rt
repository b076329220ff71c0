// Owns the queue of accepted requests (document 01, "A service slot"): its types, the code of its places with acceptance and removal, and the definitions
// of these, of blocked requests and of the oldest unblocked read and write, for which `search` looks.
#![tactic(auto)]

ghost use Rattle.config.specs.Accepted.{Shaped};
ghost use Rattle.queue.specs.Places.{cell_for, no_request, data_of, kind_in, request_in, request_at, empty_of, accept_of, shifted_of, remove_of, held_count};
ghost use Rattle.std.specs.Prelude.{◌≡◌, ◌<◌};

use address::Cell;
use config::Geometry;

#[derive(Clone, Copy, PartialEq, Eq)]
pub enum Kind {
    Read,
    Write,
}

// One accepted request: its number and its byte address, of which the cell is made when it is served (`cell`). A read's halfword means nothing.
#[derive(Clone, Copy)]
pub struct Request {
    pub number: u32,
    pub address: u32,
    pub halfword: u16,
    pub kind: Kind,
}

// Oldest first, in eight places. The array has the requests' eight numbers, then their eight addresses, then their eight halfwords, a write's with 65,536
// added. A place from count on has zeros, the blank request. Numbers and no [Request; 8]: `request_in` and `data_of` read them, and an array of requests
// was slower (docs/PERFORMANCE.md). A count beside them, unbounded: a record with more than eight gets number 9 (`sound_of`).
#[derive(Clone, Copy)]
pub struct Queue {
    pub places: [u32; 24],
    pub count: u32,
}

// A request's halfword and kind in one number.
fn data_word(kind: Kind, halfword: u16) -> u32
    ensures { result ≡ data_of kind halfword }
{
    match kind {
        Kind::Read => halfword as u32,
        Kind::Write => 65536 + halfword as u32,
    }
}

// The kind that such a number has.
#[tactic(auto, unfolding(crate::specs::Places::kind_in))]
fn kind_in(word: u32) -> Kind
    ensures { result ≡ kind_in word }
{
    if 65536 <= word {
        return Kind::Write;
    }
    Kind::Read
}

impl Request {
    // What an unused place holds.
    fn blank() -> Request
        ensures { result ≡ no_request }
    {
        Request {
            number: 0,
            address: 0,
            halfword: 0,
            kind: Kind::Read,
        }
    }

    // The cell that it is for.
    pub fn cell(self, g: Geometry) -> Cell
        requires { Shaped g }
        ensures { result ≡ cell_for g self }
    {
        address::cell_of(g, self.address)
    }
}

impl Queue {
    // The empty queue: all places are blank.
    #[tactic(auto, unfolding(crate::specs::Places::empty_of))]
    pub fn empty() -> Queue
        ensures { result ≡ empty_of }
    {
        Queue {
            places: [0; 24],
            count: 0,
        }
    }

    // How many requests are queued: the count, 8 at most, since a record may hold more.
    #[tactic(auto, unfolding(crate::specs::Places::held_count))]
    pub fn held(&self) -> u32
        ensures { result ≡ held_count self.now.count }
    {
        self.count.min(8)
    }

    // The kind of the request at a place.
    #[tactic(auto, unfolding(crate::specs::Places::request_in))]
    pub fn kind_at(&self, at: usize) -> Kind
        requires { at < 8 }
        ensures { result ≡ (request_in self.now.places at).kind }
    {
        kind_in(self.places[16 + at])
    }

    // Its address.
    #[tactic(auto, unfolding(crate::specs::Places::request_in))]
    pub fn address_at(&self, at: usize) -> u32
        requires { at < 8 }
        ensures { result ≡ (request_in self.now.places at).address }
    {
        self.places[8 + at]
    }

    // The request at a place, the blank one where there is no such place.
    #[tactic(auto, unfolding(crate::specs::Places::request_at, crate::specs::Places::request_in))]
    pub fn request_at(&self, at: u16) -> Request
        ensures { result ≡ request_at self.now.places at }
    {
        let i = at as usize;
        if 8 <= i {
            return Request::blank();
        }
        Request {
            number: self.places[i],
            address: self.places[8 + i],
            halfword: (self.places[16 + i] % 65536) as u16,
            kind: kind_in(self.places[16 + i]),
        }
    }

    // The request becomes the youngest; a full queue stays as it was.
    #[tactic(auto, unfolding(crate::specs::Places::accept_of, crate::specs::Places::stored_of))]
    pub fn accept(&mut self, request: Request)
        ensures { self.new ≡ accept_of self.old request }
    {
        // Read once: behind a store to the places the compiler would read it again.
        let count = self.count;
        if 8 <= count {
            return;
        }
        let i = count as usize;
        self.places[i] = request.number;
        self.places[8 + i] = request.address;
        self.places[16 + i] = data_word(request.kind, request.halfword);
        self.count = count + 1;
    }

    // The younger requests than the one at a place move up to it, and the last place becomes blank.
    #[tactic(auto, using(crate::proofs::Shifting::shifting_turn, crate::proofs::Shifting::shifting_end), unfolding(crate::specs::Places::shifted_of))]
    fn shift(&mut self, at: u16)
        ensures { (self.new.places ≡ shifted_of self.old.places at) × (self.new.count ≡ self.old.count) }
    {
        for i in at as usize..7 {
            self.places[i] = self.places[i + 1];
            self.places[8 + i] = self.places[9 + i];
            self.places[16 + i] = self.places[17 + i];
        }
        self.places[7] = 0;
        self.places[15] = 0;
        self.places[23] = 0;
    }

    // The request at a place leaves.
    #[tactic(auto, unfolding(crate::specs::Places::remove_of))]
    pub fn remove(&mut self, at: u16)
        ensures { self.new ≡ remove_of self.old at }
    {
        self.count = self.count.saturating_sub(1);
        self.shift(at);
    }
}
