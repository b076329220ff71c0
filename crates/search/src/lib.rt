// Owns the search for the oldest unblocked read and write (document 01, "A service slot", rules 2 and 4; `queue` has the definitions).
#![tactic(auto)]

ghost use Rattle.queue.specs.Places.{requests_in, held_of, held_count};
ghost use Rattle.queue.specs.Oldest.{shared_by, ready_of, oldest_of};
ghost use Rattle.std.specs.Prelude.{take, ◌≡◌, ◌≤◌, ◌<◌};

use queue::{Kind, Queue};

// Does one of the first `end` places have the block `wanted`?
#[tactic(auto, using(queue::proofs::Array::request_in_lem, queue::proofs::Walks::shared_step, queue::proofs::Walks::shared_end))]
fn shared(queue: &Queue, end: usize, wanted: u32) -> bool
    requires { end ≤ 8 }
    ensures { result ≡ shared_by wanted (take end (requests_in queue.now.places)) }
{
    for i in 0..end {
        if address::block(queue.address_at(i)) == wanted {
            return true;
        }
    }
    false
}

// Is the request at a place, one of those queued, an unblocked one of this kind?
#[tactic(auto, using(crate::proofs::AtPlace::held_eight, crate::proofs::AtPlace::ready_at))]
fn ready(queue: &Queue, kind: Kind, at: usize) -> bool
    requires { at < held_count queue.now.count }
    ensures { result ≡ ready_of kind (held_of queue.now) at }
{
    queue.kind_at(at) == kind && !shared(queue, at, address::block(queue.address_at(at)))
}

// The place of the oldest unblocked request of a kind (document 01, rules 2 and 4).
#[tactic(auto, using(crate::proofs::AtPlace::held_eight, queue::proofs::Walks::length_held, queue::proofs::Walks::first_step, queue::proofs::Walks::first_end), unfolding(queue::specs::Oldest::oldest_of))]
pub fn oldest(queue: &Queue, kind: Kind) -> Option<u16>
    ensures { result ≡ oldest_of kind (held_of queue.now) }
{
    for i in 0..queue.held() as usize {
        if ready(queue, kind, i) {
            return Some(i as u16);
        }
    }
    None
}
