//! A second machine that goes on apart.
ghost use Rattle.std.specs.Prelude.{◌≡◌, ◌≤◌, IfOk, length, vec_len, vec_capacity};

use super::{Machine, OUTPUT_LIMIT};
use rv_memory::store::{Fork, NoMemory};
use std::alloc::AllocError;

impl<S: Fork> Machine<S> {
    /// A second machine of the same state, which may print `out_limit` bytes: no fewer than are printed, and up to
    /// 1,000,000. Its memory is a fork of this one's: pages are shared, each until one of the two writes there, and flat
    /// regions are copied. This one stays as it is, also where memory is refused.
    pub fn share(&mut self, out_limit: u32) -> Result<Machine<S>, NoMemory>
        requires printed { length self.old.state.output ≤ out_limit }
        requires limit { out_limit ≤ OUTPUT_LIMIT }
        ensures same { self.new ≡ self.old }
        ensures equal { IfOk result (λ copy. copy ≡ record { state = self.old.state; limit = out_limit }) }
    {
        let output = with_room(&self.output, out_limit as usize)?;
        let harts = self.harts.clone()?;
        let store = self.store.fork()?;
        Ok(Machine {
            harts,
            store,
            output,
            limit: out_limit,
            reserved: self.reserved,
            noted: self.noted,
        })
    }
}

/// The same bytes, with room for so many in all.
fn with_room(bytes: &Vec<u8>, count: usize) -> Result<Vec<u8>, AllocError>
    requires { vec_len bytes.now ≤ count }
    ensures same { IfOk result (λ copy. copy.items ≡ bytes.now.items) }
    ensures room { IfOk result (λ copy. count ≤ vec_capacity copy) }
{
    let mut copy = bytes.clone()?;
    copy.reserve_exact(count - bytes.len())?;
    Ok(copy)
}
