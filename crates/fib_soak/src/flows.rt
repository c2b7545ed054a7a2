// The generated flows.
ghost use Rattle.std.specs.Prelude.{◌≡◌, ◌++◌, IfOk, OnOk};
ghost use Rattle.fib_soak.specs.Draws.{after_4};
ghost use Rattle.fib_soak.specs.Flows.{flow_at, flows, soak_flows};

use crate::draws::Draws;
use fib_addr::Addr;
use fib_capture::Packet;
use std::alloc::{AllocError, Global};

/// A flow to 100.p.q.r, with a drawn hash.
#[tactic(auto, unfolding(crate::specs::Flows::flow_at))]
fn draw_flow(draws: &mut Draws) -> Packet
    ensures value { result ≡ flow_at draws.old }
    ensures state { draws.new ≡ after_4 draws.old }
{
    let p = draws.draw(8);
    let q = draws.draw(250);
    let r = draws.draw(256);
    let hash = draws.wide();
    let addr = Addr((100 << 24) + (p << 16) + (q << 8) + r);
    Packet::Flow { addr, hash }
}

/// The first `count` flows from a state.
fn flows_from(alloc: Global, state: u64, count: u32) -> Result<Vec<Packet>, AllocError>
    ensures { IfOk result (λ v. v.items ≡ flows count state) }
{
    let mut draws = Draws::from_state(state);
    let mut flows = Vec::new(alloc);
    for _ in 0..count {
        flows.push(draw_flow(&mut draws))?;
    }
    Ok(flows)
}

/// The flows of a seed, 40,000 of them: the generator starts at the seed plus one, and each flow takes four draws, three for the
/// last bytes of its destination and a wide one for its hash.
#[tactic(auto, unfolding(crate::specs::Flows::soak_flows))]
pub fn soak_flows(alloc: Global, seed: u32) -> Result<Vec<Packet>, AllocError>
    ensures { IfOk result (λ v. v.items ≡ soak_flows seed) }
{
    flows_from(alloc, u64::from(seed) + 1, 40_000)
}
