// The hash of a flow.
ghost use Rattle.std.specs.Prelude.{◌≡◌, fold};
ghost use Rattle.fib_capture.specs.FlowHash.{fnv_step, flow_hash};

use fib_addr::Addr;

/// FNV-1a's offset basis and prime, for 32 bits.
const BASIS: u32 = 2_166_136_261;

const PRIME: u32 = 16_777_619;

/// The hash after further bytes.
fn hash_on(start: u32, bytes: &[u8]) -> u32
    ensures { result ≡ fold fnv_step start bytes.now }
{
    let mut hash = start;
    for byte in bytes {
        hash = (hash ^ u32::from(*byte)).wrapping_mul(PRIME);
    }
    hash
}

/// The hash of a flow: FNV-1a with 32 bits over thirteen bytes, which are the source, the target, the protocol and the two ports,
/// each with its highest byte first.
#[tactic(auto, unfolding(crate::specs::FlowHash::flow_hash))]
pub fn flow_hash(source: Addr, target: Addr, protocol: u8, from_port: u16, to_port: u16) -> u32
    ensures { result ≡ flow_hash source target protocol from_port to_port }
{
    let hash = hash_on(BASIS, &source.0.to_be_bytes());
    let hash = hash_on(hash, &target.0.to_be_bytes());
    let hash = hash_on(hash, &[protocol]);
    let hash = hash_on(hash, &from_port.to_be_bytes());
    hash_on(hash, &to_port.to_be_bytes())
}
