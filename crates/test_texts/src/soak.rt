// Scripts and flows of three seeds, against sums computed outside of this program.
use crate::expect::same;
use fib_addr::Addr;
use fib_capture::Packet;
use fib_soak::{laws, soak_flows, soak_script};
use std::test::Fail;

/// FNV-1a with 32 bits.
fn sum_on(start: u32, bytes: &[u8]) -> u32 {
    bytes.iter().fold(
        start,
        |sum, byte| (sum ^ u32::from(*byte)).wrapping_mul(16_777_619),
    )
}

#[test]
fn scripts_of_three_seeds(rt: HostRuntime) -> Result<(), Fail> {
    laws::script_has_2988_lines();
    laws::script_is_read_back();
    laws::lines_are_changes();
    for (seed, length, sum) in [
        (1, 123_679, 472_771_334),
        (7, 123_638, 1_759_419_548),
        (u32::MAX, 124_083, 1_311_793_323),
    ] {
        let script = soak_script(rt.alloc(), seed)?;
        assert_eq!(rt; script.len(), length, "seed {seed}");
        assert_eq!(rt; sum_on(2_166_136_261, &script), sum, "seed {seed}");
    }
    Ok(())
}

#[test]
fn flows_of_three_seeds(rt: HostRuntime) -> Result<(), Fail> {
    laws::there_are_40000_flows();
    for (seed, sum) in [
        (1, 80_138_736),
        (7, 2_871_816_374),
        (u32::MAX, 3_192_652_211),
    ] {
        let flows = soak_flows(rt.alloc(), seed)?;
        same(&rt, flows.len(), 40_000);
        let mut found = 2_166_136_261;
        for flow in &flows {
            if let Packet::Flow {
                addr: Addr(addr),
                hash,
            } = flow
            {
                found = sum_on(found, &addr.to_be_bytes());
                found = sum_on(found, &hash.to_be_bytes());
            }
        }
        assert_eq!(rt; found, sum, "seed {seed}");
    }
    Ok(())
}
