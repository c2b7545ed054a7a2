// Each public call once.
use crate::expect::same;
use fib_core_results::{Version, laws};

#[test]
fn versions_and_laws(rt: HostRuntime) {
    let version = Version::settled_at(7);
    same(&rt, (version.settled, version.applied), (7, 7));
    same(&rt, version.encode(), 0x0000_0007_0000_0007);
    same(
        &rt,
        Version::decode(0x0000_0002_0000_0005),
        Version {
            settled: 2,
            applied: 5,
        },
    );
    laws::settled_answers_are_right();
    laws::settled_answers_are_steady();
}
