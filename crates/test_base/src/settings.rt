// The ends of each range.
use crate::expect::holds;
use fib_core::Settings;

#[test]
fn ranges(rt: HostRuntime) {
    let inside = Settings {
        workers: 1,
        objects: 64,
        walk: 0,
    };
    holds(&rt, inside.is_in_range());
    holds(
        &rt,
        Settings {
            workers: 8,
            objects: 131_072,
            walk: 65_535,
        }
        .is_in_range(),
    );
    holds(
        &rt,
        !Settings {
            workers: 9,
            ..inside
        }
        .is_in_range(),
    );
    holds(
        &rt,
        !Settings {
            objects: 65,
            ..inside
        }
        .is_in_range(),
    );
    holds(
        &rt,
        !Settings {
            walk: 65_536,
            ..inside
        }
        .is_in_range(),
    );
}
