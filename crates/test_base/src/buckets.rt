use crate::expect::same;
use fib_buckets::share;

/// The first bucket of each path but the first.
#[test]
fn runs_of_weights(rt: HostRuntime) {
    let mut shared = share(&[3, 5]);
    same(
        &rt,
        shared,
        [0, 0, 0, 0, 0, 0, 1, 1, 1, 1, 1, 1, 1, 1, 1, 1],
    );
    shared = share(&[1, 255]);
    same(&rt, shared, [1; 16]);
    shared = share(&[1, 1, 1]);
    same(
        &rt,
        shared,
        [0, 0, 0, 0, 0, 0, 1, 1, 1, 1, 1, 2, 2, 2, 2, 2],
    );
    shared = share(&[7]);
    same(&rt, shared, [0; 16]);
}
