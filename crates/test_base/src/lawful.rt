// The public call once.
use crate::expect::same;
use fib_core_lawful::passes_left;

#[test]
fn passes_that_are_left(rt: HostRuntime) {
    same(&rt, passes_left(0), 9_223_372_036_854_775_807);
    same(&rt, passes_left(6), 9_223_372_036_854_775_804);
}
