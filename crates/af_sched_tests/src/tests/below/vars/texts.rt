use crate::tests::texts::are_told;
use af_vars::VariableFault;

const TEXTS: &[(VariableFault, &str)] = &[
    (VariableFault::NoSuchVariable, "no such variable"),
    (VariableFault::Exists, "a variable of that key is there"),
    (VariableFault::Full, "65536 variables are there"),
    (VariableFault::OutOfMemory, "out of memory"),
];

#[test]
fn faults_are_told_in_words(rt: HostRuntime) {
    are_told(&rt, rt.alloc(), TEXTS);
}
