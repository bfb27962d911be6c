// What is done for opcodes.
use crate::same::{same, same_at};
use ka10_deeds::{Act, act_at};

#[test]
fn acts_of_the_handbook(rt: HostRuntime) {
    for &(op, act) in &[
        (0o000, Act::Illegal),
        (0o037, Act::Local),
        (0o104, Act::Jsys),
        (0o136, Act::Idpb),
        (0o202, Act::Movem),
        (0o237, Act::Divb),
        (0o244, Act::Ashc),
        (0o247, Act::Illegal),
        (0o254, Act::Jrst),
        (0o263, Act::Popj),
        (0o277, Act::Subb),
        (0o313, Act::Camle),
        (0o326, Act::Jumpn),
        (0o367, Act::Sojg),
        (0o436, Act::BooleanMemory),
        (0o571, Act::HalfImmediate),
        (0o667, Act::TestImmediate),
        (0o670, Act::TestMemory),
        (0o777, Act::Illegal),
    ] {
        assert!(rt; op < 512);
        same_at(&rt, op, act_at(op), act);
    }
}

#[test]
fn opcodes_without_an_instruction(rt: HostRuntime) {
    let mut illegal = 0_u16;
    for op in 0..512 {
        if act_at(op) == Act::Illegal {
            illegal = illegal.saturating_add(1);
        }
    }
    same(&rt, illegal, 157);
}
