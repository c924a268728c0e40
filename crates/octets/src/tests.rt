// A zero is worked into results of any length, also into one without a byte; each stays as it was.
use crate::work_in;

#[test]
fn worked_into_any_length(rt: HostRuntime) {
    let mut none: [u8; 0] = [];
    work_in(0, &mut none);
    let mut one = [0xa5];
    work_in(0, &mut one);
    assert_eq!(rt; one, [0xa5]);
    let mut more = [0xff, 0, 7];
    work_in(0, &mut more);
    assert_eq!(rt; more, [0xff, 0, 7]);
}
