use crate::DataLength;
use codes::refusal::Refusal;
use std::test::Fail;

#[test]
fn shortest_and_longest(rt: HostRuntime) -> Result<(), Fail> {
    assert_eq!(rt; DataLength::new(2)?.octets(), 2);
    assert_eq!(rt; DataLength::new(32)?.octets(), 32);
    Ok(())
}

#[test]
fn unlawful_lengths(rt: HostRuntime) {
    for octets in [0usize, 1, 3, 33, 34] {
        assert_eq!(rt; DataLength::new(octets), Err(Refusal::UnlawfulLength));
    }
}
