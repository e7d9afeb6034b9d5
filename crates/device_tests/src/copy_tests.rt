// Copies, orders and counts of the lowest words.
use ck_base::{Bytes, Scope, Steps, Text, clone_items};
use std::test::Fail;

#[test]
fn words_are_copied_and_ordered_and_steps_counted(rt: HostRuntime) -> Result<(), Fail> {
    let alloc = rt.alloc();
    let texts = [Text::from_str(alloc, "né")?, Text::from_str(alloc, "")?];
    assert!(rt; clone_items(alloc, &texts)?.as_slice() == texts.as_slice());
    let front = Bytes::from_slice(alloc, b"n\xc3")?;
    assert!(rt; front < Bytes::from_slice(alloc, b"n\xc3\xa9")?);
    assert!(rt; Scope::Private < Scope::Shared);
    let mut steps = Steps::top();
    for count in 0..3 {
        assert_eq!(rt; steps.count(), count);
        steps.tick();
    }
    Ok(())
}
