//! The texts of samples, of which `sample N` prints numbers alone.
use crate::runs::try_bytes;
use px_sample::sample_text;
use std::test::Fail;

/// The sample of one block, and the expression of that of seven.
fn sample_of_one() -> &'static [u8] {
    "pxscene 1\npicture 64 4\ndepth 16\n\
    solid b0 0 100 200\nside 1 0 0\nside -1 0 2\nside 0 1 0\nside 0 -1 2\n\
    front 1 2 100\nback 0 0 1000\n\
    solid cut 255 255 0\nside 1 -1 0\nback 0 0 300\n\
    show (b0 - cut)\nend\n"
        .as_bytes()
}

fn end_of_seven() -> &'static [u8] {
    "show (((b0 + (b1 + b2)) + ((b3 + b4) + (b5 + b6))) - cut)\nend\n".as_bytes()
}

#[test]
fn samples_of_one_and_of_seven(rt: HostRuntime) -> Result<(), Fail> {
    let one = sample_text(rt.alloc(), 1)?;
    try_bytes(&rt, one.as_slice(), sample_of_one());
    let seven = sample_text(rt.alloc(), 7)?;
    assert!(rt; seven.as_slice().ends_with(end_of_seven()));
    Ok(())
}
