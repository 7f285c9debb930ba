// Samples of 256 dumps in a chain, and in a star.
use compare::report;
use reclaims::collects_in;
use reclaims::many::{mark_all, stays};
use std::{array, io};
use stores::patterns::{chain, chain_down, chain_unwanted, star, star_of_evens};

// 256 dumps in a chain.
fn chain_wanted() -> bool {
    let mut store: [u8; 3072] = array::from_fn(chain);
    stays(&mut store)
}

// 128 to 255, which stand behind, are unwanted.
fn upper_half() -> bool {
    let mut store: [u8; 3072] = array::from_fn(chain);
    let kept: [u8; 1536] = array::from_fn(chain);
    mark_all(&mut store, 128..256) && collects_in(&mut store, &kept)
}

// 128 to 255, which stand in front, are unwanted.
fn upper_half_in_front() -> bool {
    let mut store: [u8; 3072] = array::from_fn(|index| chain_down(255, index));
    let kept: [u8; 1536] = array::from_fn(|index| chain_down(127, index));
    mark_all(&mut store, 128..256) && collects_in(&mut store, &kept)
}

// 0 to 254 are unwanted, and 255 rests on them all.
fn last_wanted() -> bool {
    let mut store: [u8; 3072] = array::from_fn(chain);
    let kept: [u8; 3072] = array::from_fn(|index| chain_unwanted(255, index));
    mark_all(&mut store, 0..255) && collects_in(&mut store, &kept)
}

// All are unwanted.
fn chain_none_wanted() -> bool {
    let mut store: [u8; 3072] = array::from_fn(|index| chain_down(255, index));
    mark_all(&mut store, 0..256) && collects_in(&mut store, b"")
}

// Writes a line for each sample of 256 dumps in a chain.
pub(crate) fn report_chains(rt: &impl Print) -> io::Result<()> {
    report(rt, b"a chain of 256, all wanted", chain_wanted())?;
    report(rt, b"a chain of 256, half wanted", upper_half())?;
    report(
        rt,
        b"a chain of 256 from the last down, half wanted",
        upper_half_in_front(),
    )?;
    report(rt, b"a chain of 256, the last alone wanted", last_wanted())?;
    report(rt, b"a chain of 256, none wanted", chain_none_wanted())
}

// 255 deltas of 0.
fn star_wanted() -> bool {
    let mut store: [u8; 1280] = array::from_fn(star);
    stays(&mut store)
}

// The odd ones are unwanted.
fn star_half() -> bool {
    let mut store: [u8; 1280] = array::from_fn(star);
    let kept: [u8; 640] = array::from_fn(star_of_evens);
    mark_all(&mut store, (1..256).step_by(2)) && collects_in(&mut store, &kept)
}

// The odd ones are unwanted, and so is 0, on which all others rest.
fn star_half_without_base() -> bool {
    let mut store: [u8; 1280] = array::from_fn(star);
    let mut kept: [u8; 640] = array::from_fn(star_of_evens);
    kept[0] = 0x11;
    mark_all(&mut store, (1..256).step_by(2))
        && mark_all(&mut store, 0..1)
        && collects_in(&mut store, &kept)
}

// The deltas are unwanted.
fn star_base_wanted() -> bool {
    let mut store: [u8; 1280] = array::from_fn(star);
    mark_all(&mut store, 1..256) && collects_in(&mut store, b"\x01\x00\x00\x00\x00")
}

// Writes a line for each sample of 256 dumps in a star.
pub(crate) fn report_stars(rt: &impl Print) -> io::Result<()> {
    report(rt, b"a star of 256, all wanted", star_wanted())?;
    report(rt, b"a star of 256, half wanted", star_half())?;
    report(
        rt,
        b"a star of 256, half wanted and its base unwanted",
        star_half_without_base(),
    )?;
    report(
        rt,
        b"a star of 256, its base alone wanted",
        star_base_wanted(),
    )
}
