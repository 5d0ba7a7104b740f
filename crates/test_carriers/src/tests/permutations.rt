// Known carriers and words.
use mode_set::{Carriers, Mode2k, Mode8k};
use std::alloc::{AllocError, Global};
use std::process::Abort;
use std::rt::HostRuntime;
use std::test::Fail;
use symbol_interleave::Permutation;

// The words and their carriers, by all calls.
fn are_placed<M: Carriers>(
    rt: &impl Abort,
    alloc: Global,
    known: &[(u32, u32)],
) -> Result<(), AllocError> {
    let permutation = Permutation::<M>::new(alloc)?;
    for (word, place) in known {
        assert!(rt; *word < M::NMAX && *place < M::NMAX);
        let places = [
            permutation.h(*word),
            permutation.target(false, *word),
            permutation.source(true, *word),
        ];
        let words = [
            permutation.source(false, *place),
            permutation.target(true, *place),
        ];
        assert!(rt; places == [*place; 3] && words == [*word; 2], "at {word}");
    }
    Ok(())
}

#[test]
fn head_of_the_permutation(rt: HostRuntime) -> Result<(), Fail> {
    let head_2k = [
        (0, 0),
        (1, 1024),
        (2, 16),
        (3, 1025),
        (4, 128),
        (5, 1056),
        (6, 2),
    ];
    let head_8k = [(0, 0), (1, 4096), (2, 128), (3, 4128), (4, 2048), (5, 4104)];
    are_placed::<Mode2k>(&rt, rt.alloc(), &head_2k)?;
    are_placed::<Mode8k>(&rt, rt.alloc(), &head_8k)?;
    Ok(())
}
