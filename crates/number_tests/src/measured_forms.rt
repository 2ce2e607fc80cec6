// Insertions of which `bench/lin_alg.sh` counts the instructions.
use crate::rows::put;
use cyclo24::{Field, K24};
use lin_alg::{Echelon, Grew, LinError};
use std::alloc::Global;
use std::test::Fail;

// Fills a row with small numbers, and gives the number to go on from.
fn fill(row: &mut [K24], seed: u32) -> u32 {
    let mut next = seed;
    for entry in row {
        next = next.wrapping_mul(1_103_515_245).wrapping_add(12_345);
        let n = match (next >> 16) % 6 {
            0 => -1,
            1 => 1,
            _ => 0,
        };
        *entry = K24::ratio(n, 1);
    }
    next
}

// Inserts that many rows of small numbers, and tells whether each grew the form.
fn insertions(alloc: Global, rows: usize, row: &mut [K24]) -> Result<bool, LinError> {
    let mut form = Echelon::new(alloc, row.len());
    form.reserve(rows)?;
    let mut seed = 1;
    for _ in 0..rows {
        seed = fill(row, seed);
        if put(&mut form, row)? != Grew::Yes {
            return Ok(false);
        }
    }
    Ok(true)
}

#[test]
fn of_24_by_24(rt: HostRuntime) {
    let mut row = [K24::zero(); 24];
    assert!(rt; insertions(rt.alloc(), 24, &mut row) == Ok(true));
}

#[test]
fn of_27_by_1152(rt: HostRuntime) -> Result<(), Fail> {
    let mut row = vec![in rt.alloc(); K24::zero(); 1152]?;
    assert!(rt; insertions(rt.alloc(), 27, &mut row) == Ok(true));
    Ok(())
}
