// The calls on values at the bound, 2^126.
use crate::values::{has_real_text, has_text};
use cyclo24::{Field, K24, Wide, Z24};

const LARGEST: &str = "85070591730234615865843651857942052863";

fn are_wide_sums<F: Field>(half: F) -> bool {
    half.add(half) == Err(Wide) && half.neg().sub(half) == Err(Wide)
}

// The largest value, as a sum.
fn largest() -> Result<K24, Wide> {
    K24::whole(1 << 125).add(K24::whole((1 << 125) - 1))
}

fn largest_of_cyclotomic() -> Result<Z24, Wide> {
    let half = Z24::from_real(K24::whole(1 << 125))?;
    half.add(Z24::from_real(K24::whole((1 << 125) - 1))?)
}

fn are_wide_products() -> bool {
    let root = K24::whole(1 << 63);
    let below = root.mul(K24::whole((1 << 63) - 1));
    root.mul(root) == Err(Wide) && below == Ok(K24::whole((1 << 126) - (1 << 63)))
}

#[test]
fn only_the_bound_is_wide_in_k24(rt: HostRuntime) {
    assert!(rt; are_wide_sums(K24::whole(1 << 125)));
    assert!(rt; are_wide_products());
    assert!(rt; largest() == Ok(K24::whole((1 << 126) - 1)));
    assert!(rt; has_real_text(rt.alloc(), K24::whole((1 << 126) - 1), LARGEST));
}

fn are_parts_at_the_bound() -> Result<bool, Wide> {
    let half = Z24::from_real(K24::whole(1 << 125))?;
    let quarter = Z24::from_real(K24::whole(1 << 123))?;
    Ok(
        are_wide_sums(half)
            && half.real_part() == Err(Wide)
            && quarter.real_part() == Ok(K24::whole(1 << 123)),
    )
}

#[test]
fn only_the_bound_is_wide_in_z24(rt: HostRuntime) {
    assert!(rt; are_parts_at_the_bound() == Ok(true));
    match largest_of_cyclotomic() {
        Ok(sum) => assert!(rt; has_text(rt.alloc(), sum, LARGEST)),
        Err(_) => assert!(rt; false),
    }
}
