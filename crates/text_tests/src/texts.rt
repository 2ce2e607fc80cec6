// Texts that grow, and lists that go in and out of a `Vec`.
use iso_text::{NoMemory, NumList, NumText, Term, Text, Unit};
use std::alloc::Global;
use std::test::Fail;

fn grown(alloc: Global) -> Result<Text, NoMemory> {
    let mut text = Text::new(alloc);
    text.push(b"line ")?;
    text.push_number(0)?;
    text.push(b"")?;
    text.push(b",")?;
    text.push_number(u64::MAX)?;
    Ok(text)
}

#[test]
fn texts_grow(rt: HostRuntime) -> Result<(), Fail> {
    let text = grown(rt.alloc())?;
    assert!(rt; text.as_slice() == b"line 0,18446744073709551615".as_slice());
    Ok(())
}

const TERMS: [Term; 2] = [
    Term {
        num: -3,
        den: 4,
        unit: Unit::R2,
    },
    Term {
        num: 1,
        den: 1,
        unit: Unit::Z(5),
    },
];

fn are_kept(alloc: Global) -> Result<bool, NoMemory> {
    let number = NumText::from_vec(TERMS.to_vec(alloc)?);
    let Ok(numbers) = Vec::from_array(alloc, [number]) else {
        return Err(NoMemory);
    };
    let list = NumList::from_vec(numbers);
    let [number] = list.as_slice() else {
        return Ok(false);
    };
    Ok(number.as_slice() == TERMS.as_slice())
}

#[test]
fn lists_of_numbers(rt: HostRuntime) -> Result<(), Fail> {
    assert!(rt; are_kept(rt.alloc())?);
    Ok(())
}
