// The group of a Hall symbol.
use hall_symbol::read;
use iso_text::{NoMemory, Text};
use space_ops::{Group, GroupError};
use std::alloc::Global;

fn push_ops(alloc: Global, text: &mut Text, group: &Group) -> Result<(), NoMemory> {
    for i in 0..group.len() {
        text.push(b"  ")?;
        text.push(group.op(i).print(alloc)?.as_slice())?;
        text.push(b"\n")?;
    }
    Ok(())
}

pub fn push_group(alloc: Global, text: &mut Text, symbol: &str) -> Result<(), NoMemory> {
    let Ok(generators) = read(symbol.as_bytes()) else {
        return text.push(b"  bad\n");
    };
    match Group::close(alloc, generators.ops.as_slice(), generators.lattice) {
        Ok(group) => push_ops(alloc, text, &group),
        Err(GroupError::TooManyRotations) => text.push(b"  too many rotations\n"),
        Err(GroupError::ExtraTranslation) => text.push(b"  extra translation\n"),
        Err(GroupError::NoMemory) => Err(NoMemory),
    }
}

// The group of a symbol that has one.
pub fn group_of(alloc: Global, symbol: &str) -> Result<Option<Group>, NoMemory> {
    let Ok(generators) = read(symbol.as_bytes()) else {
        return Ok(None);
    };
    match Group::close(alloc, generators.ops.as_slice(), generators.lattice) {
        Ok(group) => Ok(Some(group)),
        Err(GroupError::NoMemory) => Err(NoMemory),
        Err(_) => Ok(None),
    }
}

pub fn push_lattice(text: &mut Text, symbol: &str, t: [i32; 3]) -> Result<(), NoMemory> {
    match read(symbol.as_bytes()) {
        Ok(generators) if generators.lattice.contains(t) => text.push(b"  yes\n"),
        Ok(_) => text.push(b"  no\n"),
        Err(_) => text.push(b"  bad\n"),
    }
}
