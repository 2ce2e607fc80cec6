// All that a file says, a line for each of its lines, the line's number first where it is kept.
use crate::numbers::{push_fraction, push_number, push_op, push_whole};
use iso_text::{
    AtomText, AxialText, CellText, Document, Frac, IrrepText, MatText, NoMemory, NumList, OpsText,
    Text, ValueText, VectorText,
};

// A word and a line's number.
fn push_head(text: &mut Text, word: &[u8], line: u32) -> Result<(), NoMemory> {
    text.push(word)?;
    text.push(b" ")?;
    text.push_number(u64::from(line))?;
    text.push(b" ")
}

// The numbers, a blank before each, to the line's end.
fn push_numbers(text: &mut Text, numbers: &NumList) -> Result<(), NoMemory> {
    for number in numbers.as_slice() {
        text.push(b" ")?;
        push_number(text, number.as_slice())?;
    }
    text.push(b"\n")
}

fn push_mat(text: &mut Text, mat: &MatText) -> Result<(), NoMemory> {
    push_head(text, b"mat", mat.line)?;
    push_op(text, mat.op)?;
    push_numbers(text, &mat.entries)
}

fn push_vector(text: &mut Text, vector: &VectorText) -> Result<(), NoMemory> {
    text.push(b"realvector ")?;
    text.push_number(u64::from(vector.line))?;
    push_numbers(text, &vector.numbers)
}

// Three fractions, a blank before each.
fn push_fractions(text: &mut Text, parts: [Frac; 3]) -> Result<(), NoMemory> {
    for part in parts {
        text.push(b" ")?;
        push_fraction(text, part.num, part.den)?;
    }
    Ok(())
}

// Three coordinates, a blank before each.
fn push_places(text: &mut Text, parts: [i64; 3]) -> Result<(), NoMemory> {
    for part in parts {
        text.push(b" ")?;
        push_whole(text, part)?;
    }
    Ok(())
}

fn push_irrep(text: &mut Text, irrep: &IrrepText) -> Result<(), NoMemory> {
    push_head(text, b"irrep", irrep.line)?;
    text.push(irrep.name.as_slice())?;
    text.push(b" ")?;
    text.push_number(u64::from(irrep.size))?;
    text.push(b"\nk")?;
    push_fractions(text, irrep.k)?;
    text.push(b"\n")?;
    for mat in irrep.mats.as_slice() {
        push_mat(text, mat)?;
    }
    match &irrep.vector {
        Some(vector) => push_vector(text, vector),
        None => Ok(()),
    }
}

fn push_irreps(text: &mut Text, irreps: &[IrrepText]) -> Result<(), NoMemory> {
    for irrep in irreps {
        push_irrep(text, irrep)?;
    }
    Ok(())
}

fn push_atom(text: &mut Text, word: &[u8], atom: &AtomText) -> Result<(), NoMemory> {
    push_head(text, word, atom.line)?;
    text.push(atom.label.as_slice())?;
    push_places(text, atom.place)?;
    text.push(b"\n")
}

fn push_atoms(text: &mut Text, word: &[u8], atoms: &[AtomText]) -> Result<(), NoMemory> {
    for atom in atoms {
        push_atom(text, word, atom)?;
    }
    Ok(())
}

fn push_hall(text: &mut Text, document: &Document) -> Result<(), NoMemory> {
    push_head(text, b"hall", document.hall_line())?;
    text.push(document.hall())?;
    text.push(b"\n")
}

fn push_lattice(text: &mut Text, line: u32, generators: &OpsText) -> Result<(), NoMemory> {
    push_head(text, b"lattice", line)?;
    text.push(&[generators.letter])?;
    text.push(b"\n")?;
    for op in generators.ops.as_slice() {
        push_head(text, b"op", op.line)?;
        push_op(text, op.op)?;
        text.push(b"\n")?;
    }
    Ok(())
}

fn push_parent(text: &mut Text, document: &Document) -> Result<(), NoMemory> {
    match document.generators() {
        None => push_hall(text, document),
        Some(generators) => push_lattice(text, document.hall_line(), generators),
    }
}

fn push_cell(text: &mut Text, cell: Option<&CellText>) -> Result<(), NoMemory> {
    let Some(cell) = cell else {
        return Ok(());
    };
    text.push(b"cell ")?;
    text.push_number(u64::from(cell.line))?;
    for row in cell.rows {
        push_fractions(text, row)?;
    }
    push_places(text, cell.origin)?;
    text.push(b"\n")
}

fn push_values(text: &mut Text, values: &[ValueText]) -> Result<(), NoMemory> {
    for value in values {
        push_head(text, b"value", value.line)?;
        text.push(value.label.as_slice())?;
        push_places(text, value.place)?;
        text.push(b" ")?;
        push_whole(text, value.value)?;
        text.push(b"\n")?;
    }
    Ok(())
}

fn push_axials(text: &mut Text, axials: &[AxialText]) -> Result<(), NoMemory> {
    for axial in axials {
        push_head(text, b"axial", axial.line)?;
        text.push(axial.label.as_slice())?;
        push_places(text, axial.place)?;
        push_places(text, axial.value)?;
        text.push(b"\n")?;
    }
    Ok(())
}

fn push_tolerance(text: &mut Text, tolerance: i64) -> Result<(), NoMemory> {
    text.push(b"tolerance ")?;
    push_whole(text, tolerance)?;
    text.push(b"\n")
}

/// The format, the parent and the sections in order.
pub fn push_document(text: &mut Text, document: &Document) -> Result<(), NoMemory> {
    text.push(b"isodist ")?;
    text.push_number(u64::from(document.format()))?;
    text.push(b"\n")?;
    push_parent(text, document)?;
    push_irreps(text, document.irreps())?;
    push_atoms(text, b"atom", document.atoms())?;
    push_tolerance(text, document.tolerance())?;
    push_cell(text, document.cell())?;
    push_atoms(text, b"listed", document.listed())?;
    push_values(text, document.values())?;
    push_axials(text, document.axials())
}
