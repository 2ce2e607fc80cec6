// What a file says.
ghost use Rattle.std.specs.Prelude.{◌≡◌, ◌++◌, ◌∷◌, [], OnOk, Some, is_some, unwrap_or, pos};
ghost use Rattle.std.specs.Option.{option_copied};
ghost use Rattle.iso_text.specs.Draft.{counts_of};
ghost use Rattle.iso_text.specs.FileLines.{empty_file};

use crate::NoMemory;
use crate::list::TextList;
use crate::sections::{
    AtomList, AtomText, AxialList, AxialText, CellText, IrrepList, IrrepText, OpsText, ValueList,
    ValueText,
};
use crate::text::Text;
use std::alloc::Global;
use std::marker::Model;

/// What a file says, seen as the record `File` of the specifications.
#[derive(Drop)]
pub struct Document {
    format: u8,
    hall_line: u32,
    hall: Text,
    generators: Option<OpsText>,
    irreps: IrrepList,
    atoms: AtomList,
    tolerance: Option<i64>,
    cell: Option<CellText>,
    listed: AtomList,
    values: ValueList,
    axials: AxialList,
}

impl Model for Document {
    ghost use Rattle.iso_text.specs.FileValue.{File};

    ghost Value = { File };

    ghost view = { λ d. record {
      format = d.format;
      hall_line = d.hall_line;
      hall = d.hall;
      generators = d.generators;
      irreps = d.irreps;
      atoms = d.atoms;
      tolerance = d.tolerance;
      cell = d.cell;
      listed = d.listed;
      values = d.values;
      axials = d.axials;
    } };
}

impl Document {
    // A document of this format, and nothing else. It takes no memory.
    pub(crate) fn empty(alloc: Global, format: u8) -> Self
        ensures { result ≡ empty_file format }
    {
        let hall = Text::new(alloc);
        let irreps = TextList::from_vec(Vec::new(alloc));
        let atoms = TextList::from_vec(Vec::new(alloc));
        let listed = TextList::from_vec(Vec::new(alloc));
        let values = TextList::from_vec(Vec::new(alloc));
        let axials = TextList::from_vec(Vec::new(alloc));
        Document {
            format,
            hall_line: 0,
            hall,
            generators: None,
            irreps,
            atoms,
            tolerance: None,
            cell: None,
            listed,
            values,
            axials,
        }
    }

    // Sets the Hall symbol and the number of its line.
    pub(crate) fn set_hall(&mut self, line: u32, hall: Text)
        ensures { self.new ≡ record self.old { hall_line = line; hall = hall } }
    {
        self.hall_line = line;
        self.hall = hall;
    }

    // Sets the generators and the number of the `lattice` line.
    pub(crate) fn set_generators(&mut self, line: u32, generators: OpsText)
        ensures { self.new ≡ record self.old { hall_line = line; generators = Some generators } }
    {
        self.hall_line = line;
        self.generators = Some(generators);
    }

    // Adds an irrep block.
    pub(crate) fn push_irrep(&mut self, irrep: IrrepText) -> Result<(), NoMemory>
        ensures { OnOk result (self.new ≡ record self.old { irreps = self.old.irreps ++ irrep ∷ [] }) }
    {
        self.irreps.push(irrep)
    }

    // Adds an atom.
    pub(crate) fn push_atom(&mut self, atom: AtomText) -> Result<(), NoMemory>
        ensures { OnOk result (self.new ≡ record self.old { atoms = self.old.atoms ++ atom ∷ [] }) }
    {
        self.atoms.push(atom)
    }

    // Sets the tolerance.
    pub(crate) fn set_tolerance(&mut self, tolerance: i64)
        ensures { self.new ≡ record self.old { tolerance = Some tolerance } }
    {
        self.tolerance = Some(tolerance);
    }

    // Sets the cell of the listed places.
    pub(crate) fn set_cell(&mut self, cell: CellText)
        ensures { self.new ≡ record self.old { cell = Some cell } }
    {
        self.cell = Some(cell);
    }

    // Adds a listed atom.
    pub(crate) fn push_listed(&mut self, atom: AtomText) -> Result<(), NoMemory>
        ensures { OnOk result (self.new ≡ record self.old { listed = self.old.listed ++ atom ∷ [] }) }
    {
        self.listed.push(atom)
    }

    // Adds the amount of an atom.
    pub(crate) fn push_value(&mut self, value: ValueText) -> Result<(), NoMemory>
        ensures { OnOk result (self.new ≡ record self.old { values = self.old.values ++ value ∷ [] }) }
    {
        self.values.push(value)
    }

    // Adds the axial vector of an atom.
    pub(crate) fn push_axial(&mut self, axial: AxialText) -> Result<(), NoMemory>
        ensures { OnOk result (self.new ≡ record self.old { axials = self.old.axials ++ axial ∷ [] }) }
    {
        self.axials.push(axial)
    }

    // How many items each section behind the parent has, in their order.
    pub(crate) fn counts(&self) -> [usize; 7]
        ensures { result ≡ counts_of self.now }
    {
        [
            self.irreps.as_slice().len(),
            self.atoms.as_slice().len(),
            usize::from(self.tolerance.is_some()),
            usize::from(self.cell.is_some()),
            self.listed.as_slice().len(),
            self.values.as_slice().len(),
            self.axials.as_slice().len(),
        ]
    }

    // Whether a tolerance stands there.
    pub(crate) fn has_tolerance(&self) -> bool
        ensures { result ≡ is_some self.now.tolerance }
    {
        self.tolerance.is_some()
    }

    /// The format, 1 or 2.
    pub fn format(&self) -> u8
        ensures { result ≡ self.now.format }
    {
        self.format
    }

    /// The text of the Hall symbol, empty where the parent is given by operations.
    pub fn hall(&self) -> &[u8]
        ensures { result.now ≡ self.now.hall }
    {
        self.hall.as_slice()
    }

    /// The number of the line of the Hall symbol or of the lattice.
    pub fn hall_line(&self) -> u32
        ensures { result ≡ self.now.hall_line }
    {
        self.hall_line
    }

    /// The lattice and the operations that generate the parent; None exactly where the file has a
    /// Hall symbol.
    pub fn generators(&self) -> Option<&OpsText>
        ensures { option_copied result ≡ self.now.generators }
    {
        self.generators.as_ref()
    }

    /// The irrep blocks in order.
    pub fn irreps(&self) -> &[IrrepText]
        ensures { result.now ≡ self.now.irreps }
    {
        self.irreps.as_slice()
    }

    /// The atoms in order.
    pub fn atoms(&self) -> &[AtomText]
        ensures { result.now ≡ self.now.atoms }
    {
        self.atoms.as_slice()
    }

    /// The tolerance in units of 1/12,000,000 of a cell edge, 0 without a tolerance line.
    pub fn tolerance(&self) -> i64
        ensures { result ≡ unwrap_or self.now.tolerance (pos 0) }
    {
        self.tolerance.unwrap_or(0)
    }

    /// The cell of the listed places; None exactly where no `cell` line stands.
    pub fn cell(&self) -> Option<&CellText>
        ensures { option_copied result ≡ self.now.cell }
    {
        self.cell.as_ref()
    }

    /// The listed atoms in order.
    pub fn listed(&self) -> &[AtomText]
        ensures { result.now ≡ self.now.listed }
    {
        self.listed.as_slice()
    }

    /// The amounts of atoms in order.
    pub fn values(&self) -> &[ValueText]
        ensures { result.now ≡ self.now.values }
    {
        self.values.as_slice()
    }

    /// The axial vectors of atoms in order.
    pub fn axials(&self) -> &[AxialText]
        ensures { result.now ≡ self.now.axials }
    {
        self.axials.as_slice()
    }
}
